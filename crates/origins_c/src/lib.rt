// The walk back as C calls it. Public call, which requires nothing: bandrolt_walk_back, with the promise of origins'.
// A slice is a pointer and a length in C; include/bandrolt.h declares it.
#![tactic(auto)]

ghost use Rattle.std.specs.Prelude.{◌≡◌};
ghost use Rattle.composer.specs.Verdicts.{recipe_of};
ghost use Rattle.origins.specs.Origins.{walk_back};

use origins::Origin;

// 02's walk back, of a recipe of name width 12 and a flat name: where the survivor of that name comes from, or the refusal.
#[unsafe(no_mangle)]
pub extern "C" fn bandrolt_walk_back(recipe: &[u8], name: &[u8]) -> Origin
    ensures { result ≡ walk_back (recipe_of recipe.now) name.now }
{
    origins::bandrolt_walk_back(recipe, name)
}
