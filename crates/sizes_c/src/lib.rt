// The size of a recipe's table as C calls it. Public call, which requires nothing: bandrolt_table_size, with the promise of sizes'.
// A slice is a pointer and a length in C; include/bandrolt.h declares it.
#![tactic(auto)]

ghost use Rattle.std.specs.Prelude.{◌≡◌};
ghost use Rattle.composer.specs.Verdicts.{recipe_of};
ghost use Rattle.sizes.specs.Size.{size};

use sizes::Size;

// 02's size of the table of a recipe of name width 12: what flattening it will write, or the refusal.
#[unsafe(no_mangle)]
pub extern "C" fn bandrolt_table_size(recipe: &[u8]) -> Size
    ensures { result ≡ size (recipe_of recipe.now) }
{
    sizes::bandrolt_table_size(recipe)
}
