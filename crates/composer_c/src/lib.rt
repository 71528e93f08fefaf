// Flattening as C calls it. Public call, which requires nothing: bandrolt_flatten, with the promise of composer's flatten.
// A slice is a pointer and a length in C; include/bandrolt.h declares it.
#![tactic(auto)]

ghost use Rattle.std.specs.Prelude.{◌≡◌, length};
ghost use Rattle.composer.specs.Verdicts.{recipe_of, verdict, written};

use composer::Answer;

// 01's flattening of a recipe of name width 12: the answer, and the table, as it was on a refusal.
#[unsafe(no_mangle)]
pub extern "C" fn bandrolt_flatten(recipe: &[u8], table: &mut [u8]) -> Answer
    ensures { (result ≡ verdict (recipe_of recipe.now) (length table.old)) × (table.new ≡ written (recipe_of recipe.now) table.old) }
{
    composer::flatten(recipe, table)
}
