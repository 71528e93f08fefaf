// Flattening with factors as C calls it. Public call, which requires nothing: bandrolt_flatten_with_factors, with the promise of factors'.
// A slice is a pointer and a length in C; include/bandrolt.h declares it.
#![tactic(auto)]

ghost use Rattle.std.specs.Prelude.{◌≡◌, length};
ghost use Rattle.composer.specs.Verdicts.{recipe_of};
ghost use Rattle.factors.specs.Companion.{factors_verdict, table_after, companion_after};

use factors::FactorsAnswer;

// 02's flattening with factors of a recipe of name width 12: the answer, the flat table as `bandrolt_flatten` writes it, and the companion; on a refusal both outputs as they were.
#[unsafe(no_mangle)]
pub extern "C" fn bandrolt_flatten_with_factors(
    recipe: &[u8],
    table: &mut [u8],
    companion: &mut [u8],
) -> FactorsAnswer
    ensures { (result ≡ factors_verdict (recipe_of recipe.now) (length table.old) (length companion.old)) × ((table.new ≡ table_after (recipe_of recipe.now) table.old (length companion.old)) × (companion.new ≡ companion_after (recipe_of recipe.now) (length table.old) companion.old)) }
{
    factors::bandrolt_flatten_with_factors(recipe, table, companion)
}
