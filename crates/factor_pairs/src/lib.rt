// Row 19: the first kind 8 that names no submodel of its definition, or one that has its factors already; and where there is none, each submodel's kind 8.
// For the floors above: pair_factors. It reads the links in the shadow, and fills the cell FACTORS of each submodel.
#![tactic(auto)]

ghost use Rattle.std.specs.Prelude.{◌≡◌, length};
ghost use Rattle.recipe.specs.Records.{recipe};
ghost use Rattle.recipe.specs.Reading.{fault₁₉};
ghost use Rattle.shadow.specs.Columns.{Linked, Paired, Unpaired};

use recipe::{Kind, Records, Source};
use shadow::{FACTORS, SUBMODEL, link, set_cell};

// A second kind 8 is seen at its submodel, so that one look at each record is enough.
pub fn pair_factors(s: &Source, t: &mut [u16]) -> Option<usize>
    requires { Linked (recipe s.now) t.old × Unpaired (recipe s.now) t.old }
    ensures { (result ≡ fault₁₉ (recipe s.now)) × ((result ≡ None → Linked (recipe s.now) t.new × Paired (recipe s.now) t.new) × (length t.new ≡ length t.old)) }
{
    for p in Records::of(s) {
        if s.bytes[p] == Kind::Factors as u8 {
            let Some(m) = link(t, p, SUBMODEL) else {
                return Some(p);
            };
            if link(t, m, FACTORS).is_some() {
                return Some(p);
            }
            set_cell(t, m, FACTORS, p);
        }
    }
    None
}
