// How large the table of a recipe will be, Paper 4 of 02: the survivors, their bytes, and the length of their longest flat name. No table is lent or written.
// Public calls, which require nothing: bandrolt_table_size, exported to C by sizes_c; flattens_as_sized.
#![tactic(auto)]

ghost use Rattle.std.specs.Prelude.{◌≡◌, true};
ghost use Rattle.names.specs.Judging.{row_number};
ghost use Rattle.recipe.specs.Records.{recipe};
ghost use Rattle.composer.specs.Verdicts.{recipe_of, written};
ghost use Rattle.sizes.specs.Size.{sized, size_refused, size};

use compose::{Arrays, Composition};
use composer::{Fates, Site, Survivors};
use flat_names::PrefixLengths;
use names::Refusal;

// What sizing answers: 0, or the number and place of the refusal; the records of the flat table and their bytes, and the bytes of the longest flat name, 0 if nothing survives.
#[repr(C)]
#[derive(Clone, Copy)]
pub struct Size {
    pub number: u64,
    pub place: u64,
    pub count: u64,
    pub bytes: u64,
    pub longest: u64,
}

impl From<Refusal> for Size {
    ghost from_gives = { λ r a. a ≡ size_refused (row_number r.reason) r.place };

    fn from(r: Refusal) -> Size {
        Size {
            number: r.reason.number(),
            place: r.place as u64,
            count: 0,
            bytes: 0,
            longest: 0,
        }
    }
}

// The size of a recipe that no row refuses.
fn size_composed(c: &Composition) -> Size
    ensures { result ≡ sized (recipe c.now.tree.source.now) }
{
    let tree = c.tree;
    let mut lengths = [0u16; flat_names::PREFIX_ROWS];
    let prefixes = PrefixLengths::fill(
        tree.source,
        tree.shadow,
        tree.instances,
        c.size.insts,
        &mut lengths,
    );
    let mut count = 0usize;
    let mut longest = 0usize;
    for e in Survivors::of(&Fates::of(c)) {
        let x = Site::of(c.elements, e);
        longest = longest.max(prefixes.name_length(x.inst, x.place));
        count += 1;
    }
    let row = composer::record_width(tree.source.width);
    Size {
        number: 0,
        place: 0,
        count: count as u64,
        bytes: (count * row) as u64,
        longest: longest as u64,
    }
}

// 02's size of the table of a recipe of name width 12: what flattening it will write, or the refusal.
pub fn bandrolt_table_size(recipe: &[u8]) -> Size
    ensures { result ≡ size (recipe_of recipe.now) }
{
    let mut arrays = Arrays::new();
    match compose::compose(&composer::source(recipe), arrays.rooms()) {
        Err(refusal) => Size::from(refusal),
        Ok(c) => size_composed(&c.with_source(&composer::source(recipe))),
    }
}

// Asks for the size, and where the table has so much room flattens into the part of it that is exactly so long: whether flattening says 0 with that count, which it always does. The table is afterwards as flattening into the whole of it leaves it.
pub fn flattens_as_sized(recipe: &[u8], table: &mut [u8]) -> bool
    ensures { (result ≡ true) × (table.new ≡ written (recipe_of recipe.now) table.old) }
{
    let r = bandrolt_table_size(recipe);
    let n = r.bytes as usize;
    if (r.number != 0) | (table.len() < n) {
        return true;
    }
    let a = composer::flatten(recipe, &mut table[..n]);
    (a.number == 0) & (a.count == r.count)
}
