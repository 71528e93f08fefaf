// The shadow of a recipe: one lent table for all that is known of its records. Cell k of the record at p is t[p + k]; `specs/Columns.antt` has what each cell means.
// For the floors above: number_at, of any table of numbers; the cells' numbers, cell and set_cell, link and set_link; clear_cells; number_records, which fills the cells 0 to 2; SubmodelsOf, a definition's submodels one after the other.
#![tactic(auto)]

ghost use Rattle.std.specs.Prelude.{◌≡◌, [], ◌∷◌, ◌+◌, ◌<◌, length, get_or, ltb, set, unwrap_or, IfSome};
ghost use Rattle.std.specs.Iterator.{YieldsFirst, item_count};
ghost use Rattle.names.specs.Lists.{In, first};
ghost use Rattle.recipe.specs.Definitions.{definitions, holder, submodels};
ghost use Rattle.recipe.specs.Records.{places, recipe};
ghost use Rattle.shadow.specs.Shadow.{Cell, Kept, Shadowed, linked};
ghost use Rattle.shadow.specs.Columns.{Numbered};
ghost use Rattle.shadow.specs.Submodels.{Standing, Walkable, submodels_left};

use recipe::{Kind, Records, Source};

pub const DEFINITION_OF: usize = 0;

pub const ELEMENT_ORDER: usize = 1;

pub const ELEMENT_COUNT: usize = 2;

pub const PARENT: usize = 3;

pub const OWNER: usize = 3;

pub const MODEL: usize = 3;

pub const TIME_FACTOR: usize = 3;

pub const REFERENCE: usize = 4;

pub const SUBMODEL: usize = 4;

pub const NAMED_RECORD: usize = 5;

pub const EXTENT_FACTOR: usize = 5;

pub const FACTORS: usize = 5;

pub const HEIGHT: usize = 6;

pub const ELEMENT_OFFSET: usize = 7;

pub const FIRST_INSTANCE: usize = 8;

pub const TARGET_NUMBER: usize = 9;

pub const TARGET: usize = 10;

// The number at i of a table of numbers.
pub fn number_at(t: &[u16], i: usize) -> usize
    requires { i < length t.now }
    ensures { result ≡ get_or t.now i 0 }
{
    recipe::wide(t[i])
}

// Cell k of the row at p.
pub fn cell(t: &[u16], p: usize, k: usize) -> usize
    requires { p + k < length t.now }
    ensures { (result ≡ get_or t.now (p + k) 0) × (result < 65536) }
{
    number_at(t, p + k)
}

// What cell k of the row at p names: a record, by its place, or nothing, by 0.
pub fn link(t: &[u16], p: usize, k: usize) -> Option<usize>
    requires { p + k < length t.now }
    ensures { (result ≡ linked (get_or t.now (p + k) 0)) × IfSome result (λ q. q < 65536) }
{
    let q = cell(t, p, k);
    if q == 0 {
        return None;
    }
    Some(q)
}

// Writes x into cell k of the row at p.
pub fn set_cell(t: &mut [u16], p: usize, k: usize, x: usize)
    requires { (p + k < length t.old) × (x < 65536) }
    ensures { t.new ≡ set t.old (p + k) x }
{
    t[p + k] = x as u16;
}

// Writes what cell k of the row at p names: a record, by its place, or nothing, by 0.
pub fn set_link(t: &mut [u16], p: usize, k: usize, to: Option<u16>)
    requires { p + k < length t.old }
    ensures { t.new ≡ set t.old (p + k) (unwrap_or to 0) }
{
    t[p + k] = to.unwrap_or(0);
}

// Clears cell k of each record.
pub fn clear_cells(s: &Source, t: &mut [u16], k: usize)
    requires { Shadowed (recipe s.now) t.old × (k < 13) }
    ensures { Cell (places (recipe s.now)) k (λ p. 0) t.new × Kept (recipe s.now) (k ∷ []) t.old t.new }
{
    for p in Records::of(s) {
        set_cell(t, p, k, 0);
    }
}

// Fills each record's definition, each element's number in its definition, and how many elements each definition has.
pub fn number_records(s: &Source, t: &mut [u16])
    requires { Shadowed (recipe s.now) t.old }
    ensures { Numbered (recipe s.now) t.new × (length t.new ≡ length t.old) }
{
    let mut d = 0;
    for p in Records::of(s) {
        let k = s.bytes[p];
        if k == Kind::Model as u8 {
            d = p;
            set_cell(t, p, DEFINITION_OF, p);
            set_cell(t, p, ELEMENT_COUNT, 0);
        } else if k == Kind::Element as u8 {
            let c = cell(t, d, ELEMENT_COUNT);
            set_cell(t, p, DEFINITION_OF, d);
            set_cell(t, p, ELEMENT_ORDER, c);
            set_cell(t, d, ELEMENT_COUNT, c + 1);
        } else {
            set_cell(t, p, DEFINITION_OF, d);
        }
    }
}

// The first submodel behind the record at p, of the same definition.
fn submodel_behind(s: &Source, p: usize) -> Option<usize>
    requires { Walkable (recipe s.now) × In p (places (recipe s.now)) }
    ensures { result ≡ first (ltb p) (submodels (recipe s.now) (holder (recipe s.now) p)) }
{
    let behind = Records {
        source: s,
        at: p + recipe::length_by_kind(s.bytes[p], s.width),
    };
    for q in behind {
        let k = s.bytes[q];
        if k == Kind::Model as u8 {
            return None;
        }
        if k == Kind::Submodel as u8 {
            return Some(q);
        }
    }
    None
}

// The submodels of a definition, in order: those behind the record at `at`, which is the definition or one of its records.
#[derive(Clone, Copy)]
pub struct SubmodelsOf<'a> {
    pub source: &'a Source<'a>,
    pub at: usize,
}

impl<'a> Iterator for SubmodelsOf<'a> {
    type Item = usize;

    ghost can_next = { Standing };

    ghost next_gives = { YieldsFirst submodels_left };

    ghost remaining = { item_count submodels_left };

    fn next(&mut self) -> Option<usize> {
        self.at = submodel_behind(self.source, self.at)?;
        Some(self.at)
    }
}

impl<'a> SubmodelsOf<'a> {
    // Those of definition d.
    pub fn definition(s: &'a Source<'a>, d: usize) -> SubmodelsOf<'a>
        requires { Walkable (recipe s.now) × In d (definitions (recipe s.now)) }
        ensures { Standing result × (submodels_left result ≡ submodels (recipe s.now) d) }
    {
        SubmodelsOf { source: s, at: d }
    }
}
