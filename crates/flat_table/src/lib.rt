// The flat table and its check: 01's refusals 14 to 17. It stands beneath the composer and knows nothing of recipes.
// Public calls, which require nothing: bandrolt_check_table, exported to C by flat_table_c; is_class, parent_may_be_blank, parent_allowed, reference_may_be_blank
// and reference_allowed, for the floors above.
#![tactic(auto)]

ghost use Rattle.std.specs.Prelude.{◌≡◌, ◌*◌, ◌/◌, ◌≤◌, length, IfOk};
ghost use Rattle.std.specs.Result.{result_err};
ghost use Rattle.names.specs.Judging.{row_number, judged};
ghost use Rattle.name_index.specs.Index.{name_of, Hashed};
ghost use Rattle.flat_table.specs.Classes.{is_class, has_parent, parent_allowed, reference_allowed};
ghost use Rattle.flat_table.specs.Table.{row_kind, row_name, row_parent, row_reference, row_count, row_named, is_malformed_row, is_parent_fault, is_reference_fault};
ghost use Rattle.flat_table.specs.Table.{fault₁₄, fault₁₅, fault₁₆, fault₁₇, table_rows, refusal, verdict_of, table_verdict};
ghost use Rattle.flat_table.specs.Rows.{Fields, RowAt};

use name_index::{Layout, NameIndex, Records};
use names::{Reason, Refusal};

// 01's classes.
#[derive(Clone, Copy)]
pub enum Class {
    Compartment = 1,
    Species = 2,
    Parameter = 3,
    Reaction = 4,
    SpeciesReference = 5,
    RateRule = 6,
    LocalParameter = 7,
}

// What the check answers: 01's number, place and count of records.
#[repr(C)]
#[derive(Clone, Copy)]
pub struct TableAnswer {
    pub number: u64,
    pub place: u64,
    pub count: u64,
}

// A record of a table: its kind byte, and its three fields.
#[derive(Clone, Copy)]
struct Row<'a> {
    class: u8,
    name: &'a [u8],
    parent: &'a [u8],
    reference: &'a [u8],
}

// The records of a table, by their offsets.
#[derive(Clone, Copy)]
struct Rows<'a> {
    bytes: &'a [u8],
    layout: Layout,
    ghost fields: { Fields layout },
    ghost few: { length bytes.now ≤ 1024 * layout.stride },
}

// The same with the index of the names, whose keys are their hashes.
#[derive(Clone, Copy)]
struct IndexedRows<'a> {
    rows: Rows<'a>,
    names: NameIndex<'a>,
    ghost bytes: { names.records.bytes.now ≡ rows.bytes.now },
    ghost layout: { names.records.layout ≡ rows.layout },
    ghost count: { length names.records.keys.now ≡ length rows.bytes.now / rows.layout.stride },
    ghost hashed: { Hashed names.records.keys.now (name_of rows.bytes.now rows.layout) (length names.records.keys.now) },
}

// The most records that a table has.
const MOST_RECORDS: usize = 1024;

pub fn is_class(b: u8) -> bool
    ensures { result ≡ is_class b }
{
    (Class::Compartment as u8 <= b) & (b <= Class::LocalParameter as u8)
}

fn has_parent(c: u8) -> bool
    ensures { result ≡ has_parent c }
{
    (c == Class::SpeciesReference as u8) | (c == Class::LocalParameter as u8)
}

pub fn parent_may_be_blank(c: u8) -> bool
    ensures { result ≡ parent_allowed c None }
{
    !has_parent(c)
}

pub fn parent_allowed(c: u8, k: u8) -> bool
    ensures { result ≡ parent_allowed c (Some k) }
{
    has_parent(c) & (k == Class::Reaction as u8)
}

pub fn reference_may_be_blank(c: u8) -> bool
    ensures { result ≡ reference_allowed c None }
{
    (c == Class::Compartment as u8)
        | (c == Class::Parameter as u8)
        | (c == Class::Reaction as u8)
        | (c == Class::LocalParameter as u8)
}

pub fn reference_allowed(c: u8, k: u8) -> bool
    ensures { result ≡ reference_allowed c (Some k) }
{
    let rule = c == Class::RateRule as u8;
    ((c == Class::Species as u8) | (c == Class::Reaction as u8) | rule)
        & (k == Class::Compartment as u8)
        | ((c == Class::SpeciesReference as u8) | rule) & (k == Class::Species as u8)
        | rule & (k == Class::Parameter as u8)
}

impl<'a> Rows<'a> {
    ghost use Rattle.flat_table.specs.InTable.{in_table};

    // How many there are.
    fn count(&self) -> usize
        ensures number { result ≡ length self.now.bytes.now / self.now.layout.stride }
        ensures few { result ≤ 1024 }
    {
        self.bytes.len() / self.layout.stride
    }

    // The record at the offset.
    fn row(&self, at: usize) -> Row<'a>
        requires { RowAt self.now.bytes.now self.now.layout at }
        ensures class { result.class ≡ in_table row_kind self.now at }
        ensures name { result.name.now ≡ in_table row_name self.now at }
        ensures parent { result.parent.now ≡ in_table row_parent self.now at }
        ensures reference { result.reference.now ≡ in_table row_reference self.now at }
    {
        let w = self.layout.width;
        Row {
            class: self.bytes[at],
            name: names::field_at(self.bytes, at + 1, w),
            parent: names::field_at(self.bytes, at + 1 + w, w),
            reference: names::field_at(self.bytes, at + 1 + w + w, w),
        }
    }

    // Whether 15 applies to the record at the offset.
    fn is_malformed(&self, at: usize) -> bool
        requires { RowAt self.now.bytes.now self.now.layout at }
        ensures { result ≡ in_table is_malformed_row self.now at }
    {
        let row = self.row(at);
        !is_class(row.class)
            | !names::is_name(row.name)
            | !names::is_optional(row.parent)
            | !names::is_optional(row.reference)
    }

    // The first record to which 15 applies.
    fn first_malformed(&self) -> Option<usize>
        ensures { result ≡ in_table fault₁₅ self.now }
    {
        (0..self.count())
            .map(|p| p * self.layout.stride)
            .find(|at| self.is_malformed(*at))
    }

    // The index of their names, by a key and a place for each.
    fn index(self, keys: &'a mut [u32], order: &'a mut [u16]) -> IndexedRows<'a>
        requires keys { length keys.old ≡ length self.bytes.now / self.layout.stride }
        requires order { length order.old ≡ length keys.old }
        ensures { result.rows ≡ self.entry }
    {
        name_index::hash_names(self.bytes, self.layout, keys);
        let records = Records {
            bytes: self.bytes,
            layout: self.layout,
            keys,
        };
        let names = NameIndex::build(records, order);
        IndexedRows { rows: self, names }
    }
}

impl<'a> IndexedRows<'a> {
    ghost use Rattle.flat_table.specs.InTable.{in_table};

    // The first record whose flat name is the field f.
    fn find(&self, f: &[u8]) -> Option<usize>
        ensures { result ≡ in_table row_named self.now.rows f.now }
    {
        let p = self.names.find(name_index::hash(f), f)?;
        Some(p * self.rows.layout.stride)
    }

    // The first record to which 16 applies.
    fn first_repeated(&self) -> Option<usize>
        ensures { result ≡ in_table fault₁₆ self.now.rows }
    {
        let p = self.names.first_repeat()?;
        Some(p * self.rows.layout.stride)
    }

    // Whether 17 applies to the parent of the record at the offset.
    fn parent_fault(&self, at: usize) -> bool
        requires { RowAt self.now.rows.bytes.now self.now.rows.layout at }
        ensures { result ≡ in_table is_parent_fault self.now.rows at }
    {
        let row = self.rows.row(at);
        if names::is_blank(row.parent) {
            return !parent_may_be_blank(row.class);
        }
        let Some(to) = self.find(row.parent) else {
            return true;
        };
        !((to < at) & parent_allowed(row.class, self.rows.bytes[to]))
    }

    // Whether 17 applies to the reference of the record at the offset.
    fn reference_fault(&self, at: usize) -> bool
        requires { RowAt self.now.rows.bytes.now self.now.rows.layout at }
        ensures { result ≡ in_table is_reference_fault self.now.rows at }
    {
        let row = self.rows.row(at);
        if names::is_blank(row.reference) {
            return !reference_may_be_blank(row.class);
        }
        let Some(to) = self.find(row.reference) else {
            return true;
        };
        !reference_allowed(row.class, self.rows.bytes[to])
    }

    // The first record to which 17 applies.
    fn first_unlinked(&self) -> Option<usize>
        ensures { result ≡ in_table fault₁₇ self.now.rows }
    {
        (0..self.rows.count())
            .map(|p| p * self.rows.layout.stride)
            .find(|at| self.parent_fault(*at) | self.reference_fault(*at))
    }
}

impl From<Refusal> for TableAnswer {
    ghost from_gives = { λ r a. a ≡ refusal (row_number r.reason) r.place };

    fn from(r: Refusal) -> TableAnswer {
        TableAnswer {
            number: r.reason.number(),
            place: r.place as u64,
            count: 0,
        }
    }
}

// Whether 14 applies to a table whose records have s bytes.
fn length_fault(table: &[u8], l: Layout) -> Option<usize>
    requires { Fields l }
    ensures { result ≡ fault₁₄ l.width l.stride table.now }
{
    let s = l.stride;
    if table.len() % s != 0 {
        return Some(0);
    }
    if MOST_RECORDS * s < table.len() {
        return Some(0);
    }
    None
}

// 14 to 17 of a table; where none applies, the number of its records.
fn judge_rows(table: &[u8], layout: Layout) -> Result<usize, Refusal>
    requires { Fields layout }
    ensures refused { result_err result ≡ judged (table_rows layout.width layout.stride table.now) }
    ensures passed { IfOk result (λ n. n ≡ row_count layout.width layout.stride table.now) }
{
    names::judge(Reason::BadTableLength, length_fault(table, layout))?;
    let rows = Rows {
        bytes: table,
        layout,
    };
    names::judge(Reason::Malformed, rows.first_malformed())?;
    let n = rows.count();
    let mut keys = [0u32; MOST_RECORDS];
    let mut order = [0u16; MOST_RECORDS];
    let indexed = rows.index(&mut keys[..n], &mut order[..n]);
    names::judge(Reason::Duplicate, indexed.first_repeated())?;
    names::judge(Reason::Unlinked, indexed.first_unlinked())?;
    Ok(n)
}

// The table check, for records of any length and fields of any width.
fn check_table(table: &[u8], l: Layout) -> TableAnswer
    requires { Fields l }
    ensures { result ≡ verdict_of l.width l.stride table.now }
{
    match judge_rows(table, l) {
        Err(refusal) => TableAnswer::from(refusal),
        Ok(n) => TableAnswer {
            number: 0,
            place: 0,
            count: n as u64,
        },
    }
}

// 01's table check of a table of name width 12: its number, its place, and the number of records.
pub fn bandrolt_check_table(table: &[u8]) -> TableAnswer
    ensures { result ≡ table_verdict 12 table.now }
{
    check_table(
        table,
        Layout {
            first: 1,
            stride: 205,
            width: 68,
        },
    )
}
