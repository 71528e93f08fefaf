// The index of a recipe's records by their names, and row 4.
// For the floors above: RecordIndex, which `of` makes in lent Tables, and which answers first_repeated and find; Sought, what is looked up.
#![tactic(auto)]

ghost use Rattle.std.specs.Prelude.{◌≡◌, ◌+◌, ◌*◌, ◌≤◌, ◌<◌, None, length, take};
ghost use Rattle.std.proofs.Props.{props};
ghost use Rattle.names.specs.Lists.{In};
ghost use Rattle.names.specs.Names.{text};
ghost use Rattle.recipe.specs.Records.{recipe, kind_byte, places};
ghost use Rattle.recipe.specs.Reading.{fault₃, fault₄};
ghost use Rattle.shadow.specs.Columns.{Numbered};
ghost use Rattle.record_index.specs.Entries.{space_number, tag_of, key_of, key_at, layout, Entered, record_named, SoughtIn};

use name_index::{Layout, NameIndex, Records};
use recipe::{Kind, Source};

// How many numbers a name has in a key.
const NAME_NUMBERS: u32 = 32768;

// The name spaces: that of the models; of a definition that of its elements and submodels, that of its ports, that of its replaced-bys by their owners; and that of a record which shares its name with none.
#[derive(Clone, Copy)]
enum Space {
    Models = 0,
    Names = 1,
    Ports = 2,
    ReplacedBys = 3,
    Own = 4,
}

// What is looked up: a record of kind 1 to 4, of a definition unless it is a model, by the name at an offset of the recipe.
#[derive(Clone, Copy)]
pub struct Sought {
    pub kind: Kind,
    pub definition: usize,
    pub name: usize,
}

// The tables that an index is made in, each with room for the most records that a recipe can have: their places, first fields, keys, and their numbers in order.
#[derive(Drop)]
pub struct Tables<'a> {
    pub at: &'a mut [u16],
    pub fields: &'a mut [u8],
    pub keys: &'a mut [u32],
    pub order: &'a mut [u16],
    pub ghost room_at: { 1536 ≤ length at.now },
    pub ghost room_fields: { 16384 ≤ length fields.now },
    pub ghost room_keys: { 1536 ≤ length keys.now },
    pub ghost room_order: { 1536 ≤ length order.now },
}

// The records of a recipe that row 3 does not refuse: their places, and the index of their keys and first fields.
#[derive(Clone, Copy)]
pub struct RecordIndex<'a> {
    pub source: &'a Source<'a>,
    pub at: &'a [u16],
    pub names: NameIndex<'a>,
    pub ghost narrow: { source.now.width ≤ 64 },
    pub ghost short: { length source.now.bytes.now ≤ 16384 },
    pub ghost formed: { fault₃ (recipe source.now) ≡ None } by { Prim.hlevel props },
    pub ghost listed: { at.now ≡ places (recipe source.now) },
    pub ghost layout: { names.records.layout ≡ layout source.now.width },
    pub ghost count: { length names.records.keys.now ≡ length (places (recipe source.now)) },
    pub ghost entered: { Entered (recipe source.now) names.records.bytes.now names.records.keys.now },
}

// The byte of a kind.
fn kind_byte(k: Kind) -> u8
    ensures { result ≡ kind_byte k }
{
    k as u8
}

// The number of a space of the record at p: of a definition, or of a record that has one of its own; that of the models is of main.
fn space_of(p: usize, n: Space) -> u32
    requires { p < 16384 }
    ensures { (result ≡ 8 * p + space_number n) × (result < 131072) }
{
    8 * (p as u32) + n as u32
}

// Where a record of kind k at p, of definition d, has its name.
fn tag(k: u8, p: usize, d: usize) -> u32
    requires { (p < 16384) × (d < 16384) }
    ensures { (result ≡ tag_of k p d) × (result < 131072) }
{
    if k == Kind::Model as u8 {
        return space_of(0, Space::Models);
    }
    if recipe::is_port(k) {
        return space_of(d, Space::Ports);
    }
    if recipe::is_replaced_by(k) {
        return space_of(d, Space::ReplacedBys);
    }
    if (k == Kind::Element as u8) | (k == Kind::Submodel as u8) {
        return space_of(d, Space::Names);
    }
    space_of(p, Space::Own)
}

// The key of a name in a space.
fn key(t: u32, f: &[u8]) -> u32
    requires { t < 131072 }
    ensures { result ≡ key_of t f.now }
{
    t * NAME_NUMBERS + name_index::hash(f) % NAME_NUMBERS
}

// The key of the record at p.
fn key_at(s: &Source, t: &[u16], p: usize) -> u32
    requires { Numbered (recipe s.now) t.now × In p (places (recipe s.now)) }
    ensures { result ≡ key_at (recipe s.now) p }
{
    let d = shadow::cell(t, p, shadow::DEFINITION_OF);
    key(
        tag(s.bytes[p], p, d),
        names::field_at(s.bytes, p + 1, s.width),
    )
}

// Writes the place, the first field and the key of each record, in order, and gives their number.
fn enter_records(s: &Source, t: &[u16], tables: &mut Tables) -> usize
    requires { Numbered (recipe s.now) t.now }
    ensures { (take result tables.new.at.now ≡ places (recipe s.now)) × ((result ≡ length (places (recipe s.now))) × Entered (recipe s.now) tables.new.fields.now tables.new.keys.now) }
{
    let mut i = 0;
    for p in recipe::Records::of(s) {
        tables.at[i] = p as u16;
        names::put_bytes(&s.bytes[p + 1..p + 1 + s.width], tables.fields, i * s.width);
        tables.keys[i] = key_at(s, t, p);
        i += 1;
    }
    i
}

impl<'a> RecordIndex<'a> {
    ghost use Rattle.record_index.specs.Indexed.{recipe_of, field_in};

    // The index of a recipe's records, in the tables lent.
    pub fn of(s: &'a Source<'a>, t: &[u16], mut tables: Tables<'a>) -> RecordIndex<'a>
        requires numbered { Numbered (recipe s.now) t.now }
        requires formed { fault₃ (recipe s.now) ≡ None }
        ensures { recipe_of result ≡ recipe s.now }
    {
        let n = enter_records(s, t, &mut tables);
        let Tables {
            at,
            fields,
            keys,
            order,
        } = tables;
        let records = Records {
            bytes: fields,
            layout: Layout {
                first: 0,
                stride: s.width,
                width: s.width,
            },
            keys: &keys[..n],
        };
        let names = NameIndex::build(records, order);
        RecordIndex {
            source: s,
            at: &at[..n],
            names,
        }
    }

    // The first record to which row 4 applies.
    pub fn first_repeated(&self) -> Option<usize>
        ensures { result ≡ fault₄ (recipe_of self.now) }
    {
        let i = self.names.first_repeat()?;
        Some(self.at[i] as usize)
    }

    // The record sought, of a recipe that row 4 does not refuse.
    pub fn find(&self, q: Sought) -> Option<u16>
        requires once { fault₄ (recipe_of self.now) ≡ None }
        requires sought { SoughtIn (recipe_of self.now) q }
        ensures { result ≡ record_named (recipe_of self.now) (kind_byte q.kind) q.definition (text (field_in self.now q.name)) }
    {
        let f = names::field_at(self.source.bytes, q.name, self.source.width);
        let kind = kind_byte(q.kind);
        let k = key(tag(kind, 0, q.definition), f);
        let i = self.names.find(k, f)?;
        let p = self.at[i];
        if self.source.bytes[p as usize] == kind {
            return Some(p);
        }
        None
    }
}
