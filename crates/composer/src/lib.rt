// Flattening: a recipe's answer, and its flat table, written from the rooms that composing fills.
// Public calls, which require nothing: flatten, exported to C by composer_c as bandrolt_flatten; flatten_and_check. For the floors above: source, field_width, record_width, Fates, Survivors, the survivors one after the other, count_survivors, Site, put_field, Writer, write_table.
#![tactic(auto)]

ghost use Rattle.std.specs.Prelude.{◌≡◌, ◌++◌, ◌+◌, ◌*◌, ◌/◌, ◌<◌, ◌≤◌, length, get_or, drop, MatchOption, [], ◌∷◌};
ghost use Rattle.std.proofs.Props.{props};
ghost use Rattle.std.specs.Iterator.{YieldsFirst, item_count};
ghost use Rattle.std.proofs.lemmas.List.Edits.{sets};
ghost use Rattle.names.specs.Judging.{row_number};
ghost use Rattle.flat_table.specs.Table.{flat_width, flat_length};
ghost use Rattle.recipe.specs.Records.{recipe};
ghost use Rattle.marks.specs.Marks.{survivors};
ghost use Rattle.flat_names.specs.Rows.{Naming};
ghost use Rattle.composer.specs.Flat.{flat_field, flat};
ghost use Rattle.composer.specs.Verdicts.{recipe_of, refused, verdict, written};
ghost use Rattle.compose.specs.Rows.{Unrefused};
ghost use Rattle.composer.specs.Fates.{Fated, Writable};
ghost use Rattle.composer.specs.Surviving.{surviving, survivors_left};
ghost use Rattle.composer.specs.Writing.{row_site, numbered_site, linked_site, site_of, SiteInTree};

use compose::{Arrays, Composition};
use elements::{INSTANCE, RECORD};
use flat_names::{PrefixRooms, Prefixes};
use names::{Reason, Refusal};
use recipe::Source;
use shadow::cell;

// 01's name width.
pub const NAME_WIDTH: usize = 12;

// Flattening's answer: 0, or the number and place of the refusal; the records and bytes written.
#[repr(C)]
#[derive(Clone, Copy)]
pub struct Answer {
    pub number: u64,
    pub place: u64,
    pub count: u64,
    pub bytes: u64,
}

// An element of the tree by the number of its instance and the place of its record.
#[derive(Clone, Copy)]
pub struct Site {
    pub inst: usize,
    pub place: usize,
}

impl Site {
    // Where the element of number e is, by its row.
    pub fn of(el: &[u16], e: usize) -> Site
        requires { 5 * e + 1 < length el.now }
        ensures { (result ≡ row_site el.now e) × ((result.inst < 65536) × (result.place < 65536)) }
    {
        Site {
            inst: cell(el, 5 * e, INSTANCE),
            place: cell(el, 5 * e, RECORD),
        }
    }

    // Where the record that cell k of the row at p names is, in an instance; nowhere where it names none.
    pub fn linked(inst: usize, t: &[u16], p: usize, k: usize) -> Option<Site>
        requires { p + k < length t.now }
        ensures { result ≡ linked_site inst (get_or t.now (p + k) 0) }
    {
        let place = shadow::link(t, p, k)?;
        Some(Site { inst, place })
    }
}

// The elements of the tree as rows, by their numbers, which say whether an element is gone.
#[derive(Clone, Copy)]
pub struct Fates<'a> {
    pub source: &'a Source<'a>,
    pub elements: &'a [u16],
    pub elems: usize,
    pub ghost fated: { Fated (recipe source.now) elements.now elems },
}

impl<'a> Fates<'a> {
    // Those of a recipe that no row refuses.
    pub fn of(c: &Composition<'a>) -> Fates<'a>
        ensures { (recipe result.source.now ≡ recipe c.now.tree.source.now) × ((result.elements.now ≡ c.now.elements.now) × (result.elems ≡ c.now.size.elems)) }
    {
        Fates {
            source: c.tree.source,
            elements: c.elements,
            elems: c.size.elems,
        }
    }
}

// The numbers of the elements that survive, in tree order: those from `at` on, of the elements of these rows.
#[derive(Clone, Copy)]
pub struct Survivors<'a> {
    pub rows: &'a [u16],
    pub at: usize,
}

// The first survivor of the elements from number `at` on.
fn first_survivor(rows: &[u16], at: usize) -> Option<usize>
    ensures { let n = length rows.now / 5 in MatchOption result (surviving rows.now at n ≡ []) (λ e. (e < n) × (surviving rows.now at n ≡ e ∷ surviving rows.now (e + 1) n)) }
{
    (at..rows.len() / 5).find(|&e| !elements::is_gone(rows, e))
}

impl<'a> Iterator for Survivors<'a> {
    type Item = usize;

    ghost next_gives = { YieldsFirst survivors_left };

    ghost remaining = { item_count survivors_left };

    fn next(&mut self) -> Option<usize> {
        let e = first_survivor(self.rows, self.at)?;
        self.at = e + 1;
        Some(e)
    }
}

impl<'a> Survivors<'a> {
    // Those of all elements.
    pub fn of(f: &Fates<'a>) -> Survivors<'a>
        ensures { survivors_left result ≡ surviving f.now.elements.now 0 f.now.elems }
    {
        Survivors {
            rows: &f.elements[..5 * f.elems],
            at: 0,
        }
    }
}

// The bytes of a field of the flat table.
pub fn field_width(w: usize) -> usize
    requires { w ≤ 64 }
    ensures { result ≡ flat_width w }
{
    5 * w + 8
}

// The bytes of its records.
pub fn record_width(w: usize) -> usize
    requires { w ≤ 64 }
    ensures { result ≡ flat_length w }
{
    1 + 3 * field_width(w)
}

// How many of the elements survive.
pub fn count_survivors(f: &Fates) -> usize
    ensures { result ≡ length (survivors (recipe f.now.source.now)) }
{
    Survivors::of(f).count()
}

// Where the end of the chain from the reference of the element of number e is.
fn reference_site(el: &[u16], e: usize) -> Option<Site>
    requires { (e < 1024) × ((5 * e + 4 < length el.now) × (5 * get_or el.now (5 * e + 4) 0 ≤ length el.now)) }
    ensures { result ≡ numbered_site el.now (get_or el.now (5 * e + 4) 0) }
{
    let z = tree::numbered(el, 5 * e, references::REFERENCE_END)?;
    Some(Site::of(el, z))
}

// Writes the field of the flat name of the element at the site, or a blank for none.
pub fn put_field(prefixes: &Prefixes, site: Option<Site>, out: &mut [u8], at: usize)
    requires { let s = recipe prefixes.now.source.now in Naming s × (SiteInTree s site × (at + flat_width s.width ≤ length out.old)) }
    ensures { let s = recipe prefixes.now.source.now in out.new ≡ sets out.old at (flat_field s (site_of s site)) }
{
    match site {
        None => flat_names::put_zeros(out, at, field_width(prefixes.source.width)),
        Some(x) => prefixes.put_name(x.inst, x.place, out, at),
    }
}

// What the flat table is written from: the elements of the tree, the shadow, which has their parents, and the prefixes.
#[derive(Clone, Copy)]
pub struct Writer<'a> {
    pub fates: Fates<'a>,
    pub shadow: &'a [u16],
    pub prefixes: Prefixes<'a>,
    pub ghost writable: { Writable (recipe fates.source.now) shadow.now fates.elements.now },
    pub ghost alike: { recipe prefixes.source.now ≡ recipe fates.source.now } by { Prim.hlevel props },
}

impl<'a> Writer<'a> {
    // That of a recipe that no row refuses, with its prefixes, for which the rooms are lent.
    pub fn of(c: &'a Composition, rooms: &'a mut PrefixRooms) -> Writer<'a>
        ensures { recipe result.fates.source.now ≡ recipe c.now.tree.source.now }
    {
        let tree = c.tree;
        let PrefixRooms {
            bytes: rows,
            lengths,
        } = rooms;
        let prefixes = Prefixes::fill(
            tree.source,
            tree.shadow,
            tree.instances,
            c.size.insts,
            rows,
            lengths,
        );
        Writer {
            fates: Fates::of(c),
            shadow: tree.shadow,
            prefixes,
        }
    }
}

// Writes the flat table: the record of each survivor, in tree order.
pub fn write_table(from: &Writer, out: &mut [u8])
    requires { let s = recipe from.now.fates.source.now in flat_length s.width * length (survivors s) ≤ length out.old }
    ensures { let s = recipe from.now.fates.source.now in out.new ≡ flat s ++ drop (length (flat s)) out.old }
{
    let s = from.fates.source;
    let el = from.fates.elements;
    let f = field_width(s.width);
    let row = record_width(s.width);
    let mut p = 0usize;
    for e in Survivors::of(&from.fates) {
        let own = Site::of(el, e);
        let parent = Site::linked(own.inst, from.shadow, own.place, shadow::PARENT);
        let end = reference_site(el, e);
        out[p] = s.class_at(own.place);
        put_field(&from.prefixes, Some(own), out, p + 1);
        put_field(&from.prefixes, parent, out, p + 1 + f);
        put_field(&from.prefixes, end, out, p + 1 + f + f);
        p += row;
    }
}

impl From<Refusal> for Answer {
    ghost from_gives = { λ r a. a ≡ refused (row_number r.reason) r.place };

    fn from(r: Refusal) -> Answer {
        Answer {
            number: r.reason.number(),
            place: r.place as u64,
            count: 0,
            bytes: 0,
        }
    }
}

// The prefixes of a recipe that no row refuses, and the flat table.
fn write_all(c: &Composition, table: &mut [u8])
    requires { let s = recipe c.now.tree.source.now in flat_length s.width * length (survivors s) ≤ length table.old }
    ensures { let s = recipe c.now.tree.source.now in table.new ≡ flat s ++ drop (length (flat s)) table.old }
{
    let mut rooms = PrefixRooms::new();
    write_table(&Writer::of(c, &mut rooms), table);
}

// Row 13, of a recipe that no other row refuses; where it does not apply, the flat table.
fn flatten_composed(c: &Composition, table: &mut [u8]) -> Answer
    requires { Unrefused (recipe c.now.tree.source.now) }
    ensures { let s = recipe c.now.tree.source.now in (result ≡ verdict s (length table.old)) × (table.new ≡ written s table.old) }
{
    let count = count_survivors(&Fates::of(c));
    let bytes = count * record_width(c.tree.source.width);
    if table.len() < bytes {
        return Answer::from(Refusal {
            reason: Reason::NoRoom,
            place: 0,
        });
    }
    write_all(c, table);
    Answer {
        number: 0,
        place: 0,
        count: count as u64,
        bytes: bytes as u64,
    }
}

// The recipe of name width 12 that these bytes are.
pub fn source(bytes: &[u8]) -> Source
    ensures { recipe result ≡ recipe_of bytes.now }
{
    Source {
        bytes,
        width: NAME_WIDTH,
    }
}

// 01's flattening of a recipe of name width 12: the answer, and the flat table; on a refusal the table as it was.
pub fn flatten(recipe: &[u8], table: &mut [u8]) -> Answer
    ensures { (result ≡ verdict (recipe_of recipe.now) (length table.old)) × (table.new ≡ written (recipe_of recipe.now) table.old) }
{
    let mut arrays = Arrays::new();
    match compose::compose(&source(recipe), arrays.rooms()) {
        Err(refusal) => Answer::from(refusal),
        Ok(c) => flatten_composed(&c.with_source(&source(recipe)), table),
    }
}

// Flattens, and asks the table check about the bytes written, none on a refusal: its own answer, which is always acceptance with the count of flattening.
pub fn flatten_and_check(recipe: &[u8], table: &mut [u8]) -> flat_table::TableAnswer
    ensures { (result ≡ record { number = 0; place = 0; count = (verdict (recipe_of recipe.now) (length table.old)).count }) × (table.new ≡ written (recipe_of recipe.now) table.old) }
{
    let a = flatten(recipe, table);
    let n = a.bytes as usize;
    flat_table::bandrolt_check_table(&table[0..n])
}
