// Recipes: their records, and the refusals 1 to 3.
// For the floors above: Source, a recipe as it is lent, and its class_at; Kind and Way, and what a kind byte and a way byte are (Kind::of, Way::of); length_fault, first_unreadable and first_unformed (rows 1 to 3), is_readable and read_record;
// Records, the places of the records one after the other; what is asked of a kind byte k: record_length, length_by_kind, is_port, is_deletion, is_replaced_by, is_owned, is_mark, is_pointer, submodel_offset; wide, of a number in a table; MOST_BYTES, of a recipe.
#![tactic(auto)]

ghost use Rattle.std.specs.Prelude.{◌≡◌, true, ℕ, ◌+◌, ◌*◌, ◌<◌, ◌≤◌, length, get_or, is_some};
ghost use Rattle.names.specs.Names.{is_name_or_blank};
ghost use Rattle.recipe.specs.Records.{recipe, IsKind, body_of, names_in, singles_in, is_known, record_length, port_kind, deletion_kind, replaced_by_kind, owned_kind, mark_kind, pointer_kind, submodel_part, part_offset, is_readable, stop, field};
ghost use Rattle.recipe.specs.Reading.{fault₁, fault₂, fault₃};
ghost use Rattle.recipe.specs.Fields.{TargetAt, RecordAt, MarkAt, name_read, target_reading, mark_reading, reading_of};

use names::Field;

// A recipe as it is lent: its bytes, and the width of its name fields.
#[derive(Clone, Copy)]
pub struct Source<'a> {
    pub bytes: &'a [u8],
    pub width: usize,
}

impl<'a> Source<'a> {
    // The class byte of the element at e.
    pub fn class_at(&self, e: usize) -> u8
        requires { e + 1 + self.now.width < length self.now.bytes.now }
        ensures { result ≡ get_or self.now.bytes.now (e + 1 + self.now.width) 0 }
    {
        self.bytes[e + 1 + self.width]
    }
}

// The kinds of records, by their kind bytes.
#[derive(Clone, Copy)]
pub enum Kind {
    Model = 1,
    Element = 2,
    Port = 3,
    Submodel = 4,
    Deletion = 5,
    Replacement = 6,
    ReplacedBy = 7,
    Factors = 8,
}

impl Kind {
    // The kind of a kind byte, if there is one.
    pub fn of(byte: u8) -> Option<Kind>
        ensures { IsKind byte result }
    {
        match byte {
            1 => Some(Kind::Model),
            2 => Some(Kind::Element),
            3 => Some(Kind::Port),
            4 => Some(Kind::Submodel),
            5 => Some(Kind::Deletion),
            6 => Some(Kind::Replacement),
            7 => Some(Kind::ReplacedBy),
            8 => Some(Kind::Factors),
            _ => None,
        }
    }
}

// How a target is named: by element name or by port name, with the offset of that name in the recipe.
#[derive(Clone, Copy)]
pub enum Way {
    ByElement(usize),
    ByPort(usize),
}

impl Way {
    ghost use Rattle.recipe.specs.Fields.{way_read};

    // The way that a way byte b gives, to the target whose name is at `at`; none where b has no meaning.
    pub fn of(b: u8, at: usize) -> Option<Way>
        ensures { result ≡ way_read b at }
    {
        match b {
            0 => Some(Way::ByElement(at)),
            1 => Some(Way::ByPort(at)),
            _ => None,
        }
    }
}

// The fields of an element: their offsets, and the class.
#[derive(Clone, Copy)]
pub struct ElementFields {
    pub name: usize,
    pub class: u8,
    pub parent: usize,
    pub reference: usize,
}

// The fields of a port.
#[derive(Clone, Copy)]
pub struct PortFields {
    pub name: usize,
    pub submodel: usize,
    pub target: Way,
}

// The fields of a submodel.
#[derive(Clone, Copy)]
pub struct SubmodelFields {
    pub name: usize,
    pub model: usize,
}

// The fields of a mark. A deletion's owner is its submodel.
#[derive(Clone, Copy)]
pub struct Mark {
    pub owner: usize,
    pub submodel: usize,
    pub target: Way,
}

// The fields of a kind 8.
#[derive(Clone, Copy)]
pub struct FactorsFields {
    pub submodel: usize,
    pub time: usize,
    pub extent: usize,
}

// A record, by its kind.
#[derive(Clone, Copy)]
pub enum Record {
    Model(usize),
    Element(ElementFields),
    Port(PortFields),
    Submodel(SubmodelFields),
    Deletion(Mark),
    Replacement(Mark),
    ReplacedBy(Mark),
    Factors(FactorsFields),
}

// The most bytes of a recipe.
pub const MOST_BYTES: usize = 16384;

// A number of the tables, as a place or a count.
pub fn wide(x: u16) -> usize
    ensures { (result ≡ x) × (result < 65536) }
{
    x as usize
}

// Whether row 1 refuses the recipe, at its start: it is empty, or over 16,384 bytes.
pub fn length_fault(s: &Source) -> Option<usize>
    ensures { result ≡ fault₁ (recipe s.now) }
{
    if (s.bytes.len() == 0) | (MOST_BYTES < s.bytes.len()) {
        return Some(0);
    }
    None
}

// How many name fields a record of kind k has.
fn name_fields(k: u8) -> usize
    ensures { (result ≡ names_in (body_of k)) × (result ≤ 3) }
{
    match Kind::of(k) {
        Some(Kind::Model) => 1,
        Some(Kind::Submodel | Kind::Deletion) => 2,
        Some(Kind::Element | Kind::Port | Kind::Replacement | Kind::ReplacedBy | Kind::Factors) =>
            3,
        None => 0,
    }
}

// And how many single bytes behind its kind.
fn single_bytes(k: u8) -> usize
    ensures { (result ≡ singles_in (body_of k)) × (result ≤ 1) }
{
    match Kind::of(k) {
        Some(Kind::Element | Kind::Port | Kind::Deletion | Kind::Replacement | Kind::ReplacedBy) =>
            1,
        Some(Kind::Model | Kind::Submodel | Kind::Factors) => 0,
        None => 0,
    }
}

// The bytes of a record of kind k, with its kind byte. A pass that sees each record once takes this: numbers by kind are looked up, where lengths by kind would be jumps that nobody foresees.
pub fn record_length(k: u8, w: usize) -> usize
    requires { w ≤ 65536 }
    ensures { result ≡ record_length w k }
{
    let n = name_fields(k);
    let b = single_bytes(k);
    1 + n * w + b
}

// The same, for a loop that goes over the same records again and again: there the jumps are foreseen, and a look-up would wait for each kind byte. By numbers, since `Kind::of` costs an instruction more a record.
pub fn length_by_kind(k: u8, w: usize) -> usize
    requires { w ≤ 65536 }
    ensures { result ≡ record_length w k }
{
    match k {
        1 => 1 + w,
        2 | 3 | 6 | 7 => 2 + 3 * w,
        4 => 1 + 2 * w,
        5 => 2 + 2 * w,
        8 => 1 + 3 * w,
        _ => 1,
    }
}

// Whether there is a kind k.
fn is_known(k: u8) -> bool
    ensures { result ≡ is_known k }
{
    Kind::of(k).is_some()
}

// A port.
pub fn is_port(k: u8) -> bool
    ensures { result ≡ port_kind k }
{
    k == Kind::Port as u8
}

// A deletion.
pub fn is_deletion(k: u8) -> bool
    ensures { result ≡ deletion_kind k }
{
    k == Kind::Deletion as u8
}

// A replaced-by.
pub fn is_replaced_by(k: u8) -> bool
    ensures { result ≡ replaced_by_kind k }
{
    k == Kind::ReplacedBy as u8
}

// A mark with an owner: a replacement or replaced-by.
pub fn is_owned(k: u8) -> bool
    ensures { result ≡ owned_kind k }
{
    (k == Kind::Replacement as u8) | (k == Kind::ReplacedBy as u8)
}

// A mark.
pub fn is_mark(k: u8) -> bool
    ensures { result ≡ mark_kind k }
{
    (k == Kind::Deletion as u8) | (k == Kind::Replacement as u8) | (k == Kind::ReplacedBy as u8)
}

// A mark or port.
pub fn is_pointer(k: u8) -> bool
    ensures { result ≡ pointer_kind k }
{
    is_mark(k) | is_port(k)
}

// Where the submodel begins in the body of a mark or port.
pub fn submodel_offset(k: u8, w: usize) -> usize
    requires { pointer_kind k ≡ true }
    ensures { result ≡ part_offset w k (submodel_part k) }
{
    if is_deletion(k) {
        return 0;
    }
    w
}

// Whether the record at p is whole, of a known kind, and of kind 1 if it is the first: row 2 does not refuse it.
pub fn is_readable(s: &Source, p: usize) -> bool
    requires { s.now.width ≤ 65536 }
    ensures { result ≡ is_readable (recipe s.now) p }
{
    if p >= s.bytes.len() {
        return false;
    }
    let k = s.bytes[p];
    if !is_known(k) {
        return false;
    }
    let n = record_length(k, s.width);
    if n > s.bytes.len() - p {
        return false;
    }
    if k == Kind::Model as u8 {
        return true;
    }
    p > 0
}

// The places of the records of a recipe, in order, as far as it is readable.
#[derive(Clone, Copy)]
pub struct Records<'a> {
    pub source: &'a Source<'a>,
    pub at: usize,
}

impl<'a> Iterator for Records<'a> {
    type Item = usize;

    ghost use Rattle.recipe.specs.Steps.{StepsTo, StepFits, bytes_left};

    ghost can_next = { StepFits };

    ghost next_gives = { StepsTo };

    ghost remaining = { bytes_left };

    fn next(&mut self) -> Option<usize> {
        let p = self.at;
        let s = self.source;
        if p >= s.bytes.len() {
            return None;
        }
        self.at = p + record_length(s.bytes[p], s.width);
        Some(p)
    }
}

impl<'a> Records<'a> {
    // Those of a recipe, from the first on.
    pub fn of(s: &'a Source<'a>) -> Records<'a>
        ensures { (recipe result.source.now ≡ recipe s.now) × (result.at ≡ 0) }
    {
        Records { source: s, at: 0 }
    }
}

// The first record that row 2 refuses.
pub fn first_unreadable(s: &Source) -> Option<usize>
    requires { s.now.width ≤ 65536 }
    ensures { result ≡ fault₂ (recipe s.now) }
{
    Records::of(&*s).find(|p| !is_readable(&*s, *p))
}

// The name field k bytes into the body of the record at p.
fn field_at<'a>(s: &Source<'a>, p: usize, k: usize) -> &'a [u8]
    requires { p + 1 + k + s.now.width ≤ length s.now.bytes.now }
    ensures { result.now ≡ field (recipe s.now) p k }
{
    names::field_at(s.bytes, p + 1 + k, s.width)
}

// The length of the name in that field, if it reads as one.
fn name_at(s: &Source, p: usize, k: usize) -> Option<usize>
    requires { p + 1 + k + s.now.width ≤ length s.now.bytes.now }
    ensures { result ≡ name_read (field (recipe s.now) p k) }
{
    let Field::Name(n) = names::read_field(field_at(s, p, k)) else {
        return None;
    };
    Some(n)
}

// Whether that field reads as a name or a blank, for `?`.
fn optional_at(s: &Source, p: usize, k: usize) -> Option<()>
    requires { p + 1 + k + s.now.width ≤ length s.now.bytes.now }
    ensures { is_some result ≡ is_name_or_blank (field (recipe s.now) p k) }
{
    names::is_optional(field_at(s, p, k)).then_some(())
}

// The way and the target of the port or mark at p, whose submodel begins k bytes into its body.
fn read_target(s: &Source, p: usize, k: usize) -> Option<Way>
    requires { TargetAt (recipe s.now) p k }
    ensures { result ≡ target_reading (recipe s.now) p }
{
    let at = p + 1 + (k + s.width + 1);
    let way = Way::of(s.bytes[p + 1 + (k + s.width)], at)?;
    name_at(s, p, k + s.width + 1)?;
    Some(way)
}

fn read_model(s: &Source, p: usize) -> Option<Record>
    requires { RecordAt (recipe s.now) p 1 (1 + s.now.width) }
    ensures { result ≡ reading_of (recipe s.now) p }
{
    name_at(s, p, 0)?;
    Some(Record::Model(p + 1))
}

fn read_element(s: &Source, p: usize) -> Option<Record>
    requires { RecordAt (recipe s.now) p 2 (2 + 3 * s.now.width) }
    ensures { result ≡ reading_of (recipe s.now) p }
{
    name_at(s, p, 0)?;
    let class = s.class_at(p);
    if !flat_table::is_class(class) {
        return None;
    }
    optional_at(s, p, s.width + 1)?;
    optional_at(s, p, s.width + (1 + s.width))?;
    Some(Record::Element(ElementFields {
        name: p + 1,
        class: class,
        parent: p + 1 + (s.width + 1),
        reference: p + 1 + (s.width + (1 + s.width)),
    }))
}

fn read_port(s: &Source, p: usize) -> Option<Record>
    requires { RecordAt (recipe s.now) p 3 (2 + 3 * s.now.width) }
    ensures { result ≡ reading_of (recipe s.now) p }
{
    name_at(s, p, 0)?;
    optional_at(s, p, s.width)?;
    let way = read_target(s, p, s.width)?;
    Some(Record::Port(PortFields {
        name: p + 1,
        submodel: p + 1 + s.width,
        target: way,
    }))
}

// A submodel, whose name may not end with an underscore.
fn read_submodel(s: &Source, p: usize) -> Option<Record>
    requires { RecordAt (recipe s.now) p 4 (1 + 2 * s.now.width) }
    ensures { result ≡ reading_of (recipe s.now) p }
{
    let n = name_at(s, p, 0)?;
    if s.bytes[p + n] == b'_' {
        return None;
    }
    name_at(s, p, s.width)?;
    Some(Record::Submodel(SubmodelFields {
        name: p + 1,
        model: p + 1 + s.width,
    }))
}

// The factors of a submodel.
fn read_factors(s: &Source, p: usize) -> Option<Record>
    requires { RecordAt (recipe s.now) p 8 (1 + 3 * s.now.width) }
    ensures { result ≡ reading_of (recipe s.now) p }
{
    name_at(s, p, 0)?;
    optional_at(s, p, s.width)?;
    optional_at(s, p, s.width + s.width)?;
    Some(Record::Factors(FactorsFields {
        submodel: p + 1,
        time: p + 1 + s.width,
        extent: p + 1 + (s.width + s.width),
    }))
}

// The mark at p, whose submodel begins k bytes into its body.
fn read_mark(s: &Source, p: usize, k: usize) -> Option<Mark>
    requires { MarkAt (recipe s.now) p k }
    ensures { result ≡ mark_reading (recipe s.now) p }
{
    name_at(s, p, 0)?;
    name_at(s, p, k)?;
    let way = read_target(s, p, k)?;
    Some(Mark {
        owner: p + 1,
        submodel: p + 1 + k,
        target: way,
    })
}

// The record at p, which row 2 does not refuse.
pub fn read_record(s: &Source, p: usize) -> Option<Record>
    requires { is_readable (recipe s.now) p ≡ true }
    ensures { result ≡ reading_of (recipe s.now) p }
{
    match Kind::of(s.bytes[p])? {
        Kind::Model => read_model(s, p),
        Kind::Element => read_element(s, p),
        Kind::Port => read_port(s, p),
        Kind::Submodel => read_submodel(s, p),
        Kind::Deletion => Some(Record::Deletion(read_mark(s, p, 0)?)),
        Kind::Replacement => Some(Record::Replacement(read_mark(s, p, s.width)?)),
        Kind::ReplacedBy => Some(Record::ReplacedBy(read_mark(s, p, s.width)?)),
        Kind::Factors => read_factors(s, p),
    }
}

// The first record that row 3 refuses.
pub fn first_unformed(s: &Source) -> Option<usize>
    requires { (s.now.width ≤ 65536) × (stop (recipe s.now) ≡ length s.now.bytes.now) }
    ensures { result ≡ fault₃ (recipe s.now) }
{
    for p in Records::of(s) {
        let Some(_) = read_record(s, p) else {
            return Some(p);
        };
    }
    None
}
