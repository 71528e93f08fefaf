// Flat names: the prefix of each instance, and the flat name of an element, written into a table.
// For the floors above: Prefixes, the table of prefixes, and its put_name; PrefixRooms, its rooms, and the most rows; PrefixLengths, their lengths alone, and its name_length, for who writes no name; put_zeros; name_length, count_underscores, fewest_underscores, for who looks for a prefix and writes none.
// They take the recipe s, of a name width of 12 to 64, its shadow, and the rows of the instances. A count of underscores is a byte wherever it is kept or passed on.
#![tactic(auto)]

ghost use Rattle.std.specs.Prelude.{◌≡◌, ◌+◌, ◌*◌, ◌≤◌, ◌<◌, max, [], ◌++◌, length, get_or, take, drop, replicate};
ghost use Rattle.std.proofs.lemmas.List.Edits.{sets};
ghost use Rattle.names.specs.Lists.{In, padded};
ghost use Rattle.names.specs.Names.{underscore};
ghost use Rattle.flat_table.specs.Table.{flat_width};
ghost use Rattle.recipe.specs.Records.{recipe, name};
ghost use Rattle.recipe.specs.Definitions.{definitions, holder, submodels};
ghost use Rattle.tree.specs.Tree.{instances, node, tree_elements};
ghost use Rattle.tree.specs.Planted.{Planted};
ghost use Rattle.shadow.specs.Columns.{Numbered, Linked};
ghost use Rattle.flat_names.specs.Prefixes.{declared_names, names_around, fewest, prefix, flat_name};
ghost use Rattle.flat_names.specs.Underscores.{run_first, run_behind, last_try, Stem};
ghost use Rattle.flat_names.specs.Rows.{AllLengths, Naming, Prefixed, row_width};

use names::field_at;
use recipe::{Kind, Source};
use shadow::{cell, number_at};

// The most rows, one for each instance, and their bytes, for names of 64 bytes.
pub const PREFIX_ROWS: usize = 64;

pub const PREFIX_BYTES: usize = 16896;

// The rooms of a table of prefixes: the bytes of its rows, and their lengths.
#[derive(Drop)]
pub struct PrefixRooms {
    pub bytes: [u8; PREFIX_BYTES],
    pub lengths: [u16; PREFIX_ROWS],
}

impl PrefixRooms {
    // Rooms with nothing in them.
    pub fn new() -> PrefixRooms
        ensures { (result.bytes ≡ replicate 16896 0) × (result.lengths ≡ replicate 64 0) }
    {
        PrefixRooms {
            bytes: [0; PREFIX_BYTES],
            lengths: [0; PREFIX_ROWS],
        }
    }
}

// The table of prefixes: a row of bytes for each instance of a recipe, and how many of them its prefixes are.
#[derive(Clone, Copy)]
pub struct Prefixes<'a> {
    pub source: &'a Source<'a>,
    pub bytes: &'a [u8],
    pub lengths: &'a [u16],
    pub ghost prefixed: { Prefixed (recipe source.now) bytes.now lengths.now },
}

// The lengths alone, for who writes no name: for each instance of a recipe how many bytes its prefixes are.
#[derive(Clone, Copy)]
pub struct PrefixLengths<'a> {
    pub source: &'a Source<'a>,
    pub lengths: &'a [u16],
    pub ghost measured: { AllLengths (recipe source.now) lengths.now },
}

// The bytes of a row: four prefixes of w + 2.
fn row_width(w: usize) -> usize
    requires { w ≤ 64 }
    ensures { result ≡ row_width w }
{
    4 * w + 8
}

// Writes n zeros from `at` on.
pub fn put_zeros(out: &mut [u8], at: usize, n: usize)
    requires { at + n ≤ length out.old }
    ensures { out.new ≡ sets out.old at (replicate n 0) }
{
    out[at..at + n].fill(0);
}

// How many bytes the name of the record at p has.
pub fn name_length(s: &Source, p: usize) -> usize
    requires { p + 1 + s.now.width ≤ length s.now.bytes.now }
    ensures { result ≡ length (name (recipe s.now) p) }
{
    names::unpadded(field_at(s.bytes, p + 1, s.width)).len()
}

// With how many underscores the bytes of f begin.
pub fn count_underscores(f: &[u8]) -> u8
    requires { length f.now ≤ 64 }
    ensures { result ≡ run_first f.now }
{
    let mut k = 0;
    for b in f {
        if *b != b'_' {
            return k;
        }
        k += 1;
    }
    k
}

// How many underscores follow the name of m, of n bytes, in the name of p, if that begins with it. Its first byte and the one behind are looked at before all.
fn run_behind(s: &Source, p: usize, m: usize, n: usize) -> u8
    requires { (s.now.width ≤ 64) × ((p + 1 + s.now.width < length s.now.bytes.now) × Stem (recipe s.now) m n) }
    ensures { result ≡ run_behind (name (recipe s.now) m) (name (recipe s.now) p) }
{
    let a = p + 1;
    let b = m + 1;
    if (s.bytes[a] != s.bytes[b]) | (s.bytes[a + n] != b'_') {
        return 0;
    }
    if !names::is_same(field_at(s.bytes, a, n), field_at(s.bytes, b, n)) {
        return 0;
    }
    count_underscores(field_at(s.bytes, a + n, s.width - n))
}

// The count u after the names of definition d were looked at: each that has as many underscores behind the name of m, of n bytes, raises it.
fn raise_count(s: &Source, t: &[u16], d: usize, m: usize, n: usize, u: u8) -> u8
    requires { Numbered (recipe s.now) t.now × (In d (definitions (recipe s.now)) × (Stem (recipe s.now) m n × (1 ≤ u))) }
    ensures { result ≡ last_try (name (recipe s.now) m) (declared_names (recipe s.now) d) u }
{
    let mut count = u;
    let mut p = d + recipe::length_by_kind(Kind::Model as u8, s.width);
    while p < s.bytes.len() {
        if cell(t, p, shadow::DEFINITION_OF) != d {
            return count;
        }
        let k = s.bytes[p];
        if (k == Kind::Element as u8) | (k == Kind::Submodel as u8) {
            let run = run_behind(s, p, m, n);
            count = count.max(run + 1);
        }
        p += recipe::length_by_kind(k, s.width);
    }
    count
}

// The underscores of the prefix of the submodel m: two, or what the names of the definition that holds it, and then those of its model, raise them to.
pub fn fewest_underscores(s: &Source, t: &[u16], m: usize) -> u8
    requires { Linked (recipe s.now) t.now × In m (submodels (recipe s.now) (holder (recipe s.now) m)) }
    ensures { result ≡ fewest s.now.width (names_around (recipe s.now) m) (name (recipe s.now) m) }
{
    let n = name_length(s, m);
    let outer = cell(t, m, shadow::DEFINITION_OF);
    let inner = cell(t, m, shadow::MODEL);
    let u = raise_count(s, t, outer, m, n, 2);
    raise_count(s, t, inner, m, n, u)
}

// How many bytes the prefix of the submodel m has.
fn prefix_length(s: &Source, t: &[u16], m: usize) -> usize
    requires { Linked (recipe s.now) t.now × In m (submodels (recipe s.now) (holder (recipe s.now) m)) }
    ensures { result ≡ length (prefix (recipe s.now) m) }
{
    name_length(s, m) + fewest_underscores(s, t, m) as usize
}

// Writes u underscores from `at` on, and answers where they end.
fn put_underscores(out: &mut [u8], at: usize, u: u8) -> usize
    requires { at + u ≤ length out.old }
    ensures { (result ≡ at + u) × (out.new ≡ sets out.old at (replicate u underscore)) }
{
    let end = at + u as usize;
    out[at..end].fill(b'_');
    end
}

// Writes a row to `to`: the l bytes from `from` on, and the prefix of the submodel m. Answers its length.
fn put_row(
    s: &Source,
    t: &[u16],
    m: usize,
    pre: &mut [u8],
    from: usize,
    l: usize,
    to: usize,
) -> usize
    requires { Linked (recipe s.now) t.now × (In m (submodels (recipe s.now) (holder (recipe s.now) m)) × ((from + l ≤ to) × (to + (l + length (prefix (recipe s.now) m)) ≤ length pre.old))) }
    ensures { (result ≡ l + length (prefix (recipe s.now) m)) × (pre.new ≡ sets pre.old to (take l (drop from pre.old) ++ prefix (recipe s.now) m)) }
{
    let n = name_length(s, m);
    let u = fewest_underscores(s, t, m);
    pre.copy_within(from..from + l, to);
    names::put_bytes(field_at(s.bytes, m + 1, n), pre, to + l);
    let end = put_underscores(pre, to + (l + n), u);
    end - to
}

// Fills the rows of the instances, and their lengths: the prefixes of the instance around, and that of its submodel.
fn fill_rows(s: &Source, t: &[u16], inst: &[u16], n: usize, pre: &mut [u8], len: &mut [u16])
    requires { Planted (recipe s.now) t.now inst.now n × ((n * row_width s.now.width ≤ length pre.old) × (n ≤ length len.old)) }
    ensures { Prefixed (recipe s.now) pre.new len.new }
{
    let row = row_width(s.width);
    len[0] = 0;
    for i in 1..n {
        let m = cell(inst, 6 * i, tree::SUBMODEL_RECORD);
        let u = cell(inst, 6 * i, tree::AROUND);
        let l = number_at(len, u);
        let r = put_row(s, t, m, pre, u * row, l, i * row);
        len[i] = r as u16;
    }
}

// Fills the lengths alone: that of the prefixes of the instance around, and more by the prefix of its submodel.
fn fill_lengths(s: &Source, t: &[u16], inst: &[u16], n: usize, len: &mut [u16])
    requires { Planted (recipe s.now) t.now inst.now n × (n ≤ length len.old) }
    ensures { AllLengths (recipe s.now) len.new }
{
    len[0] = 0;
    for i in 1..n {
        let m = cell(inst, 6 * i, tree::SUBMODEL_RECORD);
        let l = number_at(len, cell(inst, 6 * i, tree::AROUND));
        let k = prefix_length(s, t, m);
        len[i] = (l + k) as u16;
    }
}

impl<'a> Prefixes<'a> {
    // That of a recipe of n instances, in the bytes and the lengths that are lent for it.
    pub fn fill(
        s: &'a Source<'a>,
        t: &[u16],
        inst: &[u16],
        n: usize,
        bytes: &'a mut [u8],
        lengths: &'a mut [u16],
    ) -> Prefixes<'a>
        requires { Planted (recipe s.now) t.now inst.now n × ((n * row_width s.now.width ≤ length bytes.old) × (n ≤ length lengths.old)) }
        ensures { recipe result.source.now ≡ recipe s.now }
    {
        fill_rows(s, t, inst, n, bytes, lengths);
        Prefixes {
            source: s,
            bytes,
            lengths,
        }
    }

    // Writes the field of the flat name of the element at q in instance i: its row, its name with the zeros behind it, and zeros.
    pub fn put_name(&self, i: usize, q: usize, out: &mut [u8], at: usize)
        requires { let s = recipe self.now.source.now in Naming s × ((i < length (instances s)) × (In (node (get_or (instances s) i []) q) (tree_elements s) × (at + flat_width s.width ≤ length out.old))) }
        ensures { let s = recipe self.now.source.now in out.new ≡ sets out.old at (padded (flat_width s.width) (flat_name s (node (get_or (instances s) i []) q))) }
    {
        let s = self.source;
        let row = row_width(s.width);
        let l = number_at(self.lengths, i);
        names::put_bytes(field_at(self.bytes, i * row, l), out, at);
        names::put_bytes(field_at(s.bytes, q + 1, s.width), out, at + l);
        put_zeros(out, at + (l + s.width), row - l);
    }
}

impl<'a> PrefixLengths<'a> {
    // Those of a recipe of n instances, in the table that is lent for them.
    pub fn fill(
        s: &'a Source<'a>,
        t: &[u16],
        inst: &[u16],
        n: usize,
        lengths: &'a mut [u16],
    ) -> PrefixLengths<'a>
        requires { Planted (recipe s.now) t.now inst.now n × (n ≤ length lengths.old) }
        ensures { recipe result.source.now ≡ recipe s.now }
    {
        fill_lengths(s, t, inst, n, lengths);
        PrefixLengths { source: s, lengths }
    }

    // How many bytes the flat name of the element at q in instance i has, without the padding: its prefixes, and its name.
    pub fn name_length(&self, i: usize, q: usize) -> usize
        requires { let s = recipe self.now.source.now in Naming s × ((i < length (instances s)) × In (node (get_or (instances s) i []) q) (tree_elements s)) }
        ensures { let s = recipe self.now.source.now in result ≡ length (flat_name s (node (get_or (instances s) i []) q)) }
    {
        number_at(self.lengths, i) + name_length(self.source, q)
    }
}
