// Name fields of any width: a name and zeros behind it, or zeros alone. They are read, compared, copied and cut here, and nowhere else.
// Public calls: read_field, is_name, is_optional, is_blank, is_same, compare, unpadded, Reason::number, judge. None of them requires anything. For the floors above: field_at, put_bytes.
#![tactic(auto)]

ghost use Rattle.std.specs.Prelude.{◌≡◌, [], ◌∷◌, ◌+◌, ◌≤◌, eqb, length};
ghost use Rattle.std.specs.Ordering.{nat_cmp};
ghost use Rattle.std.specs.Cmp.Lexicographic.{slice_cmp};
ghost use Rattle.std.specs.Result.{result_err};
ghost use Rattle.std.proofs.lemmas.List.Edits.{sets};
ghost use Rattle.names.specs.Lists.{same, every, keep_while};
ghost use Rattle.names.specs.Names.{is_first, is_other, is_blank, is_name, is_name_or_blank, text, field_of, field_at};
ghost use Rattle.names.specs.Judging.{row_number, row, judged};

use std::cmp::Ordering;

// Why a recipe, a table or a name is refused: the rows of 01's "Verdicts", and of 02's papers.
#[derive(Clone, Copy)]
pub enum Reason {
    BadLength,
    Unreadable,
    Unformed,
    Repeated,
    Undeclared,
    Cyclic,
    TooLarge,
    Untargeted,
    Conflicting,
    Misclassed,
    Lost,
    Misreferred,
    NoRoom,
    BadTableLength,
    Malformed,
    Duplicate,
    Unlinked,
    Unnamed,
    Misscaled,
    Misfactored,
}

// What a judge answers where a row applies: the row, and the place.
#[derive(Clone, Copy)]
pub struct Refusal {
    pub reason: Reason,
    pub place: usize,
}

// What a field reads as: a name of that length, a blank, or neither.
#[derive(Clone, Copy)]
pub enum Field {
    Name(usize),
    Blank,
    Neither,
}

// The w bytes from `at` on.
pub fn field_at(bytes: &[u8], at: usize, w: usize) -> &[u8]
    requires { at + w ≤ length bytes.now }
    ensures { result.now ≡ field_at w bytes.now at }
{
    let end = at + w;
    &bytes[at..end]
}

fn is_first(b: u8) -> bool
    ensures { result ≡ is_first b }
{
    b.is_ascii_alphabetic() | (b == b'_')
}

fn is_other(b: u8) -> bool
    ensures { result ≡ is_other b }
{
    is_first(b) | b.is_ascii_digit()
}

// Whether eight bytes may stand in a name. Eight tests without a branch are one comparison of a machine word.
fn are_others(eight: &[u8; 8]) -> bool
    ensures { result ≡ every is_other eight.now }
{
    eight.iter().fold(true, |all, &b| all & is_other(b))
}

// How many bytes from the start may stand in a name: in steps of eight, then one by one.
fn others(f: &[u8]) -> usize
    ensures within { result ≤ length f.now }
    ensures run { result ≡ length (keep_while is_other f.now) }
{
    let (eights, _) = f.as_chunks::<8>();
    let n = 8 * eights.iter().take_while(|e| are_others(e)).count();
    n + f[n..].iter().take_while(|&&b| is_other(b)).count()
}

// Whether two fields are the same.
pub fn is_same(a: &[u8], b: &[u8]) -> bool
    ensures { result ≡ same a.now b.now }
{
    a == b
}

// How a stands to b: the first byte in which they differ decides, or the length.
pub fn compare(a: &[u8], b: &[u8]) -> Ordering
    ensures { result ≡ slice_cmp nat_cmp a.now b.now }
{
    a.cmp(b)
}

// Whether eight bytes are zeros, likewise without a branch.
fn are_zeros(eight: &[u8; 8]) -> bool
    ensures { result ≡ every (eqb 0) eight.now }
{
    eight.iter().fold(true, |all, &b| all & (b == 0))
}

// Whether a field is blank: in steps of eight, then byte by byte.
pub fn is_blank(f: &[u8]) -> bool
    ensures { result ≡ is_blank f.now }
{
    let (eights, rest) = f.as_chunks::<8>();
    eights.iter().all(|e| are_zeros(e)) && rest.iter().all(|&b| b == 0)
}

// What a field reads as: a blank is seen first, by eights.
pub fn read_field(f: &[u8]) -> Field
    ensures { result ≡ field_of f.now }
{
    if is_blank(f) {
        return Field::Blank;
    }
    let n = others(f);
    if n == 0 {
        return Field::Neither;
    }
    if !is_blank(&f[n..]) {
        return Field::Neither;
    }
    if is_first(f[0]) {
        return Field::Name(n);
    }
    Field::Neither
}

// Whether a field is a name.
pub fn is_name(f: &[u8]) -> bool
    ensures { result ≡ is_name f.now }
{
    matches!(read_field(f), Field::Name(_))
}

// Whether a field is a name or blank.
pub fn is_optional(f: &[u8]) -> bool
    ensures { result ≡ is_name_or_blank f.now }
{
    let Field::Neither = read_field(f) else {
        return true;
    };
    false
}

// The part of a field before the padding: a part of the caller's bytes, and no copy.
pub fn unpadded(f: &[u8]) -> &[u8]
    ensures { result.now ≡ text f.now }
{
    let n = f.iter().take_while(|&&b| b != 0).count();
    &f[..n]
}

impl Reason {
    // The number of the row.
    pub fn number(self) -> u64
        ensures { result ≡ row_number self }
    {
        match self {
            Reason::BadLength => 1,
            Reason::Unreadable => 2,
            Reason::Unformed => 3,
            Reason::Repeated => 4,
            Reason::Undeclared => 5,
            Reason::Cyclic => 6,
            Reason::TooLarge => 7,
            Reason::Untargeted => 8,
            Reason::Conflicting => 9,
            Reason::Misclassed => 10,
            Reason::Lost => 11,
            Reason::Misreferred => 12,
            Reason::NoRoom => 13,
            Reason::BadTableLength => 14,
            Reason::Malformed => 15,
            Reason::Duplicate => 16,
            Reason::Unlinked => 17,
            Reason::Unnamed => 18,
            Reason::Misscaled => 19,
            Reason::Misfactored => 20,
        }
    }
}

// A row judged: the refusal, where there is a place at which it applies.
pub fn judge(reason: Reason, fault: Option<usize>) -> Result<(), Refusal>
    ensures { result_err result ≡ judged (row reason fault ∷ []) }
{
    match fault {
        Some(place) => Err(Refusal { reason, place }),
        None => Ok(()),
    }
}

// Copies the bytes to the offset `at`.
pub fn put_bytes(bytes: &[u8], out: &mut [u8], at: usize)
    requires { at + length bytes.now ≤ length out.old }
    ensures { out.new ≡ sets out.old at bytes.now }
{
    out[at..at + bytes.len()].copy_from_slice(bytes);
}
