// An index of names: the positions of equally long records in order of their keys, then of their names, then of the positions. Names of one key are sorted by merging, so that
// it takes n log n comparisons of names on all input, and no merge where they are in order.
// For the floors above: hash and hash_names; Records, the records with their keys, whose positions write_order writes in order; NameIndex, which build makes of them, and which answers find and first_repeat.
#![tactic(auto)]

ghost use Rattle.std.specs.Prelude.{◌≡◌, ◌≤◌, ◌∷◌, ◌+◌, ◌*◌, ◌/◌, ◌<◌, ◌++◌, length, get_or, take, drop};
ghost use Rattle.std.specs.Ordering.{is_lt, nat_cmp};
ghost use Rattle.std.specs.Cmp.Lexicographic.{slice_cmp};
ghost use Rattle.names.specs.Lists.{same};
ghost use Rattle.names.specs.Order.{before};
ghost use Rattle.names.specs.Scans.{scan, table};
ghost use Rattle.name_index.specs.Hash.{four_at, mixed, mixed_from, hash_of};
ghost use Rattle.name_index.specs.Index.{name_of, keyed_name, Whole, ordered, is_repeat};

use std::cmp::Ordering;

// Where the name stands in a record, how long a record is, and how long a name is.
#[derive(Clone, Copy)]
pub struct Layout {
    pub first: usize,
    pub stride: usize,
    pub width: usize,
}

// Equally long records, one after the other, and the key of each.
#[derive(Clone, Copy)]
pub struct Records<'a> {
    pub bytes: &'a [u8],
    pub layout: Layout,
    pub keys: &'a [u32],
    pub ghost whole: { Whole bytes.now layout (length keys.now) },
}

// The records, and their positions in order.
#[derive(Clone, Copy)]
pub struct NameIndex<'a> {
    pub records: Records<'a>,
    pub order: &'a [u16],
    pub ghost sorted: { order.now ≡ ordered (keyed_name records.keys.now records.bytes.now records.layout) 0 (length records.keys.now) },
}

// What the low and the high half of a hash's state stay below, and what each is multiplied by.
const HALF: u64 = 4294967296;

const LOW_FACTOR: u64 = 668265263;

const HIGH_FACTOR: u64 = 374761393;

// What a position stays below.
const POSITIONS: u64 = 65536;

// The most positions of one key that are sorted by merging.
const MOST_MERGED: usize = 1536;

// The most positions of one key that the library sorts, which takes so few by insertion.
const MOST_INSERTED: usize = 16;

// The state after eight bytes more.
fn mix(h: u64, eight: &[u8; 8]) -> u64
    ensures { result ≡ mixed h (four_at eight.now 0) (four_at eight.now 4) }
{
    let bits = u64::from_le_bytes(*eight);
    let low = bits % HALF;
    let high = bits / HALF;
    (h % HALF + low) * LOW_FACTOR + (h / HALF + high) * HIGH_FACTOR
}

// The state after the whole eights of a name.
fn mix_eights(f: &[u8]) -> u64
    ensures { result ≡ mixed_from (length f.now / 8) f.now 0 0 }
{
    let (eights, _) = f.as_chunks::<8>();
    let mut h = 0;
    for eight in eights {
        h = mix(h, eight);
    }
    h
}

// The number of a name.
pub fn hash(f: &[u8]) -> u32
    ensures { result ≡ hash_of f.now }
{
    let Some(last) = f.last_chunk::<8>() else {
        return 0;
    };
    (mix(mix_eights(f), last) % HALF) as u32
}

// Writes the number of each record's name, a place for each record.
pub fn hash_names(bytes: &[u8], l: Layout, keys: &mut [u32])
    requires { Whole bytes.now l (length keys.old) }
    ensures { keys.new ≡ table (λ p. hash_of (name_of bytes.now l p)) (length keys.old) }
{
    for (p, key) in keys.iter_mut().enumerate() {
        *key = hash(names::field_at(bytes, p * l.stride + l.first, l.width));
    }
}

impl<'a> Records<'a> {
    ghost use Rattle.std.specs.List.Sorted.{IsPermutation, IsSortedBy};
    ghost use Rattle.name_index.specs.Positions.{count, entry, total_entry, stands};
    ghost use Rattle.name_index.specs.Runs.{key_at, Rises, Run};
    ghost use Rattle.name_index.specs.Merging.{merged, next_right};

    // The key of the record at position p, 0 behind the last.
    fn key(&self, p: usize) -> u32
        ensures { result ≡ get_or self.now.keys.now p 0 }
    {
        if p < self.keys.len() { self.keys[p] } else { 0 }
    }

    // The name of the record at position p, empty behind the last.
    fn name(&self, p: usize) -> &'a [u8]
        ensures { get_or self.now.keys.now p 0 ∷ result.now ≡ total_entry self.now p }
    {
        if p < self.keys.len() {
            names::field_at(
                self.bytes,
                p * self.layout.stride + self.layout.first,
                self.layout.width,
            )
        } else {
            &[]
        }
    }

    // How the record at position p stands to a key and a name: by the keys, or else by the names.
    fn order_at(&self, p: usize, key: u32, name: &[u8]) -> Ordering
        ensures { result ≡ slice_cmp nat_cmp (total_entry self.now p) (key ∷ name.now) }
    {
        let k = self.key(p);
        if k != key {
            return k.cmp(&key);
        }
        names::compare(self.name(p), name)
    }

    // Whether the record at position p, by key and name, comes before a key and a name.
    fn comes_before(&self, p: usize, key: u32, name: &[u8]) -> bool
        ensures { result ≡ before (total_entry self.now p) (key ∷ name.now) }
    {
        self.order_at(p, key, name).is_lt()
    }

    // Whether the record at position p has that key and that name.
    fn is_at(&self, p: usize, key: u32, name: &[u8]) -> bool
        ensures { result ≡ same (total_entry self.now p) (key ∷ name.now) }
    {
        self.order_at(p, key, name).is_eq()
    }

    // Whether the records at positions q and p have one key and one name.
    fn is_twin(&self, q: usize, p: usize) -> bool
        ensures { result ≡ same (total_entry self.now q) (total_entry self.now p) }
    {
        self.is_at(q, self.key(p), self.name(p))
    }

    // The order of two positions: by key, then by name, then by position. No name is cut where the keys decide, which saves two fifths of a sort.
    fn compare(&self, p: usize, q: usize) -> Ordering
        ensures { is_lt result ≡ stands (total_entry self.now) p q }
    {
        let k = self.key(p);
        let m = self.key(q);
        if k != m {
            return k.cmp(&m);
        }
        names::compare(self.name(p), self.name(q)).then(p.cmp(&q))
    }

    // The key and the position of a record as one number.
    fn number(&self, p: u16) -> u64
        ensures { result ≡ get_or self.now.keys.now p 0 * 65536 + p }
    {
        self.key(p as usize) as u64 * POSITIONS + p as u64
    }

    // Where the places end that have the key at place i.
    fn run_end(&self, order: &[u16], i: usize) -> usize
        requires { i < length order.now }
        ensures { Run (key_at self.now) order.now i result }
    {
        let k = self.key(order[i] as usize);
        let more = order[i + 1..]
            .iter()
            .take_while(|p| self.key(**p as usize) == k)
            .count();
        i + 1 + more
    }

    // Whether the next of two runs, from place i of a and from place j of b, is b's.
    fn next_is_right(&self, a: &[u16], i: usize, b: &[u16], j: usize) -> bool
        ensures { result ≡ next_right (stands (total_entry self.now)) (drop i a.now) (drop j b.now) }
    {
        if a.len() <= i {
            return true;
        }
        if b.len() <= j {
            return false;
        }
        self.compare(b[j] as usize, a[i] as usize).is_lt()
    }

    // Writes two runs as one.
    fn merge(&self, a: &[u16], b: &[u16], out: &mut [u16])
        requires { length out.old ≡ length a.now + length b.now }
        ensures { out.new ≡ merged (stands (total_entry self.now)) a.now b.now }
    {
        let mut i = 0;
        for k in 0..out.len() {
            let j = k - i;
            if self.next_is_right(a, i, b, j) {
                out[k] = b[j];
                continue;
            }
            out[k] = a[i];
            i += 1;
        }
    }

    // The two runs that a list is, up to place h and from there on, as one in their place; the spare places are for the work.
    fn merge_halves(&self, run: &mut [u16], h: usize, spare: &mut [u16])
        requires { (h ≤ length run.old) × (length run.old ≤ length spare.old) }
        ensures { run.new ≡ merged (stands (total_entry self.now)) (take h run.old) (drop h run.old) }
    {
        let n = run.len();
        let halves = &run[..];
        self.merge(&halves[..h], &halves[h..], &mut spare[..n]);
        run.copy_from_slice(&spare[..n]);
    }

    // Puts positions in order, half by half, and merges the halves if they are not in order as they stand.
    fn sort_run(&self, run: &mut [u16], spare: &mut [u16])
        ensures moved { IsPermutation run.old run.new }
        ensures sorted { IsSortedBy (stands (total_entry self.now)) run.new }
    {
        let n = run.len();
        if (n <= MOST_INSERTED) | (spare.len() < n) {
            run.sort_unstable_by(|p, q| self.compare(*p as usize, *q as usize));
            return;
        }
        let h = n / 2;
        self.sort_run(&mut run[..h], spare);
        self.sort_run(&mut run[h..], spare);
        if self.compare(run[h] as usize, run[h - 1] as usize).is_lt() {
            self.merge_halves(run, h, spare);
        }
    }

    // Puts positions whose keys are in order in order, by sorting those of each key.
    fn sort_runs(&self, order: &mut [u16])
        requires { Rises (key_at self.now) order.old }
        ensures moved { IsPermutation order.old order.new }
        ensures sorted { IsSortedBy (stands (total_entry self.now)) order.new }
    {
        let mut spare = [0u16; MOST_MERGED];
        let mut i = 0;
        while i < order.len() {
            let j = self.run_end(order, i);
            if i + 1 < j {
                self.sort_run(&mut order[i..j], &mut spare);
            }
            i = j;
        }
    }

    // Writes the positions in order, a place for each: by keys and by themselves first, which looks at no name, then those of one key by names.
    fn sort(&self, order: &mut [u16])
        requires { (length order.old ≡ count self.now) × (length order.old < 65536) }
        ensures { order.new ≡ ordered (entry self.now) 0 (count self.now) }
    {
        for (p, place) in order.iter_mut().enumerate() {
            *place = p as u16;
        }
        order.sort_unstable_by_key(|p| self.number(*p));
        self.sort_runs(order);
    }

    // The same into the first of the places lent; those behind them stay.
    pub fn write_order(&self, order: &mut [u16])
        requires { (count self.now ≤ length order.old) × (count self.now < 65536) }
        ensures { order.new ≡ ordered (entry self.now) 0 (count self.now) ++ drop (count self.now) order.old }
    {
        self.sort(&mut order[..self.keys.len()]);
    }
}

impl<'a> NameIndex<'a> {
    ghost use Rattle.name_index.specs.Positions.{count, entry};

    // The index of the records, in as many of the places lent.
    pub fn build(records: Records<'a>, order: &'a mut [u16]) -> NameIndex<'a>
        requires { (count records ≤ length order.old) × (count records < 65536) }
        ensures { result.records ≡ records.entry }
    {
        records.write_order(order);
        NameIndex {
            records,
            order: &order[..records.keys.len()],
        }
    }

    // The position that a scan of the records gives for a key and a name.
    pub fn find(&self, key: u32, name: &[u8]) -> Option<usize>
        ensures { result ≡ scan (λ p. same (entry self.now.records p) (key ∷ name.now)) (count self.now.records) }
    {
        let records = self.records;
        let at = self
            .order
            .partition_point(|p| records.comes_before(*p as usize, key, name));
        if at < self.order.len() {
            let p = self.order[at] as usize;
            if records.is_at(p, key, name) {
                return Some(p);
            }
        }
        None
    }

    // The first position whose key and name stand at an earlier one too.
    pub fn first_repeat(&self) -> Option<usize>
        ensures { result ≡ scan (is_repeat (entry self.now.records)) (count self.now.records) }
    {
        let records = self.records;
        let mut first: Option<usize> = None;
        for pair in self.order.windows(2) {
            let q = pair[0] as usize;
            let p = pair[1] as usize;
            if first.is_none_or(|b| p < b) && records.is_twin(q, p) {
                first = Some(p);
            }
        }
        first
    }
}
