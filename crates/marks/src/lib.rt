// Marks in the tree: which records conflict; the refusal 9.
// For the floors above: first_conflict, owner_order, and the cells that it fills. They take the tree.
#![tactic(auto)]

ghost use Rattle.std.specs.Prelude.{◌≡◌, true, not, eqb, ◌*◌, ◌+◌, ◌≤◌, ◌<◌, length, get_or, replicate};
ghost use Rattle.std.specs.List.{list_any};
ghost use Rattle.names.specs.Lists.{In};
ghost use Rattle.recipe.specs.Records.{places, is_pointer, next, owned_kind};
ghost use Rattle.targets.specs.Trees.{recipe_of};
ghost use Rattle.marks.specs.Faults.{conflicts_with_earlier, fault₉};
ghost use Rattle.marks.specs.Cells.{Stamped, AllStamped, meets, stamped};
ghost use Rattle.marks.specs.Pointers.{InCells, ReadAt, in_row};

use recipe::Records;
use shadow::{ELEMENT_ORDER, OWNER, TARGET_NUMBER, cell};
use targets::Tree;
use tree::{DEPTH, FIRST_ELEMENT};

// Twelve cells for each of at most 1,024 elements.
pub const CELLS: usize = 12288;

// The number of an owner in its definition, of a record of kind k that has one.
pub fn owner_order(t: &[u16], p: usize, k: u8) -> usize
    requires { (p + 3 < length t.now) × (owned_kind k ≡ true → get_or t.now (p + 3) 0 + 1 < length t.now) }
    ensures { (owned_kind k ≡ true → result ≡ get_or t.now (get_or t.now (p + 3) 0 + 1) 0) × (result < 65536) }
{
    if !recipe::is_owned(k) {
        return 0;
    }
    let q = cell(t, p, OWNER);
    cell(t, q, ELEMENT_ORDER)
}

// One of the cells is set.
fn any_set(cells: &[u8]) -> bool
    ensures { result ≡ list_any (λ b. not (eqb b 0)) cells.now }
{
    cells.iter().any(|x| *x != 0)
}

// A mark or port in one instance: its kind, the numbers of its target and, if it has one, its owner, and its depth.
#[derive(Clone, Copy)]
struct Pointer {
    kind: u8,
    target: usize,
    owner: usize,
    depth: usize,
}

impl Pointer {
    // The record at p, its numbers counted from the first element of its instance, whichever that is.
    fn read(s: &[u8], t: &[u16], p: usize) -> Pointer
        requires { (p < length s.now) × ((p + 9 < length t.now) × (owned_kind (get_or s.now p 0) ≡ true → get_or t.now (p + 3) 0 + 1 < length t.now)) }
        ensures { ReadAt s.now t.now p result }
    {
        let kind = s[p];
        Pointer {
            kind,
            target: cell(t, p, TARGET_NUMBER),
            owner: owner_order(t, p, kind),
            depth: 0,
        }
    }

    // The same in instance i.
    fn in_instance(self, inst: &[u16], i: usize) -> Pointer
        requires { (6 * i + 6 ≤ length inst.now) × ((self.target < 65536) × (self.owner < 65536)) }
        ensures { result ≡ in_row self inst.now i }
    {
        let row = 6 * i;
        let first = cell(inst, row, FIRST_ELEMENT);
        Pointer {
            kind: self.kind,
            target: first + self.target,
            owner: first + self.owner,
            depth: cell(inst, row, DEPTH),
        }
    }

    // A cell that it asks is set.
    #[tactic(auto, using(crate::proofs::Records::any_slice), unfolding(crate::specs::Cells::meets, crate::specs::Cells::port_cell, crate::specs::Cells::any_set))]
    fn meets_any(self, cells: &[u8]) -> bool
        requires { InCells self × (length cells.now ≡ 12 * 1024) }
        ensures { result ≡ meets cells.now self.kind self.target self.owner self.depth }
    {
        let e = 12 * self.target;
        if recipe::is_port(self.kind) {
            return any_set(&cells[e..e + (6 - self.depth)]) || cells[e + (6 + self.depth)] != 0;
        }
        if !recipe::is_mark(self.kind) {
            return false;
        }
        any_set(&cells[e..e + (7 + self.depth)])
            || (recipe::is_replaced_by(self.kind)
                && any_set(&cells[12 * self.owner + 1..12 * self.owner + 11]))
    }

    // Sets its cells.
    #[tactic(auto, unfolding(crate::specs::Cells::stamped, crate::specs::Cells::mark_cell, crate::specs::Cells::port_cell, crate::specs::Cells::owner_cell, crate::specs::Cells::gone_cell))]
    fn stamp(self, cells: &mut [u8])
        requires { InCells self × (length cells.old ≡ 12 * 1024) }
        ensures { cells.new ≡ stamped cells.old self.kind self.target self.owner self.depth }
    {
        let e = 12 * self.target;
        if recipe::is_port(self.kind) {
            cells[e + (6 + self.depth)] = 1;
            return;
        }
        if !recipe::is_mark(self.kind) {
            return;
        }
        cells[e + (5 - self.depth)] = 1;
        if recipe::is_replaced_by(self.kind) {
            cells[12 * self.owner] = 1;
            return;
        }
        cells[e + 11] = 1;
    }
}

// The record at p, a mark or port, conflicts with an earlier one.
fn conflicts_at(tree: &Tree, p: usize, cells: &[u8]) -> bool
    requires { In p (places (recipe_of tree.now)) × ((is_pointer (recipe_of tree.now) p ≡ true) × (Stamped (recipe_of tree.now) (λ q. q.place < p) cells.now × (length cells.now ≡ 12 * 1024))) }
    ensures { result ≡ conflicts_with_earlier (recipe_of tree.now) p }
{
    let pointer = Pointer::read(tree.source.bytes, tree.shadow, p);
    for i in tree.instances_of(p) {
        if pointer.in_instance(tree.instances, i).meets_any(cells) {
            return true;
        }
    }
    false
}

// Sets the cells of the record at p, a mark or port, in each instance of its definition.
fn enter_at(tree: &Tree, p: usize, cells: &mut [u8])
    requires { In p (places (recipe_of tree.now)) × ((is_pointer (recipe_of tree.now) p ≡ true) × (Stamped (recipe_of tree.now) (λ q. q.place < p) cells.old × (length cells.old ≡ 12 * 1024))) }
    ensures { Stamped (recipe_of tree.now) (λ q. q.place < next (recipe_of tree.now) p) cells.new × (length cells.new ≡ 12 * 1024) }
{
    let pointer = Pointer::read(tree.source.bytes, tree.shadow, p);
    for i in tree.instances_of(p) {
        pointer.in_instance(tree.instances, i).stamp(cells);
    }
}

// Row 9: the first record that conflicts with an earlier one; where there is none, the cells that all records set.
pub fn first_conflict(tree: &Tree, cells: &mut [u8]) -> Option<usize>
    requires { cells.old ≡ replicate (12 * 1024) 0 }
    ensures { (result ≡ fault₉ (recipe_of tree.now)) × (result ≡ None → AllStamped (recipe_of tree.now) cells.new × (length cells.new ≡ 12 * 1024)) }
{
    for p in Records::of(tree.source) {
        if recipe::is_pointer(tree.source.bytes[p]) {
            if conflicts_at(tree, p, cells) {
                return Some(p);
            }
            enter_at(tree, p, cells);
        }
    }
    None
}
