// The elements of the tree as rows of five: each one's record and instance, whether it is gone, the next of its chain; the refusal 11.
// For the floors above: list_elements, mark_gone, first_lost, fill_steps; the columns, and is_gone and chain_next, which read two of them. They take the tree, mark_gone without its instances,
// and the rows of the elements el; `specs/Columns.antt` has what each column means.
#![tactic(auto)]

ghost use Rattle.std.specs.Prelude.{◌≡◌, true, ◌||◌, ◌*◌, ◌+◌, ◌≤◌, ◌<◌, length, set, not, eqb, get_or};
ghost use Rattle.names.specs.Lists.{In};
ghost use Rattle.recipe.specs.Records.{places, is_element, is_owned, is_replaced_by, next};
ghost use Rattle.tree.specs.Steps.{next_of};
ghost use Rattle.tree.specs.Tree.{tree_elements};
ghost use Rattle.targets.specs.Trees.{aimed_recipe, recipe_of};
ghost use Rattle.marks.specs.Faults.{fault₉, aims_at_gone, fault₁₁};
ghost use Rattle.marks.specs.Cells.{is_set, owner_cell, gone_cell, AllStamped};
ghost use Rattle.elements.specs.Columns.{ElementRows, Gones, Nexts};
ghost use Rattle.elements.specs.Gone.{Element, GoneAt};
ghost use Rattle.elements.specs.Listing.{Listed, Only};
ghost use Rattle.elements.specs.Steps.{NoSteps, Went, stepped};

use recipe::{Kind, Records};
use shadow::{ELEMENT_ORDER, PARENT, TARGET_NUMBER, cell, set_cell};
use targets::{Aims, Tree};
use tree::{FIRST_ELEMENT, numbered, set_numbered};

// The columns of an element.
pub const RECORD: usize = 0;

pub const INSTANCE: usize = 1;

pub const GONE: usize = 2;

pub const CHAIN_NEXT: usize = 3;

// Whether the element of number e is gone, by its row.
pub fn is_gone(el: &[u16], e: usize) -> bool
    requires { 5 * e + 2 < length el.now }
    ensures { result ≡ not (eqb (get_or el.now (5 * e + 2) 0) 0) }
{
    cell(el, 5 * e, GONE) != 0
}

// The number of the next of the chain, behind the element of number e, by its row.
pub fn chain_next(el: &[u16], e: usize) -> Option<usize>
    requires { 5 * e + 3 < length el.now }
    ensures { result ≡ next_of (get_or el.now (5 * e + 3) 0) }
{
    numbered(el, 5 * e, CHAIN_NEXT)
}

// Enters the element of number e: the place of its record, the number of its instance, and as yet no step.
fn put_element(el: &mut [u16], e: usize, p: usize, i: usize)
    requires { (5 * e + 4 < length el.old) × ((p < 65536) × (i < 65536)) }
    ensures { el.new ≡ set (set (set el.old (5 * e + 0) p) (5 * e + 1) i) (5 * e + 3) 0 }
{
    set_cell(el, 5 * e, RECORD, p);
    set_cell(el, 5 * e, INSTANCE, i);
    set_numbered(el, 5 * e, CHAIN_NEXT, None);
}

// Enters the element at p, in each instance of its definition.
fn elements_at(tree: &Tree, p: usize, el: &mut [u16])
    requires { In p (places (recipe_of tree.now)) × ((is_element (recipe_of tree.now) p ≡ true) × (Listed (recipe_of tree.now) (λ x. x.place < p) el.old × (5 * 1024 ≤ length el.old))) }
    ensures { Listed (recipe_of tree.now) (λ x. x.place < next (recipe_of tree.now) p) el.new × (length el.new ≡ length el.old) }
{
    let o = cell(tree.shadow, p, ELEMENT_ORDER);
    for i in tree.instances_of(p) {
        let f = cell(tree.instances, 6 * i, FIRST_ELEMENT);
        put_element(el, f + o, p, i);
    }
}

// The elements of the tree by their numbers: the place of each one's record, and the number of its instance.
pub fn list_elements(tree: &Tree, el: &mut [u16])
    requires { 5 * 1024 ≤ length el.old }
    ensures { Listed (recipe_of tree.now) (λ x. Unit {0}) el.new × (length el.new ≡ length el.old) }
{
    for p in Records::of(tree.source) {
        if tree.source.bytes[p] == Kind::Element as u8 {
            elements_at(tree, p, el);
        }
    }
}

// Whether the element of number e is marked as gone, by its cells.
fn is_marked(cells: &[u8], e: usize) -> bool
    requires { (length cells.now ≡ 12 * 1024) × (e < 1024) }
    ensures { result ≡ is_set cells.now (owner_cell e) || is_set cells.now (gone_cell e) }
{
    (cells[12 * e] != 0) | (cells[12 * e + 11] != 0)
}

// Whether the element of number e, at place q, is gone: marked so itself, or a child of one that is.
fn goes(aims: &Aims, cells: &[u8], e: usize, q: usize) -> bool
    requires { AllStamped (aimed_recipe aims.now) cells.now × ((length cells.now ≡ 12 * 1024) × Element (aimed_recipe aims.now) e q) }
    ensures { GoneAt (aimed_recipe aims.now) e result }
{
    if is_marked(cells, e) {
        return true;
    }
    let Some(m) = shadow::link(aims.shadow, q, PARENT) else {
        return false;
    };
    let a = cell(aims.shadow, q, ELEMENT_ORDER);
    let b = cell(aims.shadow, m, ELEMENT_ORDER);
    is_marked(cells, e - a + b)
}

// Marks the elements of the tree, of which there are `elems`, by 1 where they are gone, and the others by 0.
pub fn mark_gone(aims: &Aims, cells: &[u8], el: &mut [u16], elems: usize)
    requires { AllStamped (aimed_recipe aims.now) cells.now × ((length cells.now ≡ 12 * 1024) × (ElementRows (aimed_recipe aims.now) el.old × (elems ≡ length (tree_elements (aimed_recipe aims.now))))) }
    ensures { Gones (aimed_recipe aims.now) el.new × Only 2 el.old el.new }
{
    for e in 0..elems {
        let q = cell(el, 5 * e, RECORD);
        let gone = goes(aims, cells, e, q);
        set_cell(el, 5 * e, GONE, gone as usize);
    }
}

// The replaced-by at p has, in some instance of its definition, a target that is gone.
fn aims_at_gone(tree: &Tree, p: usize, el: &[u16]) -> bool
    requires { In p (places (recipe_of tree.now)) × ((is_replaced_by (recipe_of tree.now) p ≡ true) × (Gones (recipe_of tree.now) el.now × (5 * 1024 ≤ length el.now))) }
    ensures { result ≡ aims_at_gone (recipe_of tree.now) p }
{
    let e = cell(tree.shadow, p, TARGET_NUMBER);
    for i in tree.instances_of(p) {
        let f = cell(tree.instances, 6 * i, FIRST_ELEMENT);
        if is_gone(el, f + e) {
            return true;
        }
    }
    false
}

// Row 11: the first replaced-by whose target is gone, in the tree.
pub fn first_lost(tree: &Tree, el: &[u16]) -> Option<usize>
    requires { Gones (recipe_of tree.now) el.now × (5 * 1024 ≤ length el.now) }
    ensures { result ≡ fault₁₁ (recipe_of tree.now) }
{
    for p in Records::of(tree.source) {
        if recipe::is_replaced_by(tree.source.bytes[p]) && aims_at_gone(tree, p, el) {
            return Some(p);
        }
    }
    None
}

// The step of a replacement or replaced-by: a is its target's number, b its owner's.
fn put_step(el: &mut [u16], k: u8, a: usize, b: usize)
    requires { (5 * 1024 ≤ length el.old) × ((a < 1024) × (b < 1024)) }
    ensures { el.new ≡ stepped el.old k a b }
{
    if recipe::is_replaced_by(k) {
        set_numbered(el, 5 * b, CHAIN_NEXT, Some(a));
        return;
    }
    set_numbered(el, 5 * a, CHAIN_NEXT, Some(b));
}

// The steps of the record at p, a replacement or replaced-by, in each instance of its definition.
fn steps_at(tree: &Tree, p: usize, el: &mut [u16])
    requires { In p (places (recipe_of tree.now)) × ((is_owned (recipe_of tree.now) p ≡ true) × ((fault₉ (recipe_of tree.now) ≡ None) × (Went (recipe_of tree.now) (λ q. q.place < p) el.old × (5 * 1024 ≤ length el.old)))) }
    ensures { Went (recipe_of tree.now) (λ q. q.place < next (recipe_of tree.now) p) el.new × Only 3 el.old el.new }
{
    let k = tree.source.bytes[p];
    let e = cell(tree.shadow, p, TARGET_NUMBER);
    let o = marks::owner_order(tree.shadow, p, k);
    for i in tree.instances_of(p) {
        let f = cell(tree.instances, 6 * i, FIRST_ELEMENT);
        put_step(el, k, f + e, f + o);
    }
}

// The chain's steps: of each element of the tree, one more than the number of the next, or 0.
pub fn fill_steps(tree: &Tree, el: &mut [u16])
    requires { (fault₉ (recipe_of tree.now) ≡ None) × (NoSteps (recipe_of tree.now) el.old × (5 * 1024 ≤ length el.old)) }
    ensures { Nexts (recipe_of tree.now) el.new × Only 3 el.old el.new }
{
    for p in Records::of(tree.source) {
        if recipe::is_owned(tree.source.bytes[p]) {
            steps_at(tree, p, el);
        }
    }
}
