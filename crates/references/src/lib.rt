// The references of survivors, and where the chains from them end; the refusal 12.
// For the floors above: first_misreferred, chain_end, class_of, and the column of the ends. They take what is known of the tree without its instances, and the rows of the elements el.
#![tactic(auto)]

ghost use Rattle.std.specs.Prelude.{◌≡◌, true, ◌≤◌, ◌<◌, length, IfSome};
ghost use Rattle.names.specs.Lists.{In};
ghost use Rattle.names.specs.Names.{is_blank};
ghost use Rattle.recipe.specs.Records.{recipe, places, is_element, reference_field};
ghost use Rattle.tree.specs.Tree.{tree_elements};
ghost use Rattle.targets.specs.Trees.{aimed_recipe};
ghost use Rattle.marks.specs.Faults.{fault₁₂};
ghost use Rattle.elements.specs.Columns.{ElementRows, Gones, Nexts};
ghost use Rattle.elements.specs.Gone.{Element, Numbers};
ghost use Rattle.elements.specs.Listing.{Only};
ghost use Rattle.references.specs.Ends.{Ends, Stepping, followed};
ghost use Rattle.references.specs.References.{ClassAt, UnfitAt, FaultAt, EndAt};

use elements::RECORD;
use recipe::Source;
use shadow::{ELEMENT_ORDER, REFERENCE, cell};
use targets::Aims;
use tree::set_numbered;

// The column of the elements that is filled here.
pub const REFERENCE_END: usize = 4;

// The number of the element at the end of the chain from the element of number e: at most five steps.
pub fn chain_end(el: &[u16], e: usize) -> usize
    requires { Stepping el.now e }
    ensures { result ≡ followed el.now 5 e }
{
    let mut z = e;
    for _ in 0..5usize {
        let Some(next) = elements::chain_next(el, z) else {
            return z;
        };
        z = next;
    }
    z
}

// The element at p has no reference.
fn refers_to_none(s: &Source, p: usize) -> bool
    requires { (s.now.width ≤ 64) × ((length s.now.bytes.now ≤ 16384) × (In p (places (recipe s.now)) × (is_element (recipe s.now) p ≡ true))) }
    ensures { result ≡ is_blank (reference_field (recipe s.now) p) }
{
    names::is_blank(names::field_at(s.bytes, p + 1 + (s.width + (1 + s.width)), s.width))
}

// The number of the end of the chain from the reference of the element of number e, at place p, where it names one.
fn reference_end(aims: &Aims, el: &[u16], e: usize, p: usize) -> Option<usize>
    requires { ElementRows (aimed_recipe aims.now) el.now × (Nexts (aimed_recipe aims.now) el.now × Element (aimed_recipe aims.now) e p) }
    ensures { EndAt (aimed_recipe aims.now) e result × IfSome result (λ z. z < 1024) }
{
    let q = shadow::link(aims.shadow, p, REFERENCE)?;
    let a = cell(aims.shadow, p, ELEMENT_ORDER);
    let b = cell(aims.shadow, q, ELEMENT_ORDER);
    Some(chain_end(el, e - a + b))
}

// The class of the element of number z, by its row.
pub fn class_of(aims: &Aims, el: &[u16], z: usize) -> u8
    requires { ElementRows (aimed_recipe aims.now) el.now × Numbers (aimed_recipe aims.now) z }
    ensures { ClassAt (aimed_recipe aims.now) z result }
{
    aims.source.class_at(cell(el, 5 * z, RECORD))
}

// The element of number z is no fit end of a chain: it is gone, or of a class that a reference of class c must not have.
fn is_unfit(aims: &Aims, c: u8, z: usize, el: &[u16]) -> bool
    requires { ElementRows (aimed_recipe aims.now) el.now × (Gones (aimed_recipe aims.now) el.now × Numbers (aimed_recipe aims.now) z) }
    ensures { UnfitAt (aimed_recipe aims.now) c z result }
{
    let gone = elements::is_gone(el, z);
    gone | !flat_table::reference_allowed(c, class_of(aims, el, z))
}

// The reference of the element of number e, whose chain ends at `end`, is at fault.
fn refers_wrongly(aims: &Aims, el: &[u16], e: usize, end: Option<usize>) -> bool
    requires { ElementRows (aimed_recipe aims.now) el.now × (Gones (aimed_recipe aims.now) el.now × (Numbers (aimed_recipe aims.now) e × EndAt (aimed_recipe aims.now) e end)) }
    ensures { FaultAt (aimed_recipe aims.now) e result }
{
    let s = aims.source;
    let p = cell(el, 5 * e, RECORD);
    let c = s.class_at(p);
    if refers_to_none(s, p) {
        return !flat_table::reference_may_be_blank(c);
    }
    let Some(z) = end else {
        return true;
    };
    is_unfit(aims, c, z, el)
}

// Row 12: the lowest record of a survivor whose reference is at fault; and of each survivor the end of the chain from its reference.
pub fn first_misreferred(aims: &Aims, el: &mut [u16], elems: usize) -> Option<usize>
    requires { ElementRows (aimed_recipe aims.now) el.old × (Gones (aimed_recipe aims.now) el.old × (Nexts (aimed_recipe aims.now) el.old × (elems ≡ length (tree_elements (aimed_recipe aims.now))))) }
    ensures { (result ≡ fault₁₂ (aimed_recipe aims.now)) × (Ends (aimed_recipe aims.now) el.new × Only 4 el.old el.new) }
{
    let mut lowest = None;
    for e in 0..elems {
        if !elements::is_gone(el, e) {
            let p = cell(el, 5 * e, RECORD);
            let end = reference_end(aims, el, e, p);
            set_numbered(el, 5 * e, REFERENCE_END, end);
            if refers_wrongly(aims, el, e, end) {
                lowest = Some(lowest.unwrap_or(p).min(p));
            }
        }
    }
    lowest
}
