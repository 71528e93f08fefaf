// The targets of ports and marks, found through ports; the refusals 8 and 10.
// For the floors above: first_untargeted and first_misclassed, of the recipe s and the shadow t; Tree, what there is where no row up to 8 applies, and Aims, the same without the instances.
#![tactic(auto)]

ghost use Rattle.std.specs.Prelude.{◌≡◌, true, [], ◌∷◌, ◌+◌, ◌≤◌, ◌<◌, None, length, get_or, set};
ghost use Rattle.recipe.specs.Records.{recipe};
ghost use Rattle.shadow.specs.Shadow.{Kept};
ghost use Rattle.shadow.specs.Columns.{Measured};
ghost use Rattle.std.proofs.Props.{props};
ghost use Rattle.tree.specs.Faults.{fault₇, fault₈, fault₁₀};
ghost use Rattle.targets.specs.Targeted.{Aimed, TreeRequires};
ghost use Rattle.targets.specs.Resolve.{OffsetOf, ResolveRequires, Resolved, TargetNumbers};

use recipe::{Kind, Records, Source};
use shadow::{cell, set_cell};
use tree::InstancesOf;

// The greatest number of a cell.
const MOST_NUMBER: usize = 65535;

// The tree of a recipe that rows 1 to 8 let pass: the recipe, its shadow, and the rows of its instances.
#[derive(Clone, Copy)]
pub struct Tree<'a> {
    pub source: &'a Source<'a>,
    pub shadow: &'a [u16],
    pub instances: &'a [u16],
    pub ghost targeted: { TreeRequires (recipe source.now) shadow.now instances.now },
}

// What these rows leave of a recipe in its shadow alone, for who looks at no row of an instance.
#[derive(Clone, Copy)]
pub struct Aims<'a> {
    pub source: &'a Source<'a>,
    pub shadow: &'a [u16],
    pub ghost aimed: { Aimed (recipe source.now) shadow.now },
    pub ghost fits: { fault₇ (recipe source.now) ≡ None } by { Prim.hlevel props },
}

impl<'a> Tree<'a> {
    ghost use Rattle.names.specs.Lists.{In};
    ghost use Rattle.recipe.specs.Records.{places};
    ghost use Rattle.tree.specs.Steps.{next_of};
    ghost use Rattle.targets.specs.Trees.{recipe_of};

    // The tree without its instances.
    pub fn aims(&self) -> Aims<'a>
        ensures { (recipe result.source.now ≡ recipe_of self.now) × (result.shadow.now ≡ self.now.shadow.now) }
    {
        Aims {
            source: self.source,
            shadow: self.shadow,
        }
    }

    // The instances of the definition that the record at p stands in.
    pub fn instances_of(&self, p: usize) -> InstancesOf<'a>
        requires { In p (places (recipe_of self.now)) }
        ensures { (result.rows.now ≡ self.now.instances.now) × (result.next ≡ next_of (get_or self.now.shadow.now (get_or self.now.shadow.now (p + 0) 0 + 8) 0)) }
    {
        InstancesOf::record(self.shadow, self.instances, p)
    }
}

// Two numbers of cells, added, as far as a cell goes.
fn add_numbers(f: usize, g: usize) -> usize
    requires { (f < 65536) × (g < 65536) }
    ensures { (result < 65536) × (f + g < 65536 → result ≡ f + g) }
{
    (f + g).min(MOST_NUMBER)
}

// The elements of the instance of the port or mark at r that come before the subtree it names; 0 where it names none.
fn offset_of(t: &[u16], r: usize) -> usize
    requires { (r + 4 < length t.now) × (get_or t.now (r + 4) 0 + 7 < length t.now) }
    ensures { OffsetOf t.now r result }
{
    match shadow::link(t, r, shadow::SUBMODEL) {
        Some(m) => cell(t, m, shadow::ELEMENT_OFFSET),
        None => 0,
    }
}

// Keeps the target of the port or mark at r.
fn keep_target(t: &mut [u16], r: usize, place: usize, num: usize)
    requires { (r + 10 < length t.old) × ((place < 65536) × (num < 65536)) }
    ensures { t.new ≡ set (set t.old (r + 9) num) (r + 10) place }
{
    set_cell(t, r, shadow::TARGET_NUMBER, num);
    set_cell(t, r, shadow::TARGET, place);
}

// Whether the port or mark at q has a target, which is kept in its cells: as they have it, or by what it names.
#[cycle(resolve_port_resolve_reference)]
fn resolve_port(s: &Source, t: &mut [u16], q: usize) -> bool
    requires { ResolveRequires (recipe s.now) t.old q }
    ensures { Resolved (recipe s.now) t.old t.new q result }
{
    if shadow::link(t, q, shadow::TARGET).is_some() {
        return true;
    }
    resolve_reference(s, t, q)
}

// Whether the port or mark at r has a target, by the record that it names: an element is the target; of a port, its target is.
#[cycle(resolve_port_resolve_reference)]
fn resolve_reference(s: &Source, t: &mut [u16], r: usize) -> bool
    requires { ResolveRequires (recipe s.now) t.old r }
    ensures { Resolved (recipe s.now) t.old t.new r result }
{
    let Some(x) = shadow::link(t, r, shadow::NAMED_RECORD) else {
        return false;
    };
    let f = offset_of(t, r);
    if s.bytes[x] == Kind::Element as u8 {
        let g = cell(t, x, shadow::ELEMENT_ORDER);
        keep_target(t, r, x, add_numbers(f, g));
        return true;
    }
    if !resolve_port(s, t, x) {
        return false;
    }
    let place = cell(t, x, shadow::TARGET);
    let num = cell(t, x, shadow::TARGET_NUMBER);
    keep_target(t, r, place, add_numbers(f, num));
    true
}

// Row 8: the first mark or port without a target; the places and numbers of the others' targets. Each port is resolved once.
pub fn first_untargeted(s: &Source, t: &mut [u16]) -> Option<usize>
    requires { Measured (recipe s.now) t.old }
    ensures { (result ≡ fault₈ (recipe s.now)) × ((result ≡ None → Aimed (recipe s.now) t.new × TargetNumbers (recipe s.now) t.new) × Kept (recipe s.now) (9 ∷ 10 ∷ []) t.old t.new) }
{
    shadow::clear_cells(s, t, shadow::TARGET);
    for p in Records::of(s) {
        if recipe::is_pointer(s.bytes[p]) && !resolve_port(s, t, p) {
            return Some(p);
        }
    }
    None
}

// Row 10: the first mark whose owner's and target's class differ.
pub fn first_misclassed(s: &Source, t: &[u16]) -> Option<usize>
    requires { Aimed (recipe s.now) t.now }
    ensures { result ≡ fault₁₀ (recipe s.now) }
{
    for p in Records::of(s) {
        if recipe::is_owned(s.bytes[p]) {
            let a = s.class_at(cell(t, p, shadow::OWNER));
            let b = s.class_at(cell(t, p, shadow::TARGET));
            if a != b {
                return Some(p);
            }
        }
    }
    None
}
