// The tree of a recipe: its instances, and the refusal 7.
// For the floors above: plant, the columns of an instance's row, numbered and set_numbered, and InstancesOf, the instances of one definition. They take the recipe s, the shadow t and, for the rows of the instances, inst.
#![tactic(auto)]

ghost use Rattle.std.specs.Prelude.{◌≡◌, not, is_some, IfSome, [], ◌∷◌, ◌*◌, ◌+◌, ◌≤◌, ◌<◌, length, set, get_or};
ghost use Rattle.std.proofs.lemmas.List.Edits.{sets};
ghost use Rattle.recipe.specs.Records.{recipe};
ghost use Rattle.shadow.specs.Columns.{Measured};
ghost use Rattle.tree.specs.Faults.{is_too_large};
ghost use Rattle.tree.specs.Tree.{tree_elements};
ghost use Rattle.tree.specs.Steps.{cell_of, next_of};
ghost use Rattle.tree.specs.Walk.{over, WalkRequires, Grown, WalkKeeps};
ghost use Rattle.tree.specs.Planted.{Planted, ThreadRequires, Threaded};

use recipe::Source;
use shadow::{SubmodelsOf, cell, set_cell};

// The columns of an instance's row.
pub const DEFINITION: usize = 0;

pub const DEPTH: usize = 1;

pub const FIRST_ELEMENT: usize = 2;

pub const SUBMODEL_RECORD: usize = 3;

pub const AROUND: usize = 4;

pub const NEXT_SAME: usize = 5;

// Row 7's limits.
const MOST_DEPTH: usize = 4;

const MOST_INSTANCES: usize = 64;

const MOST_ELEMENTS: usize = 1024;

// How many instances and elements there are: of a tree, or of a walk with those before it.
#[derive(Clone, Copy)]
pub struct Size {
    pub insts: usize,
    pub elems: usize,
}

// The number that cell k of the row at p has, where one more than it is kept; none by 0.
pub fn numbered(t: &[u16], p: usize, k: usize) -> Option<usize>
    requires { p + k < length t.now }
    ensures { result ≡ next_of (get_or t.now (p + k) 0) }
{
    cell(t, p, k).checked_sub(1)
}

// Writes into cell k of the row at p one more than the number, or 0 for none.
pub fn set_numbered(t: &mut [u16], p: usize, k: usize, to: Option<usize>)
    requires { (p + k < length t.old) × (cell_of to < 65536) }
    ensures { t.new ≡ set t.old (p + k) (cell_of to) }
{
    set_cell(t, p, k, to.map_or(0, |x| x + 1));
}

// The instances of one definition, in tree order, along their thread: the number of each one's row.
#[derive(Clone, Copy)]
pub struct InstancesOf<'a> {
    pub rows: &'a [u16],
    pub next: Option<usize>,
}

impl<'a> Iterator for InstancesOf<'a> {
    type Item = usize;

    ghost use Rattle.tree.specs.Steps.{StepFits, StepsTo, instances_left};

    ghost can_next = { StepFits };

    ghost next_gives = { StepsTo };

    ghost remaining = { instances_left };

    fn next(&mut self) -> Option<usize> {
        let i = self.next?;
        self.next = numbered(self.rows, 6 * i, NEXT_SAME);
        Some(i)
    }
}

impl<'a> InstancesOf<'a> {
    // Those of the definition that the record at p stands in, from the first on.
    pub fn record(t: &[u16], inst: &'a [u16], p: usize) -> InstancesOf<'a>
        requires { (p < length t.now) × (get_or t.now (p + 0) 0 + 8 < length t.now) }
        ensures { (result.rows.now ≡ inst.now) × (result.next ≡ next_of (get_or t.now (get_or t.now (p + 0) 0 + 8) 0)) }
    {
        let d = cell(t, p, shadow::DEFINITION_OF);
        InstancesOf {
            rows: inst,
            next: numbered(t, d, shadow::FIRST_INSTANCE),
        }
    }
}

// Writes the row of instance i: its definition, its depth, the number of its first element, its submodel record and the instance around it; no next one yet.
fn put_row(inst: &mut [u16], i: usize, d: usize, depth: usize, e: usize, sub: usize, around: usize)
    requires { (6 * i + 6 ≤ length inst.old) × ((i < 65536) × ((d < 65536) × ((depth < 65536) × ((e < 65536) × ((sub < 65536) × (around < 65536)))))) }
    ensures { inst.new ≡ sets inst.old (6 * i) (d ∷ depth ∷ e ∷ sub ∷ around ∷ 0 ∷ []) }
{
    set_cell(inst, 6 * i, DEFINITION, d);
    set_cell(inst, 6 * i, DEPTH, depth);
    set_cell(inst, 6 * i, FIRST_ELEMENT, e);
    set_cell(inst, 6 * i, SUBMODEL_RECORD, sub);
    set_cell(inst, 6 * i, AROUND, around);
    set_numbered(inst, 6 * i, NEXT_SAME, None);
}

// The tree below the instance of row i, which is written, unless it does not fit: the rows behind it, its elements numbered from e on, and the offsets of its submodels; `left` deep at most.
fn walk(
    s: &Source,
    t: &mut [u16],
    inst: &mut [u16],
    i: usize,
    e: usize,
    left: usize,
) -> Option<Size>
    requires { WalkRequires (recipe s.now) t.old inst.old i e left }
    ensures { (is_some result ≡ not (over left (recipe s.now) (get_or inst.old (6 * i + 0) 0) i e)) × (IfSome result (λ n. Grown (recipe s.now) left (get_or inst.old (6 * i + 0) 0) i e t.old inst.old t.new inst.new n.insts n.elems) × WalkKeeps (recipe s.now) t.old inst.old t.new inst.new) }
{
    let d = cell(inst, 6 * i, DEFINITION);
    let mut j = i + 1;
    let mut x = e + cell(t, d, shadow::ELEMENT_COUNT);
    for p in SubmodelsOf::definition(&*s, d) {
        let m = cell(t, p, shadow::MODEL);
        let c = cell(t, m, shadow::ELEMENT_COUNT);
        if (left == 0) | (j >= MOST_INSTANCES) | (c > MOST_ELEMENTS - x) {
            return None;
        }
        set_cell(t, p, shadow::ELEMENT_OFFSET, x - e);
        put_row(inst, j, m, MOST_DEPTH - (left - 1), x, p, i);
        let n = walk(s, t, inst, j, x, left - 1)?;
        j = n.insts;
        x = n.elems;
    }
    Some(Size { insts: j, elems: x })
}

// Threads the n instances of the recipe s, from the last to the first: each definition's first instance, and each instance's next one of its definition.
fn thread_instances(s: &Source, t: &mut [u16], inst: &mut [u16], n: usize)
    requires { ThreadRequires (recipe s.now) t.old inst.old n }
    ensures { Threaded (recipe s.now) t.old inst.old t.new inst.new n }
{
    for i in (0..n).rev() {
        let d = cell(inst, 6 * i, DEFINITION);
        let next = cell(t, d, shadow::FIRST_INSTANCE);
        set_cell(inst, 6 * i, NEXT_SAME, next);
        set_numbered(t, d, shadow::FIRST_INSTANCE, Some(i));
    }
}

// The size of a tree that row 7 lets pass; the rows of the instances, the offsets of the submodels, and the instances of each definition.
pub fn plant(s: &Source, t: &mut [u16], inst: &mut [u16]) -> Option<Size>
    requires { Measured (recipe s.now) t.old × ((0 < length s.now.bytes.now) × (6 * 64 ≤ length inst.old)) }
    ensures { (is_some result ≡ not (is_too_large (recipe s.now))) × (IfSome result (λ n. Planted (recipe s.now) t.new inst.new n.insts × (n.elems ≡ length (tree_elements (recipe s.now)))) × ((length t.new ≡ length t.old) × (length inst.new ≡ length inst.old))) }
{
    if cell(t, 0, shadow::ELEMENT_COUNT) > MOST_ELEMENTS {
        return None;
    }
    put_row(inst, 0, 0, 0, 0, 0, 0);
    let n = walk(s, t, inst, 0, 0, MOST_DEPTH)?;
    shadow::clear_cells(s, t, shadow::FIRST_INSTANCE);
    thread_instances(s, t, inst, n.insts);
    Some(n)
}
