// Composing: rows 1 to 12, 19 and 20 behind one call, and where none applies the rooms that a call's ending needs: the shadow, the instances, the elements of the tree.
// For the floors above: compose, Rooms, which it fills, Arrays, which are lent as rooms, and Composition, which it leaves. There is no public call.
#![tactic(auto)]

ghost use Rattle.std.specs.Prelude.{◌≡◌, ◌++◌, ◌*◌, ◌<◌, ◌≤◌, length, replicate, OnOk, IfOk};
ghost use Rattle.std.specs.Result.{result_err};
ghost use Rattle.names.specs.Judging.{judged};
ghost use Rattle.recipe.specs.Records.{recipe};
ghost use Rattle.recipe.specs.Reading.{form_rows, naming_rows};
ghost use Rattle.shadow.specs.Columns.{Measured};
ghost use Rattle.tree.specs.Faults.{tree_rows, target_rows};
ghost use Rattle.tree.specs.Tree.{instances, tree_elements};
ghost use Rattle.targets.specs.Trees.{recipe_of};
ghost use Rattle.marks.specs.Faults.{mark_rows, reference_rows};
ghost use Rattle.compose.specs.Composed.{Composed};
ghost use Rattle.compose.specs.Rooms.{Width, NamesRequires};
ghost use Rattle.compose.specs.Rows.{refusal_of};

use factor_ends::{Chains, FactorTree};
use names::{Reason, Refusal};
use recipe::Source;
use targets::Tree;
use tree::Size;

// The shadow has a cell for each byte of a recipe.
pub const SHADOW_CELLS: usize = 16384;

// Six for each of 64 instances.
pub const INSTANCE_CELLS: usize = 384;

// Five for each of 1,024 elements.
pub const ELEMENT_CELLS: usize = 5120;

// The rooms that composing fills, lent.
#[derive(Drop)]
pub struct Rooms<'a> {
    pub shadow: &'a mut [u16],
    pub instances: &'a mut [u16],
    pub elements: &'a mut [u16],
    pub ghost room_shadow: { 16384 ≤ length shadow.now },
    pub ghost room_instances: { 384 ≤ length instances.now },
    pub ghost room_elements: { 5120 ≤ length elements.now },
}

// Arrays that are just enough for them.
#[derive(Drop)]
pub struct Arrays {
    pub shadow: [u16; SHADOW_CELLS],
    pub instances: [u16; INSTANCE_CELLS],
    pub elements: [u16; ELEMENT_CELLS],
}

impl Arrays {
    // Arrays with nothing in them.
    pub fn new() -> Arrays
        ensures { (result.shadow ≡ replicate 16384 0) × ((result.instances ≡ replicate 384 0) × (result.elements ≡ replicate 5120 0)) }
    {
        Arrays {
            shadow: [0; SHADOW_CELLS],
            instances: [0; INSTANCE_CELLS],
            elements: [0; ELEMENT_CELLS],
        }
    }

    // The rooms that they are.
    pub fn rooms(&mut self) -> Rooms<'_>
        ensures { (result.shadow.now ≡ self.old.shadow) × ((result.instances.now ≡ self.old.instances) × (result.elements.now ≡ self.old.elements)) }
    {
        let Arrays {
            shadow,
            instances,
            elements,
        } = self;
        Rooms {
            shadow,
            instances,
            elements,
        }
    }
}

// What composing leaves of a recipe that no row refuses: its tree, how many instances and elements there are, and the elements of the tree as rows, all columns filled.
#[derive(Clone, Copy)]
pub struct Composition<'a> {
    pub tree: Tree<'a>,
    pub size: Size,
    pub elements: &'a [u16],
    pub ghost composed: { Composed (recipe tree.source.now) tree.shadow.now tree.instances.now elements.now size.insts size.elems },
}

impl<'a> Composition<'a> {
    // The same of the same recipe, lent anew. A call's ending takes this: of a width that was lent to all the floors below the compiler no longer sees that it is a constant.
    pub fn with_source(self, s: &'a Source<'a>) -> Composition<'a>
        requires { recipe self.tree.source.now ≡ recipe s.now }
        ensures { recipe result.tree.source.now ≡ recipe s.now }
    {
        let tree = Tree {
            source: s,
            shadow: self.tree.shadow,
            instances: self.tree.instances,
        };
        Composition {
            tree,
            size: self.size,
            elements: self.elements,
        }
    }
}

// Rows 1 to 3.
fn judge_form(s: &Source) -> Result<(), Refusal>
    requires { Width s.now.width }
    ensures { result_err result ≡ judged (form_rows (recipe s.now)) }
{
    names::judge(Reason::BadLength, recipe::length_fault(s))?;
    names::judge(Reason::Unreadable, recipe::first_unreadable(s))?;
    names::judge(Reason::Unformed, recipe::first_unformed(s))
}

// Rows 4, 5, 19 and 6; where none applies, what the records name, and the heights of the definitions.
fn judge_names(s: &Source, t: &mut [u16]) -> Result<(), Refusal>
    requires { NamesRequires (recipe s.now) t.old }
    ensures { (result_err result ≡ judged (naming_rows (recipe s.now))) × OnOk result (Measured (recipe s.now) t.new) }
{
    shadow::number_records(s, t);
    links::resolve_names(s, t)?;
    names::judge(Reason::Misscaled, factor_pairs::pair_factors(s, t))?;
    names::judge(Reason::Cyclic, heights::find_heights(s, t))
}

// Rows 9 to 12 and 20 in order; where none applies, the elements of the tree as rows, all columns filled.
fn judge_marks(tree: &Tree, elems: usize, el: &mut [u16]) -> Result<(), Refusal>
    requires { (elems ≡ length (tree_elements (recipe_of tree.now))) × (5 * 1024 ≤ length el.old) }
    ensures { (result_err result ≡ judged (mark_rows (recipe_of tree.now) ++ reference_rows (recipe_of tree.now))) × OnOk result (Composed (recipe_of tree.now) tree.now.shadow.now tree.now.instances.now el.new (length (instances (recipe_of tree.now))) elems) }
{
    let mut cells = [0u8; marks::CELLS];
    names::judge(Reason::Conflicting, marks::first_conflict(tree, &mut cells))?;
    names::judge(
        Reason::Misclassed,
        targets::first_misclassed(tree.source, tree.shadow),
    )?;
    elements::list_elements(tree, el);
    elements::mark_gone(&tree.aims(), &cells, el, elems);
    names::judge(Reason::Lost, elements::first_lost(tree, el))?;
    elements::fill_steps(tree, el);
    names::judge(
        Reason::Misreferred,
        references::first_misreferred(&tree.aims(), el, elems),
    )?;
    let chains = Chains {
        aims: tree.aims(),
        elements: el,
    };
    let factors = FactorTree {
        chains,
        instances: tree.instances,
    };
    names::judge(Reason::Misfactored, factors.first_misfactored())
}

// Rows 7 to 12 and 20 of a recipe that the rows before let pass; where none applies, what composing leaves.
fn judge_tree<'a>(s: &'a Source<'a>, rooms: Rooms<'a>) -> Result<Composition<'a>, Refusal>
    requires { Measured (recipe s.now) rooms.shadow.now × (0 < length s.now.bytes.now) }
    ensures { (result_err result ≡ judged (tree_rows (recipe s.now) ++ (target_rows (recipe s.now) ++ (mark_rows (recipe s.now) ++ reference_rows (recipe s.now))))) × IfOk result (λ c. recipe c.tree.source.now ≡ recipe s.now) }
{
    let Rooms {
        shadow: t,
        instances: inst,
        elements: el,
    } = rooms;
    let too_large = Refusal {
        reason: Reason::TooLarge,
        place: 0,
    };
    let size = tree::plant(s, t, inst).ok_or(too_large)?;
    names::judge(Reason::Untargeted, targets::first_untargeted(s, t))?;
    let tree = Tree {
        source: s,
        shadow: t,
        instances: inst,
    };
    judge_marks(&tree, size.elems, el)?;
    Ok(Composition {
        tree,
        size,
        elements: el,
    })
}

// All these rows, in order; where none applies, what composing leaves in the rooms.
pub fn compose<'a>(s: &'a Source<'a>, rooms: Rooms<'a>) -> Result<Composition<'a>, Refusal>
    requires { Width s.now.width }
    ensures { (result_err result ≡ refusal_of (recipe s.now)) × IfOk result (λ c. recipe c.tree.source.now ≡ recipe s.now) }
{
    let Rooms {
        shadow,
        instances,
        elements,
    } = rooms;
    judge_form(s)?;
    judge_names(s, shadow)?;
    let rooms = Rooms {
        shadow,
        instances,
        elements,
    };
    judge_tree(s, rooms)
}
