// From a flat name back to the recipe: the submodel records from main downward, and the element record. No table is written.
// Public call, which requires nothing: bandrolt_walk_back, exported to C by origins_c.
#![tactic(auto)]

ghost use Rattle.std.specs.Prelude.{◌≡◌, [], ◌<◌, ◌≤◌, length, get_or, option_map};
ghost use Rattle.names.specs.Judging.{row_number};
ghost use Rattle.names.specs.Lists.{padded};
ghost use Rattle.flat_table.specs.Table.{flat_width};
ghost use Rattle.recipe.specs.Records.{recipe};
ghost use Rattle.tree.specs.Numbers.{number};
ghost use Rattle.tree.specs.Tree.{instances, most_depth, tree_elements};
ghost use Rattle.composer.specs.Verdicts.{recipe_of};
ghost use Rattle.composer.specs.Writing.{element_at};
ghost use Rattle.origins.specs.Origins.{answered, origin_of, walked_to, walk_refused, walk_back};
ghost use Rattle.origins.specs.Search.{prefix_end, fit_of, PrefixFits, ends_with, is_origin};
ghost use Rattle.origins.specs.Search.{PrefixRequires, BehindRequires, NameRequires};

use compose::{Arrays, Composition};
use elements::{INSTANCE, RECORD};
use names::{Reason, Refusal, field_at};
use recipe::Source;
use shadow::cell;
use targets::Tree;
use tree::{AROUND, DEPTH, SUBMODEL_RECORD, numbered, set_numbered};

// What walking back answers: 0, or the number and place of the refusal; how many submodels the element lies in, the offsets of their records
// from main downward with zeros behind them, and the offset of the element's record.
#[repr(C)]
#[derive(Clone, Copy)]
pub struct Origin {
    pub number: u64,
    pub place: u64,
    pub depth: u64,
    pub submodel: [u64; 4],
    pub element: u64,
}

// A name as long as the field of a flat name, which is sought among the survivors of what composing leaves.
#[derive(Clone, Copy)]
struct Sought<'a> {
    composition: &'a Composition<'a>,
    name: &'a [u8],
    ghost long: { length name.now ≡ flat_width composition.now.tree.source.now.width },
}

// The same, with the cells of the instances filled.
#[derive(Clone, Copy)]
struct Fits<'a> {
    sought: Sought<'a>,
    cells: &'a [u16],
    ghost fits: { PrefixFits (recipe sought.composition.now.tree.source.now) sought.name.now cells.now },
}

impl<'a> Sought<'a> {
    // Where the prefix of the submodel m ends in the name, if it stands there from l on. Its underscores are asked for only behind its name.
    fn prefix_end(&self, m: usize, l: usize) -> Option<usize>
        requires { PrefixRequires (recipe self.now.composition.now.tree.source.now) m l }
        ensures { result ≡ prefix_end (recipe self.now.composition.now.tree.source.now) self.now.name.now m l }
    {
        let c = self.composition;
        let s = c.tree.source;
        let n = flat_names::name_length(s, m);
        if !names::is_same(field_at(s.bytes, m + 1, n), field_at(self.name, l, n)) {
            return None;
        }
        let k = flat_names::count_underscores(field_at(self.name, l + n, s.width));
        let u = flat_names::fewest_underscores(s, c.tree.shadow, m);
        if k < u {
            return None;
        }
        Some(l + (n + u as usize))
    }

    // How many bytes the prefixes of instance i have, if the name begins with them: those of the instance around it, and that of its submodel.
    fn fit_behind(&self, i: usize, cells: &[u16]) -> Option<usize>
        requires { BehindRequires (recipe self.now.composition.now.tree.source.now) i self.now.name.now cells.now }
        ensures { result ≡ fit_of (recipe self.now.composition.now.tree.source.now) self.now.name.now i }
    {
        let c = self.composition;
        let inst = c.tree.instances;
        let m = cell(inst, 6 * i, SUBMODEL_RECORD);
        let u = cell(inst, 6 * i, AROUND);
        let l = numbered(cells, u, 0)?;
        self.prefix_end(m, l)
    }

    // Fills the cells of the instances, one each: one more than how many bytes its prefixes have, or 0. Main has no prefix.
    fn fit_prefixes(&self, cells: &mut [u16])
        requires { self.now.composition.now.size.insts ≤ length cells.old }
        ensures { PrefixFits (recipe self.now.composition.now.tree.source.now) self.now.name.now cells.new }
    {
        let c = self.composition;
        set_numbered(cells, 0, 0, Some(0));
        for i in 1..c.size.insts {
            let end = self.fit_behind(i, cells);
            set_numbered(cells, i, 0, end);
        }
    }

    // Whether the name of the element q, with zeros behind it, is all of the name from l on.
    fn ends_with(&self, q: usize, l: usize) -> bool
        requires { NameRequires (recipe self.now.composition.now.tree.source.now) q l }
        ensures { result ≡ ends_with (recipe self.now.composition.now.tree.source.now) self.now.name.now q l }
    {
        let c = self.composition;
        let s = c.tree.source;
        let name = self.name;
        if !names::is_same(
            field_at(s.bytes, q + 1, s.width),
            field_at(name, l, s.width),
        ) {
            return false;
        }
        names::is_blank(&name[l + s.width..])
    }
}

impl<'a> Fits<'a> {
    // Whether the element of number e survives and has this name.
    fn is_origin(&self, e: usize) -> bool
        requires { e < length (tree_elements (recipe self.now.sought.composition.now.tree.source.now)) }
        ensures { let s = recipe self.now.sought.composition.now.tree.source.now in result ≡ is_origin s self.now.sought.name.now (element_at s e) }
    {
        let c = self.sought.composition;
        if elements::is_gone(c.elements, e) {
            return false;
        }
        let i = cell(c.elements, 5 * e, INSTANCE);
        let Some(l) = numbered(self.cells, i, 0) else {
            return false;
        };
        let q = cell(c.elements, 5 * e, RECORD);
        self.sought.ends_with(q, l)
    }

    // The number of the survivor that has this name.
    fn find_origin(&self) -> Option<usize>
        ensures { let s = recipe self.now.sought.composition.now.tree.source.now in result ≡ option_map (number s) (origin_of s self.now.sought.name.now) }
    {
        let c = self.sought.composition;
        (0..c.size.elems).find(
            |&e|
                requires { e < length (tree_elements (recipe self.now.sought.composition.now.tree.source.now)) }
            { self.is_origin(e) },
        )
    }
}

// The submodel records from main downward to instance i, and zeros behind them.
fn path_to(tree: &Tree, i: usize) -> [u64; 4]
    requires { i < length (instances (recipe tree.now.source.now)) }
    ensures { result ≡ padded most_depth (get_or (instances (recipe tree.now.source.now)) i []) }
{
    let mut path = [0u64; 4];
    let mut j = i;
    let depth = cell(tree.instances, 6 * i, DEPTH);
    for k in (0..depth).rev() {
        let u = cell(tree.instances, 6 * j, AROUND);
        path[k] = cell(tree.instances, 6 * j, SUBMODEL_RECORD) as u64;
        j = u;
    }
    path
}

// The origin of the element of number e.
fn origin_at(c: &Composition, e: usize) -> Origin
    requires { e < length (tree_elements (recipe c.now.tree.source.now)) }
    ensures { result ≡ walked_to (element_at (recipe c.now.tree.source.now) e) }
{
    let i = cell(c.elements, 5 * e, INSTANCE);
    let q = cell(c.elements, 5 * e, RECORD);
    let depth = cell(c.tree.instances, 6 * i, DEPTH);
    let path = path_to(&c.tree, i);
    Origin {
        number: 0,
        place: 0,
        depth: depth as u64,
        submodel: path,
        element: q as u64,
    }
}

impl From<Refusal> for Origin {
    ghost from_gives = { λ r o. o ≡ walk_refused (row_number r.reason) r.place };

    fn from(r: Refusal) -> Origin {
        Origin {
            number: r.reason.number(),
            place: r.place as u64,
            depth: 0,
            submodel: [0u64; 4],
            element: 0,
        }
    }
}

// The origin of the survivor that has this name, in a recipe that no row refuses.
fn walk_composed(c: &Composition, name: &[u8]) -> Option<Origin>
    ensures { result ≡ option_map walked_to (origin_of (recipe c.now.tree.source.now) name.now) }
{
    let f = composer::field_width(c.tree.source.width);
    if name.len() != f {
        return None;
    }
    let sought = Sought {
        composition: c,
        name,
    };
    let mut cells = [0u16; flat_names::PREFIX_ROWS];
    sought.fit_prefixes(&mut cells);
    let fits = Fits {
        sought,
        cells: &cells,
    };
    let e = fits.find_origin()?;
    Some(origin_at(c, e))
}

// The origin of the survivor that has this name, or the refusal of the recipe or, last, of the name.
fn walk_back(recipe: &[u8], name: &[u8]) -> Result<Origin, Refusal>
    ensures { answered result ≡ walk_back (recipe_of recipe.now) name.now }
{
    let mut arrays = Arrays::new();
    let s = composer::source(recipe);
    let c = compose::compose(&s, arrays.rooms())?;
    let anew = composer::source(recipe);
    let unnamed = Refusal {
        reason: Reason::Unnamed,
        place: 0,
    };
    walk_composed(&c.with_source(&anew), name).ok_or(unnamed)
}

// 02's walk back, of a recipe of name width 12 and a flat name: where the survivor of that name comes from, or the refusal.
pub fn bandrolt_walk_back(recipe: &[u8], name: &[u8]) -> Origin
    ensures { result ≡ walk_back (recipe_of recipe.now) name.now }
{
    match walk_back(recipe, name) {
        Ok(origin) => origin,
        Err(refusal) => Origin::from(refusal),
    }
}
