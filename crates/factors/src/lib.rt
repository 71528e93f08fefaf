// Flattening with factors, Paper 2 of 02: the flat table, and beside it the companion of the elements of class 4 and 6 with the factors of the submodels around them.
// Public call, which requires nothing: bandrolt_flatten_with_factors, exported to C by factors_c.
#![tactic(auto)]

ghost use Rattle.std.specs.Prelude.{◌≡◌, ◌++◌, ◌+◌, ◌*◌, ◌<◌, ◌≤◌, length, drop, IfSome};
ghost use Rattle.std.proofs.Props.{props};
ghost use Rattle.std.proofs.lemmas.List.Edits.{sets};
ghost use Rattle.names.specs.Judging.{row_number};
ghost use Rattle.flat_table.specs.Table.{flat_length};
ghost use Rattle.recipe.specs.Records.{recipe};
ghost use Rattle.tree.specs.Tree.{instances, tree_elements};
ghost use Rattle.marks.specs.Marks.{survivors};
ghost use Rattle.compose.specs.Rows.{Unrefused};
ghost use Rattle.factor_ends.specs.FactorEnds.{FactorAt};
ghost use Rattle.composer.specs.Flat.{flat};
ghost use Rattle.composer.specs.Verdicts.{recipe_of};
ghost use Rattle.composer.specs.Writing.{element_at};
ghost use Rattle.factors.specs.Companion.{is_rated, rated, companion, entry_length, factors_refused, factors_verdict, table_after, companion_after};
ghost use Rattle.factors.specs.Sites.{site_cells, stored_site, FactorSite, SitesTo, Sited, RowFor};

use compose::{Arrays, Composition};
use composer::{Fates, Site, Survivors, Writer};
use factor_ends::Chains;
use flat_names::{PrefixRooms, Prefixes};
use flat_table::Class;
use names::{Reason, Refusal};
use recipe::Kind;
use shadow::cell;

// Sixteen for each of 64 instances: the instance and the record of eight factors.
const SITE_CELLS: usize = 1024;

// Eight fields, for names of 64 bytes.
const ROW_BYTES: usize = 2624;

// The answer of flattening with factors: 0, or the number and place of the refusal; the records and bytes of the flat table, and the entries of the companion.
#[repr(C)]
#[derive(Clone, Copy)]
pub struct FactorsAnswer {
    pub number: u64,
    pub place: u64,
    pub count: u64,
    pub bytes: u64,
    pub entries: u64,
}

// The bytes of an entry.
fn entry_width(w: usize) -> usize
    requires { w ≤ 64 }
    ensures { result ≡ entry_length w }
{
    1 + 9 * composer::field_width(w)
}

// Whether the element of number e has class 4 or 6.
fn is_rated(c: &Composition, e: usize) -> bool
    requires { e < length (tree_elements (recipe c.now.tree.source.now)) }
    ensures { result ≡ is_rated (recipe c.now.tree.source.now) (element_at (recipe c.now.tree.source.now) e) }
{
    let k = references::class_of(&c.tree.aims(), c.elements, e);
    (k == Class::Reaction as u8) | (k == Class::RateRule as u8)
}

// How many survivors have.
fn count_entries(c: &Composition) -> usize
    ensures { result ≡ length (rated (recipe c.now.tree.source.now)) }
{
    Survivors::of(&Fates::of(c))
        .filter(|&e| is_rated(c, e))
        .count()
}

// Where the end of the chain is from the element that a factor names, if it names one, in the instance whose first element has the number f.
fn factor_site(c: &Composition, f: usize, named: Option<usize>) -> Option<Site>
    requires { FactorAt (recipe c.now.tree.source.now) f named }
    ensures { FactorSite (recipe c.now.tree.source.now) f named result × IfSome result (λ x. (x.inst < 65536) × (x.place < 65536)) }
{
    let chains = Chains {
        aims: c.tree.aims(),
        elements: c.elements,
    };
    let z = chains.factor_end(f, named)?;
    Some(Site::of(c.elements, z))
}

// Writes a site: two numbers, both 0 for none.
fn put_site(sites: &mut [u16], at: usize, site: Option<Site>)
    requires { (at + 1 < length sites.old) × IfSome site (λ x. (x.inst < 65536) × (x.place < 65536)) }
    ensures { sites.new ≡ sets sites.old at (site_cells site) }
{
    let x = site.unwrap_or(Site { inst: 0, place: 0 });
    sites[at] = x.inst as u16;
    sites[at + 1] = x.place as u16;
}

// Reads one.
fn site_in(sites: &[u16], at: usize) -> Option<Site>
    requires { at + 1 < length sites.now }
    ensures { result ≡ stored_site sites.now at }
{
    Site::linked(cell(sites, at, 0), sites, at, 1)
}

// The row of instance i: that of the instance around it, and the factors of its own submodel, which are named there.
fn fill_row(c: &Composition, i: usize, sites: &mut [u16])
    requires { ((0 < i) × (i < length (instances (recipe c.now.tree.source.now)))) × SitesTo (recipe c.now.tree.source.now) sites.old i }
    ensures { SitesTo (recipe c.now.tree.source.now) sites.new (i + 1) }
{
    let t = c.tree.shadow;
    let inst = c.tree.instances;
    let u = cell(inst, 6 * i, tree::AROUND);
    let d = cell(inst, 6 * u, tree::DEPTH);
    let m = cell(inst, 6 * i, tree::SUBMODEL_RECORD);
    sites.copy_within(16 * u..16 * u + 16, 16 * i);
    let Some(k) = shadow::link(t, m, shadow::FACTORS) else {
        return;
    };
    let f = cell(inst, 6 * u, tree::FIRST_ELEMENT);
    let x = factor_site(c, f, shadow::link(t, k, shadow::TIME_FACTOR));
    put_site(sites, 16 * i + 2 * d, x);
    let y = factor_site(c, f, shadow::link(t, k, shadow::EXTENT_FACTOR));
    put_site(sites, 16 * i + 2 * (4 + d), y);
}

// For each instance where its eight factors are.
fn fill_sites(c: &Composition, sites: &mut [u16])
    requires { SitesTo (recipe c.now.tree.source.now) sites.old 1 }
    ensures { Sited (recipe c.now.tree.source.now) sites.new }
{
    for i in 1..c.size.insts {
        fill_row(c, i, sites);
    }
}

// What the entries are written of: what composing leaves, the prefixes, and where the eight factors of each instance are.
#[derive(Clone, Copy)]
struct FactorSites<'a> {
    composition: &'a Composition<'a>,
    prefixes: Prefixes<'a>,
    sites: &'a [u16],
    ghost alike: { recipe prefixes.source.now ≡ recipe composition.now.tree.source.now } by { Prim.hlevel props },
    ghost sited: { Sited (recipe composition.now.tree.source.now) sites.now } by { Prim.hlevel props },
}

impl<'a> FactorSites<'a> {
    // Writes the eight fields of the factors of instance i.
    fn put_factors(&self, i: usize, row: &mut [u8])
        requires { (i < length (instances (recipe self.now.composition.now.tree.source.now))) × (2624 ≤ length row.old) }
        ensures { RowFor (recipe self.now.composition.now.tree.source.now) i row.new }
    {
        let c = self.composition;
        let f = composer::field_width(c.tree.source.width);
        for j in 0..8usize {
            let site = site_in(self.sites, 16 * i + 2 * j);
            composer::put_field(&self.prefixes, site, row, j * f);
        }
    }

    // The same, where the row has those of the instance `kept` already, if any.
    fn keep_factors(&self, i: usize, kept: Option<usize>, row: &mut [u8])
        requires { let s = recipe self.now.composition.now.tree.source.now in ((i < length (instances s)) × (2624 ≤ length row.old)) × IfSome kept (λ k. RowFor s k row.old) }
        ensures { RowFor (recipe self.now.composition.now.tree.source.now) i row.new }
    {
        if kept == Some(i) {
            return;
        }
        self.put_factors(i, row);
    }

    // Writes the companion: the entry of each survivor of class 4 or 6, in tree order. The elements of an instance stand together, so that its factors are written out once.
    fn write_companion(&self, out: &mut [u8])
        requires { let s = recipe self.now.composition.now.tree.source.now in entry_length s.width * length (rated s) ≤ length out.old }
        ensures { let s = recipe self.now.composition.now.tree.source.now in out.new ≡ companion s ++ drop (length (companion s)) out.old }
    {
        let c = self.composition;
        let w = c.tree.source.width;
        let f = composer::field_width(w);
        let n = entry_width(w);
        let mut row = [0u8; ROW_BYTES];
        let mut kept = None;
        let mut p = 0usize;
        for e in Survivors::of(&Fates::of(c)) {
            if !is_rated(c, e) {
                continue;
            }
            let x = Site::of(c.elements, e);
            self.keep_factors(x.inst, kept, &mut row);
            kept = Some(x.inst);
            out[p] = Kind::Factors as u8;
            self.prefixes.put_name(x.inst, x.place, out, p + 1);
            names::put_bytes(&row[..8 * f], out, p + 1 + f);
            p += n;
        }
    }
}

impl From<Refusal> for FactorsAnswer {
    ghost from_gives = { λ r a. a ≡ factors_refused (row_number r.reason) r.place };

    fn from(r: Refusal) -> FactorsAnswer {
        FactorsAnswer {
            number: r.reason.number(),
            place: r.place as u64,
            count: 0,
            bytes: 0,
            entries: 0,
        }
    }
}

// The prefixes, once for both tables, and these.
fn write_both(c: &Composition, table: &mut [u8], entries: &mut [u8])
    requires { let s = recipe c.now.tree.source.now in (flat_length s.width * length (survivors s) ≤ length table.old) × (entry_length s.width * length (rated s) ≤ length entries.old) }
    ensures { let s = recipe c.now.tree.source.now in (table.new ≡ flat s ++ drop (length (flat s)) table.old) × (entries.new ≡ companion s ++ drop (length (companion s)) entries.old) }
{
    let mut rooms = PrefixRooms::new();
    let mut sites = [0u16; SITE_CELLS];
    let from = Writer::of(c, &mut rooms);
    composer::write_table(&from, table);
    fill_sites(c, &mut sites);
    FactorSites {
        composition: c,
        prefixes: from.prefixes,
        sites: &sites,
    }
    .write_companion(entries);
}

// Row 13, of a recipe that no other row refuses; where it does not apply, both tables.
fn flatten_composed(c: &Composition, table: &mut [u8], entries: &mut [u8]) -> FactorsAnswer
    requires { Unrefused (recipe c.now.tree.source.now) }
    ensures { let s = recipe c.now.tree.source.now in (result ≡ factors_verdict s (length table.old) (length entries.old)) × ((table.new ≡ table_after s table.old (length entries.old)) × (entries.new ≡ companion_after s (length table.old) entries.old)) }
{
    let no_room = Refusal {
        reason: Reason::NoRoom,
        place: 0,
    };
    let w = c.tree.source.width;
    let count = composer::count_survivors(&Fates::of(c));
    let k = count_entries(c);
    let bytes = count * composer::record_width(w);
    if table.len() < bytes {
        return FactorsAnswer::from(no_room);
    }
    if entries.len() < k * entry_width(w) {
        return FactorsAnswer::from(no_room);
    }
    write_both(c, table, entries);
    FactorsAnswer {
        number: 0,
        place: 0,
        count: count as u64,
        bytes: bytes as u64,
        entries: k as u64,
    }
}

// 02's flattening with factors of a recipe of name width 12: the answer, the flat table as `bandrolt_flatten` writes it, and the companion; on a refusal both outputs as they were.
pub fn bandrolt_flatten_with_factors(
    recipe: &[u8],
    table: &mut [u8],
    companion: &mut [u8],
) -> FactorsAnswer
    ensures { (result ≡ factors_verdict (recipe_of recipe.now) (length table.old) (length companion.old)) × ((table.new ≡ table_after (recipe_of recipe.now) table.old (length companion.old)) × (companion.new ≡ companion_after (recipe_of recipe.now) (length table.old) companion.old)) }
{
    let mut arrays = Arrays::new();
    match compose::compose(&composer::source(recipe), arrays.rooms()) {
        Err(refusal) => FactorsAnswer::from(refusal),
        Ok(c) => flatten_composed(&c.with_source(&composer::source(recipe)), table, companion),
    }
}
