// What the records of a recipe name: rows 4 and 5, and in the shadow the record that each field names.
// For the floors above: resolve_names.
#![tactic(auto)]

ghost use Rattle.std.specs.Prelude.{◌≡◌, true, cond, None, ◌+◌, ◌≤◌, length, set, unwrap_or, OnOk};
ghost use Rattle.std.specs.Result.{result_err};
ghost use Rattle.std.proofs.Props.{props};
ghost use Rattle.names.specs.Lists.{In, among};
ghost use Rattle.names.specs.Names.{text, is_blank};
ghost use Rattle.names.specs.Judging.{judged};
ghost use Rattle.recipe.specs.Records.{recipe, kind_byte, places, owned_kind, kind, submodel_field};
ghost use Rattle.recipe.specs.Definitions.{holder, element_in, named_by};
ghost use Rattle.recipe.specs.Reading.{fault₃, is_parent_fault, fault₄, fault₅};
ghost use Rattle.recipe.specs.Fields.{mark_fields};
ghost use Rattle.shadow.specs.Shadow.{Cell};
ghost use Rattle.shadow.specs.Columns.{Numbered, Linked, Unpaired};
ghost use Rattle.record_index.specs.Entries.{record_named};
ghost use Rattle.record_index.specs.Indexed.{recipe_of};
ghost use Rattle.links.specs.Links.{declared_rows, OptionalAt, Unowned, is_pointing, way_kind, links_of, own_of, Pointed};

use names::{Reason, Refusal};
use recipe::{
    ElementFields, FactorsFields, Kind, MOST_BYTES, Mark, PortFields, Record, Records, Source,
    SubmodelFields, Way,
};
use record_index::{RecordIndex, Sought, Tables};

// The most records of a recipe, rounded up.
const MOST_RECORDS: usize = 1536;

// What a record names, by the cells 3 to 5: each a record, or nothing.
#[derive(Clone, Copy)]
struct Links {
    upper: Option<u16>,
    lower: Option<u16>,
    own: Option<u16>,
}

// The index of the records of a recipe that row 4 does not refuse, in which what they name is looked up.
#[derive(Clone, Copy)]
struct Linker<'a> {
    index: RecordIndex<'a>,
    ghost once: { fault₄ (recipe_of index) ≡ None } by { Prim.hlevel props },
}

// A record of that recipe, and the definition that holds it.
#[derive(Clone, Copy)]
struct Held<'a> {
    linker: &'a Linker<'a>,
    place: usize,
    definition: usize,
    ghost placed: { among place (places (recipe_of linker.now.index)) ≡ true },
    ghost held: { definition ≡ holder (recipe_of linker.now.index) place },
}

// The kind of the record that a way names.
fn kind_of(way: Way) -> Kind
    ensures { result ≡ way_kind way }
{
    match way {
        Way::ByElement(_) => Kind::Element,
        Way::ByPort(_) => Kind::Port,
    }
}

impl<'a> Held<'a> {
    ghost use Rattle.recipe.specs.declared.Record.TheVariants.{Element, Port, Submodel, Factors};
    ghost use Rattle.links.specs.Held.{its_recipe, its_field, SoughtAt, ReadsAs};

    // The record of kind k, of the record's definition, whose name the field at q is.
    fn find(&self, k: Kind, q: usize) -> Option<u16>
        requires { SoughtAt self.now k q }
        ensures { result ≡ record_named (its_recipe self.now) (kind_byte k) self.now.definition (text (its_field self.now q)) }
    {
        self.linker.index.find(Sought {
            kind: k,
            definition: self.definition,
            name: q,
        })
    }

    // Whether the field at q is blank.
    fn is_blank(&self, q: usize) -> bool
        requires { q + (its_recipe self.now).width ≤ length (its_recipe self.now).bytes }
        ensures { result ≡ is_blank (its_field self.now q) }
    {
        let linker = self.linker;
        let s = linker.index.source;
        names::is_blank(names::field_at(s.bytes, q, s.width))
    }

    // The element of the record's definition that the field at q names; a blank names none.
    fn find_element(&self, q: usize) -> Option<u16>
        requires { OptionalAt (its_recipe self.now) q }
        ensures { result ≡ element_in (its_recipe self.now) self.now.place (its_field self.now q) }
    {
        if self.is_blank(q) {
            return None;
        }
        self.find(Kind::Element, q)
    }

    // Whether row 5 refuses the element, whose parent field names that parent.
    fn parent_fault(&self, e: ElementFields, parent: Option<u16>) -> bool
        requires { ReadsAs self.now (Element e) × (parent ≡ element_in (its_recipe self.now) self.now.place (its_field self.now e.parent)) }
        ensures { result ≡ is_parent_fault (its_recipe self.now) self.now.place }
    {
        let linker = self.linker;
        let s = linker.index.source;
        let Some(a) = parent else {
            let b = self.is_blank(e.parent);
            return !(b & flat_table::parent_may_be_blank(e.class));
        };
        let p = self.place;
        let q = recipe::wide(a);
        !((q < p) & flat_table::parent_allowed(e.class, s.class_at(q)))
    }

    // An element: its parent and reference.
    fn link_element(&self, e: ElementFields) -> Option<Links>
        requires { ReadsAs self.now (Element e) }
        ensures { result ≡ links_of (its_recipe self.now) self.now.place }
    {
        let parent = self.find_element(e.parent);
        if self.parent_fault(e, parent) {
            return None;
        }
        let reference = self.find_element(e.reference);
        Some(Links {
            upper: parent,
            lower: reference,
            own: None,
        })
    }

    // A submodel: its model.
    fn link_submodel(&self, e: SubmodelFields) -> Option<Links>
        requires { ReadsAs self.now (Submodel e) }
        ensures { result ≡ links_of (its_recipe self.now) self.now.place }
    {
        let model = self.find(Kind::Model, e.model)?;
        Some(Links {
            upper: Some(model),
            lower: None,
            own: None,
        })
    }

    // A port with a blank submodel: the element that it names.
    fn link_own_port(&self, e: PortFields) -> Option<Links>
        requires { ReadsAs self.now (Port e) × (is_blank (submodel_field (its_recipe self.now) self.now.place) ≡ true) }
        ensures { result ≡ links_of (its_recipe self.now) self.now.place }
    {
        let target = e.target;
        match target {
            Way::ByPort(_) => None,
            Way::ByElement(q) => {
                let own = self.find(Kind::Element, q)?;
                Some(Links {
                    upper: None,
                    lower: None,
                    own: Some(own),
                })
            },
        }
    }

    // A port or deletion that names a submodel, by the field at q.
    fn link_pointer(&self, q: usize) -> Option<Links>
        requires { Unowned (its_recipe self.now) self.now.place q }
        ensures { result ≡ links_of (its_recipe self.now) self.now.place }
    {
        let submodel = self.find(Kind::Submodel, q)?;
        Some(Links {
            upper: None,
            lower: Some(submodel),
            own: None,
        })
    }

    // A port: its submodel, or of a blank the element that it names.
    fn link_port(&self, e: PortFields) -> Option<Links>
        requires { ReadsAs self.now (Port e) }
        ensures { result ≡ links_of (its_recipe self.now) self.now.place }
    {
        if self.is_blank(e.submodel) {
            return self.link_own_port(e);
        }
        self.link_pointer(e.submodel)
    }

    // A mark with an owner: its owner and submodel.
    fn link_owned(&self, m: Mark) -> Option<Links>
        requires { (owned_kind (kind (its_recipe self.now) self.now.place) ≡ true) × (m ≡ mark_fields (its_recipe self.now) self.now.place) }
        ensures { result ≡ links_of (its_recipe self.now) self.now.place }
    {
        let owner = self.find_element(m.owner);
        let submodel = self.find(Kind::Submodel, m.submodel);
        if submodel.is_none() | owner.is_none() {
            return None;
        }
        Some(Links {
            upper: owner,
            lower: submodel,
            own: None,
        })
    }

    // A kind 8: its two factors and its submodel. Row 5 never refuses it.
    fn link_factors(&self, e: FactorsFields) -> Links
        requires { ReadsAs self.now (Factors e) }
        ensures { Some result ≡ links_of (its_recipe self.now) self.now.place }
    {
        let time = self.find_element(e.time);
        let extent = self.find_element(e.extent);
        let submodel = self.find(Kind::Submodel, e.submodel);
        Links {
            upper: time,
            lower: submodel,
            own: extent,
        }
    }

    // What the record names; nothing where row 5 refuses it.
    fn link_record(&self) -> Option<Links>
        ensures { result ≡ links_of (its_recipe self.now) self.now.place }
    {
        let linker = self.linker;
        match recipe::read_record(linker.index.source, self.place)? {
            Record::Model(_) => Some(Links {
                upper: None,
                lower: None,
                own: None,
            }),
            Record::Element(e) => self.link_element(e),
            Record::Port(e) => self.link_port(e),
            Record::Submodel(e) => self.link_submodel(e),
            Record::Deletion(m) => self.link_pointer(m.submodel),
            Record::Replacement(m) => self.link_owned(m),
            Record::ReplacedBy(m) => self.link_owned(m),
            Record::Factors(e) => Some(self.link_factors(e)),
        }
    }
}

impl<'a> Linker<'a> {
    // Links each record, up to the first to which row 5 applies.
    fn link_records(&self, t: &mut [u16]) -> Option<usize>
        requires { Numbered (recipe_of self.now.index) t.old }
        ensures { (result ≡ fault₅ (recipe_of self.now.index)) × (result ≡ None → Pointed (recipe_of self.now.index) t.new × Cell (places (recipe_of self.now.index)) 5 (own_of (recipe_of self.now.index)) t.new) }
    {
        for p in Records::of(self.index.source) {
            let h = Held {
                linker: &*self,
                place: p,
                definition: shadow::cell(t, p, shadow::DEFINITION_OF),
            };
            let Some(l) = h.link_record() else {
                return Some(p);
            };
            shadow::set_link(t, p, shadow::OWNER, l.upper);
            shadow::set_link(t, p, shadow::SUBMODEL, l.lower);
            shadow::set_link(t, p, shadow::NAMED_RECORD, l.own);
        }
        None
    }

    // Writes what the record at p names, if it is a port or mark with a submodel.
    fn name_target(&self, t: &mut [u16], p: usize)
        requires { Pointed (recipe_of self.now.index) t.old × In p (places (recipe_of self.now.index)) }
        ensures { t.new ≡ cond (is_pointing (recipe_of self.now.index) p) (set t.old (p + 5) (unwrap_or (named_by (recipe_of self.now.index) p) 0)) t.old }
    {
        let s = self.index.source;
        let k = s.bytes[p];
        if !recipe::is_pointer(k) {
            return;
        }
        let Some(m) = shadow::link(t, p, shadow::SUBMODEL) else {
            return;
        };
        let at = p + 1 + (recipe::submodel_offset(k, s.width) + s.width);
        // Row 3 refuses a way byte without a meaning, so that there is a way.
        let Some(way) = Way::of(s.bytes[at], at + 1) else {
            return;
        };
        let sought = Sought {
            kind: kind_of(way),
            definition: shadow::cell(t, m, shadow::MODEL),
            name: at + 1,
        };
        let named = self.index.find(sought);
        shadow::set_link(t, p, shadow::NAMED_RECORD, named);
    }

    // Writes what each port and mark names that has a submodel.
    fn name_targets(&self, t: &mut [u16])
        requires { Pointed (recipe_of self.now.index) t.old × Cell (places (recipe_of self.now.index)) 5 (own_of (recipe_of self.now.index)) t.old }
        ensures { Linked (recipe_of self.now.index) t.new × Unpaired (recipe_of self.now.index) t.new }
    {
        for p in Records::of(self.index.source) {
            self.name_target(t, p);
        }
    }
}

// Rows 4 and 5, by the index; where neither applies, what the records name.
fn judge_names(index: RecordIndex, t: &mut [u16]) -> Result<(), Refusal>
    requires { Numbered (recipe_of index) t.old }
    ensures { (result_err result ≡ judged (declared_rows (recipe_of index.entry))) × OnOk result (Linked (recipe_of index.entry) t.new × Unpaired (recipe_of index.entry) t.new) }
{
    names::judge(Reason::Repeated, index.first_repeated())?;
    let linker = Linker { index };
    names::judge(Reason::Undeclared, linker.link_records(t))?;
    linker.name_targets(t);
    Ok(())
}

// Rows 4 and 5; where neither applies, the cells 3 to 5.
pub fn resolve_names(s: &Source, t: &mut [u16]) -> Result<(), Refusal>
    requires { Numbered (recipe s.now) t.old × (fault₃ (recipe s.now) ≡ None) }
    ensures { (result_err result ≡ judged (declared_rows (recipe s.now))) × (OnOk result (Linked (recipe s.now) t.new × Unpaired (recipe s.now) t.new) × (length t.new ≡ length t.old)) }
{
    let mut at = [0u16; MOST_RECORDS];
    let mut fields = [0u8; MOST_BYTES];
    let mut keys = [0u32; MOST_RECORDS];
    let mut order = [0u16; MOST_RECORDS];
    let tables = Tables {
        at: &mut at,
        fields: &mut fields,
        keys: &mut keys,
        order: &mut order,
    };
    let index = RecordIndex::of(s, t, tables);
    judge_names(index, t)
}
