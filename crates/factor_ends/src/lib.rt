// The factors of submodels, and where the chains from them end; the refusal 20.
// For the floors above: Chains, what it takes to follow a chain, with factor_end; FactorTree, what it takes to judge factors, with first_misfactored.
#![tactic(auto)]

ghost use Rattle.std.specs.Prelude.{◌≡◌, true, ◌<◌, IfSome};
ghost use Rattle.recipe.specs.Records.{recipe};
ghost use Rattle.factor_ends.specs.FactorEnds.{ChainsRequires, FactorsRequires};

use flat_table::Class;
use recipe::{Kind, Records};
use shadow::{ELEMENT_ORDER, EXTENT_FACTOR, TIME_FACTOR, cell};
use targets::Aims;
use tree::{FIRST_ELEMENT, InstancesOf};

// What is known of the tree without its instances, and the rows of the elements: chains can be followed.
#[derive(Clone, Copy)]
pub struct Chains<'a> {
    pub aims: Aims<'a>,
    pub elements: &'a [u16],
    pub ghost chained: { ChainsRequires (recipe aims.source.now) elements.now },
}

// The rows of the instances besides, and it is known which elements are gone: factors can be judged.
#[derive(Clone, Copy)]
pub struct FactorTree<'a> {
    pub chains: Chains<'a>,
    pub instances: &'a [u16],
    pub ghost factored: { FactorsRequires (recipe chains.aims.source.now) chains.aims.shadow.now instances.now chains.elements.now },
}

impl<'a> Chains<'a> {
    ghost use Rattle.factor_ends.specs.FactorEnds.{FactorAt, FactorEnd};
    ghost use Rattle.factor_ends.specs.Recipes.{chained_recipe};

    // The number of the end of the chain from the element that is named, if one is, in the instance whose first element has the number f.
    pub fn factor_end(&self, f: usize, named: Option<usize>) -> Option<usize>
        requires { FactorAt (chained_recipe self.now) f named }
        ensures { FactorEnd (chained_recipe self.now) f named result × IfSome result (λ z. z < 1024) }
    {
        let q = named?;
        let e = f + cell(self.aims.shadow, q, ELEMENT_ORDER);
        Some(references::chain_end(self.elements, e))
    }
}

impl<'a> FactorTree<'a> {
    ghost use Rattle.names.specs.Lists.{In};
    ghost use Rattle.recipe.specs.Records.{places, is_factors};
    ghost use Rattle.tree.specs.Tree.{Node};
    ghost use Rattle.marks.specs.Faults.{is_unfactored, fault₂₀};
    ghost use Rattle.elements.specs.Gone.{Numbers};
    ghost use Rattle.factor_ends.specs.FactorFaults.{FactorField, FactorFaultAt, FactorTold};
    ghost use Rattle.factor_ends.specs.Recipes.{factored_recipe};

    // The element of number z can be a factor: it survives, and is of class 3.
    fn is_factor(&self, z: usize) -> bool
        requires { Numbers (factored_recipe self.now) z }
        ensures { FactorTold (factored_recipe self.now) z result }
    {
        let c = self.chains;
        let kept = !elements::is_gone(c.elements, z);
        kept & (references::class_of(&c.aims, c.elements, z) == Class::Parameter as u8)
    }

    // The factor in the field at `at`, by which an element is named or none, is at fault in the instance whose first element has the number f.
    fn is_factor_fault(&self, f: usize, named: Option<usize>, at: usize) -> bool
        requires { (x : Node) × FactorField (factored_recipe self.now) f named at x }
        ensures { FactorFaultAt (factored_recipe self.now) f named at result }
    {
        let s = self.chains.aims.source;
        if names::is_blank(names::field_at(s.bytes, at, s.width)) {
            return false;
        }
        let Some(z) = self.chains.factor_end(f, named) else {
            return true;
        };
        !self.is_factor(z)
    }

    // The kind 8 at p has, in some instance of its definition, a factor that is at fault.
    fn misfactored_at(&self, p: usize) -> bool
        requires { In p (places (factored_recipe self.now)) × (is_factors (factored_recipe self.now) p ≡ true) }
        ensures { result ≡ is_unfactored (factored_recipe self.now) p }
    {
        let w = self.chains.aims.source.width;
        let t = self.chains.aims.shadow;
        let a = shadow::link(t, p, TIME_FACTOR);
        let b = shadow::link(t, p, EXTENT_FACTOR);
        for i in InstancesOf::record(t, self.instances, p) {
            let f = cell(self.instances, 6 * i, FIRST_ELEMENT);
            let time = self.is_factor_fault(f, a, p + 1 + w);
            let extent = self.is_factor_fault(f, b, p + 1 + (w + w));
            if time | extent {
                return true;
            }
        }
        false
    }

    // Row 20: the first kind 8 of which a factor, in some instance of its definition, is no element, or ends gone or at another class than 3.
    pub fn first_misfactored(&self) -> Option<usize>
        ensures { result ≡ fault₂₀ (factored_recipe self.now) }
    {
        let s = self.chains.aims.source;
        for p in Records::of(s) {
            if s.bytes[p] == Kind::Factors as u8 && self.misfactored_at(p) {
                return Some(p);
            }
        }
        None
    }
}
