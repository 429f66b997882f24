//! The rules that a list of classes has to keep.
ghost use Rattle.std.specs.Prelude.{◌↔◌, IsTrue, MatchOption};
ghost use Rattle.hierarchy.specs.Class.{ClassFact};
ghost use Rattle.hierarchy.specs.Summary.{fact_of, facts_of};
ghost use Rattle.hierarchy.specs.Rules.{LacksSuper, HasObject, IsBadArrayInterface, HasWrongSuper, NoClass, IsFirst};

use crate::index::Index;
use crate::summary::Summary;
use names::{CLONEABLE, OBJECT, SERIALIZABLE};
use std::hash::BuildHasher;

// A rule that a class may break.
pub trait Rule {
    ghost Breaks: { Self → ClassFact → Type 0 };

    fn breaks(&self, class: &Summary) -> bool
        ensures { IsTrue result ↔ Breaks self.now (fact_of class.now) };
}

// The name of the first class that breaks a rule.
pub fn first_breaking<'a, R: Rule>(classes: &[Summary<'a>], rule: &R) -> Option<&'a [u8]>
    ensures { MatchOption result (NoClass (R.Breaks rule.now) (facts_of classes.now))
        (λ n. IsFirst (R.Breaks rule.now) (facts_of classes.now) n.now) }
{
    for class in classes {
        if rule.breaks(class) {
            return Some(class.name);
        }
    }
    None
}

/// A class but Object has a superclass in the list.
#[derive(Drop)]
pub struct NoSuper<'t, 's, 'a, S: BuildHasher> {
    pub index: &'t Index<'s, 'a, S>,
}

impl<'t, 's, 'a, S: BuildHasher> Rule for NoSuper<'t, 's, 'a, S> {
    ghost Breaks = { λ r c. LacksSuper r.index.now c };

    fn breaks(&self, class: &Summary) -> bool {
        if class.name == OBJECT {
            return false;
        }
        match class.superclass {
            None => true,
            Some(name) => self.index.find(name).is_none(),
        }
    }
}

/// The interfaces of arrays are interfaces.
#[derive(Drop)]
pub struct ArrayInterfaces;

impl Rule for ArrayInterfaces {
    ghost Breaks = { λ _ c. IsBadArrayInterface c };

    fn breaks(&self, class: &Summary) -> bool {
        (class.name == CLONEABLE || class.name == SERIALIZABLE) && !class.interface
    }
}

/// The superclass of an interface is Object.
#[derive(Drop)]
pub struct InterfaceSupers;

impl Rule for InterfaceSupers {
    ghost Breaks = { λ _ c. HasWrongSuper c };

    fn breaks(&self, class: &Summary) -> bool {
        if !class.interface {
            return false;
        }
        match class.superclass {
            None => true,
            Some(name) => name != OBJECT,
        }
    }
}

/// Whether Object is there, is no interface and has no superclass.
pub fn has_object<'s, 'a, S: BuildHasher>(index: &Index<'s, 'a, S>) -> bool
    ensures { IsTrue result ↔ HasObject index.now }
{
    match index.find(OBJECT) {
        None => false,
        Some(class) => match class.superclass {
            None => !class.interface,
            Some(_) => false,
        },
    }
}
