//! Classes by a walk along the chain of superclasses.
ghost use Rattle.std.specs.Prelude.{◌≡◌, IfOk, IfErr};
ghost use Rattle.hierarchy.specs.Summary.{facts_of};
ghost use Rattle.hierarchy.specs.Faults.{FaultOf};
ghost use Rattle.hierarchy.specs.Rules.{IsHierarchy};

use crate::answer::Answer;
use crate::checked_classes::checked_index;
use crate::classes::Classes;
use crate::fault::HierarchyFault;
use crate::index::Index;
use crate::member_references::References;
use crate::places::short;
use crate::summary::Summary;
use std::alloc::{AllocError, Global};
use std::hash::BuildHasher;
use std::marker::Model;

/// A hierarchy that answers by a walk along the chain of superclasses. It borrows the list that it is made from, and
/// copies no name.
#[derive(Drop)]
pub struct Chains<'s, 'a, S: BuildHasher> {
    index: Index<'s, 'a, S>,
}

impl<'s, 'a, S: BuildHasher> Model for Chains<'s, 'a, S> {
    ghost use Rattle.std.specs.Prelude.{List};
    ghost use Rattle.hierarchy.specs.Class.{ClassFact};
    ghost use Rattle.hierarchy.specs.Rules.{IsHierarchy};

    ghost Value = { List ClassFact };

    ghost view = { λ c. c.index };

    ghost invariant = { λ c. IsHierarchy c.index };
}

impl<'s, 'a, S: BuildHasher + Drop> Chains<'s, 'a, S> {
    /// The classes of a list. Names are found by their hashes: n classes take time n log n, unless the hasher gives
    /// most of their names one hash, and then n²; which one is handed in is the caller's choice.
    ///
    /// Refused by the least number that holds, with the name of the first class in the list's order: 40 `ClassTwice`,
    /// 41 `Cycle`, 42 `SuperMissing`, 43 `NoObject`, 44 `BadArrayInterface`, 45 `TooManyClasses`, 46 `InterfaceSuper`;
    /// and 1 where there was no memory left.
    pub fn new(
        alloc: Global,
        classes: &'s [Summary<'a>],
        hasher: S,
    ) -> Result<Self, HierarchyFault<'a>>
        ensures ok { IfOk result (λ c. c ≡ facts_of classes.now) }
        ensures formed { IfOk result IsHierarchy }
        ensures err { IfErr result (FaultOf (facts_of classes.now)) }
    {
        Ok(Chains {
            index: checked_index(alloc, classes, hasher)?,
        })
    }
}

impl<'s, 'a, S: BuildHasher> Classes for Chains<'s, 'a, S> {
    ghost content = { λ c. c };

    fn find(&self, name: &[u8]) -> Option<&Summary<'_>> {
        self.index.find(name)
    }

    fn place(&self, name: &[u8]) -> Option<u16> {
        short(self.index.place(name))
    }

    fn is_interface(&self, name: &[u8]) -> Option<bool> {
        self.index.is_interface(name)
    }

    fn is_subclass<'n>(&self, a: &'n [u8], b: &'n [u8]) -> Answer<'n> {
        if a == b {
            return Answer::Yes;
        }
        if self.index.find(a).is_none() {
            return Answer::Missing(a);
        }
        if self.index.reaches(a, b) {
            Answer::Yes
        } else {
            Answer::No
        }
    }

    fn is_interface_at(&self, place: u16) -> bool {
        self.index.is_interface_at(usize::from(place))
    }

    fn is_below(&self, a: u16, b: u16) -> bool {
        let Some(from) = self.index.name_at(usize::from(a)) else {
            return false;
        };
        let Some(to) = self.index.name_at(usize::from(b)) else {
            return false;
        };
        self.index.reaches(from, to)
    }

    fn guarded_in_advance(
        &self,
        _alloc: Global,
        _class: &[u8],
        _references: &References<'_>,
    ) -> Result<Option<Vec<bool>>, AllocError> {
        Ok(None)
    }

    fn overriding_in_advance(
        &self,
        _alloc: Global,
        _class: &Summary<'_>,
    ) -> Result<Option<Option<usize>>, AllocError> {
        Ok(None)
    }
}
