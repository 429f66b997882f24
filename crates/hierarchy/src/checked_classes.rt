//! A list of classes that keeps the rules of a hierarchy.
ghost use Rattle.std.specs.Prelude.{◌≡◌, IfOk, IfErr, OnOk};
ghost use Rattle.hierarchy.specs.Summary.{facts_of};
ghost use Rattle.hierarchy.specs.Faults.{FaultOf};
ghost use Rattle.hierarchy.specs.Rules.{IsHierarchy, IsTwice, NoClass};

use crate::cycles::first_on_cycle;
use crate::fault::HierarchyFault;
use crate::index::Index;
use crate::rules::{ArrayInterfaces, InterfaceSupers, NoSuper, first_breaking, has_object};
use crate::summary::Summary;
use std::alloc::Global;
use std::hash::BuildHasher;

// Whether classes of which no name stands twice keep the other rules.
fn check_rules<'s, 'a, S: BuildHasher>(
    alloc: Global,
    classes: &[Summary<'a>],
    index: &Index<'s, 'a, S>,
) -> Result<(), HierarchyFault<'a>>
    requires same { index.now ≡ facts_of classes.now }
    requires one_each { NoClass (IsTwice (facts_of classes.now)) (facts_of classes.now) }
    ensures ok { OnOk result (IsHierarchy (facts_of classes.now)) }
    ensures err { IfErr result (FaultOf (facts_of classes.now)) }
{
    let on_cycle = first_on_cycle(alloc, classes, index)?;
    if let Some(name) = on_cycle {
        return Err(HierarchyFault::Cycle { name });
    }
    if let Some(name) = first_breaking(classes, &NoSuper { index }) {
        return Err(HierarchyFault::SuperMissing { name });
    }
    if !has_object(index) {
        return Err(HierarchyFault::NoObject);
    }
    if let Some(name) = first_breaking(classes, &ArrayInterfaces) {
        return Err(HierarchyFault::BadArrayInterface { name });
    }
    if classes.len() > 65535 {
        return Err(HierarchyFault::TooManyClasses);
    }
    if let Some(name) = first_breaking(classes, &InterfaceSupers) {
        return Err(HierarchyFault::InterfaceSuper { name });
    }
    Ok(())
}

/// The classes of a list that is a hierarchy, each found by its name.
///
/// Refused by the least number that holds, with the name of the first class in the list's order: 40 to 46; and 1 where
/// there was no memory left.
pub fn checked_index<'s, 'a, S: BuildHasher + Drop>(
    alloc: Global,
    classes: &'s [Summary<'a>],
    hasher: S,
) -> Result<Index<'s, 'a, S>, HierarchyFault<'a>>
    ensures ok { IfOk result (λ t. t ≡ facts_of classes.now) }
    ensures formed { IfOk result IsHierarchy }
    ensures err { IfErr result (FaultOf (facts_of classes.now)) }
{
    let index = Index::new(alloc, classes, hasher)?;
    check_rules(alloc, classes, &index)?;
    Ok(index)
}
