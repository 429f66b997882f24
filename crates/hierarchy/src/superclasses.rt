//! The classes above a class.
ghost use Rattle.std.specs.Prelude.{◌≡◌, IfOk, option_map};
ghost use Rattle.std.specs.Option.{option_copied};
ghost use Rattle.hierarchy.specs.private.Above.{class_above, first_above, names_above, names_of, ArePlaces};
ghost use Rattle.hierarchy.specs.Rules.{IsHierarchy};
ghost use Rattle.hierarchy.specs.Summary.{fact_of};

use crate::classes::Classes;
use crate::summary::Summary;
use std::alloc::{AllocError, Global};
use std::collections::BTreeMap;

/// The class directly above a class.
pub fn class_above<'s, C: Classes>(classes: &'s C, class: &Summary<'_>) -> Option<&'s Summary<'s>>
    ensures { option_map fact_of (option_copied result) ≡ class_above (C.content classes.now) (fact_of class.now) }
{
    match class.superclass {
        None => None,
        Some(name) => classes.find(name),
    }
}

/// The class directly above the class of this name.
fn first_above<'s, C: Classes>(classes: &'s C, name: &[u8]) -> Option<&'s Summary<'s>>
    ensures first { option_map fact_of (option_copied result) ≡ first_above (C.content classes.now) name.now }
    ensures formed { IsHierarchy (C.content classes.now) }
{
    match classes.find(name) {
        None => None,
        Some(class) => class_above(classes, class),
    }
}

/// The names of the classes above the class of this name, from its superclass up.
pub fn names_above<'s, C: Classes>(
    alloc: Global,
    classes: &'s C,
    name: &[u8],
) -> Result<Vec<&'s [u8]>, AllocError>
    ensures names { IfOk result (λ above. names_of above.items ≡ names_above (C.content classes.now) name.now) }
    ensures formed { IsHierarchy (C.content classes.now) }
{
    let mut above = Vec::new(alloc);
    let mut at = first_above(classes, name);
    while let Some(class) = at {
        above.push(class.name)?;
        at = class_above(classes, class);
    }
    Ok(above)
}

/// The place of each of these names.
pub fn places_of<'s>(
    alloc: Global,
    names: &[&'s [u8]],
) -> Result<BTreeMap<&'s [u8], usize>, AllocError>
    ensures { IfOk result (ArePlaces (names_of names.now)) }
{
    let mut places = BTreeMap::new(alloc);
    for (place, name) in names.iter().enumerate() {
        places.insert(*name, place)?;
    }
    Ok(places)
}
