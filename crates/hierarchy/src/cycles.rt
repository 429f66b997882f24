//! The first class that stands on the chain of its own superclasses.
ghost use Rattle.std.specs.Prelude.{◌≡◌, IfOk, MatchOption, map};
ghost use Rattle.hierarchy.specs.Class.{ClassFact};
ghost use Rattle.hierarchy.specs.Summary.{fact_of, facts_of};
ghost use Rattle.hierarchy.specs.Rules.{IsTwice, IsOnCycle, NoClass, IsFirst};
ghost use Rattle.hierarchy.specs.Ancestors.{superclass_place, place_after};

use crate::index::Index;
use crate::places::{lowest, name_at};
use crate::summary::Summary;
use std::alloc::{AllocError, Global};
use std::hash::BuildHasher;

/// The place of the superclass of a class.
pub fn superclass_place<'s, 'a, S: BuildHasher>(
    class: &Summary<'a>,
    index: &Index<'s, 'a, S>,
) -> Option<usize>
    ensures { result ≡ superclass_place index.now (fact_of class.now) }
{
    match class.superclass {
        None => None,
        Some(name) => index.place(name),
    }
}

// The place of the superclass of each class.
fn superclass_places<'s, 'a, S: BuildHasher>(
    alloc: Global,
    classes: &[Summary<'a>],
    index: &Index<'s, 'a, S>,
) -> Result<Vec<Option<usize>>, AllocError>
    ensures { IfOk result (λ places. places.items ≡ map (λ c. superclass_place index.now (fact_of c)) classes.now) }
{
    classes
        .iter()
        .map(|class| superclass_place(class, index))
        .collect(alloc)
}

// The place to which a table leads from a place.
fn place_after(places: &[Option<usize>], place: Option<usize>) -> Option<usize>
    ensures { result ≡ place_after places.now place }
{
    match place {
        None => None,
        Some(k) => match places.get(k) {
            None => None,
            Some(next) => *next,
        },
    }
}

/// The table for twice as many steps, of a table that leads from each place to the one so many steps on, where there is
/// one. It fails only if memory runs out.
pub fn twice_as_far(
    alloc: Global,
    places: &[Option<usize>],
) -> Result<Vec<Option<usize>>, AllocError>
    ensures { IfOk result (λ twice. twice.items ≡ map (place_after places.now) places.now) }
{
    places
        .iter()
        .map(|place| place_after(places, *place))
        .collect(alloc)
}

/// The name of the first class in the list that stands on the chain of its own superclasses.
///
/// A class that stands more steps above some class than there are classes is on a cycle, and each class on a cycle
/// stands so. The steps are doubled until they are more than the classes, which takes time n log n for n classes.
pub fn first_on_cycle<'s, 'a, S: BuildHasher>(
    alloc: Global,
    classes: &[Summary<'a>],
    index: &Index<'s, 'a, S>,
) -> Result<Option<&'a [u8]>, AllocError>
    requires same { index.now ≡ facts_of classes.now }
    requires one_each { NoClass (IsTwice (facts_of classes.now)) (facts_of classes.now) }
    ensures { IfOk result
        (λ first. MatchOption first (NoClass (IsOnCycle (facts_of classes.now)) (facts_of classes.now))
        (λ name. IsFirst (IsOnCycle (facts_of classes.now)) (facts_of classes.now) name.now)) }
{
    let mut places = superclass_places(alloc, classes, index)?;
    let mut left = classes.len();
    while left > 0 {
        places = twice_as_far(alloc, &places)?;
        left /= 2;
    }
    match lowest(&places) {
        None => Ok(None),
        Some(place) => Ok(Some(name_at(classes, place))),
    }
}
