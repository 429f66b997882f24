//! The classes that stand: those whose chain of superclasses leads to Object, and which break no rule on the way.
ghost use Rattle.std.specs.Prelude.{◌≡◌, ◌^◌, false, map, option_map, IfOk};
ghost use Rattle.std.specs.Option.{option_map_or};
ghost use Rattle.hierarchy.specs.Summary.{fact_of, facts_of};
ghost use Rattle.verify.specs.Standing.{is_root, is_array_class, super_of, onward, stands, standing};
ghost use Rattle.verify.specs.private.EachSteps.{ArePlaced, next_place, class_at, LeadsAhead};

use crate::gathering::Gathered;
use hierarchy::{Summary, twice_as_far};
use names::{CLONEABLE, OBJECT, SERIALIZABLE};
use std::alloc::{AllocError, Global};
use std::collections::BTreeMap;

/// Whether a class is Object, as the root of all classes.
fn is_root(class: &Summary<'_>) -> bool
    ensures { result ≡ is_root (fact_of class.now) }
{
    class.name == OBJECT && !class.interface && class.superclass.is_none()
}

/// Whether a class is an interface of arrays and yet no interface.
fn is_array_class(class: &Summary<'_>) -> bool
    ensures { result ≡ is_array_class (fact_of class.now) }
{
    (class.name == CLONEABLE || class.name == SERIALIZABLE) && !class.interface
}

/// The superclass of a class, which has this name, unless the class breaks a rule (44, 46).
fn super_of<'a>(class: &Summary<'a>, superclass: &'a [u8]) -> Option<&'a [u8]>
    ensures { option_map (λ n. n.now) result ≡ super_of (fact_of class.now) superclass.now }
{
    if is_array_class(class) || class.interface && superclass != OBJECT {
        None
    } else {
        Some(superclass)
    }
}

/// The name of the class with which the chain of superclasses goes on.
fn onward<'a>(class: &Summary<'a>) -> Option<&'a [u8]>
    ensures { option_map (λ n. n.now) result ≡ onward (fact_of class.now) }
{
    if is_root(class) {
        return Some(class.name);
    }
    match class.superclass {
        None => None,
        Some(superclass) => super_of(class, superclass),
    }
}

/// The place of that class.
fn next_place(class: &Summary<'_>, places: &BTreeMap<&[u8], usize>) -> Option<usize>
    ensures { result ≡ next_place places.now (fact_of class.now) }
{
    match onward(class) {
        None => None,
        Some(name) => match places.get(name) {
            None => None,
            Some(place) => Some(*place),
        },
    }
}

/// The place of that class, for each class.
fn next_places<'a>(
    alloc: Global,
    classes: &[Summary<'a>],
    places: &BTreeMap<&'a [u8], usize>,
) -> Result<Vec<Option<usize>>, AllocError>
    ensures { IfOk result (λ next. next.items ≡ map (λ c. next_place places.now (fact_of c)) classes.now) }
{
    classes
        .iter()
        .map(|class| next_place(class, places))
        .collect(alloc)
}

/// From each class the place of the class 65,536 steps on, which is Object where it stands. The steps are doubled, so n
/// classes take time n.
fn far_places(alloc: Global, gathered: &Gathered<'_>) -> Result<Vec<Option<usize>>, AllocError>
    requires { ArePlaced (facts_of gathered.now.classes.items) gathered.now.places }
    ensures { IfOk result (λ far. LeadsAhead (facts_of gathered.now.classes.items) (2 ^ 16) far.items) }
{
    let mut places = next_places(alloc, &gathered.classes, &gathered.places)?;
    for _ in 0..16usize {
        places = twice_as_far(alloc, &places)?;
    }
    Ok(places)
}

/// Whether the class at a place is the root.
fn is_root_at(classes: &[Summary<'_>], place: Option<usize>) -> bool
    ensures { result ≡ option_map_or is_root (class_at (facts_of classes.now) place) false }
{
    match place {
        None => false,
        Some(place) => match classes.get(place) {
            None => false,
            Some(class) => is_root(class),
        },
    }
}

/// Whether the class at each of these places is the root.
fn are_roots(
    alloc: Global,
    places: &[Option<usize>],
    classes: &[Summary<'_>],
) -> Result<Vec<bool>, AllocError>
    ensures { IfOk result (λ roots. roots.items
        ≡ map (λ p. option_map_or is_root (class_at (facts_of classes.now) p) false) places.now) }
{
    places
        .iter()
        .map(|place| is_root_at(classes, *place))
        .collect(alloc)
}

/// Which of the classes stand.
pub fn flags(alloc: Global, gathered: &Gathered<'_>) -> Result<Vec<bool>, AllocError>
    requires { ArePlaced (facts_of gathered.now.classes.items) gathered.now.places }
    ensures { IfOk result (λ stand. stand.items
        ≡ map (stands (facts_of gathered.now.classes.items)) (facts_of gathered.now.classes.items)) }
{
    let far = far_places(alloc, gathered)?;
    are_roots(alloc, &far, &gathered.classes)
}

/// The classes that stand, in their order.
pub fn standing<'a>(alloc: Global, gathered: Gathered<'a>) -> Result<Vec<Summary<'a>>, AllocError>
    requires { ArePlaced (facts_of gathered.classes.items) gathered.places }
    ensures { IfOk result (λ kept. facts_of kept.items ≡ standing (facts_of gathered.entry.classes.items)) }
{
    let stand = flags(alloc, &gathered)?;
    let mut kept = Vec::new(alloc);
    for (i, class) in gathered.classes.into_iter().enumerate() {
        if stand[i] {
            kept.push(class)?;
        }
    }
    Ok(kept)
}
