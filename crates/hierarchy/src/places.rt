//! Places in a list of classes.
ghost use Rattle.std.specs.Prelude.{◌≡◌, ◌<◌, length, IfSome, MatchOption};
ghost use Rattle.hierarchy.specs.Ancestors.{HasNone, IsLowest, lower};
ghost use Rattle.hierarchy.specs.Rules.{IsNamedAt};
ghost use Rattle.hierarchy.specs.Summary.{facts_of};

use crate::summary::Summary;

// The name of the class at a place.
pub fn name_at<'a>(classes: &[Summary<'a>], place: usize) -> &'a [u8]
    requires { place < length classes.now }
    ensures { IsNamedAt (facts_of classes.now) place result.now }
{
    classes[place].name
}

/// A place in a list of at most 65,536 classes, in two bytes.
pub fn short(place: Option<usize>) -> Option<u16>
    requires { IfSome place (λ n. n < 65536) }
    ensures { result ≡ place }
{
    match place {
        None => None,
        Some(n) => Some(n as u16),
    }
}

// The lowest of the places in a table.
pub fn lowest(places: &[Option<usize>]) -> Option<usize>
    ensures { MatchOption result (HasNone places.now) (IsLowest places.now) }
{
    let mut low = None;
    for place in places {
        low = lower(low, *place);
    }
    low
}

// The lower of two places, where there is one.
fn lower(one: Option<usize>, other: Option<usize>) -> Option<usize>
    ensures { result ≡ lower one other }
{
    match one {
        None => other,
        Some(i) => match other {
            None => one,
            Some(j) => Some(i.min(j)),
        },
    }
}
