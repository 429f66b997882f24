//! Spots, by which the declarations above a class are kept.

use crate::summary::Kind;

/// A member, by the numbers of its name and descriptor, at the place of a class above. Those of one member stand
/// together, from the nearest class up.
#[derive(Clone, Copy, PartialEq, Eq, PartialOrd, Ord)]
pub struct Spot {
    pub name: usize,
    pub descriptor: usize,
    pub kind: Kind,
    pub place: usize,
}
