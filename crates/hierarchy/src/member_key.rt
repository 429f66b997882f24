//! Keys, by which the numbers of members are kept.

use crate::summary::Kind;

/// A member, by the numbers of its name and descriptor.
#[derive(Clone, Copy, PartialEq, Eq, PartialOrd, Ord)]
pub struct MemberKey {
    pub name: usize,
    pub descriptor: usize,
    pub kind: Kind,
}
