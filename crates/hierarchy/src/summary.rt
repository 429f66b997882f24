//! The summary of a class.

/// Whether a member is a field (JVMS 4.5) or a method (JVMS 4.6).
#[derive(Clone, Copy, Debug, PartialEq, Eq, PartialOrd, Ord)]
pub enum Kind {
    Field,
    Method,
}

/// A field or method, by its kind and the places of its texts in a list. A place past the last text stands for the empty
/// one.
#[derive(Clone, Copy, Debug, PartialEq, Eq)]
pub struct MemberPlaces {
    pub kind: Kind,
    /// The place of its name.
    pub name: usize,
    /// The place of its descriptor.
    pub descriptor: usize,
}

/// The part that a member takes in overriding (JVMS 5.4.5).
#[derive(Clone, Copy, Debug, PartialEq, Eq)]
pub enum Overriding {
    /// It takes none: it is a field, or a static or private method, or its class was not read by a release.
    Apart,
    /// It may override methods, and may be overridden.
    Open,
    /// It may override methods. It is final and neither public nor protected, so no class of its package may override it.
    FinalInPackage,
    /// It may override methods. It is final, and public or protected, so no class may override it.
    Final,
}

/// A field or method of a class.
#[derive(Clone, Copy, Debug, PartialEq, Eq)]
pub struct MemberSummary {
    /// Its kind, and the places of its name and descriptor among the texts of its class.
    pub places: MemberPlaces,
    /// Its flag ACC_STATIC.
    pub is_static: bool,
    /// Its flag ACC_PROTECTED.
    pub is_protected: bool,
    /// The part that it takes in overriding.
    pub overriding: Overriding,
}

/// The parts of a class that other classes are verified against. Names are the bytes of internal names (JVMS 4.2.1).
#[derive(Debug, Drop)]
pub struct Summary<'a> {
    pub name: &'a [u8],
    /// The direct superclass, which `java/lang/Object` alone has not.
    pub superclass: Option<&'a [u8]>,
    /// Whether it is an interface.
    pub interface: bool,
    /// Its flag ACC_FINAL.
    pub is_final: bool,
    /// The names and descriptors of its members. A long one stands here once, however many members have it.
    pub texts: Vec<&'a [u8]>,
    /// Its fields and methods in the order of its file.
    pub members: Vec<MemberSummary>,
}
