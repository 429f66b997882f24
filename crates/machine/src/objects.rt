//! Objects (JVMS 2.4, 2.7).
use names::{Base, OBJECT};

/// The kind of an object: of a class, or an array.
#[derive(Clone, Copy, Debug, PartialEq, Eq)]
pub enum RunType<'a> {
    /// An instance of the class of this internal name.
    Class(&'a [u8]),
    /// An array of 1 to 255 dimensions. One of 0 stands for one of 1.
    Array { dims: u8, base: Base<'a> },
}

/// Which instance initialization methods of an object have returned (JVMS 2.9.1).
#[derive(Clone, Copy, Debug, PartialEq, Eq)]
pub enum Status {
    /// One of the object.
    Ready,
    /// None, and this run's `new` made it.
    Made,
    /// None, and it is the own object of the method that runs.
    This,
}

/// An object: what it is, and whether it is initialized.
#[derive(Clone, Copy, Debug, PartialEq, Eq)]
pub struct Object<'a> {
    pub run_type: RunType<'a>,
    pub status: Status,
}

/// The arrays of objects.
pub(crate) const OBJECTS: RunType<'static> = RunType::Array {
    dims: 1,
    base: Base::Class(OBJECT),
};
