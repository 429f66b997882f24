//! The type below the array dimensions of a descriptor.

/// A primitive type (JVMS 4.3.2, Table 4.3-A).
#[derive(Clone, Copy, Debug, PartialEq, Eq)]
pub enum Primitive {
    Byte,
    Char,
    Double,
    Float,
    Int,
    Long,
    Short,
    Boolean,
}

/// A field type below its array dimensions: a primitive type, or a class by the bytes of its name.
#[derive(Clone, Copy, Debug, PartialEq, Eq)]
pub enum Base<'a> {
    Primitive(Primitive),
    Class(&'a [u8]),
}
