//! Verification types.
use names::Base;

/// The kind of value that a local variable or an item of the operand stack is known to hold (JVMS 4.10.1.2).
#[derive(Clone, Copy, Debug, PartialEq, Eq)]
pub enum VType<'a> {
    /// Anything, or nothing that may be used.
    Top,
    /// An int, boolean, byte, char or short.
    Int,
    Float,
    /// A long, which takes two units.
    Long,
    /// A double, which takes two units.
    Double,
    /// The null reference.
    Null,
    /// An object of the class or interface of this internal name.
    Class(&'a [u8]),
    /// An array of 1 to 255 dimensions. One of 0 stands for one of 1.
    Array { dims: u8, base: Base<'a> },
    /// The own object of a constructor, of which no other constructor has returned yet.
    UninitThis,
    /// An object that the `new` at this offset in the code, in bytes, has made, and of which no constructor has
    /// returned yet.
    Uninit(u16),
}
