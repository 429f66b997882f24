//! The tags of numbers: the highest of their four bytes, which tells the kind of the type (`specs/Numbers.antt`). A
//! reference has a tag above [`LONG`].

/// The tag of top.
pub const TOP: u8 = 0;

/// The tag of `int`.
pub const INT: u8 = 1;

/// The tag of `float`.
pub const FLOAT: u8 = 2;

/// The tag of `double`.
pub const DOUBLE: u8 = 3;

/// The tag of `long`.
pub const LONG: u8 = 4;

/// The tag of null.
pub const NULL: u8 = 5;

/// The tag of the own object that is not initialized.
pub const UNINIT_THIS: u8 = 6;

/// The tag of a class in the hierarchy, and of arrays of one.
pub const CLASS: u8 = 7;

/// The tag of an object that a `new` made and that is not initialized.
pub const UNINIT: u8 = 8;

/// The tag of arrays of primitive types. The tags above it are those of absent classes and of arrays of them.
pub const PRIMITIVE_ARRAY: u8 = 9;

/// The lowest tag of absent classes and of arrays of them: there are so many that each tag from it up is one of theirs.
pub const ABSENT: u8 = 10;
