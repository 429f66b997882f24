//! The most bytes that a class file and a method's code may have.

/// The most bytes of one class file: a longer input is refused 14, a longer output 17.
///
/// This limit is the product's own; the format itself sets none.
pub const MAX_CLASS_BYTES: usize = 16_777_216;

/// The most bytes of one method's code (JVMS 4.7.3: `code_length` is less than 65,536).
pub const MAX_CODE_BYTES: usize = 65_535;
