//! Values that tests of several files use: class files of one method, and texts as they are written.
use layout::{Part, WriteFault};
use std::alloc::Global;
use std::fmt::Display;

/// The class file of a class K with one static method, `f`, which returns.
pub const K: [u8; 97] = [
    0xCA, 0xFE, 0xBA, 0xBE, 0, 0, 0, 0x34, 0, 8, 7, 0, 2, 1, 0, 1, 0x4B, 7, 0, 4, 1, 0, 0x10, 0x6A,
    0x61, 0x76, 0x61, 0x2F, 0x6C, 0x61, 0x6E, 0x67, 0x2F, 0x4F, 0x62, 0x6A, 0x65, 0x63, 0x74, 1, 0,
    1, 0x66, 1, 0, 3, 0x28, 0x29, 0x56, 1, 0, 4, 0x43, 0x6F, 0x64, 0x65, 0, 0x21, 0, 1, 0, 3, 0, 0,
    0, 0, 0, 1, 0, 9, 0, 5, 0, 6, 0, 1, 0, 7, 0, 0, 0, 0x0D, 0, 0, 0, 0, 0, 0, 0, 1, 0xB1, 0, 0, 0,
    0, 0, 0,
];

/// The class file of `java/lang/Object`, without members.
pub const O: [u8; 46] = [
    0xCA, 0xFE, 0xBA, 0xBE, 0, 0, 0, 0x34, 0, 3, 7, 0, 2, 1, 0, 0x10, 0x6A, 0x61, 0x76, 0x61, 0x2F,
    0x6C, 0x61, 0x6E, 0x67, 0x2F, 0x4F, 0x62, 0x6A, 0x65, 0x63, 0x74, 0, 0x21, 0, 1, 0, 0, 0, 0, 0,
    0, 0, 0, 0, 0,
];

/// The class file of K, whose method `f` has two local variables, room for four units on the stack, and two bytes of
/// code, `nop` and `nop`, of which all that the first raises is handled at the second.
pub const CATCHING: [u8; 106] = [
    0xCA, 0xFE, 0xBA, 0xBE, 0, 0, 0, 0x34, 0, 8, 7, 0, 2, 1, 0, 1, 0x4B, 7, 0, 4, 1, 0, 0x10, 0x6A,
    0x61, 0x76, 0x61, 0x2F, 0x6C, 0x61, 0x6E, 0x67, 0x2F, 0x4F, 0x62, 0x6A, 0x65, 0x63, 0x74, 1, 0,
    1, 0x66, 1, 0, 3, 0x28, 0x29, 0x56, 1, 0, 4, 0x43, 0x6F, 0x64, 0x65, 0, 0x21, 0, 1, 0, 3, 0, 0,
    0, 0, 0, 1, 0, 8, 0, 5, 0, 6, 0, 1, 0, 7, 0, 0, 0, 0x16, 0, 4, 0, 2, 0, 0, 0, 2, 0, 0, 0, 1, 0,
    0, 0, 1, 0, 1, 0, 3, 0, 0, 0, 0,
];

/// That class file with these bytes of code.
pub fn catching(code: [u8; 2]) -> [u8; 106] {
    let mut bytes = CATCHING;
    bytes[90] = code[0];
    bytes[91] = code[1];
    bytes
}

/// The number that says that memory ran out.
pub const OUT_OF_MEMORY: u8 = 1;

/// Whether these bytes are written; or memory ran out, where it may.
pub fn are_written(written: Result<Vec<u8>, WriteFault>, expected: &[u8], may_fail: bool) -> bool {
    match written {
        Ok(bytes) => bytes.as_slice() == expected,
        Err(fault) => may_fail && matches!(fault, WriteFault::OutOfMemory),
    }
}

/// Whether it is written, or no bytes spell it; nothing where it is not written for another reason.
pub fn is_spelled(written: Result<Vec<u8>, WriteFault>) -> Option<bool> {
    match written {
        Ok(_) => Some(true),
        Err(WriteFault::HasNoSpelling) => Some(false),
        Err(_) => None,
    }
}

/// Whether the part is written as these bytes; or memory ran out, where it may, and nothing is written.
pub fn is_put<'a, P: Part<'a>>(alloc: Global, part: &P, expected: &[u8], may_fail: bool) -> bool {
    let mut out = Vec::new(alloc);
    match part.put(&mut out) {
        Ok(()) => out.as_slice() == expected,
        Err(fault) => may_fail && matches!(fault, WriteFault::OutOfMemory) && out.is_empty(),
    }
}

/// True where the value is displayed as this text, or memory ran out.
pub fn is_shown<T: Display>(alloc: Global, shown: &T, expected: &str) -> bool {
    match format!(in alloc; "{shown}") {
        Ok(text) => text.as_str() == expected,
        Err(_) => false,
    }
}
