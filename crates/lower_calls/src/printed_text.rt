//! Texts of class files, of names and of faults.
use classfile::{Place, decode};
use format_calls::making::K;
use layout::ReadFault;
use names::check_text;
use printing::{Listing, Name, Print, Quoted, QuotedName, Then, Word};
use std::alloc::Global;
use std::test::*;

/// True where this is printed, or memory ran out.
fn is_printed<T: Print>(alloc: Global, text: &T, expected: &[u8]) -> bool {
    let mut out: Vec<u8> = Vec::new(alloc);
    text.put(&mut out).is_ok() && out.as_slice() == expected
}

/// The lines of K.
const LINES: &[u8] =
    b"class K major 52 minor 0 flags 0021\nsuper java/lang/Object\nmethod 0009 f ()V\n  stack 0 locals 0\n  0 return\n";

fn is_listed(alloc: Global) -> bool {
    match decode(alloc, &K) {
        Ok(class) => {
            let listing = Listing(&class);
            !listing.is_refused() && is_printed(alloc, &listing, LINES)
        }
        Err(_) => false,
    }
}

#[test]
fn a_class(rt: HostRuntime) {
    assert!(rt; is_listed(rt.alloc()));
}

/// Whether the text is printed so, with escapes.
fn is_named(alloc: Global, text: &[u8], expected: &[u8]) -> bool {
    match check_text(text) {
        Ok(text) => is_printed(alloc, &Name(text), expected),
        Err(_) => false,
    }
}

#[test]
fn names_and_faults(rt: HostRuntime) {
    let alloc = rt.alloc();
    assert!(rt; is_named(alloc, &[0x41, 0x5C, 0xC0, 0x80, 0x20], b"A\\u005c\\u0000 "));
    assert!(rt;
        is_printed(
            alloc,
            &Then(Word("refused "), FAULT),
            b"refused 7 at 10 tag 2"
        )
    );
    assert!(rt; is_printed(alloc, &Place::Field(3), b" field 3"));
}

/// Whether the text is printed so as a string of JSON.
fn is_quoted(alloc: Global, text: &[u8], expected: &[u8]) -> bool {
    match check_text(text) {
        Ok(text) => is_printed(alloc, &QuotedName(text), expected),
        Err(_) => false,
    }
}

/// A quotation mark and a delete after more bytes than lanes tell at once.
const LONG: &[u8] = b"java/util/HashMap\"Node\x7f";

const FAULT: ReadFault = ReadFault::BadTag { at: 10, tag: 2 };

#[test]
fn runs_and_escapes(rt: HostRuntime) {
    let alloc = rt.alloc();
    assert!(rt; is_named(alloc, LONG, b"java/util/HashMap\"Node\\u007f"));
    assert!(rt; is_quoted(alloc, LONG, b"\"java/util/HashMap\\u0022Node\\u007f\""));
    assert!(rt; is_printed(alloc, &Quoted("max_stack"), b"\"max_stack\""));
    assert!(rt; is_printed(alloc, &Quoted("a\"b"), b"\"a\\u0022b\""));
}
