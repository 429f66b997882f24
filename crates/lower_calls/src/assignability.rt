use crate::making::{A, ARRAY_OF_A, ARRAY_OF_B, B, TABLE_OF_INTS, frame, hasher, setting};
use frames::{
    VType, array_of, assignable, frame_assignable, held_by, laws, number_type, reference_to,
};
use hierarchy::{Answer, Classes, Rows};
use insn::Kind;
use names::{Base, FieldType, OBJECT, Primitive, RefType};
use std::alloc::{AllocError, Global};
use std::test::*;

#[test]
fn laws_are_called() {
    laws::classes_have_one_answer();
    laws::types_mean();
    laws::frames_have_one_answer();
    laws::frames_to_themselves();
}

const I: VType<'static> = VType::Class(b"I");

const OBJECTS: VType<'static> = VType::Array {
    dims: 1,
    base: Base::Class(OBJECT),
};

const INTS: VType<'static> = VType::Array {
    dims: 1,
    base: Base::Primitive(Primitive::Int),
};

/// A type, where another is wanted, and the answer.
const TYPES: [(VType<'static>, VType<'static>, Answer<'static>); 11] = [
    (A, I, Answer::Yes),
    (I, A, Answer::No),
    (A, B, Answer::Missing(b"B")),
    (B, A, Answer::Missing(b"B")),
    (B, VType::Class(OBJECT), Answer::Yes),
    (VType::Uninit(0), VType::Top, Answer::Yes),
    (VType::Uninit(0), A, Answer::No),
    (ARRAY_OF_B, OBJECTS, Answer::Yes),
    (ARRAY_OF_B, ARRAY_OF_A, Answer::Missing(b"B")),
    (TABLE_OF_INTS, OBJECTS, Answer::Yes),
    (INTS, OBJECTS, Answer::No),
];

fn are_assignable<C: Classes>(classes: &C, rows: &[(VType<'_>, VType<'_>, Answer<'_>)]) -> bool {
    for (from, to, expected) in rows {
        if assignable(from, to, classes) != *expected {
            return false;
        }
    }
    true
}

#[test]
fn types(rt: HostRuntime) {
    let list = setting(rt.alloc());
    match Rows::new(rt.alloc(), &list, hasher()) {
        Ok(classes) => assert!(rt; are_assignable(&classes, &TYPES)),
        Err(_) => panic!(rt; "a hierarchy"),
    }
}

/// The types of a frame's local variables and stack, and its flag that tells of an uninitialized `this`.
type Parts<'a> = (&'a [VType<'a>], &'a [VType<'a>], bool);

/// The parts of a frame, those of a wanted one, and the answer.
type Row<'a> = (Parts<'a>, Parts<'a>, Answer<'a>);

/// Stacks; local variables; and frames with and without the flag.
const FRAMES: [Row<'static>; 8] = [
    ((&[], &[VType::Int], false), (&[], &[A], false), Answer::No),
    (
        (&[], &[VType::Null], false),
        (&[], &[A], false),
        Answer::Yes,
    ),
    (
        (&[], &[VType::Long], false),
        (&[], &[VType::Top], false),
        Answer::No,
    ),
    (
        (&[], &[A, VType::Int], false),
        (&[], &[B, A], false),
        Answer::No,
    ),
    (
        (&[], &[A, A], false),
        (&[], &[A, B], false),
        Answer::Missing(b"B"),
    ),
    (
        (&[VType::Long, VType::Top], &[], false),
        (&[VType::Top, VType::Top], &[], false),
        Answer::Yes,
    ),
    ((&[A], &[], true), (&[A], &[], false), Answer::No),
    ((&[A], &[], false), (&[A], &[], true), Answer::Yes),
];

fn is_answered<C: Classes>(alloc: Global, classes: &C, row: &Row<'_>) -> Result<bool, AllocError> {
    let (from, to, expected) = row;
    let from = frame(alloc, from.0, from.1, from.2)?;
    let to = frame(alloc, to.0, to.1, to.2)?;
    Ok(frame_assignable(&from, &to, classes) == *expected)
}

fn are_answered<C: Classes>(alloc: Global, classes: &C, rows: &[Row<'_>]) -> bool {
    for row in rows {
        if is_answered(alloc, classes, row) != Ok(true) {
            return false;
        }
    }
    true
}

#[test]
fn frames(rt: HostRuntime) {
    let alloc = rt.alloc();
    let list = setting(alloc);
    match Rows::new(alloc, &list, hasher()) {
        Ok(classes) => assert!(rt; are_answered(alloc, &classes, &FRAMES)),
        Err(_) => panic!(rt; "a hierarchy"),
    }
}

const SHORT: FieldType<'static> = FieldType {
    dims: 0,
    base: Base::Primitive(Primitive::Short),
};

#[test]
fn types_of_what_is_named(rt: HostRuntime) {
    let class = RefType::Class(b"A");
    assert!(rt; array_of(class) == ARRAY_OF_A && reference_to(class) == A);
    assert!(rt; number_type(Kind::Long) == VType::Long && held_by(&SHORT) == VType::Int);
}
