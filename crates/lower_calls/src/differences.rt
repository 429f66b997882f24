use crate::making::{A, B, frame, hasher, setting};
use frames::{Difference, Mismatch, VType, first_difference, first_missing, laws};
use hierarchy::{Classes, Rows};
use std::alloc::{AllocError, Global};
use std::test::*;

#[test]
fn differences_are_no() {
    laws::differences_are_no();
}

#[test]
fn missing_is_found() {
    laws::missing_is_found();
}

/// The types of a frame's local variables and stack, and its flag.
type Parts<'a> = (&'a [VType<'a>], &'a [VType<'a>], bool);

/// The parts of a frame and of another, and a difference of them.
type Row<'a> = (Parts<'a>, Parts<'a>, Option<Difference<'a>>);

/// A local variable, or an item, that differs: its place, its type, and that of the other frame.
macro_rules! differs {
    ($part:ident, $place:expr, $from:expr, $to:expr) => {
        Some(Difference::$part(Mismatch {
            place: $place,
            from: $from,
            to: $to,
        }))
    };
}

/// Local variables, the first ones first; a type of which a class is missing is passed over.
const LOCALS: [Row<'static>; 4] = [
    (
        (&[VType::Int], &[], false),
        (&[A], &[], false),
        differs!(Local, 0, VType::Int, A),
    ),
    (
        (&[A, A, VType::Top], &[], false),
        (&[B, VType::Int, VType::Int], &[], false),
        differs!(Local, 1, A, VType::Int),
    ),
    ((&[A, VType::Null], &[], false), (&[B, A], &[], false), None),
    (
        (&[VType::Long, VType::Top], &[], false),
        (&[VType::Top, VType::Top], &[], false),
        None,
    ),
];

/// Stacks: their sizes, and then their items from the bottom up.
const STACKS: [Row<'static>; 4] = [
    (
        (&[], &[VType::Int, A], false),
        (&[], &[A], false),
        Some(Difference::Sizes { from: 2, to: 1 }),
    ),
    (
        (&[], &[VType::Int, A], false),
        (&[], &[VType::Float, VType::Int], false),
        differs!(Item, 0, VType::Int, VType::Float),
    ),
    (
        (&[], &[A, VType::Long], false),
        (&[], &[B, VType::Top], false),
        differs!(Item, 1, VType::Long, VType::Top),
    ),
    ((&[], &[A, A], false), (&[], &[A, B], false), None),
];

/// The flag before a local variable, and a local variable before the stack.
const ORDER: [Row<'static>; 2] = [
    (
        (&[VType::Int], &[], true),
        (&[VType::Float], &[], false),
        Some(Difference::Flag),
    ),
    (
        (&[VType::Int], &[VType::Int], false),
        (&[A], &[], true),
        differs!(Local, 0, VType::Int, A),
    ),
];

/// Whether this is the first difference of two frames.
fn is_first<C: Classes>(alloc: Global, classes: &C, row: &Row<'_>) -> Result<bool, AllocError> {
    let (from, to, expected) = row;
    let from = frame(alloc, from.0, from.1, from.2)?;
    let to = frame(alloc, to.0, to.1, to.2)?;
    Ok(first_difference(&from, &to, classes) == *expected)
}

fn are_first<C: Classes>(alloc: Global, classes: &C, rows: &[Row<'_>]) -> bool {
    for row in rows {
        if is_first(alloc, classes, row) != Ok(true) {
            return false;
        }
    }
    true
}

/// The class B is missing: at a local variable before the stack, at an item, and nowhere beside a difference.
const MISSING: [Row<'static>; 3] = [
    (
        (&[A, A], &[VType::Int, A], false),
        (&[A, B], &[VType::Int, B], false),
        differs!(Local, 1, A, B),
    ),
    (
        (&[A], &[VType::Int, A], false),
        (&[A], &[VType::Int, B], false),
        differs!(Item, 1, A, B),
    ),
    (
        (&[A], &[VType::Int], false),
        (&[B], &[VType::Float], false),
        None,
    ),
];

/// Whether this is the first place of two frames at which a class is missing.
fn is_missing<C: Classes>(alloc: Global, classes: &C, row: &Row<'_>) -> Result<bool, AllocError> {
    let (from, to, expected) = row;
    let from = frame(alloc, from.0, from.1, from.2)?;
    let to = frame(alloc, to.0, to.1, to.2)?;
    Ok(first_missing(&from, &to, classes) == *expected)
}

fn are_missing<C: Classes>(alloc: Global, classes: &C, rows: &[Row<'_>]) -> bool {
    for row in rows {
        if is_missing(alloc, classes, row) != Ok(true) {
            return false;
        }
    }
    true
}

#[test]
fn differences(rt: HostRuntime) {
    let alloc = rt.alloc();
    let list = setting(alloc);
    match Rows::new(alloc, &list, hasher()) {
        Ok(classes) => {
            assert!(rt; are_first(alloc, &classes, &LOCALS));
            assert!(rt; are_first(alloc, &classes, &STACKS));
            assert!(rt; are_first(alloc, &classes, &ORDER));
            assert!(rt; are_missing(alloc, &classes, &MISSING));
        }
        Err(_) => panic!(rt; "a hierarchy"),
    }
}
