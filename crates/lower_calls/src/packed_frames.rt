use crate::making::{
    A, ARRAY_OF_A, ARRAY_OF_B, B, DEEPEST, TABLE_OF_INTS, frame, hasher, object, setting, summary,
};
use frames::{
    ABSENT, Frame, FrameFault, Packed, VType, first_undecided, frame_assignable, laws, pack,
    packed_assignable,
};
use hierarchy::{Answer, Classes, Rows};
use names::OBJECT;
use std::alloc::{AllocError, Global};
use std::test::*;

#[test]
fn laws_are_called() {
    laws::equal_slots_are_equal_types();
    hierarchy::laws::places_are_names();
}

/// Types and their slots.
const SLOTS: [(VType<'static>, u32); 14] = [
    (VType::Top, 0),
    (VType::Int, 0x0100_0000),
    (VType::Float, 0x0200_0000),
    (VType::Double, 0x0300_0000),
    (VType::Long, 0x0400_0000),
    (VType::Null, 0x0500_0000),
    (VType::UninitThis, 0x0600_0000),
    (A, 0x0700_0001),
    (ARRAY_OF_A, 0x0701_0001),
    (VType::Uninit(65534), 0x0800_FFFE),
    (TABLE_OF_INTS, 0x0902_000A),
    (DEEPEST, 0x09FF_0004),
    (B, ABSENT),
    (ARRAY_OF_B, ABSENT),
];

fn are_packed<C: Classes>(classes: &C, rows: &[(VType<'_>, u32)]) -> bool {
    for (vtype, slot) in rows {
        if pack(vtype, classes) != *slot {
            return false;
        }
    }
    true
}

fn has_places<C: Classes>(classes: &C) -> bool {
    classes.place(OBJECT) == Some(0)
        && classes.place(b"A") == Some(1)
        && classes.place(b"B").is_none()
}

#[test]
fn types_as_slots(rt: HostRuntime) {
    let list = setting(rt.alloc());
    match Rows::new(rt.alloc(), &list, hasher()) {
        Ok(classes) => assert!(rt; has_places(&classes) && are_packed(&classes, &SLOTS)),
        Err(_) => panic!(rt; "a hierarchy"),
    }
}

/// Types and their slots where A is the fourth class.
const SLOTS_OF_THE_FOURTH: [(VType<'static>, u32); 2] = [
    (A, 0x0700_0003),
    (ARRAY_OF_A, 0x0701_0003),
];

#[test]
fn types_as_slots_by_places(rt: HostRuntime) {
    let alloc = rt.alloc();
    let list = [
        object(alloc),
        summary(alloc, b"I", Some(OBJECT), true),
        summary(alloc, b"C", Some(b"A"), false),
        summary(alloc, b"A", Some(OBJECT), false),
    ];
    match Rows::new(alloc, &list, hasher()) {
        Ok(classes) => assert!(rt; are_packed(&classes, &SLOTS_OF_THE_FOURTH)),
        Err(_) => panic!(rt; "a hierarchy"),
    }
}

/// The answer of two packed frames, of which the second is wanted.
fn packed_answer<'n, C: Classes>(
    alloc: Global,
    from: &Frame<'n>,
    to: &Frame<'n>,
    classes: &C,
    expected: Answer<'n>,
) -> Result<bool, FrameFault> {
    let from = Packed::new(alloc, from, classes)?;
    let to = Packed::new(alloc, to, classes)?;
    Ok(packed_assignable(&from, &to, classes) == expected)
}

/// So many ints, with another type at a place.
fn ints_but<'a>(
    alloc: Global,
    count: usize,
    place: usize,
    other: VType<'a>,
) -> Result<Vec<VType<'a>>, AllocError> {
    let mut types = vec![in alloc; VType::Int; count]?;
    if place < types.len() {
        types[place] = other;
    }
    Ok(types)
}

/// The frame that has the first of these types in its local variables and the others on its stack.
fn cut<'a>(alloc: Global, types: &[VType<'a>], locals: usize) -> Result<Frame<'a>, AllocError> {
    let locals = locals.min(types.len());
    let (locals, stack) = types.split_at(locals);
    frame(alloc, locals, stack, false)
}

/// Whether two frames are compared as without slots.
fn agree_on<'n, C: Classes>(
    alloc: Global,
    from: &Frame<'n>,
    to: &Frame<'n>,
    classes: &C,
) -> Result<bool, FrameFault> {
    let expected = frame_assignable(from, to, classes);
    packed_answer(alloc, from, to, classes, expected)
}

/// Whether the two frames that have the first of these types in their local variables and the others on their stacks
/// are compared as without slots.
fn agree_cut<'n, C: Classes>(
    alloc: Global,
    ours: &[VType<'n>],
    theirs: &[VType<'n>],
    locals: usize,
    classes: &C,
) -> Result<bool, FrameFault> {
    let from = cut(alloc, ours, locals)?;
    let to = cut(alloc, theirs, locals)?;
    agree_on(alloc, &from, &to, classes)
}

/// Whether two frames of so many slots that differ at one place are compared as without slots.
fn agree_at<C: Classes>(
    alloc: Global,
    count: usize,
    place: usize,
    pair: (VType<'_>, VType<'_>),
    classes: &C,
) -> Result<bool, FrameFault> {
    let ours = ints_but(alloc, count, place, pair.0)?;
    let theirs = ints_but(alloc, count, place, pair.1)?;
    for locals in [0, count / 2, count] {
        if !agree_cut(alloc, &ours, &theirs, locals, classes)? {
            return Ok(false);
        }
    }
    Ok(true)
}

/// The types of one place: No, Yes, twice Missing, and an absent class to itself.
const PAIRS: [(VType<'static>, VType<'static>); 6] = [
    (VType::Int, VType::Float),
    (A, VType::Class(OBJECT)),
    (A, B),
    (B, A),
    (B, B),
    (VType::Long, VType::Top),
];

/// Whether frames of so many slots agree, whatever the types of the place at which they differ.
fn agree_for_pairs<C: Classes>(
    alloc: Global,
    count: usize,
    place: usize,
    pairs: &[(VType<'_>, VType<'_>)],
    classes: &C,
) -> Result<bool, FrameFault> {
    for pair in pairs {
        if !agree_at(alloc, count, place, *pair, classes)? {
            return Ok(false);
        }
    }
    Ok(true)
}

const COUNTS: [usize; 6] = [0, 1, 7, 8, 9, 17];

fn all_agree<C: Classes>(alloc: Global, classes: &C) -> Result<bool, FrameFault> {
    for count in &COUNTS {
        for place in 0..count.saturating_add(1) {
            if !agree_for_pairs(alloc, *count, place, &PAIRS, classes)? {
                return Ok(false);
            }
        }
    }
    Ok(true)
}

/// A frame of ten local variables, ints but for these at 3, 7 and 9.
fn ten_locals<'a>(alloc: Global, types: [VType<'a>; 3]) -> Result<Frame<'a>, AllocError> {
    let int = VType::Int;
    let [third, seventh, ninth] = types;
    let locals = [int, int, int, third, int, int, int, seventh, int, ninth];
    frame(alloc, &locals, &[], false)
}

/// The types of a frame at those places, the types of one that is wanted, and the answer.
type Row<'a> = ([VType<'a>; 3], [VType<'a>; 3], Answer<'a>);

const D: VType<'static> = VType::Class(b"D");

/// Two slots of a class that is absent; one that is missing, alone and in front of a No; and two that are missing.
const ROWS: [Row<'static>; 3] = [
    ([B, B, VType::Int], [B, B, VType::Int], Answer::Yes),
    (
        [A, D, VType::Int],
        [B, B, VType::Int],
        Answer::Missing(b"B"),
    ),
    ([A, D, VType::Int], [B, B, VType::Float], Answer::No),
];

fn is_answered<C: Classes>(alloc: Global, classes: &C, row: &Row<'_>) -> Result<bool, FrameFault> {
    let from = ten_locals(alloc, row.0)?;
    let to = ten_locals(alloc, row.1)?;
    packed_answer(alloc, &from, &to, classes, row.2)
}

fn are_answered<C: Classes>(
    alloc: Global,
    classes: &C,
    rows: &[Row<'_>],
) -> Result<bool, FrameFault> {
    for row in rows {
        if !is_answered(alloc, classes, row)? {
            return Ok(false);
        }
    }
    Ok(true)
}

/// Whether all that is said of packed frames holds; or memory ran out, where it may.
fn holds(alloc: Global, of_lengths: bool, may_fail: bool) -> bool {
    let list = setting(alloc);
    let Ok(classes) = Rows::new(alloc, &list, hasher()) else {
        return may_fail;
    };
    let held = if of_lengths {
        all_agree(alloc, &classes)
    } else {
        are_answered(alloc, &classes, &ROWS)
    };
    match held {
        Ok(held) => held,
        Err(fault) => may_fail && fault.number() == 1,
    }
}

#[test]
fn one_slot_differs(rt: HostRuntime) {
    assert!(rt; holds(rt.alloc(), true, false));
}

#[test]
fn absent_classes(rt: HostRuntime) {
    assert!(rt; holds(rt.alloc(), false, false));
}

#[test]
fn memory_runs_out_for_packed_frames(rt: HostRuntime) {
    assert!(rt; holds(rt.alloc(), false, true));
}

const OURS: [u32; 9] = [1, 2, ABSENT, 4, 5, 6, 7, 8, 9];

const THEIRS: [u32; 9] = [1, 2, ABSENT, 4, 5, 6, 7, 8, 0];

#[test]
fn undecided_slots(rt: HostRuntime) {
    assert!(rt; matches!(first_undecided(&OURS, &THEIRS, 0), Some(2)));
    assert!(rt; matches!(first_undecided(&OURS, &THEIRS, 3), Some(8)));
    assert!(rt; first_undecided(&OURS, &OURS, 3).is_none());
}
