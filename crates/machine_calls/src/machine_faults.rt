//! States that are faults of the machine, each kind beside the least change of it that is none.
use crate::fault_setting::{
    ARRAY, AT_1, AT_5, BOOLEANS, BYTES, CHARS, DOUBLE, DOUBLES, ELSEWHERE, EMPTY, Expected, FAULT,
    FLOAT, FLOAT_SLOT, FLOATS, HANDLED_AT_1, HANDLED_AT_3, INIT, INITIALIZED, INT, INT_SLOT, INTS,
    JUDGED, LAST, LONG, LONG_SLOT, LONGS, MADE, MADE_SLOT, NONE, NOWHERE, NULL, NULL_SLOT, OF_INT,
    OF_K, OF_LONG, OLD, OTHER, OTHERS, OWN, READY, Row, SECOND, SHORTS, STATIC, STEP, TABLE,
    THROWN, TIGHT, UNJUDGED, UNTHROWN, are_expected,
};
use std::test::*;

/// No instruction begins at the offset of the state: within `sipush`, and behind the code.
const OFFSETS: [Row<'static>; 4] = [
    (AT_1, &[0x11, 0, 0], &NONE, &[], FAULT),
    (AT_1, &[0x00], &NONE, &[], STEP),
    (AT_5, &[0x00], &NONE, &[], FAULT),
    (AT_5, &[0x00, 0, 0], &NONE, &[], STEP),
];

#[test]
fn offsets(rt: HostRuntime) {
    assert!(rt; are_expected(rt.alloc(), &OFFSETS));
}

/// The local variables are too few or too many, a long lacks its second half, or a second half its long: `nop`
const FRAMES_OF_LOCALS: [Row<'static>; 8] = [
    (STATIC, &[0x00], &[EMPTY], &[], FAULT),
    (STATIC, &[0x00], &[EMPTY, EMPTY, EMPTY], &[], FAULT),
    (STATIC, &[0x00], &NONE, &[], STEP),
    (STATIC, &[0x00], &[LONG_SLOT, EMPTY], &[], FAULT),
    (STATIC, &[0x00], &[EMPTY, LONG_SLOT], &[], FAULT),
    (STATIC, &[0x00], &[EMPTY, SECOND], &[], FAULT),
    (STATIC, &[0x00], &[INT_SLOT, SECOND], &[], FAULT),
    (STATIC, &[0x00], &[LONG_SLOT, SECOND], &[], STEP),
];

#[test]
fn frames_of_locals(rt: HostRuntime) {
    assert!(rt; are_expected(rt.alloc(), &FRAMES_OF_LOCALS));
}

/// Numbers are missing, or of another kind: `iadd`, `ladd`, `fadd`, `dadd`, `lshl`
const NUMBERS: [Row<'static>; 15] = [
    (STATIC, &[0x60], &NONE, &[], FAULT),
    (STATIC, &[0x60], &NONE, &[INT], FAULT),
    (STATIC, &[0x60], &NONE, &[INT, FLOAT], FAULT),
    (STATIC, &[0x60], &NONE, &[FLOAT, INT], FAULT),
    (STATIC, &[0x60], &NONE, &[INT, NULL], FAULT),
    (STATIC, &[0x60], &NONE, &[INT, INT], STEP),
    (STATIC, &[0x61], &NONE, &[INT, INT], FAULT),
    (STATIC, &[0x61], &NONE, &[LONG, DOUBLE], FAULT),
    (STATIC, &[0x61], &NONE, &[LONG, LONG], STEP),
    (STATIC, &[0x62], &NONE, &[FLOAT, INT], FAULT),
    (STATIC, &[0x62], &NONE, &[FLOAT, FLOAT], STEP),
    (STATIC, &[0x63], &NONE, &[DOUBLE, LONG], FAULT),
    (STATIC, &[0x63], &NONE, &[DOUBLE, DOUBLE], STEP),
    (STATIC, &[0x79], &NONE, &[INT, LONG], FAULT),
    (STATIC, &[0x79], &NONE, &[LONG, INT], STEP),
];

#[test]
fn numbers(rt: HostRuntime) {
    assert!(rt; are_expected(rt.alloc(), &NUMBERS));
}

/// A number stands where any reference is taken, of an object that is initialized or not: `astore_0`, `ifnull`,
/// `if_acmpeq`, `monitorenter`
const REFERENCES: [Row<'static>; 10] = [
    (STATIC, &[0x4B], &NONE, &[], FAULT),
    (STATIC, &[0x4B], &NONE, &[INT], FAULT),
    (STATIC, &[0x4B], &NONE, &[MADE], STEP),
    (STATIC, &[0x4B], &NONE, &[OWN], STEP),
    (STATIC, &[0xC6, 0, 3], &NONE, &[INT], FAULT),
    (STATIC, &[0xC6, 0, 3], &NONE, &[MADE], Expected::To(3)),
    (STATIC, &[0xA5, 0, 3], &NONE, &[MADE, INT], FAULT),
    (STATIC, &[0xA5, 0, 3], &NONE, &[MADE, OWN], Expected::To(3)),
    (STATIC, &[0xC2], &NONE, &[INT], FAULT),
    (STATIC, &[0xC2], &NONE, &[MADE], STEP),
];

#[test]
fn references(rt: HostRuntime) {
    assert!(rt; are_expected(rt.alloc(), &REFERENCES));
}

/// An argument does not fit the type of the parameter, which the `invokestatic` has: a class, `Object`, an interface,
/// `Throwable`, `byte`
const ARGUMENTS: [Row<'static>; 18] = [
    (STATIC, &[0xB8, 0, 41], &NONE, &[], FAULT),
    (STATIC, &[0xB8, 0, 41], &NONE, &[INT], FAULT),
    (STATIC, &[0xB8, 0, 41], &NONE, &[OTHER], FAULT),
    (STATIC, &[0xB8, 0, 41], &NONE, &[MADE], FAULT),
    (STATIC, &[0xB8, 0, 41], &NONE, &[OWN], FAULT),
    (STATIC, &[0xB8, 0, 41], &NONE, &[NOWHERE], FAULT),
    (STATIC, &[0xB8, 0, 41], &NONE, &[NULL], STEP),
    (STATIC, &[0xB8, 0, 41], &NONE, &[READY], STEP),
    (STATIC, &[0xB8, 0, 57], &NONE, &[MADE], FAULT),
    (STATIC, &[0xB8, 0, 57], &NONE, &[OTHER], STEP),
    (STATIC, &[0xB8, 0, 57], &NONE, &[INTS], STEP),
    (STATIC, &[0xB8, 0, 61], &NONE, &[MADE], FAULT),
    (STATIC, &[0xB8, 0, 61], &NONE, &[OTHER], STEP),
    (STATIC, &[0xB8, 0, 61], &NONE, &[INTS], STEP),
    (STATIC, &[0xB8, 0, 59], &NONE, &[READY], FAULT),
    (STATIC, &[0xB8, 0, 59], &NONE, &[THROWN], STEP),
    (STATIC, &[0xB8, 0, 55], &NONE, &[FLOAT], FAULT),
    (STATIC, &[0xB8, 0, 55], &NONE, &[INT], STEP),
];

#[test]
fn arguments(rt: HostRuntime) {
    assert!(rt; are_expected(rt.alloc(), &ARGUMENTS));
}

/// No object but an array is below `Cloneable`, `Serializable` and arrays, and no array below one whose components its
/// own are not below.
const ARRAYS_AS_ARGUMENTS: [Row<'static>; 13] = [
    (STATIC, &[0xB8, 0, 63], &NONE, &[READY], FAULT),
    (STATIC, &[0xB8, 0, 63], &NONE, &[INTS], STEP),
    (STATIC, &[0xB8, 0, 65], &NONE, &[READY], FAULT),
    (STATIC, &[0xB8, 0, 65], &NONE, &[INTS], STEP),
    (STATIC, &[0xB8, 0, 67], &NONE, &[READY], FAULT),
    (STATIC, &[0xB8, 0, 67], &NONE, &[OTHERS], FAULT),
    (STATIC, &[0xB8, 0, 67], &NONE, &[ARRAY], STEP),
    (STATIC, &[0xB8, 0, 69], &NONE, &[INTS], FAULT),
    (STATIC, &[0xB8, 0, 69], &NONE, &[TABLE], STEP),
    (STATIC, &[0xB8, 0, 69], &NONE, &[ARRAY], STEP),
    (STATIC, &[0xB8, 0, 71], &NONE, &[FLOATS], FAULT),
    (STATIC, &[0xB8, 0, 71], &NONE, &[TABLE], FAULT),
    (STATIC, &[0xB8, 0, 71], &NONE, &[INTS], STEP),
];

#[test]
fn arrays_as_arguments(rt: HostRuntime) {
    assert!(rt; are_expected(rt.alloc(), &ARRAYS_AS_ARGUMENTS));
}

/// An array has elements of another type: `iastore`, `lastore`, `fastore`, `dastore`, `bastore`, `castore`, `sastore`
const STORED_ELEMENTS: [Row<'static>; 15] = [
    (STATIC, &[0x4F], &NONE, &[FLOATS, INT, INT], FAULT),
    (STATIC, &[0x4F], &NONE, &[INTS, INT, INT], STEP),
    (STATIC, &[0x50], &NONE, &[DOUBLES, INT, LONG], FAULT),
    (STATIC, &[0x50], &NONE, &[LONGS, INT, LONG], STEP),
    (STATIC, &[0x51], &NONE, &[INTS, INT, FLOAT], FAULT),
    (STATIC, &[0x51], &NONE, &[FLOATS, INT, FLOAT], STEP),
    (STATIC, &[0x52], &NONE, &[LONGS, INT, DOUBLE], FAULT),
    (STATIC, &[0x52], &NONE, &[DOUBLES, INT, DOUBLE], STEP),
    (STATIC, &[0x54], &NONE, &[INTS, INT, INT], FAULT),
    (STATIC, &[0x54], &NONE, &[BYTES, INT, INT], STEP),
    (STATIC, &[0x54], &NONE, &[BOOLEANS, INT, INT], STEP),
    (STATIC, &[0x55], &NONE, &[SHORTS, INT, INT], FAULT),
    (STATIC, &[0x55], &NONE, &[CHARS, INT, INT], STEP),
    (STATIC, &[0x56], &NONE, &[CHARS, INT, INT], FAULT),
    (STATIC, &[0x56], &NONE, &[SHORTS, INT, INT], STEP),
];

#[test]
fn stored_elements(rt: HostRuntime) {
    assert!(rt; are_expected(rt.alloc(), &STORED_ELEMENTS));
}

/// An array, an index or an element is another value: `iastore`, `iaload`, `aastore`, `aaload`, `arraylength`
const ELEMENTS: [Row<'static>; 16] = [
    (STATIC, &[0x4F], &NONE, &[READY, INT, INT], FAULT),
    (STATIC, &[0x4F], &NONE, &[INTS, FLOAT, INT], FAULT),
    (STATIC, &[0x4F], &NONE, &[INTS, INT, FLOAT], FAULT),
    (STATIC, &[0x2E], &NONE, &[FLOATS, INT], FAULT),
    (STATIC, &[0x2E], &NONE, &[INTS, FLOAT], FAULT),
    (STATIC, &[0x2E], &NONE, &[INTS, INT], Expected::Gives(INT)),
    (STATIC, &[0x53], &NONE, &[ARRAY, INT, INT], FAULT),
    (STATIC, &[0x53], &NONE, &[ARRAY, INT, MADE], FAULT),
    (STATIC, &[0x53], &NONE, &[ARRAY, FLOAT, READY], FAULT),
    (STATIC, &[0x53], &NONE, &[INTS, INT, READY], FAULT),
    (STATIC, &[0x53], &NONE, &[ARRAY, INT, READY], STEP),
    (STATIC, &[0x32], &NONE, &[INTS, INT], FAULT),
    (STATIC, &[0x32], &NONE, &[ARRAY, FLOAT], FAULT),
    (
        STATIC,
        &[0x32],
        &NONE,
        &[ARRAY, INT],
        Expected::Gives(READY),
    ),
    (STATIC, &[0xBE], &NONE, &[READY], FAULT),
    (STATIC, &[0xBE], &NONE, &[INTS], STEP),
];

#[test]
fn elements(rt: HostRuntime) {
    assert!(rt; are_expected(rt.alloc(), &ELEMENTS));
}

/// Items are missing, or half of a long is moved: `pop`, `pop2`, `dup`, `dup_x1`, `dup_x2`, `dup2`, `dup2_x1`,
/// `dup2_x2`, `swap`
const ITEMS: [Row<'static>; 33] = [
    (STATIC, &[0x57], &NONE, &[], FAULT),
    (STATIC, &[0x57], &NONE, &[LONG], FAULT),
    (STATIC, &[0x57], &NONE, &[MADE], STEP),
    (STATIC, &[0x58], &NONE, &[INT], FAULT),
    (STATIC, &[0x58], &NONE, &[LONG, INT], FAULT),
    (STATIC, &[0x58], &NONE, &[INT, INT], STEP),
    (STATIC, &[0x58], &NONE, &[LONG], STEP),
    (STATIC, &[0x59], &NONE, &[LONG], FAULT),
    (STATIC, &[0x59], &NONE, &[INT], STEP),
    (STATIC, &[0x5A], &NONE, &[LONG, INT], FAULT),
    (STATIC, &[0x5A], &NONE, &[INT, LONG], FAULT),
    (STATIC, &[0x5A], &NONE, &[INT, INT], STEP),
    (STATIC, &[0x5B], &NONE, &[LONG, INT, INT], FAULT),
    (STATIC, &[0x5B], &NONE, &[INT, LONG], FAULT),
    (STATIC, &[0x5B], &NONE, &[LONG, INT], STEP),
    (STATIC, &[0x5B], &NONE, &[INT, INT, INT], STEP),
    (STATIC, &[0x5C], &NONE, &[INT], FAULT),
    (STATIC, &[0x5C], &NONE, &[LONG, INT], FAULT),
    (STATIC, &[0x5C], &NONE, &[INT, INT], STEP),
    (STATIC, &[0x5C], &NONE, &[LONG], STEP),
    (STATIC, &[0x5D], &NONE, &[LONG, INT, INT], FAULT),
    (STATIC, &[0x5D], &NONE, &[LONG, LONG], FAULT),
    (STATIC, &[0x5D], &NONE, &[INT, LONG], STEP),
    (STATIC, &[0x5D], &NONE, &[INT, INT, INT], STEP),
    (STATIC, &[0x5E], &NONE, &[LONG, INT, INT, INT], FAULT),
    (STATIC, &[0x5E], &NONE, &[LONG, INT, LONG], FAULT),
    (STATIC, &[0x5E], &NONE, &[LONG, INT, INT], STEP),
    (STATIC, &[0x5E], &NONE, &[INT, INT, LONG], STEP),
    (STATIC, &[0x5E], &NONE, &[LONG, LONG], STEP),
    (STATIC, &[0x5E], &NONE, &[INT, INT, INT, INT], STEP),
    (STATIC, &[0x5F], &NONE, &[LONG, INT], FAULT),
    (STATIC, &[0x5F], &NONE, &[INT, LONG], FAULT),
    (STATIC, &[0x5F], &NONE, &[READY, INT], STEP),
];

#[test]
fn items(rt: HostRuntime) {
    assert!(rt; are_expected(rt.alloc(), &ITEMS));
}

/// A local variable that is read is not there, or holds another value: `iload`, `iload_1`, `lload`, `aload`, `wide
/// iload`
const LOCALS_READ: [Row<'static>; 17] = [
    (STATIC, &[0x15, 2], &[EMPTY, INT_SLOT], &[], FAULT),
    (STATIC, &[0x15, 0], &[EMPTY, INT_SLOT], &[], FAULT),
    (STATIC, &[0x15, 1], &[EMPTY, FLOAT_SLOT], &[], FAULT),
    (STATIC, &[0x15, 1], &[LONG_SLOT, SECOND], &[], FAULT),
    (STATIC, &[0x15, 1], &[EMPTY, INT_SLOT], &[], STEP),
    (STATIC, &[0x1B], &[INT_SLOT, EMPTY], &[], FAULT),
    (STATIC, &[0x1B], &[EMPTY, INT_SLOT], &[], STEP),
    (STATIC, &[0x16, 1], &[LONG_SLOT, SECOND], &[], FAULT),
    (STATIC, &[0x18, 0], &[LONG_SLOT, SECOND], &[], FAULT),
    (STATIC, &[0x16, 0], &[LONG_SLOT, SECOND], &[], STEP),
    (STATIC, &[0x19, 1], &[EMPTY, INT_SLOT], &[], FAULT),
    (STATIC, &[0x19, 1], &NONE, &[], FAULT),
    (STATIC, &[0x19, 2], &[NULL_SLOT, NULL_SLOT], &[], FAULT),
    (STATIC, &[0x19, 1], &[EMPTY, MADE_SLOT], &[], STEP),
    (STATIC, &[0xC4, 21, 0, 2], &[EMPTY, INT_SLOT], &[], FAULT),
    (STATIC, &[0xC4, 21, 1, 1], &[EMPTY, INT_SLOT], &[], FAULT),
    (STATIC, &[0xC4, 21, 0, 1], &[EMPTY, INT_SLOT], &[], STEP),
];

#[test]
fn locals_read(rt: HostRuntime) {
    assert!(rt; are_expected(rt.alloc(), &LOCALS_READ));
}

/// A local variable that is written is not there, or a value is of another kind: `istore`, `lstore`, `astore`, `wide
/// lstore`, `wide astore`
const LOCALS_WRITTEN: [Row<'static>; 12] = [
    (STATIC, &[0x36, 2], &NONE, &[INT], FAULT),
    (STATIC, &[0x36, 1], &NONE, &[FLOAT], FAULT),
    (STATIC, &[0x36, 1], &NONE, &[INT], STEP),
    (STATIC, &[0x37, 1], &NONE, &[LONG], FAULT),
    (STATIC, &[0x37, 0], &NONE, &[DOUBLE], FAULT),
    (STATIC, &[0x37, 0], &NONE, &[LONG], STEP),
    (STATIC, &[0x3A, 2], &NONE, &[NULL], FAULT),
    (STATIC, &[0x3A, 1], &NONE, &[NULL], STEP),
    (STATIC, &[0xC4, 55, 0, 1], &NONE, &[LONG], FAULT),
    (STATIC, &[0xC4, 55, 0, 0], &NONE, &[LONG], STEP),
    (STATIC, &[0xC4, 58, 1, 0], &NONE, &[NULL], FAULT),
    (STATIC, &[0xC4, 58, 0, 0], &NONE, &[NULL], STEP),
];

#[test]
fn locals_written(rt: HostRuntime) {
    assert!(rt; are_expected(rt.alloc(), &LOCALS_WRITTEN));
}

/// A local variable that is incremented is no `int`: `iinc`, `wide iinc`
const INCREMENTS: [Row<'static>; 6] = [
    (STATIC, &[0x84, 2, 1], &[EMPTY, INT_SLOT], &[], FAULT),
    (STATIC, &[0x84, 0, 1], &[EMPTY, INT_SLOT], &[], FAULT),
    (STATIC, &[0x84, 1, 1], &[EMPTY, FLOAT_SLOT], &[], FAULT),
    (STATIC, &[0x84, 1, 1], &[EMPTY, INT_SLOT], &[], STEP),
    (
        STATIC,
        &[0xC4, 132, 1, 1, 0, 1],
        &[EMPTY, INT_SLOT],
        &[],
        FAULT,
    ),
    (
        STATIC,
        &[0xC4, 132, 0, 1, 0, 1],
        &[EMPTY, INT_SLOT],
        &[],
        STEP,
    ),
];

#[test]
fn increments(rt: HostRuntime) {
    assert!(rt; are_expected(rt.alloc(), &INCREMENTS));
}

/// An object does not have the field, or a value does not fit it: `getfield`, `putfield`, `putstatic`
const FIELDS: [Row<'static>; 11] = [
    (STATIC, &[0xB4, 0, 34], &NONE, &[INT], FAULT),
    (STATIC, &[0xB4, 0, 34], &NONE, &[OTHER], FAULT),
    (STATIC, &[0xB4, 0, 34], &NONE, &[MADE], FAULT),
    (
        STATIC,
        &[0xB4, 0, 34],
        &NONE,
        &[READY],
        Expected::Gives(NULL),
    ),
    (STATIC, &[0xB5, 0, 34], &NONE, &[OTHER, READY], FAULT),
    (STATIC, &[0xB5, 0, 34], &NONE, &[MADE, READY], FAULT),
    (STATIC, &[0xB5, 0, 34], &NONE, &[READY, OTHER], FAULT),
    (STATIC, &[0xB5, 0, 34], &NONE, &[READY, MADE], FAULT),
    (STATIC, &[0xB5, 0, 34], &NONE, &[READY, READY], STEP),
    (STATIC, &[0xB3, 0, 34], &NONE, &[OTHER], FAULT),
    (STATIC, &[0xB3, 0, 34], &NONE, &[READY], STEP),
];

#[test]
fn fields(rt: HostRuntime) {
    assert!(rt; are_expected(rt.alloc(), &FIELDS));
}

/// A field of the own object is read before another constructor returned, or written outside of `<init>`, or K does not
/// declare it: `getfield`, `putfield`
const OWN_FIELDS: [Row<'static>; 9] = [
    (INIT, &[0xB4, 0, 34], &NONE, &[OWN], FAULT),
    (INIT, &[0xB5, 0, 36], &NONE, &[OWN, NULL], FAULT),
    (INIT, &[0xB5, 0, 37], &NONE, &[OWN, NULL], FAULT),
    (STATIC, &[0xB5, 0, 34], &NONE, &[OWN, NULL], FAULT),
    (INIT, &[0xB5, 0, 34], &NONE, &[MADE, NULL], FAULT),
    (INIT, &[0xB5, 0, 34], &NONE, &[OWN, NULL], STEP),
    (INIT, &[0xB5, 0, 34], &NONE, &[READY, NULL], STEP),
    (
        INITIALIZED,
        &[0xB4, 0, 34],
        &NONE,
        &[OWN],
        Expected::Gives(NULL),
    ),
    (INITIALIZED, &[0xB5, 0, 36], &NONE, &[OWN, NULL], STEP),
];

#[test]
fn own_fields(rt: HostRuntime) {
    assert!(rt; are_expected(rt.alloc(), &OWN_FIELDS));
}

/// A receiver is missing, or of another type, or an argument does not fit: `invokevirtual`, `invokeinterface`
const RECEIVERS: [Row<'static>; 10] = [
    (STATIC, &[0xB6, 0, 41], &NONE, &[READY], FAULT),
    (STATIC, &[0xB6, 0, 41], &NONE, &[INT, READY], FAULT),
    (STATIC, &[0xB6, 0, 41], &NONE, &[OTHER, READY], FAULT),
    (STATIC, &[0xB6, 0, 41], &NONE, &[MADE, READY], FAULT),
    (STATIC, &[0xB6, 0, 41], &NONE, &[READY, OTHER], FAULT),
    (STATIC, &[0xB6, 0, 41], &NONE, &[READY, READY], STEP),
    (STATIC, &[0xB6, 0, 44], &NONE, &[READY, READY], FAULT),
    (STATIC, &[0xB6, 0, 44], &NONE, &[ARRAY, READY], STEP),
    (STATIC, &[0xB9, 0, 45, 2, 0], &NONE, &[MADE, READY], FAULT),
    (STATIC, &[0xB9, 0, 45, 2, 0], &NONE, &[OTHER, READY], STEP),
];

#[test]
fn receivers(rt: HostRuntime) {
    assert!(rt; are_expected(rt.alloc(), &RECEIVERS));
}

/// `<init>` is called on an object that no `new` made, of another class, or whose constructor has returned:
/// `invokespecial`
const CONSTRUCTORS: [Row<'static>; 14] = [
    (STATIC, &[0xB7, 0, 49], &NONE, &[], FAULT),
    (STATIC, &[0xB7, 0, 49], &NONE, &[INT], FAULT),
    (STATIC, &[0xB7, 0, 49], &NONE, &[NULL], FAULT),
    (STATIC, &[0xB7, 0, 49], &NONE, &[READY], FAULT),
    (STATIC, &[0xB7, 0, 50], &NONE, &[MADE], FAULT),
    (STATIC, &[0xB7, 0, 49], &NONE, &[MADE], STEP),
    (STATIC, &[0xB7, 0, 53], &NONE, &[READY], FAULT),
    (STATIC, &[0xB7, 0, 53], &NONE, &[MADE, OTHER], FAULT),
    (STATIC, &[0xB7, 0, 53], &NONE, &[MADE, MADE], FAULT),
    (STATIC, &[0xB7, 0, 53], &NONE, &[MADE, READY], STEP),
    (INIT, &[0xB7, 0, 51], &NONE, &[OWN], FAULT),
    (INITIALIZED, &[0xB7, 0, 49], &NONE, &[OWN], FAULT),
    (INIT, &[0xB7, 0, 49], &NONE, &[OWN], STEP),
    (INIT, &[0xB7, 0, 50], &NONE, &[OWN], STEP),
];

#[test]
fn constructors(rt: HostRuntime) {
    assert!(rt; are_expected(rt.alloc(), &CONSTRUCTORS));
}

/// Another method is called on an object that is no K, or of a class that is not above K: `invokespecial`
const SPECIAL_CALLS: [Row<'static>; 8] = [
    (STATIC, &[0xB7, 0, 41], &NONE, &[OTHER, READY], FAULT),
    (STATIC, &[0xB7, 0, 41], &NONE, &[MADE, READY], FAULT),
    (STATIC, &[0xB7, 0, 42], &NONE, &[OTHER, READY], FAULT),
    (STATIC, &[0xB7, 0, 43], &NONE, &[READY, READY], FAULT),
    (STATIC, &[0xB7, 0, 42], &NONE, &[READY, OTHER], FAULT),
    (STATIC, &[0xB7, 0, 41], &NONE, &[READY, READY], STEP),
    (STATIC, &[0xB7, 0, 42], &NONE, &[READY, READY], STEP),
    (STATIC, &[0xB7, 0, 45], &NONE, &[READY, READY], STEP),
];

#[test]
fn special_calls(rt: HostRuntime) {
    assert!(rt; are_expected(rt.alloc(), &SPECIAL_CALLS));
}

/// A return is of another kind than the result, or its value does not fit: `ireturn`, `lreturn`, `areturn`, `return`
const RETURNS: [Row<'static>; 13] = [
    (STATIC, &[0xAC], &NONE, &[INT], FAULT),
    (OF_INT, &[0xAC], &NONE, &[FLOAT], FAULT),
    (OF_K, &[0xAC], &NONE, &[INT], FAULT),
    (OF_INT, &[0xAC], &NONE, &[INT], STEP),
    (OF_INT, &[0xAD], &NONE, &[LONG], FAULT),
    (OF_LONG, &[0xAD], &NONE, &[LONG], STEP),
    (STATIC, &[0xB0], &NONE, &[READY], FAULT),
    (OF_INT, &[0xB0], &NONE, &[READY], FAULT),
    (OF_K, &[0xB0], &NONE, &[INT], FAULT),
    (OF_K, &[0xB0], &NONE, &[OTHER], FAULT),
    (OF_K, &[0xB0], &NONE, &[MADE], FAULT),
    (OF_K, &[0xB0], &NONE, &[READY], STEP),
    (OF_INT, &[0xB1], &NONE, &[INT], FAULT),
];

#[test]
fn returns(rt: HostRuntime) {
    assert!(rt; are_expected(rt.alloc(), &RETURNS));
}

/// `return` of `<init>` while the own object is not initialized
const RETURNS_OF_INIT: [Row<'static>; 3] = [
    (INIT, &[0xB1], &NONE, &[], FAULT),
    (INITIALIZED, &[0xB1], &NONE, &[], STEP),
    (STATIC, &[0xB1], &NONE, &[], STEP),
];

#[test]
fn returns_of_init(rt: HostRuntime) {
    assert!(rt; are_expected(rt.alloc(), &RETURNS_OF_INIT));
}

/// A value that is thrown is no `Throwable`, or not initialized: `athrow`
const THROWS: [Row<'static>; 5] = [
    (STATIC, &[0xBF], &NONE, &[], FAULT),
    (STATIC, &[0xBF], &NONE, &[READY], FAULT),
    (STATIC, &[0xBF], &NONE, &[INTS], FAULT),
    (STATIC, &[0xBF], &NONE, &[UNTHROWN], FAULT),
    (STATIC, &[0xBF], &NONE, &[THROWN], Expected::Raises(6)),
];

#[test]
fn throws(rt: HostRuntime) {
    assert!(rt; are_expected(rt.alloc(), &THROWS));
}

/// A value that is cast or tested is no reference, or not initialized: `checkcast`, `instanceof`
const CASTS: [Row<'static>; 6] = [
    (STATIC, &[0xC0, 0, 28], &NONE, &[INT], FAULT),
    (STATIC, &[0xC0, 0, 28], &NONE, &[MADE], FAULT),
    (STATIC, &[0xC0, 0, 28], &NONE, &[READY], STEP),
    (STATIC, &[0xC1, 0, 28], &NONE, &[INT], FAULT),
    (STATIC, &[0xC1, 0, 28], &NONE, &[OWN], FAULT),
    (STATIC, &[0xC1, 0, 28], &NONE, &[OTHER], STEP),
];

#[test]
fn casts(rt: HostRuntime) {
    assert!(rt; are_expected(rt.alloc(), &CASTS));
}

/// A constant is of another kind: `ldc`, `ldc2_w`, `getstatic`, `putstatic`, `getfield`, `putfield`, `new`,
/// `checkcast`, `instanceof`
const NAMED_FIELDS_AND_CLASSES: [Row<'static>; 18] = [
    (STATIC, &[0x12, 34], &NONE, &[], FAULT),
    (STATIC, &[0x12, 73], &NONE, &[], FAULT),
    (STATIC, &[0x12, 72], &NONE, &[], Expected::Gives(INT)),
    (STATIC, &[0x12, 28], &NONE, &[], Expected::Gives(NULL)),
    (STATIC, &[0x14, 0, 28], &NONE, &[], FAULT),
    (STATIC, &[0x14, 0, 73], &NONE, &[], STEP),
    (STATIC, &[0xB2, 0, 41], &NONE, &[], FAULT),
    (STATIC, &[0xB2, 0, 34], &NONE, &[], Expected::Gives(NULL)),
    (STATIC, &[0xB3, 0, 41], &NONE, &[READY], FAULT),
    (STATIC, &[0xB3, 0, 34], &NONE, &[READY], STEP),
    (STATIC, &[0xB4, 0, 41], &NONE, &[READY], FAULT),
    (STATIC, &[0xB5, 0, 41], &NONE, &[READY, READY], FAULT),
    (STATIC, &[0xB5, 0, 0], &NONE, &[READY, READY], FAULT),
    (STATIC, &[0xBB, 0, 32], &NONE, &[], FAULT),
    (STATIC, &[0xBB, 0, 34], &NONE, &[], FAULT),
    (STATIC, &[0xBB, 0, 28], &NONE, &[], Expected::Gives(NOWHERE)),
    (STATIC, &[0xC0, 0, 34], &NONE, &[READY], FAULT),
    (STATIC, &[0xC1, 0, 34], &NONE, &[READY], FAULT),
];

#[test]
fn named_fields_and_classes(rt: HostRuntime) {
    assert!(rt; are_expected(rt.alloc(), &NAMED_FIELDS_AND_CLASSES));
}

/// A size is no `int`, a type has no arrays, or dimensions are none or too many: `newarray`, `anewarray`,
/// `multianewarray`
const NEW_ARRAYS: [Row<'static>; 12] = [
    (STATIC, &[0xBC, 10], &NONE, &[FLOAT], FAULT),
    (STATIC, &[0xBC, 3], &NONE, &[INT], FAULT),
    (STATIC, &[0xBC, 10], &NONE, &[INT], Expected::Gives(NOWHERE)),
    (STATIC, &[0xBD, 0, 28], &NONE, &[FLOAT], FAULT),
    (STATIC, &[0xBD, 0, 34], &NONE, &[INT], FAULT),
    (
        STATIC,
        &[0xBD, 0, 28],
        &NONE,
        &[INT],
        Expected::Gives(NOWHERE),
    ),
    (STATIC, &[0xC5, 0, 32, 1], &NONE, &[FLOAT], FAULT),
    (STATIC, &[0xC5, 0, 32, 0], &NONE, &[INT], FAULT),
    (STATIC, &[0xC5, 0, 32, 2], &NONE, &[INT, INT], FAULT),
    (STATIC, &[0xC5, 0, 28, 1], &NONE, &[INT], FAULT),
    (STATIC, &[0xC5, 0, 34, 1], &NONE, &[INT], FAULT),
    (
        STATIC,
        &[0xC5, 0, 32, 1],
        &NONE,
        &[INT],
        Expected::Gives(NOWHERE),
    ),
];

#[test]
fn new_arrays(rt: HostRuntime) {
    assert!(rt; are_expected(rt.alloc(), &NEW_ARRAYS));
}

/// A call names what it may not: `invokestatic`, `invokevirtual`, `invokeinterface`, `invokespecial`
const NAMED_METHODS: [Row<'static>; 16] = [
    (STATIC, &[0xB8, 0, 34], &NONE, &[READY], FAULT),
    (STATIC, &[0xB8, 0, 53], &NONE, &[READY], FAULT),
    (STATIC, &[0xB8, 0, 44], &NONE, &[READY], FAULT),
    (OLD, &[0xB8, 0, 45], &NONE, &[READY], FAULT),
    (OLD, &[0xB8, 0, 41], &NONE, &[READY], STEP),
    (STATIC, &[0xB8, 0, 45], &NONE, &[READY], STEP),
    (STATIC, &[0xB6, 0, 34], &NONE, &[READY, READY], FAULT),
    (STATIC, &[0xB6, 0, 45], &NONE, &[READY, READY], FAULT),
    (STATIC, &[0xB6, 0, 53], &NONE, &[READY, READY], FAULT),
    (STATIC, &[0xB9, 0, 41, 2, 0], &NONE, &[READY, READY], FAULT),
    (STATIC, &[0xB9, 0, 45, 3, 0], &NONE, &[READY, READY], FAULT),
    (STATIC, &[0xB9, 0, 45, 2, 0], &NONE, &[READY, READY], STEP),
    (STATIC, &[0xB7, 0, 34], &NONE, &[READY, READY], FAULT),
    (STATIC, &[0xB7, 0, 44], &NONE, &[READY, READY], FAULT),
    (OLD, &[0xB7, 0, 45], &NONE, &[READY, READY], FAULT),
    (OLD, &[0xB7, 0, 41], &NONE, &[READY, READY], STEP),
];

#[test]
fn named_methods(rt: HostRuntime) {
    assert!(rt; are_expected(rt.alloc(), &NAMED_METHODS));
}

/// An instruction has no rule: `jsr`, `jsr_w`, `ret`; or is not judged, as `invokedynamic` and `ldc` of a dynamic
/// constant may be
const UNSUPPORTED: [Row<'static>; 15] = [
    (STATIC, &[0xA8, 0, 3], &NONE, &[], FAULT),
    (STATIC, &[0xA7, 0, 3], &NONE, &[], Expected::To(3)),
    (STATIC, &[0xC9, 0, 0, 0, 5], &NONE, &[], FAULT),
    (STATIC, &[0xC8, 0, 0, 0, 5], &NONE, &[], Expected::To(5)),
    (STATIC, &[0xA9, 0], &NONE, &[], FAULT),
    (UNJUDGED, &[0xBA, 0, 79, 0, 0], &NONE, &[READY], FAULT),
    (JUDGED, &[0xBA, 0, 79, 0, 0], &NONE, &[OTHER], FAULT),
    (JUDGED, &[0xBA, 0, 79, 0, 0], &NONE, &[READY], STEP),
    (JUDGED, &[0xBA, 0, 41, 0, 0], &NONE, &[READY], FAULT),
    (UNJUDGED, &[0x12, 77], &NONE, &[], FAULT),
    (JUDGED, &[0x12, 78], &NONE, &[], FAULT),
    (JUDGED, &[0x12, 77], &NONE, &[], Expected::Gives(NULL)),
    (UNJUDGED, &[0x14, 0, 78], &NONE, &[], FAULT),
    (JUDGED, &[0x14, 0, 77], &NONE, &[], FAULT),
    (JUDGED, &[0x14, 0, 78], &NONE, &[], Expected::Gives(LONG)),
];

#[test]
fn unsupported(rt: HostRuntime) {
    assert!(rt; are_expected(rt.alloc(), &UNSUPPORTED));
}

/// The operand stack is wider than max_stack, which is 4, before the instruction: `nop`, `return`
const DEPTHS_BEFORE: [Row<'static>; 5] = [
    (TIGHT, &[0x00], &NONE, &[INT, INT, INT, INT, INT], FAULT),
    (TIGHT, &[0x00], &NONE, &[LONG, LONG, INT], FAULT),
    (TIGHT, &[0x00], &NONE, &[LONG, LONG], STEP),
    (TIGHT, &[0xB1], &NONE, &[LONG, LONG, INT], FAULT),
    (TIGHT, &[0xB1], &NONE, &[LONG, LONG], STEP),
];

#[test]
fn depths_before(rt: HostRuntime) {
    assert!(rt; are_expected(rt.alloc(), &DEPTHS_BEFORE));
}

/// It is wider afterwards: `iconst_0`, `lconst_0`, `i2l`, `getfield`, `invokestatic`, `invokespecial`, `iload`,
/// `lload`, `dup`, `dup2`, `new`
const DEPTHS_AFTER: [Row<'static>; 22] = [
    (TIGHT, &[0x03], &NONE, &[LONG, LONG], FAULT),
    (TIGHT, &[0x03], &NONE, &[LONG, INT], STEP),
    (TIGHT, &[0x09], &NONE, &[LONG, INT], FAULT),
    (TIGHT, &[0x09], &NONE, &[LONG], STEP),
    (TIGHT, &[0x85], &NONE, &[LONG, INT, INT], FAULT),
    (TIGHT, &[0x85], &NONE, &[LONG, INT], STEP),
    (TIGHT, &[0xB4, 0, 39], &NONE, &[LONG, INT, READY], FAULT),
    (
        TIGHT,
        &[0xB4, 0, 39],
        &NONE,
        &[LONG, READY],
        Expected::Gives(LONG),
    ),
    (TIGHT, &[0xB8, 0, 47], &NONE, &[LONG, INT], FAULT),
    (TIGHT, &[0xB8, 0, 47], &NONE, &[LONG], Expected::Gives(LONG)),
    (TIGHT, &[0xB7, 0, 47], &NONE, &[LONG, INT, READY], FAULT),
    (
        TIGHT,
        &[0xB7, 0, 47],
        &NONE,
        &[LONG, READY],
        Expected::Gives(LONG),
    ),
    (TIGHT, &[0x15, 1], &[EMPTY, INT_SLOT], &[LONG, LONG], FAULT),
    (TIGHT, &[0x15, 1], &[EMPTY, INT_SLOT], &[LONG, INT], STEP),
    (TIGHT, &[0x16, 0], &[LONG_SLOT, SECOND], &[LONG, INT], FAULT),
    (TIGHT, &[0x16, 0], &[LONG_SLOT, SECOND], &[LONG], STEP),
    (TIGHT, &[0x59], &NONE, &[LONG, INT, INT], FAULT),
    (TIGHT, &[0x59], &NONE, &[LONG, INT], STEP),
    (TIGHT, &[0x5C], &NONE, &[INT, LONG], FAULT),
    (TIGHT, &[0x5C], &NONE, &[LONG], STEP),
    (TIGHT, &[0xBB, 0, 28], &NONE, &[LONG, LONG], FAULT),
    (
        TIGHT,
        &[0xBB, 0, 28],
        &NONE,
        &[LONG, INT],
        Expected::Gives(NOWHERE),
    ),
];

#[test]
fn depths_after(rt: HostRuntime) {
    assert!(rt; are_expected(rt.alloc(), &DEPTHS_AFTER));
}

/// A branch leads into an instruction, in front of the code or behind it: `ifeq`, `goto`, `tableswitch`, `lookupswitch`
const BRANCHES: [Row<'static>; 14] = [
    (STATIC, &[0x99, 0, 1], &NONE, &[INT], FAULT),
    (STATIC, &[0x99, 0xFF, 0xFF], &NONE, &[INT], FAULT),
    (STATIC, &[0x99, 0, 7], &NONE, &[INT], FAULT),
    (STATIC, &[0x99, 0, 6], &NONE, &[INT], Expected::To(6)),
    (STATIC, &[0x99, 0, 3], &NONE, &[FLOAT], FAULT),
    (STATIC, &[0xA7, 0, 2], &NONE, &[], FAULT),
    (STATIC, &[0xA7, 0, 0], &NONE, &[], Expected::To(0)),
    (STATIC, &[0xC8, 0xFF, 0xFF, 0xFF, 0xFF], &NONE, &[], FAULT),
    (
        STATIC,
        &[
            0xAA, 0, 0, 0, 0, 0, 0, 1, 0, 0, 0, 0, 0, 0, 0, 0, 0, 0, 0, 20,
        ],
        &NONE,
        &[INT],
        FAULT,
    ),
    (
        STATIC,
        &[
            0xAA, 0, 0, 0, 0, 0, 0, 20, 0, 0, 0, 0, 0, 0, 0, 0, 0, 0, 0, 1,
        ],
        &NONE,
        &[INT],
        FAULT,
    ),
    (
        STATIC,
        &[
            0xAA, 0, 0, 0, 0, 0, 0, 20, 0, 0, 0, 0, 0, 0, 0, 0, 0, 0, 0, 21,
        ],
        &NONE,
        &[INT],
        Expected::To(21),
    ),
    (
        STATIC,
        &[
            0xAB, 0, 0, 0, 0, 0, 0, 1, 0, 0, 0, 1, 0, 0, 0, 0, 0, 0, 0, 20,
        ],
        &NONE,
        &[INT],
        FAULT,
    ),
    (
        STATIC,
        &[
            0xAB, 0, 0, 0, 0, 0, 0, 20, 0, 0, 0, 1, 0, 0, 0, 0, 0, 0, 0, 24,
        ],
        &NONE,
        &[INT],
        FAULT,
    ),
    (
        STATIC,
        &[
            0xAB, 0, 0, 0, 0, 0, 0, 20, 0, 0, 0, 1, 0, 0, 0, 0, 0, 0, 0, 21,
        ],
        &NONE,
        &[INT],
        Expected::To(20),
    ),
];

#[test]
fn branches(rt: HostRuntime) {
    assert!(rt; are_expected(rt.alloc(), &BRANCHES));
}

/// The last instruction goes on, or may do so: `nop`, `ifeq`, `astore_0`; beside `return`, `goto`, `athrow`
const ENDS_OF_CODE: [Row<'static>; 7] = [
    (LAST, &[0x00], &NONE, &[], FAULT),
    (LAST, &[0x00, 0], &NONE, &[], STEP),
    (LAST, &[0x99, 0, 0], &NONE, &[INT], FAULT),
    (LAST, &[0x4B], &NONE, &[NULL], FAULT),
    (LAST, &[0xB1], &NONE, &[], STEP),
    (LAST, &[0xA7, 0, 0], &NONE, &[], Expected::To(0)),
    (LAST, &[0xBF], &NONE, &[THROWN], Expected::Raises(6)),
];

#[test]
fn ends_of_code(rt: HostRuntime) {
    assert!(rt; are_expected(rt.alloc(), &ENDS_OF_CODE));
}

/// A handler of an entry that covers the instruction is no start: `sipush`, `nop`
const HANDLERS: [Row<'static>; 4] = [
    (HANDLED_AT_1, &[0x11, 0, 0], &NONE, &[], FAULT),
    (HANDLED_AT_3, &[0x11, 0, 0], &NONE, &[], STEP),
    (HANDLED_AT_1, &[0x00, 0, 0], &NONE, &[], STEP),
    (ELSEWHERE, &[0x11, 0, 0], &NONE, &[], STEP),
];

#[test]
fn handlers(rt: HostRuntime) {
    assert!(rt; are_expected(rt.alloc(), &HANDLERS));
}
