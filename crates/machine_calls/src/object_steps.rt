//! Steps of instructions that name constants or use objects, in a method of six bytes of code.
use crate::machine_steps::step_of;
use crate::making::go;
use format_calls::making::OUT_OF_MEMORY;
use machine::{Object, Outcome, RunType, Slot, State, Status, Value};
use names::{Base, OBJECT};
use std::alloc::{AllocFailed, Global};
use std::collections::BTreeMap;
use std::test::*;

/// The class file of a class K whose static method `f`, of no parameters and no result, has two local variables, room
/// for four units on the stack and six bytes of code. Its constants 11, 15, 18 and 19 are the field `g` of type K, the
/// methods `h` and `<init>`, and `h` as an interface's method; `h` has one `int` and returns a K. 20 is a string, 21
/// the arrays of K.
const NAMING: [u8; 190] = [
    0xCA, 0xFE, 0xBA, 0xBE, 0, 0, 0, 0x34, 0, 0x17, 7, 0, 2, 1, 0, 1, 0x4B, 7, 0, 4, 1, 0, 0x10,
    0x6A, 0x61, 0x76, 0x61, 0x2F, 0x6C, 0x61, 0x6E, 0x67, 0x2F, 0x4F, 0x62, 0x6A, 0x65, 0x63, 0x74,
    1, 0, 1, 0x66, 1, 0, 3, 0x28, 0x29, 0x56, 1, 0, 4, 0x43, 0x6F, 0x64, 0x65, 1, 0, 1, 0x67, 1, 0,
    3, 0x4C, 0x4B, 0x3B, 0x0C, 0, 8, 0, 9, 9, 0, 1, 0, 0x0A, 1, 0, 1, 0x68, 1, 0, 6, 0x28, 0x49,
    0x29, 0x4C, 0x4B, 0x3B, 0x0C, 0, 0x0C, 0, 0x0D, 0x0A, 0, 1, 0, 0x0E, 1, 0, 6, 0x3C, 0x69, 0x6E,
    0x69, 0x74, 0x3E, 0x0C, 0, 0x10, 0, 6, 0x0A, 0, 1, 0, 0x11, 0x0B, 0, 1, 0, 0x0E, 8, 0, 5, 7, 0,
    0x16, 1, 0, 4, 0x5B, 0x4C, 0x4B, 0x3B, 0, 0x21, 0, 1, 0, 3, 0, 0, 0, 0, 0, 1, 0, 8, 0, 5, 0, 6,
    0, 1, 0, 7, 0, 0, 0, 0x1A, 0, 4, 0, 2, 0, 0, 0, 6, 0, 0, 0, 0, 0, 0, 0, 1, 0, 0, 0, 1, 0, 5, 0,
    0, 0, 0, 0, 0,
];

/// That class file with these first bytes of code; the others are `nop`.
fn naming(code: [u8; 5]) -> [u8; 190] {
    let mut bytes = NAMING;
    bytes[170] = code[0];
    bytes[171] = code[1];
    bytes[172] = code[2];
    bytes[173] = code[3];
    bytes[174] = code[4];
    bytes
}

const K: RunType<'static> = RunType::Class(b"K");

const ARRAY_OF_K: RunType<'static> = RunType::Array {
    dims: 1,
    base: Base::Class(b"K"),
};

/// An array of K, a K, an object of no other class, and a K that is not initialized yet.
const OBJECTS: [(u32, RunType<'static>, Status); 4] = [
    (1, ARRAY_OF_K, Status::Ready),
    (2, K, Status::Ready),
    (3, RunType::Class(OBJECT), Status::Ready),
    (4, K, Status::Made),
];

fn objects<'a>(alloc: Global) -> Result<BTreeMap<u32, Object<'a>>, AllocFailed<(u32, Object<'a>)>> {
    let mut heap = BTreeMap::new(alloc);
    for (address, run_type, status) in &OBJECTS {
        let object = Object {
            run_type: *run_type,
            status: *status,
        };
        heap.insert(*address, object)?;
    }
    Ok(heap)
}

/// The state at offset 0 with these objects, this stack and a reference to the K in local variable 0.
fn state<'a>(alloc: Global, stack: &[Value]) -> Result<State<'a>, u8> {
    let Ok(heap) = objects(alloc) else {
        return Err(OUT_OF_MEMORY);
    };
    let Ok(stack) = stack.to_vec(alloc) else {
        return Err(OUT_OF_MEMORY);
    };
    let Ok(locals) = [Slot::Value(Value::Ref(2)), Slot::Empty].to_vec(alloc) else {
        return Err(OUT_OF_MEMORY);
    };
    Ok(State {
        at: 0,
        stack,
        locals,
        heap,
    })
}

/// The outcome of the first instruction of this code from this stack, by this answer.
fn stepped<'a>(
    alloc: Global,
    bytes: &'a [u8],
    stack: &[Value],
    answer: Option<Value>,
) -> Result<Outcome<'a>, u8> {
    let start = state(alloc, stack)?;
    step_of(alloc, bytes, &start, &go(alloc, None, answer))
}

/// Whether the instruction is taken from the first stack to the second.
fn takes(
    alloc: Global,
    code: [u8; 5],
    before: &[Value],
    answer: Option<Value>,
    after: &[Value],
) -> bool {
    let bytes = naming(code);
    match stepped(alloc, &bytes, before, answer) {
        Ok(Outcome::Next(state)) => state.stack.as_slice() == after,
        _ => false,
    }
}

/// Whether a state with this stack is a fault before the instruction.
fn faults(alloc: Global, code: [u8; 5], stack: &[Value]) -> bool {
    let bytes = naming(code);
    matches!(stepped(alloc, &bytes, stack, None), Ok(Outcome::Fault))
}

/// Whether nothing comes of this answer from this stack.
fn refuses(alloc: Global, code: [u8; 5], stack: &[Value], answer: Option<Value>) -> bool {
    let bytes = naming(code);
    matches!(stepped(alloc, &bytes, stack, answer), Err(54))
}

/// The outcome of an instruction.
#[derive(Clone, Copy)]
enum Expected<'a> {
    /// It is taken to this stack.
    Taken(&'a [Value]),
    /// The state before it is a fault.
    Fault,
    /// Nothing comes of the answer.
    Refused,
}

/// The first bytes of code, the stack before their first instruction, the answer, and what is expected.
type Row<'a> = ([u8; 5], &'a [Value], Option<Value>, Expected<'a>);

fn is_expected(alloc: Global, row: &Row<'_>) -> bool {
    let (code, before, answer, expected) = row;
    match expected {
        Expected::Taken(after) => takes(alloc, *code, *before, *answer, *after),
        Expected::Fault => faults(alloc, *code, *before),
        Expected::Refused => refuses(alloc, *code, *before, *answer),
    }
}

fn are_expected(alloc: Global, rows: &[Row<'_>]) -> bool {
    for row in rows {
        if !is_expected(alloc, row) {
            return false;
        }
    }
    true
}

const INT: Value = Value::Int;

const NULL: Value = Value::Null;

const ARRAY: Value = Value::Ref(1);

const READY: Value = Value::Ref(2);

const OTHER: Value = Value::Ref(3);

const MADE: Value = Value::Ref(4);

const UNUSED: Value = Value::Ref(9);

/// `aconst_null`, `ldc`, `aload_0`, `astore_0`
const REFERENCES_AND_CONSTANTS: [Row<'static>; 7] = [
    ([0x01, 0, 0, 0, 0], &[], None, Expected::Taken(&[NULL])),
    (
        [0x12, 20, 0, 0, 0],
        &[],
        Some(NULL),
        Expected::Taken(&[NULL]),
    ),
    ([0x12, 20, 0, 0, 0], &[], Some(INT), Expected::Refused),
    ([0x2A, 0, 0, 0, 0], &[], None, Expected::Taken(&[READY])),
    ([0x2B, 0, 0, 0, 0], &[], None, Expected::Fault),
    ([0x4B, 0, 0, 0, 0], &[MADE], None, Expected::Taken(&[])),
    ([0x4B, 0, 0, 0, 0], &[INT], None, Expected::Fault),
];

#[test]
fn references_and_constants(rt: HostRuntime) {
    assert!(rt; are_expected(rt.alloc(), &REFERENCES_AND_CONSTANTS));
}

/// `getstatic`, `putstatic`
const FIELDS_OF_CLASSES: [Row<'static>; 5] = [
    (
        [0xB2, 0, 11, 0, 0],
        &[],
        Some(READY),
        Expected::Taken(&[READY]),
    ),
    ([0xB2, 0, 11, 0, 0], &[], Some(OTHER), Expected::Refused),
    ([0xB2, 0, 15, 0, 0], &[], None, Expected::Fault),
    ([0xB3, 0, 11, 0, 0], &[READY], None, Expected::Taken(&[])),
    ([0xB3, 0, 11, 0, 0], &[OTHER], None, Expected::Fault),
];

#[test]
fn fields_of_classes(rt: HostRuntime) {
    assert!(rt; are_expected(rt.alloc(), &FIELDS_OF_CLASSES));
}

/// `getfield`, `putfield`
const FIELDS_OF_OBJECTS: [Row<'static>; 6] = [
    (
        [0xB4, 0, 11, 0, 0],
        &[READY],
        Some(NULL),
        Expected::Taken(&[NULL]),
    ),
    ([0xB4, 0, 11, 0, 0], &[NULL], Some(NULL), Expected::Refused),
    ([0xB4, 0, 11, 0, 0], &[MADE], None, Expected::Fault),
    (
        [0xB5, 0, 11, 0, 0],
        &[READY, NULL],
        None,
        Expected::Taken(&[]),
    ),
    ([0xB5, 0, 11, 0, 0], &[NULL, NULL], None, Expected::Refused),
    ([0xB5, 0, 11, 0, 0], &[OTHER, NULL], None, Expected::Fault),
];

#[test]
fn fields_of_objects(rt: HostRuntime) {
    assert!(rt; are_expected(rt.alloc(), &FIELDS_OF_OBJECTS));
}

/// `invokestatic`, `invokevirtual`
const CALLS: [Row<'static>; 6] = [
    (
        [0xB8, 0, 15, 0, 0],
        &[INT],
        Some(READY),
        Expected::Taken(&[READY]),
    ),
    ([0xB8, 0, 15, 0, 0], &[INT], Some(OTHER), Expected::Refused),
    ([0xB8, 0, 15, 0, 0], &[], None, Expected::Fault),
    (
        [0xB6, 0, 15, 0, 0],
        &[READY, INT],
        Some(NULL),
        Expected::Taken(&[NULL]),
    ),
    (
        [0xB6, 0, 15, 0, 0],
        &[NULL, INT],
        Some(NULL),
        Expected::Refused,
    ),
    ([0xB6, 0, 15, 0, 0], &[OTHER, INT], None, Expected::Fault),
];

#[test]
fn calls(rt: HostRuntime) {
    assert!(rt; are_expected(rt.alloc(), &CALLS));
}

/// `invokeinterface`, and `invokespecial` of a method that is not a constructor
const SPECIAL_CALLS: [Row<'static>; 6] = [
    (
        [0xB9, 0, 19, 2, 0],
        &[READY, INT],
        Some(NULL),
        Expected::Taken(&[NULL]),
    ),
    (
        [0xB9, 0, 19, 2, 0],
        &[NULL, INT],
        Some(NULL),
        Expected::Refused,
    ),
    ([0xB9, 0, 19, 1, 0], &[READY, INT], None, Expected::Fault),
    (
        [0xB7, 0, 15, 0, 0],
        &[READY, INT],
        Some(NULL),
        Expected::Taken(&[NULL]),
    ),
    ([0xB7, 0, 15, 0, 0], &[READY, INT], None, Expected::Refused),
    ([0xB7, 0, 15, 0, 0], &[MADE, INT], None, Expected::Fault),
];

#[test]
fn special_calls(rt: HostRuntime) {
    assert!(rt; are_expected(rt.alloc(), &SPECIAL_CALLS));
}

/// `new`, and `invokespecial` of a constructor
const CREATIONS: [Row<'static>; 6] = [
    (
        [0xBB, 0, 1, 0, 0],
        &[],
        Some(UNUSED),
        Expected::Taken(&[UNUSED]),
    ),
    ([0xBB, 0, 1, 0, 0], &[], Some(READY), Expected::Refused),
    ([0xBB, 0, 21, 0, 0], &[], None, Expected::Fault),
    (
        [0xB7, 0, 18, 0, 0],
        &[MADE, MADE],
        None,
        Expected::Taken(&[MADE]),
    ),
    ([0xB7, 0, 18, 0, 0], &[MADE], Some(NULL), Expected::Refused),
    ([0xB7, 0, 18, 0, 0], &[READY], None, Expected::Fault),
];

#[test]
fn creations(rt: HostRuntime) {
    assert!(rt; are_expected(rt.alloc(), &CREATIONS));
    assert!(rt; is_initialized(rt.alloc()));
}

/// Whether the object is ready after its constructor.
fn is_initialized(alloc: Global) -> bool {
    let bytes = naming([0xB7, 0, 18, 0, 0]);
    match stepped(alloc, &bytes, &[MADE], None) {
        Ok(Outcome::Next(state)) => match state.heap.get(&4) {
            Some(object) => matches!(object.status, Status::Ready),
            None => false,
        },
        _ => false,
    }
}

/// `aaload`, `aastore`, `iaload`, `arraylength`
const ARRAYS: [Row<'static>; 8] = [
    (
        [0x32, 0, 0, 0, 0],
        &[ARRAY, INT],
        Some(READY),
        Expected::Taken(&[READY]),
    ),
    (
        [0x32, 0, 0, 0, 0],
        &[ARRAY, INT],
        Some(OTHER),
        Expected::Refused,
    ),
    ([0x32, 0, 0, 0, 0], &[READY, INT], None, Expected::Fault),
    (
        [0x53, 0, 0, 0, 0],
        &[ARRAY, INT, OTHER],
        None,
        Expected::Taken(&[]),
    ),
    (
        [0x53, 0, 0, 0, 0],
        &[NULL, INT, OTHER],
        None,
        Expected::Refused,
    ),
    ([0x2E, 0, 0, 0, 0], &[ARRAY, INT], None, Expected::Fault),
    ([0xBE, 0, 0, 0, 0], &[ARRAY], None, Expected::Taken(&[INT])),
    ([0xBE, 0, 0, 0, 0], &[NULL], None, Expected::Refused),
];

#[test]
fn arrays(rt: HostRuntime) {
    assert!(rt; are_expected(rt.alloc(), &ARRAYS));
}

/// `newarray`, `anewarray`, `multianewarray`
const NEW_ARRAYS: [Row<'static>; 5] = [
    (
        [0xBC, 10, 0, 0, 0],
        &[INT],
        Some(UNUSED),
        Expected::Taken(&[UNUSED]),
    ),
    ([0xBC, 10, 0, 0, 0], &[INT], Some(ARRAY), Expected::Refused),
    (
        [0xBD, 0, 1, 0, 0],
        &[INT],
        Some(UNUSED),
        Expected::Taken(&[UNUSED]),
    ),
    ([0xC5, 0, 21, 2, 0], &[INT, INT], None, Expected::Fault),
    (
        [0xC5, 0, 21, 1, 0],
        &[INT],
        Some(UNUSED),
        Expected::Taken(&[UNUSED]),
    ),
];

#[test]
fn new_arrays(rt: HostRuntime) {
    assert!(rt; are_expected(rt.alloc(), &NEW_ARRAYS));
}

/// `checkcast`, `instanceof`
const CASTS: [Row<'static>; 5] = [
    (
        [0xC0, 0, 1, 0, 0],
        &[READY],
        None,
        Expected::Taken(&[READY]),
    ),
    ([0xC0, 0, 1, 0, 0], &[OTHER], None, Expected::Refused),
    ([0xC0, 0, 1, 0, 0], &[INT], None, Expected::Fault),
    ([0xC1, 0, 1, 0, 0], &[OTHER], None, Expected::Taken(&[INT])),
    ([0xC1, 0, 1, 0, 0], &[MADE], None, Expected::Fault),
];

#[test]
fn casts(rt: HostRuntime) {
    assert!(rt; are_expected(rt.alloc(), &CASTS));
}

/// `monitorenter`, `athrow`, `areturn`
const MONITORS_AND_ENDS: [Row<'static>; 6] = [
    ([0xC2, 0, 0, 0, 0], &[MADE], None, Expected::Taken(&[])),
    ([0xC2, 0, 0, 0, 0], &[NULL], None, Expected::Refused),
    ([0xC2, 0, 0, 0, 0], &[INT], None, Expected::Fault),
    ([0xBF, 0, 0, 0, 0], &[NULL], None, Expected::Refused),
    ([0xBF, 0, 0, 0, 0], &[READY], None, Expected::Fault),
    ([0xB0, 0, 0, 0, 0], &[READY], None, Expected::Fault),
];

#[test]
fn monitors_and_ends(rt: HostRuntime) {
    assert!(rt; are_expected(rt.alloc(), &MONITORS_AND_ENDS));
}

/// Instructions of several kinds.
const CODES: [[u8; 5]; 7] = [
    [0x12, 20, 0, 0, 0],
    [0xB5, 0, 11, 0, 0],
    [0xB6, 0, 15, 0, 0],
    [0xB7, 0, 18, 0, 0],
    [0xB9, 0, 19, 2, 0],
    [0xBB, 0, 1, 0, 0],
    [0xC5, 0, 21, 1, 0],
];

/// With memory enough no answer says that it ran out.
#[test]
fn each_step_answers(rt: HostRuntime) {
    for code in &CODES {
        let bytes = naming(*code);
        let answered = stepped(rt.alloc(), &bytes, &[MADE, INT], None);
        assert!(rt; !matches!(answered, Err(OUT_OF_MEMORY)));
    }
}
