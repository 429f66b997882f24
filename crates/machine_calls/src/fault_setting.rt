//! The setting of rows of faults of the machine: a class K, states of its methods, and how a row is judged, by a step and
//! by a walk of one choice.
use crate::making::{go, machine_method};
use classfile::{Formed, Profile, decode, form_check};
use format_calls::making::OUT_OF_MEMORY;
use hierarchy::{Classes, Rows};
use lower_calls::making::{hasher, object, summary};
use machine::{
    Choice, Last, Method, Object, Outcome, RunType, Slot, State, Status, Value, step, walk,
};
use names::{Base, OBJECT, Primitive, THROWABLE};
use std::alloc::{AllocError, AllocFailed, Global};
use std::collections::BTreeMap;
use std::test::*;

/// The texts of the constants from 1 on.
const TEXTS: [&[u8]; 27] = [
    b"Code",
    b"f",
    b"g",
    b"h",
    b"i",
    b"<init>",
    b"()V",
    b"()I",
    b"()LK;",
    b"()J",
    b"(LK;)V",
    b"K",
    b"I",
    b"java/lang/Object",
    b"java/lang/Throwable",
    b"[LK;",
    b"LK;",
    b"J",
    b"(B)V",
    b"(Ljava/lang/Object;)V",
    b"(Ljava/lang/Throwable;)V",
    b"(LI;)V",
    b"(Ljava/lang/Cloneable;)V",
    b"(Ljava/io/Serializable;)V",
    b"([LK;)V",
    b"([Ljava/lang/Object;)V",
    b"([I)V",
];

/// The constants from 28 on, as they stand in the file.
const CONSTANTS: [&[u8]; 46] = [
    &[7, 0, 12], // 28: the class K
    &[7, 0, 14], // 29: the class java/lang/Object
    &[7, 0, 15], // 30: the class java/lang/Throwable
    &[7, 0, 13], // 31: the class I
    &[7, 0, 16], // 32: the arrays of K
    &[12, 0, 3, 0, 17], // 33: g LK;
    &[9, 0, 28, 0, 33], // 34: the field K.g
    &[12, 0, 5, 0, 17], // 35: i LK;
    &[9, 0, 28, 0, 35], // 36: the field K.i
    &[9, 0, 29, 0, 33], // 37: the field java/lang/Object.g
    &[12, 0, 3, 0, 18], // 38: g J
    &[9, 0, 28, 0, 38], // 39: the field K.g
    &[12, 0, 4, 0, 11], // 40: h (LK;)V
    &[10, 0, 28, 0, 40], // 41: the method K.h
    &[10, 0, 29, 0, 40], // 42: the method java/lang/Object.h
    &[10, 0, 30, 0, 40], // 43: the method java/lang/Throwable.h
    &[10, 0, 32, 0, 40], // 44: the method [LK;.h
    &[11, 0, 31, 0, 40], // 45: the interface's method I.h
    &[12, 0, 4, 0, 10], // 46: h ()J
    &[10, 0, 28, 0, 46], // 47: the method K.h
    &[12, 0, 6, 0, 7], // 48: <init> ()V
    &[10, 0, 28, 0, 48], // 49: the method K.<init>
    &[10, 0, 29, 0, 48], // 50: the method java/lang/Object.<init>
    &[10, 0, 30, 0, 48], // 51: the method java/lang/Throwable.<init>
    &[12, 0, 6, 0, 11], // 52: <init> (LK;)V
    &[10, 0, 28, 0, 52], // 53: the method K.<init>
    &[12, 0, 4, 0, 19], // 54: h (B)V
    &[10, 0, 28, 0, 54], // 55: the method K.h
    &[12, 0, 4, 0, 20], // 56: h (Ljava/lang/Object;)V
    &[10, 0, 28, 0, 56], // 57: the method K.h
    &[12, 0, 4, 0, 21], // 58: h (Ljava/lang/Throwable;)V
    &[10, 0, 28, 0, 58], // 59: the method K.h
    &[12, 0, 4, 0, 22], // 60: h (LI;)V
    &[10, 0, 28, 0, 60], // 61: the method K.h
    &[12, 0, 4, 0, 23], // 62: h (Ljava/lang/Cloneable;)V
    &[10, 0, 28, 0, 62], // 63: the method K.h
    &[12, 0, 4, 0, 24], // 64: h (Ljava/io/Serializable;)V
    &[10, 0, 28, 0, 64], // 65: the method K.h
    &[12, 0, 4, 0, 25], // 66: h ([LK;)V
    &[10, 0, 28, 0, 66], // 67: the method K.h
    &[12, 0, 4, 0, 26], // 68: h ([Ljava/lang/Object;)V
    &[10, 0, 28, 0, 68], // 69: the method K.h
    &[12, 0, 4, 0, 27], // 70: h ([I)V
    &[10, 0, 28, 0, 70], // 71: the method K.h
    &[3, 0, 0, 0, 1], // 72: an int
    &[5, 0, 0, 0, 0, 0, 0, 0, 1], // 73: a long, which takes two places
];

/// The constants from 75 on, which a file of version 55 may have.
const DYNAMIC_CONSTANTS: [&[u8]; 5] = [
    &[12, 0, 5, 0, 18], // 75: i J
    &[12, 0, 3, 0, 17], // 76: g LK;
    &[17, 0, 0, 0, 76], // 77: a dynamic K
    &[17, 0, 0, 0, 75], // 78: a dynamic long
    &[18, 0, 0, 0, 40], // 79: a call site of one K
];

/// The method of K that runs, where it stands, and what became of its own object. It has two local variables.
#[derive(Clone, Copy)]
pub struct Scene {
    /// The major version of the class file.
    major: u8,
    /// Whether dynamic calls and constants are judged.
    profile: Profile,
    /// The access flags, and the constants of the name and of the descriptor.
    method: [u8; 3],
    max_stack: u8,
    /// So many `nop` come after the code of a row.
    nops: usize,
    /// The first byte that the one entry of the exception table covers, the one behind those, and where its handler
    /// begins.
    entry: Option<[u8; 3]>,
    /// The offset of the state.
    at: u16,
    /// The status of the object at address 5.
    own: Status,
}

/// At the first instruction of a static method `f` of no result.
pub const STATIC: Scene = Scene {
    major: 52,
    profile: Profile::Default,
    method: [8, 2, 7],
    max_stack: 8,
    nops: 4,
    entry: None,
    at: 0,
    own: Status::This,
};

pub const AT_1: Scene = Scene { at: 1, ..STATIC };

pub const AT_5: Scene = Scene { at: 5, ..STATIC };

pub const LAST: Scene = Scene { nops: 0, ..STATIC };

/// Where max_stack is 4.
pub const TIGHT: Scene = Scene {
    max_stack: 4,
    ..STATIC
};

/// In a class file of version 51.
pub const OLD: Scene = Scene {
    major: 51,
    ..STATIC
};

/// In one of version 55, where dynamic calls and constants are not judged.
pub const UNJUDGED: Scene = Scene {
    major: 55,
    ..STATIC
};

/// Where they are.
pub const JUDGED: Scene = Scene {
    profile: Profile::Dynamic,
    ..UNJUDGED
};

/// In a method that returns an `int`.
pub const OF_INT: Scene = Scene {
    method: [8, 2, 8],
    ..STATIC
};

pub const OF_LONG: Scene = Scene {
    method: [8, 2, 10],
    ..STATIC
};

pub const OF_K: Scene = Scene {
    method: [8, 2, 9],
    ..STATIC
};

/// Where the first three bytes are covered by a handler at offset 1.
pub const HANDLED_AT_1: Scene = Scene {
    entry: Some([0, 3, 1]),
    ..STATIC
};

pub const HANDLED_AT_3: Scene = Scene {
    entry: Some([0, 3, 3]),
    ..STATIC
};

/// Where that handler covers the byte behind them alone.
pub const ELSEWHERE: Scene = Scene {
    entry: Some([3, 4, 1]),
    ..STATIC
};

/// In `<init>`, whose own object is not initialized.
pub const INIT: Scene = Scene {
    method: [0, 6, 7],
    ..STATIC
};

/// In `<init>`, whose own object is initialized.
pub const INITIALIZED: Scene = Scene {
    own: Status::Ready,
    ..INIT
};

fn low(count: usize) -> u8 {
    u8::try_from(count).unwrap_or(u8::MAX)
}

fn put_texts(bytes: &mut Vec<u8>) -> Result<(), AllocError> {
    for text in &TEXTS {
        bytes.extend_from_slice(&[1, 0, low(text.len())])?;
        bytes.extend_from_slice(text)?;
    }
    Ok(())
}

fn put_all(bytes: &mut Vec<u8>, constants: &[&[u8]]) -> Result<(), AllocError> {
    for constant in constants {
        bytes.extend_from_slice(constant)?;
    }
    Ok(())
}

/// Writes the constants, with the dynamic ones from version 55 on.
fn put_constants(bytes: &mut Vec<u8>, scene: Scene) -> Result<(), AllocError> {
    let is_dynamic = scene.major >= 55;
    let count = if is_dynamic { 80 } else { 75 };
    bytes.extend_from_slice(&[0, count])?;
    put_texts(bytes)?;
    put_all(bytes, &CONSTANTS)?;
    if is_dynamic {
        put_all(bytes, &DYNAMIC_CONSTANTS)?;
    }
    Ok(())
}

/// Writes the exception table.
fn put_entry(bytes: &mut Vec<u8>, entry: Option<[u8; 3]>) -> Result<(), AllocError> {
    let Some(places) = entry else {
        return bytes.extend_from_slice(&[0, 0]);
    };
    let [from, to, handler] = places;
    bytes.extend_from_slice(&[0, 1, 0, from, 0, to, 0, handler, 0, 0])
}

/// Writes the method.
fn put_method(bytes: &mut Vec<u8>, scene: Scene, code: &[u8]) -> Result<(), AllocError> {
    let [flags, name, descriptor] = scene.method;
    let around = if scene.entry.is_some() { 20 } else { 12 };
    let length = code.len().saturating_add(scene.nops);
    let size = length.saturating_add(around);
    bytes.extend_from_slice(&[0, flags, 0, name, 0, descriptor, 0, 1, 0, 1])?;
    bytes.extend_from_slice(&[0, 0, 0, low(size), 0, scene.max_stack, 0, 2])?;
    bytes.extend_from_slice(&[0, 0, 0, low(length)])?;
    bytes.extend_from_slice(code)?;
    for _ in 0..scene.nops {
        bytes.push(0)?;
    }
    put_entry(bytes, scene.entry)?;
    bytes.extend_from_slice(&[0, 0])
}

/// The class file of a class K below `java/lang/Object`, with a field `g` of type K and the method of the scene.
fn class_of(alloc: Global, scene: Scene, code: &[u8]) -> Result<Vec<u8>, AllocError> {
    let mut bytes = Vec::new(alloc);
    bytes.extend_from_slice(&[0xCA, 0xFE, 0xBA, 0xBE, 0, 0, 0, scene.major])?;
    put_constants(&mut bytes, scene)?;
    bytes.extend_from_slice(&[0, 0x21, 0, 28, 0, 29, 0, 0])?;
    bytes.extend_from_slice(&[0, 1, 0, 0, 0, 3, 0, 17, 0, 0, 0, 1])?;
    put_method(&mut bytes, scene, code)?;
    bytes.extend_from_slice(&[0, 0])?;
    Ok(bytes)
}

const K: RunType<'static> = RunType::Class(b"K");

/// Objects of classes, and how far each is.
const OBJECTS: [(u32, RunType<'static>, Status); 5] = [
    (2, K, Status::Ready),
    (3, RunType::Class(OBJECT), Status::Ready),
    (4, K, Status::Made),
    (6, RunType::Class(THROWABLE), Status::Ready),
    (7, RunType::Class(THROWABLE), Status::Made),
];

/// Arrays by their addresses, with their dimensions and what they are of.
const ARRAYS: [(u32, u8, Base<'static>); 11] = [
    (1, 1, Base::Class(b"K")),
    (8, 1, Base::Class(OBJECT)),
    (10, 2, Base::Primitive(Primitive::Int)),
    (11, 1, Base::Primitive(Primitive::Int)),
    (12, 1, Base::Primitive(Primitive::Long)),
    (13, 1, Base::Primitive(Primitive::Float)),
    (14, 1, Base::Primitive(Primitive::Double)),
    (15, 1, Base::Primitive(Primitive::Byte)),
    (16, 1, Base::Primitive(Primitive::Boolean)),
    (17, 1, Base::Primitive(Primitive::Char)),
    (18, 1, Base::Primitive(Primitive::Short)),
];

type Heap<'a> = BTreeMap<u32, Object<'a>>;

type Full<'a> = AllocFailed<(u32, Object<'a>)>;

fn put_arrays<'a>(heap: &mut Heap<'a>) -> Result<(), Full<'a>> {
    for (address, dims, base) in &ARRAYS {
        let run_type = RunType::Array {
            dims: *dims,
            base: *base,
        };
        let status = Status::Ready;
        heap.insert(*address, Object { run_type, status })?;
    }
    Ok(())
}

/// All these objects, and at 5 the own object, which is a K.
fn objects<'a>(alloc: Global, own: Status) -> Result<Heap<'a>, Full<'a>> {
    let mut heap = BTreeMap::new(alloc);
    for (address, run_type, status) in &OBJECTS {
        let object = Object {
            run_type: *run_type,
            status: *status,
        };
        heap.insert(*address, object)?;
    }
    put_arrays(&mut heap)?;
    let object = Object {
        run_type: K,
        status: own,
    };
    heap.insert(5, object)?;
    Ok(heap)
}

/// The state of the scene with these local variables and this stack.
fn state<'a>(
    alloc: Global,
    scene: Scene,
    locals: &[Slot],
    stack: &[Value],
) -> Result<State<'a>, u8> {
    let Ok(heap) = objects(alloc, scene.own) else {
        return Err(OUT_OF_MEMORY);
    };
    let Ok(stack) = stack.to_vec(alloc) else {
        return Err(OUT_OF_MEMORY);
    };
    let Ok(locals) = locals.to_vec(alloc) else {
        return Err(OUT_OF_MEMORY);
    };
    Ok(State {
        at: scene.at,
        stack,
        locals,
        heap,
    })
}

/// The answer to a state.
#[derive(Clone, Copy)]
pub enum Expected {
    /// The state is a fault.
    Fault,
    /// It is none, and the instruction is done where nothing is chosen.
    Step,
    /// The instruction is done where this offset is chosen.
    To(u16),
    /// It is done where this value is chosen.
    Gives(Value),
    /// The method ends where the object at this address is raised.
    Raises(u32),
}

/// A scene, the code, the local variables, the stack, and what is expected.
pub type Row<'a> = (Scene, &'a [u8], &'a [Slot], &'a [Value], Expected);

fn choice_of<'a>(alloc: Global, expected: Expected) -> Choice<'a> {
    match expected {
        Expected::Fault | Expected::Step => go(alloc, None, None),
        Expected::To(offset) => go(alloc, Some(offset), None),
        Expected::Gives(value) => go(alloc, None, Some(value)),
        Expected::Raises(address) => Choice::Raise {
            address,
            fresh: Vec::new(alloc),
            entry: None,
        },
    }
}

/// Whether a walk by one choice stops as the step by it does.
fn stops_alike(outcome: &Outcome<'_>, last: &Last<'_>) -> bool {
    matches!(
        (outcome, last),
        (Outcome::Fault, Last::Fault)
            | (Outcome::Ended, Last::Ended)
            | (Outcome::Next(_), Last::More(_))
    )
}

/// The step by the first choice, if a walk by the choices stops as it does; otherwise 0.
fn walked<'a, C: Classes>(
    alloc: Global,
    method: &Method<'_, 'a>,
    start: &State<'a>,
    choices: &[Choice<'a>; 1],
    classes: &C,
) -> Result<Outcome<'a>, u8> {
    let outcome = match step(alloc, method, classes, start, &choices[0]) {
        Ok(outcome) => outcome,
        Err(fault) => return Err(fault.number()),
    };
    match walk(alloc, method, classes, start, choices) {
        Ok(walked) if stops_alike(&outcome, &walked.last) => Ok(outcome),
        Ok(_) => Err(0),
        Err(fault) => Err(fault.number()),
    }
}

/// The step of the one method of the class, where there are `java/lang/Object`, `java/lang/Throwable`, the class K and
/// the interface I.
fn stepped<'a>(
    alloc: Global,
    formed: &Formed<'_, 'a>,
    start: &State<'a>,
    choices: &[Choice<'a>; 1],
) -> Result<Outcome<'a>, u8> {
    let method = machine_method(alloc, formed)?;
    let list = [
        object(alloc),
        summary(alloc, THROWABLE, Some(OBJECT), false),
        summary(alloc, b"K", Some(OBJECT), false),
        summary(alloc, b"I", Some(OBJECT), true),
    ];
    match Rows::new(alloc, &list, hasher()) {
        Ok(classes) => walked(alloc, &method, start, choices, &classes),
        Err(fault) => Err(fault.number()),
    }
}

/// The step of the one method of the class that these bytes are, from the state of the row.
fn step_of_bytes<'a>(alloc: Global, bytes: &'a [u8], row: &Row<'_>) -> Result<Outcome<'a>, u8> {
    let (scene, _, locals, stack, expected) = row;
    let class = match decode(alloc, bytes) {
        Ok(class) => class,
        Err(fault) => return Err(fault.number()),
    };
    let start = state(alloc, *scene, *locals, *stack)?;
    let choices = [choice_of(alloc, *expected)];
    match form_check(alloc, &class) {
        Ok(formed) => stepped(alloc, &formed.under(scene.profile), &start, &choices),
        Err(fault) => Err(fault.number()),
    }
}

fn is_expected(alloc: Global, row: &Row<'_>) -> bool {
    let (scene, code, _, _, expected) = row;
    let Ok(bytes) = class_of(alloc, *scene, *code) else {
        return false;
    };
    let outcome = step_of_bytes(alloc, &bytes, row);
    match expected {
        Expected::Fault => matches!(outcome, Ok(Outcome::Fault)),
        _ => matches!(outcome, Ok(Outcome::Next(_) | Outcome::Ended)),
    }
}

pub fn are_expected(alloc: Global, rows: &[Row<'_>]) -> bool {
    for row in rows {
        if !is_expected(alloc, row) {
            return false;
        }
    }
    true
}

pub const INT: Value = Value::Int;

pub const FLOAT: Value = Value::Float;

pub const LONG: Value = Value::Long;

pub const DOUBLE: Value = Value::Double;

pub const NULL: Value = Value::Null;

/// A K that is initialized, and one that a `new` of this run made; an object of no other class; the own object.
pub const READY: Value = Value::Ref(2);

pub const MADE: Value = Value::Ref(4);

pub const OTHER: Value = Value::Ref(3);

pub const OWN: Value = Value::Ref(5);

/// A `java/lang/Throwable` that is initialized, and one that is not.
pub const THROWN: Value = Value::Ref(6);

pub const UNTHROWN: Value = Value::Ref(7);

/// An address at which there is no object.
pub const NOWHERE: Value = Value::Ref(9);

/// Arrays of K, of objects, of arrays of `int`, and of each primitive type.
pub const ARRAY: Value = Value::Ref(1);

pub const OTHERS: Value = Value::Ref(8);

pub const TABLE: Value = Value::Ref(10);

pub const INTS: Value = Value::Ref(11);

pub const LONGS: Value = Value::Ref(12);

pub const FLOATS: Value = Value::Ref(13);

pub const DOUBLES: Value = Value::Ref(14);

pub const BYTES: Value = Value::Ref(15);

pub const BOOLEANS: Value = Value::Ref(16);

pub const CHARS: Value = Value::Ref(17);

pub const SHORTS: Value = Value::Ref(18);

pub const EMPTY: Slot = Slot::Empty;

pub const SECOND: Slot = Slot::Second;

pub const INT_SLOT: Slot = Slot::Value(INT);

pub const FLOAT_SLOT: Slot = Slot::Value(FLOAT);

pub const LONG_SLOT: Slot = Slot::Value(LONG);

pub const NULL_SLOT: Slot = Slot::Value(NULL);

pub const MADE_SLOT: Slot = Slot::Value(MADE);

pub const NONE: [Slot; 2] = [EMPTY, EMPTY];

pub const FAULT: Expected = Expected::Fault;

pub const STEP: Expected = Expected::Step;
