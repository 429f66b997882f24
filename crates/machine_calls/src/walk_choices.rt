//! Walks by what a call answers, a branch takes and a handler catches, and among many objects; and the arguments with
//! which a method begins.
use crate::making::{Stop, Walk, go, on};
use crate::walks::{fresh, goes_by, raise, walk_alone, walk_of};
use format_calls::making::OUT_OF_MEMORY;
use machine::{Choice, Object, RunType, Status, Value};
use names::{Base, Primitive, THROWABLE};
use std::alloc::{AllocError, Global};
use std::collections::BTreeMap;
use std::test::*;

/// The class file of a class K whose static method `f` returns the A that the static method `g` answers.
const CALLING: [u8; 116] = [
    0xCA, 0xFE, 0xBA, 0xBE, 0, 0, 0, 0x34, 0, 0x0B, 7, 0, 2, 1, 0, 1, 0x4B, 7, 0, 4, 1, 0, 0x10,
    0x6A, 0x61, 0x76, 0x61, 0x2F, 0x6C, 0x61, 0x6E, 0x67, 0x2F, 0x4F, 0x62, 0x6A, 0x65, 0x63, 0x74,
    1, 0, 1, 0x66, 1, 0, 5, 0x28, 0x29, 0x4C, 0x41, 0x3B, 1, 0, 4, 0x43, 0x6F, 0x64, 0x65, 1, 0, 1,
    0x67, 0x0C, 0, 8, 0, 6, 0x0A, 0, 1, 0, 9, 0, 0x21, 0, 1, 0, 3, 0, 0, 0, 0, 0, 1, 0, 9, 0, 5, 0,
    6, 0, 1, 0, 7, 0, 0, 0, 0x10, 0, 1, 0, 0, 0, 0, 0, 4, 0xB8, 0, 0x0A, 0xB0, 0, 0, 0, 0, 0, 0,
];

/// That of a K with a method `iconst_0`, `ifeq 5`, `return`, `return`.
const BRANCHING: [u8; 102] = [
    0xCA, 0xFE, 0xBA, 0xBE, 0, 0, 0, 0x34, 0, 8, 7, 0, 2, 1, 0, 1, 0x4B, 7, 0, 4, 1, 0, 0x10, 0x6A,
    0x61, 0x76, 0x61, 0x2F, 0x6C, 0x61, 0x6E, 0x67, 0x2F, 0x4F, 0x62, 0x6A, 0x65, 0x63, 0x74, 1, 0,
    1, 0x66, 1, 0, 3, 0x28, 0x29, 0x56, 1, 0, 4, 0x43, 0x6F, 0x64, 0x65, 0, 0x21, 0, 1, 0, 3, 0, 0,
    0, 0, 0, 1, 0, 9, 0, 5, 0, 6, 0, 1, 0, 7, 0, 0, 0, 0x12, 0, 1, 0, 0, 0, 0, 0, 6, 3, 0x99, 0, 4,
    0xB1, 0xB1, 0, 0, 0, 0, 0, 0,
];

/// That of a K with a method `nop`, `return`, `pop`, `return`, of which all that the first raises is handled at the
/// third.
const HANDLING: [u8; 108] = [
    0xCA, 0xFE, 0xBA, 0xBE, 0, 0, 0, 0x34, 0, 8, 7, 0, 2, 1, 0, 1, 0x4B, 7, 0, 4, 1, 0, 0x10, 0x6A,
    0x61, 0x76, 0x61, 0x2F, 0x6C, 0x61, 0x6E, 0x67, 0x2F, 0x4F, 0x62, 0x6A, 0x65, 0x63, 0x74, 1, 0,
    1, 0x66, 1, 0, 3, 0x28, 0x29, 0x56, 1, 0, 4, 0x43, 0x6F, 0x64, 0x65, 0, 0x21, 0, 1, 0, 3, 0, 0,
    0, 0, 0, 1, 0, 9, 0, 5, 0, 6, 0, 1, 0, 7, 0, 0, 0, 0x18, 0, 1, 0, 0, 0, 0, 0, 4, 0, 0xB1, 0x57,
    0xB1, 0, 1, 0, 0, 0, 1, 0, 2, 0, 0, 0, 0, 0, 0,
];

/// That of a K whose static method `f` has one parameter, of type A or, where the byte is `I`, of the interface I.
fn taking(class: u8) -> [u8; 100] {
    [
        0xCA, 0xFE, 0xBA, 0xBE, 0, 0, 0, 0x34, 0, 8, 7, 0, 2, 1, 0, 1, 0x4B, 7, 0, 4, 1, 0, 0x10,
        0x6A, 0x61, 0x76, 0x61, 0x2F, 0x6C, 0x61, 0x6E, 0x67, 0x2F, 0x4F, 0x62, 0x6A, 0x65, 0x63,
        0x74, 1, 0, 1, 0x66, 1, 0, 6, 0x28, 0x4C, class, 0x3B, 0x29, 0x56, 1, 0, 4, 0x43, 0x6F,
        0x64, 0x65, 0, 0x21, 0, 1, 0, 3, 0, 0, 0, 0, 0, 1, 0, 9, 0, 5, 0, 6, 0, 1, 0, 7, 0, 0, 0,
        0x0D, 0, 0, 0, 1, 0, 0, 0, 1, 0xB1, 0, 0, 0, 0, 0, 0,
    ]
}

/// The choice to go on with this answer, after an object of the class came to be at 7.
fn answer<'a>(
    alloc: Global,
    value: Value,
    class: Option<&'a [u8]>,
) -> Result<Choice<'a>, AllocError> {
    Ok(Choice::Go {
        branch: None,
        answer: Some(value),
        fresh: fresh(alloc, class)?,
    })
}

/// A call returns null and each object of its type, and may raise.
#[test]
fn walks_by_what_a_call_answers(rt: HostRuntime) {
    let alloc = rt.alloc();
    let null = goes_by(alloc, &CALLING, answer(alloc, Value::Null, None));
    assert!(rt; null == Ok((1, Stop::At(3, Some(Value::Null)))));
    let own = goes_by(alloc, &CALLING, answer(alloc, Value::Ref(7), Some(b"A")));
    assert!(rt; own == Ok((1, Stop::At(3, Some(Value::Ref(7))))));
    let other = goes_by(
        alloc,
        &CALLING,
        answer(alloc, Value::Ref(7), Some(THROWABLE)),
    );
    assert!(rt; other == Ok((0, Stop::NotAChoice)));
    let raised = goes_by(alloc, &CALLING, raise(alloc, Some(THROWABLE), None));
    assert!(rt; raised == Ok((1, Stop::Ended)));
}

/// At the handler the raised object is alone on the stack.
#[test]
fn walk_to_a_handler(rt: HostRuntime) {
    let alloc = rt.alloc();
    let caught = goes_by(alloc, &HANDLING, raise(alloc, Some(THROWABLE), Some(0)));
    assert!(rt; caught == Ok((1, Stop::At(2, Some(Value::Ref(7))))));
}

/// The walk over `iconst_0` and by this way of `ifeq`.
fn branches(alloc: Global, to: u16) -> Walk {
    walk_alone(alloc, &BRANCHING, &[on(alloc), go(alloc, Some(to), None)])
}

/// A branch goes both ways, and nowhere else.
#[test]
fn walks_by_both_ways(rt: HostRuntime) {
    let alloc = rt.alloc();
    assert!(rt; branches(alloc, 4) == Ok((2, Stop::At(4, None))));
    assert!(rt; branches(alloc, 5) == Ok((2, Stop::At(5, None))));
    assert!(rt; branches(alloc, 1) == Ok((1, Stop::NotAChoice)));
}

/// The walk by no choice of the method that takes the class, from the state in which it begins with this argument and
/// this object at 0, of the name and status.
fn begins(alloc: Global, class: u8, arg: Value, there: (&'static [u8], Status)) -> Walk {
    let mut heap = BTreeMap::new(alloc);
    let object = Object {
        run_type: RunType::Class(there.0),
        status: there.1,
    };
    if heap.insert(0, object).is_err() {
        return Err(OUT_OF_MEMORY);
    }
    walk_of(alloc, &taking(class), &[arg], &heap, &[])
}

const READY: (&[u8], Status) = (b"A", Status::Ready);

const MADE: (&[u8], Status) = (b"A", Status::Made);

const OTHER: (&[u8], Status) = (THROWABLE, Status::Ready);

const BEGUN: Walk = Ok((0, Stop::At(0, None)));

/// The class of the parameter, the argument, the object that there is, and the walk. A method begins with null and with
/// each object of its parameter's type that is ready; of an interface each object is one. It begins with no object that
/// is yet to be initialized.
const ARGUMENTS: [(u8, Value, (&[u8], Status), Walk); 5] = [
    (b'A', Value::Null, READY, BEGUN),
    (b'A', Value::Ref(0), READY, BEGUN),
    (b'A', Value::Ref(0), OTHER, Err(55)),
    (b'A', Value::Ref(0), MADE, Err(55)),
    (b'I', Value::Ref(0), OTHER, BEGUN),
];

#[test]
fn beginnings_with_an_argument(rt: HostRuntime) {
    for (class, argument, there, walked) in &ARGUMENTS {
        assert!(rt; begins(rt.alloc(), *class, *argument, *there) == *walked);
    }
}

/// So many arrays of `int`, at the first addresses.
fn many<'a>(alloc: Global, count: u32) -> Result<BTreeMap<u32, Object<'a>>, AllocError> {
    let object = Object {
        run_type: RunType::Array {
            dims: 1,
            base: Base::Primitive(Primitive::Int),
        },
        status: Status::Ready,
    };
    let mut heap = BTreeMap::new(alloc);
    for address in 0..count {
        if heap.insert(address, object).is_err() {
            return Err(AllocError);
        }
    }
    Ok(heap)
}

/// The choices for so many rounds of `nop` and `goto 0`.
fn rounds<'a>(alloc: Global, count: usize) -> Result<Vec<Choice<'a>>, AllocError> {
    let mut choices = Vec::new(alloc);
    for _ in 0..count {
        choices.push(on(alloc))?;
        choices.push(go(alloc, Some(0), None))?;
    }
    Ok(choices)
}

/// The walk of so many rounds of `nop` and `goto 0`, among so many objects.
fn goes_round(alloc: Global, objects: u32, count: usize) -> Walk {
    let mut bytes = BRANCHING;
    bytes[90..94].copy_from_slice(&[0x00, 0xA7, 0xFF, 0xFF]);
    let Ok(heap) = many(alloc, objects) else {
        return Err(OUT_OF_MEMORY);
    };
    match rounds(alloc, count) {
        Ok(choices) => walk_of(alloc, &bytes, &[], &heap, &choices),
        Err(_) => Err(OUT_OF_MEMORY),
    }
}

/// A heap is made, and a step taken, by looking up addresses: a test has 60 s, and a look at each object in each step
/// would take longer.
#[test]
fn walk_among_many_objects(rt: HostRuntime) {
    let walked = goes_round(rt.alloc(), 100_000, 50_000);
    assert!(rt; walked == Ok((100_000, Stop::At(0, None))));
}
