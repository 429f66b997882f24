//! Walks of methods that are verified, and of those that are not.
use classfile::{ClassFile, Formed, decode, form_check};
use format_calls::making::{K, OUT_OF_MEMORY};
use hierarchy::{Classes, Rows, summary_of};
use lower_calls::making::{hasher, object};
use machine::{Choice, State, Value};
use machine_calls::making::{Stop, Walk, answered_first, machine_method, on, stop_of, walk_from};
use std::alloc::Global;
use std::collections::BTreeMap;
use std::test::*;
use verify::{WalkFault, walk_verified, walks_are_runs};

/// The class file of K with a native method in place of `f`.
const NATIVE: [u8; 78] = [
    0xCA, 0xFE, 0xBA, 0xBE, 0, 0, 0, 0x34, 0, 8, 7, 0, 2, 1, 0, 1, 0x4B, 7, 0, 4, 1, 0, 0x10, 0x6A,
    0x61, 0x76, 0x61, 0x2F, 0x6C, 0x61, 0x6E, 0x67, 0x2F, 0x4F, 0x62, 0x6A, 0x65, 0x63, 0x74, 1, 0,
    1, 0x66, 1, 0, 3, 0x28, 0x29, 0x56, 1, 0, 4, 0x43, 0x6F, 0x64, 0x65, 0, 0x21, 0, 1, 0, 3, 0, 0,
    0, 0, 0, 1, 1, 9, 0, 5, 0, 6, 0, 0, 0, 0,
];

/// The class file of a class K whose static method `f` makes a K and returns it before a constructor did: `new`,
/// `areturn`.
const RETURNS_MADE: [u8; 127] = [
    0xCA, 0xFE, 0xBA, 0xBE, 0, 0, 0, 0x34, 0, 0x0C, 7, 0, 2, 1, 0, 1, 0x4B, 7, 0, 4, 1, 0, 0x10,
    0x6A, 0x61, 0x76, 0x61, 0x2F, 0x6C, 0x61, 0x6E, 0x67, 0x2F, 0x4F, 0x62, 0x6A, 0x65, 0x63, 0x74,
    1, 0, 1, 0x66, 1, 0, 5, 0x28, 0x29, 0x4C, 0x4B, 0x3B, 1, 0, 4, 0x43, 0x6F, 0x64, 0x65, 1, 0, 6,
    0x3C, 0x69, 0x6E, 0x69, 0x74, 0x3E, 1, 0, 3, 0x28, 0x29, 0x56, 0x0C, 0, 8, 0, 9, 0x0A, 0, 1, 0,
    0x0A, 0, 0x21, 0, 1, 0, 3, 0, 0, 0, 0, 0, 1, 0, 9, 0, 5, 0, 6, 0, 1, 0, 7, 0, 0, 0, 0x10, 0, 2,
    0, 0, 0, 0, 0, 4, 0xBB, 0, 1, 0xB0, 0, 0, 0, 0, 0, 0,
];

/// That class file, mended: `new`, `dup`, `invokespecial` of `<init>`, `areturn`.
const RETURNS_READY: [u8; 131] = [
    0xCA, 0xFE, 0xBA, 0xBE, 0, 0, 0, 0x34, 0, 0x0C, 7, 0, 2, 1, 0, 1, 0x4B, 7, 0, 4, 1, 0, 0x10,
    0x6A, 0x61, 0x76, 0x61, 0x2F, 0x6C, 0x61, 0x6E, 0x67, 0x2F, 0x4F, 0x62, 0x6A, 0x65, 0x63, 0x74,
    1, 0, 1, 0x66, 1, 0, 5, 0x28, 0x29, 0x4C, 0x4B, 0x3B, 1, 0, 4, 0x43, 0x6F, 0x64, 0x65, 1, 0, 6,
    0x3C, 0x69, 0x6E, 0x69, 0x74, 0x3E, 1, 0, 3, 0x28, 0x29, 0x56, 0x0C, 0, 8, 0, 9, 0x0A, 0, 1, 0,
    0x0A, 0, 0x21, 0, 1, 0, 3, 0, 0, 0, 0, 0, 1, 0, 9, 0, 5, 0, 6, 0, 1, 0, 7, 0, 0, 0, 0x14, 0, 2,
    0, 0, 0, 0, 0, 8, 0xBB, 0, 1, 0x59, 0xB7, 0, 0x0B, 0xB0, 0, 0, 0, 0, 0, 0,
];

#[test]
fn law_is_called() {
    walks_are_runs();
}

/// How a walk is asked for: by `walk_verified`, or by `walk` alone, which asks for no verdict.
#[derive(Clone, Copy)]
pub struct Asked {
    /// The offset of the state that it starts in, which is otherwise the one in which a method without arguments
    /// begins.
    from: u16,
    /// Whether the hierarchy has the class as it is, and not as a final one.
    listed: bool,
    verified: bool,
}

/// A walk of a method of a class that is as the hierarchy has it, from its beginning, where the method is verified.
pub const RIGHT: Asked = Asked {
    from: 0,
    listed: true,
    verified: true,
};

/// The state at an offset with nothing on the stack, no local variables and no objects.
fn state_at<'a>(alloc: Global, at: u16) -> State<'a> {
    State {
        at,
        stack: Vec::new(alloc),
        locals: Vec::new(alloc),
        heap: BTreeMap::new(alloc),
    }
}

/// The walk of the class's one method by `walk` alone.
fn walk_unasked<'a, C: Classes>(
    alloc: Global,
    formed: &Formed<'_, 'a>,
    classes: &C,
    choices: &[Choice<'a>],
) -> Walk {
    let method = machine_method(alloc, formed)?;
    walk_from(alloc, &method, &[], &BTreeMap::new(alloc), choices, classes)
}

/// The walk of the class's one method by `walk_verified`, from this offset.
fn walk_by_verdict<'a, C: Classes>(
    alloc: Global,
    formed: &Formed<'_, 'a>,
    classes: &C,
    from: u16,
    choices: &[Choice<'a>],
) -> Walk {
    if formed.class().methods.len() != 1 {
        return Err(0);
    }
    let start = state_at(alloc, from);
    match walk_verified(alloc, formed, 0, classes, &start, choices) {
        Ok(walked) => Ok((walked.taken, stop_of(&walked.last))),
        Err(fault) => Err(fault.number()),
    }
}

/// The walk of the class's one method, where there are `java/lang/Object` and the class.
pub fn walk_in<'a>(
    alloc: Global,
    formed: &Formed<'_, 'a>,
    asked: Asked,
    choices: &[Choice<'a>],
) -> Walk {
    let Ok(mut own) = summary_of(alloc, formed) else {
        return Err(OUT_OF_MEMORY);
    };
    own.is_final = !asked.listed;
    let list = [object(alloc), own];
    match Rows::new(alloc, &list, hasher()) {
        Ok(classes) => if asked.verified {
            walk_by_verdict(alloc, formed, &classes, asked.from, choices)
        } else {
            walk_unasked(alloc, formed, &classes, choices)
        },
        Err(_) => Err(OUT_OF_MEMORY),
    }
}

fn walk_of_class<'a>(
    alloc: Global,
    class: &ClassFile<'a>,
    asked: Asked,
    choices: &[Choice<'a>],
) -> Walk {
    match form_check(alloc, class) {
        Ok(formed) => walk_in(alloc, &formed, asked, choices),
        Err(fault) => Err(fault.number()),
    }
}

/// The walk of the one method of the class that these bytes are.
fn walk_of<'a>(alloc: Global, bytes: &'a [u8], asked: Asked, choices: &[Choice<'a>]) -> Walk {
    match decode(alloc, bytes) {
        Ok(class) => walk_of_class(alloc, &class, asked, choices),
        Err(fault) => Err(fault.number()),
    }
}

/// The walk of the class's method by one choice to go on.
fn goes(alloc: Global, bytes: &[u8], asked: Asked) -> Walk {
    walk_of(alloc, bytes, asked, &[on(alloc)])
}

#[test]
fn walk_of_a_verified_method(rt: HostRuntime) {
    assert!(rt; goes(rt.alloc(), &K, RIGHT) == Ok((1, Stop::Ended)));
}

/// A walk from a state in which the method does not begin.
const AFTER_START: Asked = Asked {
    from: 1,
    listed: true,
    verified: true,
};

const UNLISTED: Asked = Asked {
    from: 0,
    listed: false,
    verified: true,
};

const UNLISTED_AFTER_START: Asked = Asked {
    from: 1,
    listed: false,
    verified: true,
};

fn are_refused(alloc: Global, bytes: &[u8], rows: &[(Asked, u8)]) -> bool {
    for (asked, number) in rows {
        if goes(alloc, bytes, *asked) != Err(*number) {
            return false;
        }
    }
    true
}

/// Walks of K, and the numbers by which they are refused.
const OF_K: [(Asked, u8); 3] = [
    (AFTER_START, 55),
    (UNLISTED_AFTER_START, 55),
    (UNLISTED, 80),
];

/// Walks of K with another method, which is refused.
const OF_BROKEN: [(Asked, u8); 3] = [(AFTER_START, 55), (RIGHT, 56), (UNLISTED, 80)];

/// The least number that holds is the answer: 55 for a state in which the method does not begin, also if it is refused
/// or its class is not listed; 56 for a method that is refused; 80 for a class that is not listed.
#[test]
fn walks_that_are_refused(rt: HostRuntime) {
    let alloc = rt.alloc();
    let mut broken = K;
    broken[90] = 0;
    assert!(rt; are_refused(alloc, &K, &OF_K));
    assert!(rt; are_refused(alloc, &broken, &OF_BROKEN));
    assert!(rt; are_refused(alloc, &NATIVE, &[(RIGHT, 55)]));
    assert!(rt; WalkFault::OutOfMemory.number() == OUT_OF_MEMORY);
}

/// The walk of the class's method by the choice of a `new` that makes its object at 0, and three to go on.
fn makes(alloc: Global, bytes: &[u8], asked: Asked) -> Walk {
    match answered_first(alloc, Value::Ref(0)) {
        Ok(choices) => walk_of(alloc, bytes, asked, &choices),
        Err(_) => Err(OUT_OF_MEMORY),
    }
}

/// The walk by the same choices of a method that is refused, which meets a fault, and of the same method mended, which
/// meets none: the object is returned before and after its constructor has returned.
#[test]
fn fault_in_a_walk_and_none_in_the_method_mended(rt: HostRuntime) {
    let alloc = rt.alloc();
    let unasked = Asked {
        verified: false,
        ..RIGHT
    };
    assert!(rt; makes(alloc, &RETURNS_MADE, unasked) == Ok((1, Stop::Fault)));
    assert!(rt; makes(alloc, &RETURNS_MADE, RIGHT) == Err(56));
    assert!(rt; makes(alloc, &RETURNS_READY, unasked) == Ok((4, Stop::Ended)));
    assert!(rt; makes(alloc, &RETURNS_READY, RIGHT) == Ok((4, Stop::Ended)));
}

/// Where memory runs out a walk of a verified method returns 1, and otherwise its end.
#[test]
fn memory_runs_out_for_a_verified_walk(rt: HostRuntime) {
    let walked = makes(rt.alloc(), &RETURNS_READY, RIGHT);
    assert!(rt; walked == Ok((4, Stop::Ended)) || walked == Err(OUT_OF_MEMORY));
}
