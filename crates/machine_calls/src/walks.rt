//! Walks of the machine, from states in which a method begins.
use crate::making::{Stop, Walk, machine_method, on, walk_from};
use classfile::{CodeMethod, Formed, decode, form_check};
use format_calls::making::{CATCHING, K, OUT_OF_MEMORY, catching};
use hierarchy::{Classes, Rows, Summary};
use lower_calls::making::{hasher, object, summary};
use machine::{Choice, Object, RunType, State, Value, initial, is_initial};
use names::{OBJECT, THROWABLE};
use std::alloc::{AllocError, Global};
use std::collections::BTreeMap;
use std::test::*;

/// The summaries of `java/lang/Object`, `java/lang/Throwable`, the classes K and A, and the interface I.
fn known<'a>(alloc: Global) -> [Summary<'a>; 5] {
    [
        object(alloc),
        summary(alloc, THROWABLE, Some(OBJECT), false),
        summary(alloc, b"K", Some(OBJECT), false),
        summary(alloc, b"A", Some(OBJECT), false),
        summary(alloc, b"I", Some(OBJECT), true),
    ]
}

/// The walk of the one method of a class, where there are these classes.
fn walk_in<'a>(
    alloc: Global,
    formed: &Formed<'_, 'a>,
    args: &[Value],
    heap: &BTreeMap<u32, Object<'a>>,
    choices: &[Choice<'a>],
) -> Walk {
    let method = machine_method(alloc, formed)?;
    let list = known(alloc);
    match Rows::new(alloc, &list, hasher()) {
        Ok(classes) => walk_from(alloc, &method, args, heap, choices, &classes),
        Err(fault) => Err(fault.number()),
    }
}

/// The walk of the one method of the class that these bytes are.
pub fn walk_of<'a>(
    alloc: Global,
    bytes: &'a [u8],
    args: &[Value],
    heap: &BTreeMap<u32, Object<'a>>,
    choices: &[Choice<'a>],
) -> Walk {
    let class = match decode(alloc, bytes) {
        Ok(class) => class,
        Err(fault) => return Err(fault.number()),
    };
    match form_check(alloc, &class) {
        Ok(formed) => walk_in(alloc, &formed, args, heap, choices),
        Err(fault) => Err(fault.number()),
    }
}

/// The walk of a method that takes no arguments, where there are no objects.
pub fn walk_alone<'a>(alloc: Global, bytes: &'a [u8], choices: &[Choice<'a>]) -> Walk {
    walk_of(alloc, bytes, &[], &BTreeMap::new(alloc), choices)
}

/// That walk by one choice.
pub fn goes_by<'a>(alloc: Global, bytes: &'a [u8], choice: Result<Choice<'a>, AllocError>) -> Walk {
    match choice {
        Ok(choice) => walk_alone(alloc, bytes, &[choice]),
        Err(_) => Err(OUT_OF_MEMORY),
    }
}

/// A new object of the class at 7, if one is named.
pub fn fresh<'a>(
    alloc: Global,
    class: Option<&'a [u8]>,
) -> Result<Vec<(u32, RunType<'a>)>, AllocError> {
    let mut fresh = Vec::new(alloc);
    if let Some(name) = class {
        fresh.push((7, RunType::Class(name)))?;
    }
    Ok(fresh)
}

/// The choice to raise what is at 7, after an object of the class came to be there if one is named, caught by the entry
/// of this place.
pub fn raise<'a>(
    alloc: Global,
    class: Option<&'a [u8]>,
    entry: Option<u16>,
) -> Result<Choice<'a>, AllocError> {
    Ok(Choice::Raise {
        address: 7,
        fresh: fresh(alloc, class)?,
        entry,
    })
}

/// So many choices to go on.
fn choices<'a>(alloc: Global, count: usize) -> Result<Vec<Choice<'a>>, AllocError> {
    let mut choices = Vec::new(alloc);
    for _ in 0..count {
        choices.push(on(alloc))?;
    }
    Ok(choices)
}

/// The walk of the class's method by so many choices to go on.
fn goes(alloc: Global, bytes: &[u8], count: usize) -> Walk {
    match choices(alloc, count) {
        Ok(choices) => walk_alone(alloc, bytes, &choices),
        Err(_) => Err(OUT_OF_MEMORY),
    }
}

/// `return` ends the method; choices after that are not looked at, and without a choice nothing is done.
const OF_K: [(usize, Walk); 3] = [
    (0, Ok((0, Stop::At(0, None)))),
    (1, Ok((1, Stop::Ended))),
    (2, Ok((1, Stop::Ended))),
];

/// Two bytes of code, how many choices there are to go on, and the walk.
type Row = ([u8; 2], usize, Walk);

const ENDING: [Row; 2] = [
    ([0x04, 0xB1], 1, Ok((1, Stop::At(1, Some(Value::Int))))),
    ([0x04, 0xB1], 2, Ok((2, Stop::Ended))),
];

fn are_walked(alloc: Global, rows: &[Row]) -> bool {
    for (code, count, walked) in rows {
        if goes(alloc, &catching(*code), *count) != *walked {
            return false;
        }
    }
    true
}

#[test]
fn walks_that_end(rt: HostRuntime) {
    for (count, walked) in &OF_K {
        assert!(rt; goes(rt.alloc(), &K, *count) == *walked);
    }
    assert!(rt; are_walked(rt.alloc(), &ENDING));
}

/// `pop` of nothing is a fault, after `nop` too.
const FAULTY: [Row; 2] = [
    ([0x57, 0xB1], 1, Ok((0, Stop::Fault))),
    ([0x00, 0x57], 2, Ok((1, Stop::Fault))),
];

/// Where a choice is none, it is not counted.
#[test]
fn walks_that_stop(rt: HostRuntime) {
    let alloc = rt.alloc();
    assert!(rt; are_walked(alloc, &FAULTY));
    assert!(rt; goes_by(alloc, &K, raise(alloc, None, None)) == Ok((0, Stop::NotAChoice)));
}

/// An object that is raised is caught, and the walk goes on at the handler.
#[test]
fn walks_that_catch(rt: HostRuntime) {
    let alloc = rt.alloc();
    let caught = goes_by(alloc, &CATCHING, raise(alloc, Some(THROWABLE), Some(0)));
    assert!(rt; caught == Ok((1, Stop::At(1, Some(Value::Ref(7))))));
    let uncaught = goes_by(alloc, &CATCHING, raise(alloc, Some(THROWABLE), None));
    assert!(rt; uncaught == Ok((1, Stop::Ended)));
}

/// A static method without parameters begins with no argument.
#[test]
fn beginnings_that_are_none(rt: HostRuntime) {
    let begun = walk_of(
        rt.alloc(),
        &K,
        &[Value::Null],
        &BTreeMap::new(rt.alloc()),
        &[],
    );
    assert!(rt; begun == Err(55));
}

/// Whether a method begins in this state, and not one step further.
fn begins_there<'a, C: Classes>(
    alloc: Global,
    method: &CodeMethod<'_, 'a>,
    mut state: State<'a>,
    classes: &C,
) -> Result<bool, u8> {
    let Ok(first) = is_initial(alloc, method, &state, classes) else {
        return Err(OUT_OF_MEMORY);
    };
    state.at = 1;
    match is_initial(alloc, method, &state, classes) {
        Ok(second) => Ok(first && !second),
        Err(_) => Err(OUT_OF_MEMORY),
    }
}

/// Whether the one method of the class begins in the state that `initial` returns, and not one step further.
fn begins_among<'a, C: Classes>(
    alloc: Global,
    formed: &Formed<'_, 'a>,
    classes: &C,
) -> Result<bool, u8> {
    if formed.class().methods.len() != 1 {
        return Err(0);
    }
    let Some(declared) = formed.method(0) else {
        return Err(0);
    };
    let method = machine_method(alloc, formed)?;
    match initial(alloc, &method, &[], &BTreeMap::new(alloc), classes) {
        Ok(state) => begins_there(alloc, &declared, state, classes),
        Err(_) => Err(OUT_OF_MEMORY),
    }
}

fn begins_in<'a>(alloc: Global, formed: &Formed<'_, 'a>) -> Result<bool, u8> {
    let list = [object(alloc), summary(alloc, b"K", Some(OBJECT), false)];
    match Rows::new(alloc, &list, hasher()) {
        Ok(classes) => begins_among(alloc, formed, &classes),
        Err(_) => Err(OUT_OF_MEMORY),
    }
}

fn begins<'a>(alloc: Global, bytes: &'a [u8]) -> Result<bool, u8> {
    let class = match decode(alloc, bytes) {
        Ok(class) => class,
        Err(fault) => return Err(fault.number()),
    };
    match form_check(alloc, &class) {
        Ok(formed) => begins_in(alloc, &formed),
        Err(fault) => Err(fault.number()),
    }
}

#[test]
fn states_in_which_a_method_begins(rt: HostRuntime) {
    assert!(rt; begins(rt.alloc(), &CATCHING) == Ok(true));
}

/// Where memory runs out a walk returns 1, and otherwise its end.
#[test]
fn memory_runs_out_for_a_walk(rt: HostRuntime) {
    let walked = goes(rt.alloc(), &catching([0x04, 0xB1]), 2);
    assert!(rt; walked == Ok((2, Stop::Ended)) || walked == Err(OUT_OF_MEMORY));
}

#[test]
fn memory_runs_out_for_a_beginning(rt: HostRuntime) {
    let begun = begins(rt.alloc(), &CATCHING);
    assert!(rt; begun == Ok(true) || begun == Err(OUT_OF_MEMORY));
}
