//! What several tests of the machine use, and those of `verify_calls`: the method of a class, choices, and where walks stop.
use classfile::Formed;
use hierarchy::Classes;
use machine::{Choice, Last, Method, Object, StepFault, Value, Walked, initial, walk};
use std::alloc::{AllocError, Global};
use std::collections::BTreeMap;

/// The one method of the class as the machine takes it; or the number of what is wrong with its code, 0 if it has none.
pub fn machine_method<'c, 'a>(
    alloc: Global,
    formed: &Formed<'c, 'a>,
) -> Result<Method<'c, 'a>, u8> {
    if formed.class().methods.len() != 1 {
        return Err(0);
    }
    if formed.class().methods[0].code().is_none() {
        return Err(0);
    }
    match Method::new(alloc, formed, 0) {
        Ok(method) => Ok(method),
        Err(fault) => Err(fault.number()),
    }
}

/// The choice to go on, to the place of this number where there is a branch, by this answer where there is one, with
/// nothing new.
pub fn go<'a>(alloc: Global, branch: Option<u16>, answer: Option<Value>) -> Choice<'a> {
    Choice::Go {
        branch,
        answer,
        fresh: Vec::new(alloc),
    }
}

/// The choice to go on, where there is no branch and no answer, with nothing new.
pub fn on<'a>(alloc: Global) -> Choice<'a> {
    go(alloc, None, None)
}

/// The choice to go on with this answer, and then three to go on.
pub fn answered_first<'a>(alloc: Global, answer: Value) -> Result<Vec<Choice<'a>>, AllocError> {
    let mut choices = Vec::new(alloc);
    choices.push(go(alloc, None, Some(answer)))?;
    for _ in 0..3 {
        choices.push(on(alloc))?;
    }
    Ok(choices)
}

/// Where a walk stops.
#[derive(Clone, Copy, PartialEq, Eq)]
pub enum Stop {
    /// At this offset, all choices being used up, with the one item on the stack if there is one.
    At(u16, Option<Value>),
    Ended,
    Fault,
    NotAChoice,
}

/// How many choices were taken, and where the walk stops; or the number of a refusal.
pub type Walk = Result<(usize, Stop), u8>;

fn only(stack: &[Value]) -> Option<Value> {
    match stack {
        [value] => Some(*value),
        _ => None,
    }
}

pub fn stop_of(last: &Last<'_>) -> Stop {
    match last {
        Last::More(state) => Stop::At(state.at, only(&state.stack)),
        Last::Ended => Stop::Ended,
        Last::Fault => Stop::Fault,
        Last::NotAChoice => Stop::NotAChoice,
    }
}

fn told(walked: Result<Walked<'_>, StepFault>) -> Walk {
    match walked {
        Ok(walked) => Ok((walked.taken, stop_of(&walked.last))),
        Err(fault) => Err(fault.number()),
    }
}

/// The walk of a method by these choices, from the state in which it begins with these arguments and objects.
pub fn walk_from<'a, C: Classes>(
    alloc: Global,
    method: &Method<'_, 'a>,
    args: &[Value],
    heap: &BTreeMap<u32, Object<'a>>,
    choices: &[Choice<'a>],
    classes: &C,
) -> Walk {
    match initial(alloc, method, args, heap, classes) {
        Ok(start) => told(walk(alloc, method, classes, &start, choices)),
        Err(fault) => Err(fault.number()),
    }
}
