//! Steps of methods of two bytes of code.
use crate::making::{go, machine_method};
use classfile::{ClassFile, decode, form_check};
use format_calls::making::{CATCHING, OUT_OF_MEMORY, catching};
use hierarchy::Rows;
use lower_calls::making::{hasher, object, summary};
use machine::{Choice, Method, Outcome, RunType, Slot, State, Value, laws, step};
use names::{OBJECT, THROWABLE};
use std::alloc::{AllocError, Global};
use std::collections::BTreeMap;
use std::test::*;

/// The outcome of a step, or the number of the refusal.
pub type Stepped<'a> = Result<Outcome<'a>, u8>;

#[test]
fn laws_are_called() {
    laws::step_breadth();
    laws::step_bounds();
    laws::stack_bounds();
    laws::used_is_initialized();
    laws::operands_are_typed();
    laws::constants_are_named();
    laws::stores_are_written();
    laws::below_is_by_cases();
    laws::shared_words_are_said();
    laws::constants_are_said();
    laws::start_breadth();
    laws::run_breadth();
    laws::world_breadth();
}

/// The state at offset 0 with these local variables and this stack.
fn state<'a>(alloc: Global, locals: [Slot; 2], stack: &[Value]) -> Result<State<'a>, AllocError> {
    Ok(State {
        at: 0,
        stack: stack.to_vec(alloc)?,
        locals: locals.to_vec(alloc)?,
        heap: BTreeMap::new(alloc),
    })
}

/// The outcome of a step of the method, where there are `java/lang/Object`, `java/lang/Throwable` and the class K.
fn step_of_method<'a>(
    alloc: Global,
    method: &Method<'_, 'a>,
    start: &State<'a>,
    choice: &Choice<'a>,
) -> Stepped<'a> {
    let list = [
        object(alloc),
        summary(alloc, THROWABLE, Some(OBJECT), false),
        summary(alloc, b"K", Some(OBJECT), false),
    ];
    match Rows::new(alloc, &list, hasher()) {
        Ok(classes) => match step(alloc, method, &classes, start, choice) {
            Ok(outcome) => Ok(outcome),
            Err(fault) => Err(fault.number()),
        },
        Err(fault) => Err(fault.number()),
    }
}

/// The step of the one method of the class.
fn step_of_class<'a>(
    alloc: Global,
    class: &ClassFile<'a>,
    start: &State<'a>,
    choice: &Choice<'a>,
) -> Stepped<'a> {
    match form_check(alloc, class) {
        Ok(formed) => {
            let method = machine_method(alloc, &formed)?;
            step_of_method(alloc, &method, start, choice)
        }
        Err(fault) => Err(fault.number()),
    }
}

/// The step of the one method of the class that these bytes are.
pub fn step_of<'a>(
    alloc: Global,
    bytes: &'a [u8],
    start: &State<'a>,
    choice: &Choice<'a>,
) -> Stepped<'a> {
    match decode(alloc, bytes) {
        Ok(class) => step_of_class(alloc, &class, start, choice),
        Err(fault) => Err(fault.number()),
    }
}

/// The choice to raise a new `java/lang/Throwable`, which is handled by the item of this number.
fn raise<'a>(alloc: Global, entry: Option<u16>) -> Result<Choice<'a>, AllocError> {
    Ok(Choice::Raise {
        address: 7,
        fresh: vec![in alloc; (7, RunType::Class(THROWABLE))]?,
        entry,
    })
}

const EMPTY: [Slot; 2] = [Slot::Empty, Slot::Empty];

/// Whether the step leads to the next byte, with these local variables and this stack.
fn leads_to(stepped: Stepped<'_>, locals: [Slot; 2], stack: &[Value]) -> bool {
    match stepped {
        Ok(Outcome::Next(state)) => {
            state.at == 1
                && state.locals.as_slice() == locals.as_slice()
                && state.stack.as_slice() == stack
        }
        _ => false,
    }
}

/// The outcome of the first of these bytes, from these local variables and this stack.
fn went<'a>(
    alloc: Global,
    bytes: &'a [u8],
    locals: [Slot; 2],
    stack: &[Value],
    choice: &Choice<'a>,
) -> Stepped<'a> {
    match state(alloc, locals, stack) {
        Ok(start) => step_of(alloc, bytes, &start, choice),
        Err(_) => Err(OUT_OF_MEMORY),
    }
}

/// Whether the instruction leads from these local variables and this stack to those.
fn leads(
    alloc: Global,
    code: u8,
    before: ([Slot; 2], &[Value]),
    after: ([Slot; 2], &[Value]),
) -> bool {
    let bytes = catching([code, 0x00]);
    let stepped = went(alloc, &bytes, before.0, before.1, &go(alloc, None, None));
    leads_to(stepped, after.0, after.1)
}

#[test]
fn numbers_and_locals(rt: HostRuntime) {
    let ints = [Value::Null, Value::Int, Value::Int];
    assert!(rt; leads(rt.alloc(), 0x60, (EMPTY, &ints), (EMPTY, &ints[..2])));
    // Half of a long is overwritten.
    let long = [Slot::Value(Value::Long), Slot::Second];
    let int = [Slot::Empty, Slot::Value(Value::Int)];
    assert!(rt; leads(rt.alloc(), 0x3C, (long, &[Value::Int]), (int, &[])));
}

/// The outcome of an instruction from empty local variables and an `int` on the stack: whether it ends the method, is a
/// fault, or is refused for a number.
fn outcome(alloc: Global, code: u8, choice: &Choice<'_>) -> (bool, bool, u8) {
    match went(alloc, &catching([code, 0x00]), EMPTY, &[Value::Int], choice) {
        Ok(outcome) => (
            matches!(outcome, Outcome::Ended),
            matches!(outcome, Outcome::Fault),
            0,
        ),
        Err(number) => (false, false, number),
    }
}

/// A `return` ends the method; an instruction that misses an operand, and one that is not verified, is a fault; a
/// branch is not a choice for `nop`.
#[test]
fn ends_and_faults(rt: HostRuntime) {
    let alloc = rt.alloc();
    let on = go(alloc, None, None);
    assert!(rt; matches!(outcome(alloc, 0xB1, &on), (true, false, 0)));
    assert!(rt; matches!(outcome(alloc, 0x60, &on), (false, true, 0)));
    assert!(rt; matches!(outcome(alloc, 0xA9, &on), (false, true, 0)));
    assert!(rt;
        matches!(
            outcome(alloc, 0x00, &go(alloc, Some(1), None)),
            (false, false, 54)
        )
    );
}

/// Whether the first of these bytes leads by this choice to the next, with the thrown object alone on the stack.
fn catches<'a>(alloc: Global, bytes: &'a [u8], choice: &Choice<'a>) -> bool {
    let stepped = went(alloc, bytes, EMPTY, &[Value::Int], choice);
    leads_to(stepped, EMPTY, &[Value::Ref(7)])
}

/// A `nop` may raise what an item of the exception table handles.
fn is_caught(alloc: Global) -> bool {
    match raise(alloc, Some(0)) {
        Ok(choice) => catches(alloc, &CATCHING, &choice),
        Err(_) => false,
    }
}

/// It may raise what none handles.
fn is_uncaught(alloc: Global) -> bool {
    match raise(alloc, None) {
        Ok(choice) => matches!(outcome(alloc, 0x00, &choice), (true, false, 0)),
        Err(_) => false,
    }
}

#[test]
fn exceptions_are_caught_or_not(rt: HostRuntime) {
    assert!(rt; is_caught(rt.alloc()));
    assert!(rt; is_uncaught(rt.alloc()));
}

const CODES: [u8; 11] = [
    0x00, 0x03, 0x09, 0x1B, 0x3C, 0x57, 0x5C, 0x79, 0xA7, 0xAC, 0xB1,
];

/// With memory enough no answer says that it ran out.
#[test]
fn each_step_answers(rt: HostRuntime) {
    let on = go(rt.alloc(), None, None);
    for code in &CODES {
        assert!(rt; !matches!(outcome(rt.alloc(), *code, &on), (_, _, OUT_OF_MEMORY)));
    }
}

/// The next state has another `int` on the stack; or memory ran out.
fn is_next_or_memory(stepped: Stepped<'_>) -> bool {
    match stepped {
        Ok(Outcome::Next(state)) => state.at == 1 && state.stack.len() == 2,
        Ok(_) => false,
        Err(number) => number == OUT_OF_MEMORY,
    }
}

fn steps_or_memory(alloc: Global) -> bool {
    let bytes = catching([0x04, 0xAC]);
    let stepped = went(alloc, &bytes, EMPTY, &[Value::Int], &go(alloc, None, None));
    is_next_or_memory(stepped)
}

/// Where memory runs out a step returns 1, and otherwise the next state.
#[test]
fn memory_runs_out_for_a_step(rt: HostRuntime) {
    assert!(rt; steps_or_memory(rt.alloc()));
}
