//! The effect of an instruction on a state, by the value that is answered.
ghost use Rattle.std.specs.Prelude.{◌≡◌, ◌↔◌, IsTrue, None, option_map};
ghost use Rattle.hierarchy.specs.Class.{world_of};
ghost use Rattle.names.specs.ReferenceTypes.{class_type};
ghost use Rattle.insn.specs.Operators.{stack_forms};
ghost use Rattle.insn.specs.OperandStacks.{beneath};
ghost use Rattle.machine.specs.Heap.{made, ready, object};
ghost use Rattle.machine.specs.Effects.{takes_element, passes};
ghost use Rattle.machine.specs.Steps.{IsLive, moved};
ghost use Rattle.machine.specs.private.EffectViews.{demands_view, reply_view, effect_view};
ghost use Rattle.machine.specs.private.Happening.{Done, DoesHere, OperatesHere, IsGiven, ReadsLocal, WritesLocal, Rearranges, MakesReady, Initializes, PutsAt, Puts};
ghost use Rattle.machine.specs.Views.{value_view, stack_of, run_type_view, object_view, heap_view, state_view};

use crate::choosing::StepFault;
use crate::effect::{Demand, Effect, Operation, Reply};
use crate::fitting::{component_at, fits_reference};
use crate::items::{Value, number};
use crate::objects::{Object, RunType, Status};
use crate::operands::{demand_of, form_for, held, meets};
use crate::snapshot::State;
use crate::stacking::{drop_items, item, rearranged, take_operands};
use crate::storing::store;
use hierarchy::Classes;
use insn::StackOperator;
use std::alloc::Global;
use std::collections::BTreeMap;

// Whether the operand of this place, if one is named, is not null.
fn is_live(live: Option<usize>, stack: &[Value]) -> bool
    ensures { IsTrue result ↔ IsLive live (stack_of stack.now) }
{
    let Some(place) = live else {
        return true;
    };
    !matches!(item(place, stack), Some(Value::Null))
}

// The items that the reply pushes, if the answer may be given: a value, or nothing.
fn replied<C: Classes>(
    reply: Reply<'_>,
    answer: Option<Value>,
    heap: &BTreeMap<u32, Object<'_>>,
    classes: &C,
) -> Option<Option<Value>>
    ensures { IsGiven (world_of (C.content classes.now)) (heap_view heap.now) (reply_view reply.entry)
        (option_map value_view answer) (option_map (option_map value_view) result) }
{
    match reply {
        Reply::Answer(t) => {
            let value = answer?;
            if meets(demand_of(t), value, heap, classes) {
                Some(Some(value))
            } else {
                None
            }
        }
        Reply::Nothing => if answer.is_none() { Some(None) } else { None },
        Reply::Number(kind) => if answer.is_none() {
            Some(Some(number(kind)))
        } else {
            None
        },
        Reply::Null => if answer.is_none() {
            Some(Some(Value::Null))
        } else {
            None
        },
    }
}

// Operands are taken and a reply is given.
fn operate<'a, C: Classes>(
    mut state: State<'a>,
    operation: &Operation<'_>,
    answer: Option<Value>,
    classes: &C,
) -> Result<State<'a>, StepFault>
    ensures { let o = operation.now in
        Done (OperatesHere (world_of (C.content classes.now)) (demands_view o.demands.items) o.live (reply_view o.reply)
        (state_view state.entry) (option_map value_view answer)) result }
{
    if !is_live(operation.live, &state.stack) {
        return Err(StepFault::NotAChoice);
    }
    let Some(given) = replied(operation.reply, answer, &state.heap, classes) else {
        return Err(StepFault::NotAChoice);
    };
    take_operands(&operation.demands, &mut state.stack);
    if let Some(value) = given {
        state.stack.push(value)?;
    }
    Ok(state)
}

// The value of a local variable is pushed.
fn read<'a>(mut state: State<'a>, local: u16, answer: Option<Value>) -> Result<State<'a>, StepFault>
    ensures { Done (ReadsLocal local (state_view state.entry) (option_map value_view answer)) result }
{
    if answer.is_some() {
        return Err(StepFault::NotAChoice);
    }
    let Some(value) = held(&state.locals, local) else {
        return Err(StepFault::NotAChoice);
    };
    state.stack.push(value)?;
    Ok(state)
}

// A value is written to a local variable.
fn write<'a>(
    mut state: State<'a>,
    local: u16,
    answer: Option<Value>,
) -> Result<State<'a>, StepFault>
    ensures { Done (WritesLocal local (state_view state.entry) (option_map value_view answer)) result }
{
    if answer.is_some() {
        return Err(StepFault::NotAChoice);
    }
    let Some(value) = state.stack.pop() else {
        return Err(StepFault::NotAChoice);
    };
    store(value, local, &mut state.locals);
    Ok(state)
}

// The state has of a number its kind alone, which stays.
fn increment<'a>(state: State<'a>, answer: Option<Value>) -> Result<State<'a>, StepFault>
    ensures { let s = state_view state.entry in
        Done (λ t. (option_map value_view answer ≡ None) × (t ≡ moved s s.at s.stack)) result }
{
    match answer {
        None => Ok(state),
        Some(_) => Err(StepFault::NotAChoice),
    }
}

// The items on top of the stack are moved by the first form that they fit, which is the only one.
fn rearrange<'a>(
    alloc: Global,
    mut state: State<'a>,
    operator: StackOperator,
    answer: Option<Value>,
) -> Result<State<'a>, StepFault>
    ensures { Done (Rearranges (stack_forms operator) (state_view state.entry) (option_map value_view answer)) result }
{
    if answer.is_some() {
        return Err(StepFault::NotAChoice);
    }
    let Some(form) = form_for(operator.forms(), &state.stack) else {
        return Err(StepFault::NotAChoice);
    };
    state.stack = rearranged(alloc, form, &state.stack)?;
    Ok(state)
}

// An element is read from the array beneath the index.
fn take_element<'a, C: Classes>(
    mut state: State<'a>,
    answer: Option<Value>,
    classes: &C,
) -> Result<State<'a>, StepFault>
    ensures { Done (DoesHere (world_of (C.content classes.now)) takes_element (state_view state.entry)
        (option_map value_view answer)) result }
{
    let Some(value) = answer else {
        return Err(StepFault::NotAChoice);
    };
    let Some(Value::Ref(address)) = item(1, &state.stack) else {
        return Err(StepFault::NotAChoice);
    };
    let Some(component) = component_at(&state.heap, address) else {
        return Err(StepFault::NotAChoice);
    };
    if !meets(demand_of(component), value, &state.heap, classes) {
        return Err(StepFault::NotAChoice);
    }
    drop_items(2, &mut state.stack);
    state.stack.push(value)?;
    Ok(state)
}

// The reference on top of the stack passes where it fits the type.
fn pass<'a, C: Classes>(
    state: State<'a>,
    run_type: RunType<'_>,
    answer: Option<Value>,
    classes: &C,
) -> Result<State<'a>, StepFault>
    ensures { Done (DoesHere (world_of (C.content classes.now)) (passes (run_type_view run_type.entry))
        (state_view state.entry) (option_map value_view answer)) result }
{
    if answer.is_some() {
        return Err(StepFault::NotAChoice);
    }
    let Some(value) = item(0, &state.stack) else {
        return Err(StepFault::NotAChoice);
    };
    if fits_reference(&state.heap, run_type, value, classes) {
        Ok(state)
    } else {
        Err(StepFault::NotAChoice)
    }
}

// The object comes to be at the address, which is unused.
fn put_at<'a>(
    mut state: State<'a>,
    object: Object<'a>,
    address: u32,
) -> Result<State<'a>, StepFault>
    ensures { Done (PutsAt (object_view object.entry) (state_view state.entry) address) result }
{
    if state.heap.contains_key(&address) {
        return Err(StepFault::NotAChoice);
    }
    state.heap.insert(address, object)?;
    state.stack.push(Value::Ref(address))?;
    Ok(state)
}

// The object comes to be at the address that is answered.
fn put<'a>(
    state: State<'a>,
    object: Object<'a>,
    answer: Option<Value>,
) -> Result<State<'a>, StepFault>
    ensures { Done (Puts (object_view object.entry) (state_view state.entry) (option_map value_view answer)) result }
{
    let Some(value) = answer else {
        return Err(StepFault::NotAChoice);
    };
    match value {
        Value::Ref(address) => put_at(state, object, address),
        Value::Null | Value::Int | Value::Float | Value::Long | Value::Double => {
            Err(StepFault::NotAChoice)
        }
    }
}

fn create<'a>(
    state: State<'a>,
    class: &'a [u8],
    answer: Option<Value>,
) -> Result<State<'a>, StepFault>
    ensures { Done (Puts (object (class_type class.now) made) (state_view state.entry)
        (option_map value_view answer)) result }
{
    let made = Object {
        run_type: RunType::Class(class),
        status: Status::Made,
    };
    put(state, made, answer)
}

fn make_array<'a>(
    mut state: State<'a>,
    demands: &[Demand<'_>],
    made: RunType<'a>,
    answer: Option<Value>,
) -> Result<State<'a>, StepFault>
    ensures { let s = state_view state.entry in
        Done (Puts (object (run_type_view made.entry) ready) (moved s s.at (beneath (demands_view demands.now) s.stack))
        (option_map value_view answer)) result }
{
    take_operands(demands, &mut state.stack);
    let array = Object {
        run_type: made,
        status: Status::Ready,
    };
    put(state, array, answer)
}

// The object, ready.
fn initialized(before: Object<'_>) -> Object<'_>
    ensures { object_view result ≡ object (run_type_view before.entry.run_type) ready }
{
    Object {
        run_type: before.run_type,
        status: Status::Ready,
    }
}

// The object at the address is ready.
fn make_ready<'a>(mut state: State<'a>, address: u32) -> Result<State<'a>, StepFault>
    ensures { Done (MakesReady address (state_view state.entry)) result }
{
    let Some(object) = state.heap.get(&address) else {
        return Err(StepFault::NotAChoice);
    };
    let ready = initialized(*object);
    state.heap.insert(address, ready)?;
    Ok(state)
}

// The object beneath the arguments is ready, and all of them are taken.
fn initialize<'a>(
    mut state: State<'a>,
    demands: &[Demand<'_>],
    answer: Option<Value>,
) -> Result<State<'a>, StepFault>
    ensures { Done (Initializes (demands_view demands.now) (state_view state.entry)
        (option_map value_view answer)) result }
{
    if answer.is_some() {
        return Err(StepFault::NotAChoice);
    }
    take_operands(demands, &mut state.stack);
    match state.stack.pop() {
        Some(Value::Ref(address)) => make_ready(state, address),
        _ => Err(StepFault::NotAChoice),
    }
}

/// The effect of the instruction on a state that is already where it goes, by the value that is answered; 54 where it
/// does nothing by it.
pub fn done<'a, C: Classes>(
    alloc: Global,
    effect: &Effect<'a>,
    state: State<'a>,
    answer: Option<Value>,
    classes: &C,
) -> Result<State<'a>, StepFault>
    ensures { Done (DoesHere (world_of (C.content classes.now)) (effect_view effect.now) (state_view state.entry)
        (option_map value_view answer)) result }
{
    match effect {
        Effect::Operates { operation, .. } | Effect::CallsSpecial { operation, .. } => {
            operate(state, operation, answer, classes)
        }
        Effect::Reads { local, .. } => read(state, *local, answer),
        Effect::Writes { local, .. } => write(state, *local, answer),
        Effect::Increments { .. } => increment(state, answer),
        Effect::Moves(operator) => rearrange(alloc, state, *operator, answer),
        Effect::TakesElement => take_element(state, answer, classes),
        Effect::Passes(run_type) => pass(state, *run_type, answer, classes),
        Effect::Creates(class) => create(state, class, answer),
        Effect::MakesArray { demands, made } => make_array(state, demands, *made, answer),
        Effect::Initializes { demands, .. } => initialize(state, demands, answer),
        Effect::Leaves(_) | Effect::Throws | Effect::Ends | Effect::Stuck => Err(
            StepFault::NotAChoice,
        ),
    }
}
