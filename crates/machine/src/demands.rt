//! The demands of an instruction on its state.
ghost use Rattle.std.specs.Prelude.{◌≡◌, ◌↔◌, ◌⊎◌, ◌+◌, ◌≤◌, IsTrue, IfOk};
ghost use Rattle.hierarchy.specs.Class.{world_of};
ghost use Rattle.insn.specs.Operators.{stack_forms};
ghost use Rattle.insn.specs.Branching.{targets_of};
ghost use Rattle.insn.specs.OperandStacks.{beneath};
ghost use Rattle.machine.specs.Values.{depth_of};
ghost use Rattle.machine.specs.private.EffectViews.{demands_view, demand_units, reply_view, effect_view};
ghost use Rattle.machine.specs.Demands.{AllMeet, IsMade, IsOwn, HasReceiver, MeetsRest, HasRoom, EndsReady};
ghost use Rattle.machine.specs.private.Demanded.{are_whole, stays, IsUninitialized, Meets};
ghost use Rattle.machine.specs.Bodies.{method_view};
ghost use Rattle.machine.specs.Effects.{moves, demands_of, reply_units, falls, targets};
ghost use Rattle.machine.specs.Views.{value_view, stack_of, locals_of, heap_view, state_view};

use crate::body::Method;
use crate::effect::{Demand, Effect, Operation, Reply};
use crate::heaps::has_no_this;
use crate::items::{Slot, Value};
use crate::objects::{OBJECTS, Object, RunType, Status};
use crate::operands::{
    all_meet, are_paired, demand_of, form_for, has_form, has_local, has_room, held, value_units,
};
use crate::snapshot::State;
use crate::stacking::{beneath, item, rearranged};
use crate::starts::{all_begin, all_lead};
use crate::subtypes::is_below;
use hierarchy::Classes;
use insn::{BranchTargets, Branches, Kind, StackOperator};
use names::{OBJECT, THROWABLE};
use std::alloc::{AllocError, Global};
use std::collections::BTreeMap;

// Whether the operands are there and meet what is needed of them.
fn operands_meet<C: Classes>(effect: &Effect<'_>, state: &State<'_>, classes: &C) -> bool
    ensures { let s = state_view state.now in
        IsTrue result ↔ AllMeet (world_of (C.content classes.now)) s.heap
        (demands_of (effect_view effect.now)) s.stack }
{
    let (stack, heap) = (&state.stack, &state.heap);
    match effect {
        Effect::Operates { operation, .. } | Effect::CallsSpecial { operation, .. } => {
            all_meet(&operation.demands, stack, heap, classes)
        }
        Effect::MakesArray { demands, .. } | Effect::Initializes { demands, .. } => {
            all_meet(demands, stack, heap, classes)
        }
        Effect::Writes { demand, .. } | Effect::Leaves(demand) => all_meet(
            &[*demand],
            stack,
            heap,
            classes,
        ),
        Effect::TakesElement => {
            let demands = [Demand::Number(Kind::Int), Demand::Type(OBJECTS)];
            all_meet(&demands, stack, heap, classes)
        }
        Effect::Passes(_) => {
            all_meet(
                &[Demand::Type(RunType::Class(OBJECT))],
                stack,
                heap,
                classes,
            )
        }
        Effect::Throws => {
            all_meet(
                &[Demand::Type(RunType::Class(THROWABLE))],
                stack,
                heap,
                classes,
            )
        }
        Effect::Reads { .. }
        | Effect::Increments { .. }
        | Effect::Moves(_)
        | Effect::Creates(_)
        | Effect::Ends
        | Effect::Stuck => true,
    }
}

// Whether an instance initialization method of the class may be called on the object at this address.
fn is_uninitialized_at(
    method: &Method<'_, '_>,
    class: &[u8],
    heap: &BTreeMap<u32, Object<'_>>,
    address: u32,
) -> bool
    ensures { let h = heap_view heap.now in
        IsTrue result ↔ (IsMade h class.now address ⊎ IsOwn (method_view method.now) h class.now address) }
{
    let Some(object) = heap.get(&address) else {
        return false;
    };
    match object.status {
        Status::Ready => false,
        Status::Made => match object.run_type {
            RunType::Class(name) => name == class,
            RunType::Array { .. } => false,
        },
        Status::This => method.class_name() == class || method.superclass() == Some(class),
    }
}

// Whether it is a reference to such an object.
fn is_uninitialized(
    method: &Method<'_, '_>,
    class: &[u8],
    heap: &BTreeMap<u32, Object<'_>>,
    value: Value,
) -> bool
    ensures { IsTrue result ↔ IsUninitialized (method_view method.now) (heap_view heap.now) class.now
        (value_view value) }
{
    match value {
        Value::Ref(address) => is_uninitialized_at(method, class, heap, address),
        Value::Null | Value::Int | Value::Float | Value::Long | Value::Double => false,
    }
}

// Whether such an object stands beneath the arguments.
fn has_receiver(
    method: &Method<'_, '_>,
    class: &[u8],
    demands: &[Demand<'_>],
    state: &State<'_>,
) -> bool
    ensures { IsTrue result ↔ HasReceiver (method_view method.now) class.now (demands_view demands.now)
        (state_view state.now) }
{
    match item(demands.len(), &state.stack) {
        None => false,
        Some(value) => is_uninitialized(method, class, &state.heap, value),
    }
}

// Whether there are local variables for what is written.
fn has_place(demand: Demand<'_>, local: u16, limit: u16) -> bool
    ensures { IsTrue result ↔ (local + demand_units demand.entry ≤ limit) }
{
    let (local, limit) = (usize::from(local), usize::from(limit));
    match demand {
        Demand::Number(kind) => local + kind.units() <= limit,
        _ => local < limit,
    }
}

// Whether what is needed besides the operands is there.
fn rest_meets<C: Classes>(
    method: &Method<'_, '_>,
    effect: &Effect<'_>,
    state: &State<'_>,
    classes: &C,
) -> bool
    ensures { IsTrue result ↔ MeetsRest (world_of (C.content classes.now)) (method_view method.now)
        (effect_view effect.now) (state_view state.now) }
{
    match effect {
        Effect::Reads { demand, local } => has_local(*demand, *local, state, classes),
        Effect::Writes { demand, local } => has_place(
            *demand,
            *local,
            method.declared.code.max_locals,
        ),
        Effect::Increments { local } => has_local(
            Demand::Number(Kind::Int),
            *local,
            state,
            classes,
        ),
        Effect::Moves(operator) => has_form(*operator, state),
        Effect::Initializes { class, demands } => has_receiver(method, class, demands, state),
        Effect::CallsSpecial { class, .. } => {
            is_below(RunType::Class(method.class_name()), *class, classes)
        }
        Effect::Stuck => false,
        Effect::Operates { .. }
        | Effect::TakesElement
        | Effect::Passes(_)
        | Effect::Creates(_)
        | Effect::MakesArray { .. }
        | Effect::Leaves(_)
        | Effect::Throws
        | Effect::Ends => true,
    }
}

// How many units a reply takes.
fn reply_units(reply: Reply<'_>) -> usize
    ensures { result ≡ reply_units (reply_view reply.entry) }
{
    match reply {
        Reply::Nothing => 0,
        Reply::Number(kind) => kind.units(),
        Reply::Null => 1,
        Reply::Answer(t) => match demand_of(t) {
            Demand::Number(kind) => kind.units(),
            _ => 1,
        },
    }
}

// Whether the reply has room on what is left of the stack.
fn reply_has_room(operation: &Operation<'_>, stack: &[Value], limit: u16) -> bool
    ensures { let o = operation.now in
        IsTrue result ↔ (reply_units (reply_view o.reply) + depth_of
        (beneath (demands_view o.demands.items) (stack_of stack.now)) ≤ limit) }
{
    has_room(
        reply_units(operation.reply),
        beneath(&operation.demands, stack),
        limit,
    )
}

// Whether the stack as the operator rearranges it is no deeper than this.
fn moves_have_room(
    alloc: Global,
    operator: StackOperator,
    method: &Method<'_, '_>,
    state: &State<'_>,
) -> Result<bool, AllocError>
    ensures { IfOk result (λ b. IsTrue b
        ↔ HasRoom (method_view method.now) (moves (stack_forms operator)) (state_view state.now)) }
{
    match form_for(operator.forms(), &state.stack) {
        None => Ok(true),
        Some(form) => {
            let after = rearranged(alloc, form, &state.stack)?;
            Ok(has_room(0, &after, method.declared.code.max_stack))
        }
    }
}

// Whether the stack is no deeper than it may be afterwards.
fn leaves_room(
    alloc: Global,
    method: &Method<'_, '_>,
    effect: &Effect<'_>,
    state: &State<'_>,
) -> Result<bool, AllocError>
    ensures { IfOk result (λ b. IsTrue b
        ↔ HasRoom (method_view method.now) (effect_view effect.now) (state_view state.now)) }
{
    let limit = method.declared.code.max_stack;
    let stack = &state.stack;
    match effect {
        Effect::Operates { operation, .. } | Effect::CallsSpecial { operation, .. } => {
            Ok(reply_has_room(operation, stack, limit))
        }
        Effect::Reads { local, .. } => match held(&state.locals, *local) {
            None => Ok(true),
            Some(value) => Ok(has_room(value_units(value), stack, limit)),
        },
        Effect::Moves(operator) => moves_have_room(alloc, *operator, method, state),
        Effect::Creates(_) => Ok(has_room(1, stack, limit)),
        Effect::MakesArray { demands, .. } => Ok(has_room(1, beneath(demands, stack), limit)),
        Effect::Writes { .. }
        | Effect::Increments { .. }
        | Effect::TakesElement
        | Effect::Passes(_)
        | Effect::Initializes { .. }
        | Effect::Leaves(_)
        | Effect::Throws
        | Effect::Ends
        | Effect::Stuck => Ok(true),
    }
}

// Whether these are all local variables, with their second halves.
fn are_whole(limit: u16, locals: &[Slot]) -> bool
    ensures { result ≡ are_whole limit (locals_of locals.now) }
{
    locals.len() == usize::from(limit) && are_paired(locals)
}

/// Whether the instruction goes on to the next one.
pub fn falls(effect: &Effect<'_>) -> bool
    ensures { result ≡ falls (effect_view effect.now) }
{
    match effect {
        Effect::Operates { falls, .. } => *falls,
        Effect::Leaves(_) | Effect::Throws | Effect::Ends | Effect::Stuck => false,
        Effect::Reads { .. }
        | Effect::Writes { .. }
        | Effect::Increments { .. }
        | Effect::Moves(_)
        | Effect::TakesElement
        | Effect::Passes(_)
        | Effect::Creates(_)
        | Effect::MakesArray { .. }
        | Effect::Initializes { .. }
        | Effect::CallsSpecial { .. } => true,
    }
}

/// Where an instruction at an offset branches to.
pub fn targets<'a>(at: u16, effect: &Effect<'a>) -> BranchTargets<'a>
    ensures { targets_of result ≡ targets at (effect_view effect.now) }
{
    let branches = match effect {
        Effect::Operates { branches, .. } => *branches,
        Effect::Reads { .. }
        | Effect::Writes { .. }
        | Effect::Increments { .. }
        | Effect::Moves(_)
        | Effect::TakesElement
        | Effect::Passes(_)
        | Effect::Creates(_)
        | Effect::MakesArray { .. }
        | Effect::Initializes { .. }
        | Effect::CallsSpecial { .. }
        | Effect::Leaves(_)
        | Effect::Throws
        | Effect::Ends
        | Effect::Stuck => Branches::Nowhere,
    };
    BranchTargets::new(at, branches)
}

// Whether control stays on the starts of instructions.
fn stays(method: &Method<'_, '_>, at: u16, effect: &Effect<'_>, next: Option<u16>) -> bool
    ensures { let m = method_view method.now in result ≡ stays m.code at (effect_view effect.now) next m.exceptions }
{
    (!falls(effect) || next.is_some())
        && all_begin(targets(at, effect), &method.list)
        && all_lead(&method.exceptions, at, &method.list)
}

// Whether an instance initialization method that returns leaves no own object that is not initialized.
fn ends_ready(method: &Method<'_, '_>, effect: &Effect<'_>, state: &State<'_>) -> bool
    ensures { IsTrue result ↔ EndsReady (method_view method.now) (effect_view effect.now) (state_view state.now) }
{
    match effect {
        Effect::Ends => !method.declared.is_init || has_no_this(&state.heap),
        Effect::Operates { .. }
        | Effect::Reads { .. }
        | Effect::Writes { .. }
        | Effect::Increments { .. }
        | Effect::Moves(_)
        | Effect::TakesElement
        | Effect::Passes(_)
        | Effect::Creates(_)
        | Effect::MakesArray { .. }
        | Effect::Initializes { .. }
        | Effect::CallsSpecial { .. }
        | Effect::Leaves(_)
        | Effect::Throws
        | Effect::Stuck => true,
    }
}

/// Whether the state meets the demands of an instruction that does this, where that is the next start.
pub fn meets<C: Classes>(
    alloc: Global,
    method: &Method<'_, '_>,
    effect: &Effect<'_>,
    next: Option<u16>,
    state: &State<'_>,
    classes: &C,
) -> Result<bool, AllocError>
    ensures { IfOk result (λ b. IsTrue b
        ↔ Meets (world_of (C.content classes.now)) (method_view method.now) (effect_view effect.now) next
        (state_view state.now)) }
{
    let has_room_after = leaves_room(alloc, method, effect, state)?;
    Ok(
        are_whole(method.declared.code.max_locals, &state.locals)
            && operands_meet(effect, state, classes)
            && rest_meets(method, effect, state, classes)
            && has_room(0, &state.stack, method.declared.code.max_stack)
            && has_room_after
            && stays(method, state.at, effect, next)
            && ends_ready(method, effect, state),
    )
}
