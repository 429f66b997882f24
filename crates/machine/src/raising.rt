//! An object is raised (JVMS 2.10).
ghost use Rattle.std.specs.Prelude.{◌≡◌, Some, IfOk, MatchOption, ◌∷◌, []};
ghost use Rattle.names.specs.ReferenceTypes.{ReferenceType, class_type};
ghost use Rattle.names.specs.StandardNames.{throwable_name};
ghost use Rattle.hierarchy.specs.Class.{world_of};
ghost use Rattle.machine.specs.Values.{reference};
ghost use Rattle.machine.specs.Heap.{object, ready, IsBelow};
ghost use Rattle.machine.specs.Bodies.{method_view};
ghost use Rattle.machine.specs.private.Happening.{CatchesBy, Raises};
ghost use Rattle.machine.specs.Views.{stack_of, run_type_view, heap_view, fresh_view, state_view};

use crate::body::Method;
use crate::choosing::{Outcome, StepFault};
use crate::heaps::ready_type;
use crate::items::Value;
use crate::objects::{Object, RunType};
use crate::snapshot::{State, with_fresh};
use crate::starts::covers;
use crate::subtypes::is_below;
use hierarchy::Classes;
use names::THROWABLE;
use std::alloc::{AllocError, Global};
use std::collections::BTreeMap;

// A stack with this reference alone.
fn alone(alloc: Global, address: u32) -> Result<Vec<Value>, AllocError>
    ensures { IfOk result (λ v. stack_of v.items ≡ reference address ∷ []) }
{
    let mut stack = Vec::new(alloc);
    stack.push(Value::Ref(address))?;
    Ok(stack)
}

// An object of this type is caught by the entry of this place, where that covers the instruction and catches the type.
fn caught<'a, C: Classes>(
    alloc: Global,
    method: &Method<'_, 'a>,
    classes: &C,
    state: State<'a>,
    address: u32,
    run_type: RunType<'a>,
    entry: u16,
) -> Result<Outcome<'a>, StepFault>
    ensures { let s = state_view state.entry in
        CatchesBy (world_of (C.content classes.now)) (method_view method.now) s address
        (run_type_view run_type.entry) s.heap entry result }
{
    let Some(found) = method.exceptions.get(usize::from(entry)) else {
        return Err(StepFault::NotAChoice);
    };
    if !covers(found, state.offset()) {
        return Err(StepFault::NotAChoice);
    }
    if !is_below(run_type, found.caught, classes) {
        return Err(StepFault::NotAChoice);
    }
    let mut after = state;
    after.at = found.handler;
    after.stack = alone(alloc, address)?;
    Ok(Outcome::Next(after))
}

// The type of a Throwable that is ready at this address.
fn raised_type<'a, C: Classes>(
    heap: &BTreeMap<u32, Object<'a>>,
    address: u32,
    classes: &C,
) -> Option<RunType<'a>>
    ensures { MatchOption result
        ((x : ReferenceType) → heap_view heap.now address ≡ Some (object x ready)
        → IsBelow (world_of (C.content classes.now)) x (class_type throwable_name) → ⊥)
        (λ t. (heap_view heap.now address ≡ Some (object (run_type_view t) ready))
        × IsBelow (world_of (C.content classes.now)) (run_type_view t) (class_type throwable_name)) }
{
    let run_type = ready_type(heap, address)?;
    if is_below(run_type, RunType::Class(THROWABLE), classes) {
        Some(run_type)
    } else {
        None
    }
}

/// The outcome of a raise of the object at this address, after these new objects, where it is caught by the entry of
/// that place, if there is one.
pub fn raise<'a, C: Classes>(
    alloc: Global,
    method: &Method<'_, 'a>,
    classes: &C,
    state: State<'a>,
    address: u32,
    fresh: &[(u32, RunType<'a>)],
    entry: Option<u16>,
) -> Result<Outcome<'a>, StepFault>
    ensures { Raises (world_of (C.content classes.now)) (method_view method.now) (state_view state.entry) address
        (fresh_view fresh.now) entry result }
{
    let state = with_fresh(state, fresh)?;
    let Some(run_type) = raised_type(&state.heap, address, classes) else {
        return Err(StepFault::NotAChoice);
    };
    match entry {
        None => Ok(Outcome::Ended),
        Some(entry) => caught(alloc, method, classes, state, address, run_type, entry),
    }
}
