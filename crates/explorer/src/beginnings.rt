//! States in which a method begins.
use crate::chance::Chance;
use crate::choices::number;
use crate::types::run_type;
use crate::walking::Scene;
use classfile::CodeMethod;
use hierarchy::Classes;
use machine::{Object, RunType, State, Status, StepFault, Value, initial};
use names::{FieldType, MethodType, OBJECT, method_type};
use rules::own_class;
use std::alloc::{AllocError, Global};
use std::collections::BTreeMap;

/// The address of the receiver.
const RECEIVER: u32 = 1;

/// The status of a receiver: the own object of an instance initialization method is yet to be initialized, but for that
/// of `java/lang/Object`.
fn status_of(method: &CodeMethod<'_, '_>) -> Status {
    if method.is_init && own_class(method) != OBJECT {
        Status::This
    } else {
        Status::Ready
    }
}

/// The type of a new object for a reference of a type: just this one, or one of those that the class names.
fn object_type<'a>(wanted: RunType<'a>, types: &[RunType<'a>], chance: &mut Chance) -> RunType<'a> {
    match chance.among(types) {
        Some(other) if chance.below(4) == 0 => other,
        _ => wanted,
    }
}

/// A value for a parameter of a type: a number of its kind, null, or an object after those that are there.
fn argument<'a>(
    t: FieldType<'a>,
    types: &[RunType<'a>],
    heap: &mut BTreeMap<u32, Object<'a>>,
    chance: &mut Chance,
) -> Result<Value, AllocError> {
    let Some(referred) = t.reference() else {
        return Ok(number(t));
    };
    if chance.below(4) == 0 {
        return Ok(Value::Null);
    }
    let address = u32::try_from(heap.len()).unwrap_or(0).saturating_add(1);
    let run_type = object_type(run_type(referred), types, chance);
    let status = Status::Ready;
    heap.insert(address, Object { run_type, status })?;
    Ok(Value::Ref(address))
}

/// Puts the receiver, where the method has one, in front of all other values.
fn add_receiver<'a>(
    method: &CodeMethod<'_, 'a>,
    values: &mut Vec<Value>,
    heap: &mut BTreeMap<u32, Object<'a>>,
) -> Result<(), AllocError> {
    if method.is_static {
        return Ok(());
    }
    let run_type = RunType::Class(own_class(method));
    let status = status_of(method);
    heap.insert(RECEIVER, Object { run_type, status })?;
    values.push(Value::Ref(RECEIVER))?;
    Ok(())
}

/// The types of the method; none where memory ran out.
fn types_of<'a>(alloc: Global, method: &CodeMethod<'_, 'a>) -> Option<MethodType<'a>> {
    method_type(alloc, method.descriptor(), !method.is_static).ok()
}

/// A state in which the method begins, with values and objects that are drawn; none where it does not begin with them.
pub fn begin<'a, C: Classes>(
    alloc: Global,
    scene: &Scene<'_, '_, 'a, C>,
    chance: &mut Chance,
) -> Result<Option<State<'a>>, StepFault> {
    let Some(types) = types_of(alloc, scene.declared) else {
        return Err(StepFault::OutOfMemory);
    };
    let mut heap = BTreeMap::new(alloc);
    let mut values = Vec::new(alloc);
    add_receiver(scene.declared, &mut values, &mut heap)?;
    for t in &types.params {
        values.push(argument(*t, scene.types, &mut heap, chance)?)?;
    }
    match initial(alloc, scene.method, &values, &heap, scene.classes) {
        Ok(state) => Ok(Some(state)),
        Err(StepFault::OutOfMemory) => Err(StepFault::OutOfMemory),
        Err(_) => Ok(None),
    }
}
