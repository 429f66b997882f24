//! Choices for a step.
use crate::chance::Chance;
use crate::walking::Scene;
use hierarchy::Classes;
use insn::{Act, BranchTargets, Insn, act};
use machine::{Choice, Object, RunType, State, Value};
use names::{Base, FieldType, OBJECT, Primitive};
use rules::{branches_by, goes_on};
use std::alloc::{AllocError, Global};
use std::collections::BTreeMap;

/// How many addresses new objects may come to be at.
const ADDRESSES: usize = 5000;

/// The number that a field of a primitive type holds.
pub fn number(t: FieldType<'_>) -> Value {
    match t.base {
        Base::Primitive(Primitive::Long) => Value::Long,
        Base::Primitive(Primitive::Double) => Value::Double,
        Base::Primitive(Primitive::Float) => Value::Float,
        _ => Value::Int,
    }
}

/// Any address.
fn address(chance: &mut Chance) -> u32 {
    u32::try_from(chance.below(ADDRESSES)).unwrap_or(0)
}

/// The address of an object that is there, if there is one.
fn address_among(heap: &BTreeMap<u32, Object<'_>>, chance: &mut Chance) -> Option<u32> {
    let place = chance.below(heap.len());
    heap.keys().nth(place).copied()
}

/// The address of a new object, of a type among these.
fn new_object<'a>(
    types: &[RunType<'a>],
    fresh: &mut Vec<(u32, RunType<'a>)>,
    chance: &mut Chance,
) -> Result<u32, AllocError> {
    let at = address(chance);
    let run_type = chance.among(types).unwrap_or(RunType::Class(OBJECT));
    fresh.push((at, run_type))?;
    Ok(at)
}

/// The address of an object that is there or is new.
fn object<'a, C: Classes>(
    scene: &Scene<'_, '_, 'a, C>,
    state: &State<'a>,
    fresh: &mut Vec<(u32, RunType<'a>)>,
    chance: &mut Chance,
) -> Result<u32, AllocError> {
    match address_among(&state.heap, chance) {
        Some(at) if chance.below(3) == 0 => Ok(at),
        _ => new_object(scene.types, fresh, chance),
    }
}

/// Any value: a number, null, an address or an object.
fn value<'a, C: Classes>(
    scene: &Scene<'_, '_, 'a, C>,
    state: &State<'a>,
    fresh: &mut Vec<(u32, RunType<'a>)>,
    chance: &mut Chance,
) -> Result<Value, AllocError> {
    let numbers = [Value::Int, Value::Float, Value::Long, Value::Double];
    match chance.below(5) {
        0 | 1 => Ok(chance.among(&numbers).unwrap_or(Value::Int)),
        2 => Ok(Value::Null),
        3 => Ok(Value::Ref(address(chance))),
        _ => Ok(Value::Ref(object(scene, state, fresh, chance)?)),
    }
}

/// Whether there are instructions of this meaning that ask for an answer.
fn asks(act: &Act<'_>) -> bool {
    matches!(
        act,
        Act::LoadConstant { .. }
            | Act::GetStatic { .. }
            | Act::GetField { .. }
            | Act::InvokeVirtual { .. }
            | Act::InvokeSpecial { .. }
            | Act::InvokeStatic { .. }
            | Act::InvokeInterface { .. }
            | Act::InvokeDynamic { .. }
            | Act::New { .. }
            | Act::NewArray(_)
            | Act::NewReferenceArray { .. }
            | Act::NewMultiArray { .. }
            | Act::LoadElement(_)
            | Act::LoadReferenceElement
    )
}

/// The meaning of the instruction at an offset, and where the next one begins, if one is there.
fn found<'a>(list: &[(u16, Insn<'a>)], at: u16) -> Option<(Act<'a>, Option<u16>)> {
    let place = list.iter().position(|(start, _)| *start == at)?;
    let (_, insn) = list.get(place)?;
    let next = list.get(place.saturating_add(1)).map(|(start, _)| *start);
    Some((act(insn), next))
}

/// The offsets to which an instruction with targets may go.
fn ways(alloc: Global, act: &Act<'_>, at: u16, next: Option<u16>) -> Result<Vec<u16>, AllocError> {
    let mut ways = Vec::new(alloc);
    for target in BranchTargets::new(at, branches_by(act)) {
        if let Ok(target) = u16::try_from(target) {
            ways.push(target)?;
        }
    }
    if let Some(next) = next {
        if !ways.is_empty() && goes_on(act) {
            ways.push(next)?;
        }
    }
    Ok(ways)
}

/// The choice that an instruction is done.
fn go<'a, C: Classes>(
    alloc: Global,
    scene: &Scene<'_, '_, 'a, C>,
    state: &State<'a>,
    chance: &mut Chance,
) -> Result<Choice<'a>, AllocError> {
    let mut fresh = Vec::new(alloc);
    let (mut branch, mut answer) = (None, None);
    if let Some((act, next)) = found(scene.list, state.at) {
        let ways = ways(alloc, &act, state.at, next)?;
        branch = chance.among(&ways);
        if asks(&act) && chance.below(4) > 0 {
            answer = Some(value(scene, state, &mut fresh, chance)?);
        }
    }
    Ok(Choice::Go {
        branch,
        answer,
        fresh,
    })
}

/// The choice that an object is raised: it is caught by an entry of the exception table, or the method ends.
fn raise<'a, C: Classes>(
    alloc: Global,
    scene: &Scene<'_, '_, 'a, C>,
    state: &State<'a>,
    chance: &mut Chance,
) -> Result<Choice<'a>, AllocError> {
    let mut fresh = Vec::new(alloc);
    let address = object(scene, state, &mut fresh, chance)?;
    let entries = scene.declared.code.exception_table.len();
    let entry = if entries > 0 && chance.below(8) > 0 {
        u16::try_from(chance.below(entries)).ok()
    } else {
        None
    };
    Ok(Choice::Raise {
        address,
        fresh,
        entry,
    })
}

/// A choice in a state. It need not be one of which something comes.
pub fn choice<'a, C: Classes>(
    alloc: Global,
    scene: &Scene<'_, '_, 'a, C>,
    state: &State<'a>,
    chance: &mut Chance,
) -> Result<Choice<'a>, AllocError> {
    if chance.below(16) == 0 {
        raise(alloc, scene, state, chance)
    } else {
        go(alloc, scene, state, chance)
    }
}
