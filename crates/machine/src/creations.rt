//! Objects, arrays and casts (JVMS 6.5).
ghost use Rattle.std.specs.Prelude.{◌≡◌, ◌<◌, IfOk};
ghost use Rattle.names.specs.ReferenceTypes.{array_type, descriptor_of, dimensions_of};
ghost use Rattle.pool.specs.ConstantMeanings.{class_at};
ghost use Rattle.machine.specs.Effects.{new_object, new_array, new_reference_array, new_multi_array, check_cast, instance_of, sizes};
ghost use Rattle.machine.specs.private.EffectViews.{demands_view, effect_view};
ghost use Rattle.machine.specs.Views.{run_type_view};

use crate::constants::class_at;
use crate::effect::{Demand, Effect, Reply, operates};
use crate::objects::RunType;
use insn::Kind;
use names::{Base, OBJECT, Primitive};
use pool::Pool;
use std::alloc::{AllocError, Global};

/// `new`
pub fn new_object<'a>(pool: &Pool<'a>, index: u16) -> Effect<'a>
    ensures { effect_view result ≡ new_object (class_at pool.now index) }
{
    match class_at(pool, index) {
        Some(RunType::Class(name)) => Effect::Creates(name),
        Some(RunType::Array { .. }) | None => Effect::Stuck,
    }
}

// The sizes of so many dimensions.
fn sizes<'a>(alloc: Global, count: u8) -> Result<Vec<Demand<'a>>, AllocError>
    ensures { IfOk result (λ v. demands_view v.items ≡ sizes count) }
{
    let mut demands = Vec::new(alloc);
    for _ in 0..count {
        demands.push(Demand::Number(Kind::Int))?;
    }
    Ok(demands)
}

/// `newarray`
pub fn new_array<'a>(alloc: Global, element: Option<Primitive>) -> Result<Effect<'a>, AllocError>
    ensures { IfOk result (λ d. effect_view d ≡ new_array element) }
{
    match element {
        None => Ok(Effect::Stuck),
        Some(primitive) => Ok(Effect::MakesArray {
            demands: vec![in alloc; Demand::Number(Kind::Int)]?,
            made: RunType::Array {
                dims: 1,
                base: Base::Primitive(primitive),
            },
        }),
    }
}

// How many dimensions it has.
fn dimensions_of(run_type: RunType<'_>) -> u8
    ensures { result ≡ dimensions_of (run_type_view run_type.entry) }
{
    match run_type {
        RunType::Class(_) => 0,
        RunType::Array { dims, .. } => dims.max(1),
    }
}

// The arrays of the type.
fn array_of(run_type: RunType<'_>) -> RunType<'_>
    requires { dimensions_of (run_type_view run_type) < 255 }
    ensures { run_type_view result ≡ array_type (descriptor_of (run_type_view run_type.entry)) }
{
    match run_type {
        RunType::Class(name) => RunType::Array {
            dims: 1,
            base: Base::Class(name),
        },
        RunType::Array { dims, base } => RunType::Array {
            dims: dims.max(1) + 1,
            base,
        },
    }
}

/// `anewarray`
pub fn new_reference_array<'a>(
    alloc: Global,
    pool: &Pool<'a>,
    index: u16,
) -> Result<Effect<'a>, AllocError>
    ensures { IfOk result (λ d. effect_view d ≡ new_reference_array (class_at pool.now index)) }
{
    let Some(element) = class_at(pool, index) else {
        return Ok(Effect::Stuck);
    };
    if dimensions_of(element) < 255 {
        Ok(Effect::MakesArray {
            demands: vec![in alloc; Demand::Number(Kind::Int)]?,
            made: array_of(element),
        })
    } else {
        Ok(Effect::Stuck)
    }
}

/// `multianewarray`
pub fn new_multi_array<'a>(
    alloc: Global,
    pool: &Pool<'a>,
    index: u16,
    dimensions: u8,
) -> Result<Effect<'a>, AllocError>
    ensures { IfOk result (λ d. effect_view d ≡ new_multi_array dimensions (class_at pool.now index)) }
{
    let Some(made) = class_at(pool, index) else {
        return Ok(Effect::Stuck);
    };
    if 0 < dimensions && !(dimensions_of(made) < dimensions) {
        Ok(Effect::MakesArray {
            demands: sizes(alloc, dimensions)?,
            made,
        })
    } else {
        Ok(Effect::Stuck)
    }
}

/// `checkcast`
pub fn check_cast<'a>(pool: &Pool<'a>, index: u16) -> Effect<'a>
    ensures { effect_view result ≡ check_cast (class_at pool.now index) }
{
    match class_at(pool, index) {
        None => Effect::Stuck,
        Some(run_type) => Effect::Passes(run_type),
    }
}

/// `instanceof`
pub fn instance_of<'a>(alloc: Global, pool: &Pool<'a>, index: u16) -> Result<Effect<'a>, AllocError>
    ensures { IfOk result (λ d. effect_view d ≡ instance_of (class_at pool.now index)) }
{
    if class_at(pool, index).is_none() {
        return Ok(Effect::Stuck);
    }
    let demands = vec![in alloc; Demand::Type(RunType::Class(OBJECT))]?;
    Ok(operates(demands, None, Reply::Number(Kind::Int)))
}
