//! Fields (JVMS 6.5).
ghost use Rattle.std.specs.Prelude.{◌≡◌, IfOk};
ghost use Rattle.pool.specs.ConstantMeanings.{field_at};
ghost use Rattle.machine.specs.Effects.{get_static, put_static, get_field, put_field, target_of};
ghost use Rattle.machine.specs.private.Constants.{field_view};
ghost use Rattle.machine.specs.private.EffectViews.{demand_view, effect_view};
ghost use Rattle.machine.specs.Bodies.{method_view};

use crate::body::Method;
use crate::constants::{FieldConstant, field_at};
use crate::effect::{Demand, Effect, Reply, gives, operates};
use crate::objects::RunType;
use crate::operands::demand_of;
use pool::Pool;
use std::alloc::{AllocError, Global};

/// `getstatic`
pub fn get_static<'a>(alloc: Global, pool: &Pool<'a>, index: u16) -> Effect<'a>
    ensures { effect_view result ≡ get_static (field_at pool.now index) }
{
    match field_at(pool, index) {
        None => Effect::Stuck,
        Some(field) => gives(alloc, Reply::Answer(field.field_type)),
    }
}

/// `putstatic`
pub fn put_static<'a>(alloc: Global, pool: &Pool<'a>, index: u16) -> Result<Effect<'a>, AllocError>
    ensures { IfOk result (λ d. effect_view d ≡ put_static (field_at pool.now index)) }
{
    let Some(field) = field_at(pool, index) else {
        return Ok(Effect::Stuck);
    };
    let demands = vec![in alloc; demand_of(field.field_type)]?;
    Ok(operates(demands, None, Reply::Nothing))
}

/// `getfield`
pub fn get_field<'a>(alloc: Global, pool: &Pool<'a>, index: u16) -> Result<Effect<'a>, AllocError>
    ensures { IfOk result (λ d. effect_view d ≡ get_field (field_at pool.now index)) }
{
    let Some(field) = field_at(pool, index) else {
        return Ok(Effect::Stuck);
    };
    let demands = vec![in alloc; Demand::Type(RunType::Class(field.class))]?;
    Ok(operates(demands, Some(0), Reply::Answer(field.field_type)))
}

// In an instance initialization method the own object's fields that the class declares may be set before another
// constructor returned.
fn target_of<'a>(method: &Method<'_, 'a>, field: &FieldConstant<'a>) -> Demand<'a>
    ensures { demand_view result ≡ target_of (method_view method.now) (field_view field.now) }
{
    if method.declared.is_init && method.is_own_field(field) {
        Demand::OwnOr(field.class)
    } else {
        Demand::Type(RunType::Class(field.class))
    }
}

/// `putfield`
pub fn put_field<'a>(
    alloc: Global,
    method: &Method<'_, 'a>,
    index: u16,
) -> Result<Effect<'a>, AllocError>
    ensures { let m = method_view method.now in
        IfOk result (λ d. effect_view d ≡ put_field m (field_at m.constant_pool index)) }
{
    let Some(field) = field_at(method.pool(), index) else {
        return Ok(Effect::Stuck);
    };
    let demands = vec![in alloc; demand_of(field.field_type), target_of(method, &field)]?;
    Ok(operates(demands, Some(1), Reply::Nothing))
}
