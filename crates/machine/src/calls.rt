//! Calls of methods (JVMS 6.5).
ghost use Rattle.std.specs.Prelude.{◌≡◌, ◌++◌, [], ◌∷◌, length, map, IfOk, OnOk, None, Some, false, option_map, option_to_list};
ghost use Rattle.names.specs.Descriptors.{MethodDescriptor, method_width};
ghost use Rattle.names.specs.ReferenceTypes.{class_type, is_class_type};
ghost use Rattle.names.specs.Types.{type_of, method_of};
ghost use Rattle.pool.specs.ConstantMeanings.{method_at, call_site_at};
ghost use Rattle.machine.specs.Effects.{of_type, arguments_on, reply_of, is_init_name, may_name, call_of, call_on, invoke_static, invoke_virtual, may_invoke_interface, invoke_interface, constructor_call, special_call, invoke_special, is_special_name, invoke_dynamic};
ghost use Rattle.machine.specs.private.Constants.{constant_view, site_view};
ghost use Rattle.machine.specs.private.EffectViews.{demand_view, demands_view, reply_view, effect_view};
ghost use Rattle.machine.specs.Bodies.{method_view};
ghost use Rattle.machine.specs.Views.{run_type_view};

use crate::body::Method;
use crate::constants::{CallSite, MethodConstant, call_site_at, method_at};
use crate::effect::{Demand, Effect, Operation, Reply, operates};
use crate::objects::RunType;
use crate::operands::demand_of;
use insn::Branches;
use names::{FieldType, INIT, MethodType};
use pool::Pool;
use std::alloc::{AllocError, Global};

// Pushes what is needed of the arguments, that of the last one first.
fn push_arguments<'a>(
    params: &[FieldType<'a>],
    demands: &mut Vec<Demand<'a>>,
) -> Result<(), AllocError>
    ensures { OnOk result (demands_view demands.new.items ≡ demands_view demands.old.items
        ++ arguments_on (map type_of params.now) []) }
{
    match params {
        [] => Ok(()),
        [param, params @ ..] => {
            push_arguments(params, demands)?;
            demands.push(demand_of(*param))?;
            Ok(())
        }
    }
}

// The demands of the arguments, the last one on top, and of the receiver beneath them, if there is one.
fn arguments_on<'a>(
    alloc: Global,
    params: &[FieldType<'a>],
    receiver: Option<Demand<'a>>,
) -> Result<Vec<Demand<'a>>, AllocError>
    ensures { IfOk result (λ v. demands_view v.items
        ≡ arguments_on (map type_of params.now) (option_to_list (option_map demand_view receiver.entry))) }
{
    let mut demands = Vec::new(alloc);
    push_arguments(params, &mut demands)?;
    match receiver {
        None => Ok(demands),
        Some(demand) => {
            demands.push(demand)?;
            Ok(demands)
        }
    }
}

fn reply_of(result_type: Option<FieldType<'_>>) -> Reply<'_>
    ensures { reply_view result ≡ reply_of (option_map type_of result_type.entry) }
{
    match result_type {
        None => Reply::Nothing,
        Some(t) => Reply::Answer(t),
    }
}

// A call of a method of these types, without a receiver.
fn call_of<'a>(alloc: Global, called: &MethodType<'a>) -> Result<Effect<'a>, AllocError>
    ensures { IfOk result (λ d. effect_view d ≡ call_of (method_of called.now)) }
{
    let demands = arguments_on(alloc, &called.params, None)?;
    Ok(operates(demands, None, reply_of(called.result)))
}

// A call on a receiver of the type.
fn call_on<'a>(
    alloc: Global,
    receiver: RunType<'a>,
    constant: &MethodConstant<'a>,
) -> Result<Operation<'a>, AllocError>
    ensures { let t = method_of constant.now.method_type in
        IfOk result (λ o. (demands_view o.demands.items
        ≡ arguments_on t.params (of_type (run_type_view receiver.entry) ∷ [])) × (o.live ≡ Some (length t.params))
        × (reply_view o.reply ≡ reply_of t.result)) }
{
    let called = &constant.method_type;
    Ok(Operation {
        demands: arguments_on(alloc, &called.params, Some(Demand::Type(receiver)))?,
        live: Some(called.params.len()),
        reply: reply_of(called.result),
    })
}

// A call on a receiver of the type, which goes on.
fn object_call<'a>(alloc: Global, constant: &MethodConstant<'a>) -> Result<Effect<'a>, AllocError>
    ensures { let c = constant_view constant.now in IfOk result (λ d. effect_view d ≡ call_on c.class c) }
{
    Ok(Effect::Operates {
        operation: call_on(alloc, constant.class, constant)?,
        branches: Branches::Nowhere,
        falls: true,
    })
}

fn is_class(run_type: RunType<'_>) -> bool
    ensures { result ≡ is_class_type (run_type_view run_type.entry) }
{
    matches!(run_type, RunType::Class(_))
}

fn is_init_name(constant: &MethodConstant<'_>) -> bool
    ensures { result ≡ is_init_name (constant_view constant.now) }
{
    constant.name == INIT
}

// Methods of interfaces are called by other instructions than `invokeinterface` from version 52 on.
fn may_name(major: u16, interface: bool) -> bool
    ensures { result ≡ may_name major interface }
{
    !interface || major > 51
}

/// `invokestatic`
pub fn invoke_static<'a>(
    alloc: Global,
    method: &Method<'_, 'a>,
    index: u16,
) -> Result<Effect<'a>, AllocError>
    ensures { let m = method_view method.now in
        IfOk result (λ d. effect_view d ≡ invoke_static m.major_version (method_at m.constant_pool index)) }
{
    let Some(constant) = method_at(alloc, method.pool(), index)? else {
        return Ok(Effect::Stuck);
    };
    if is_class(constant.class)
        && !is_init_name(&constant)
        && may_name(method.declared.class.major_version, constant.interface)
    {
        call_of(alloc, &constant.method_type)
    } else {
        Ok(Effect::Stuck)
    }
}

/// `invokevirtual`
pub fn invoke_virtual<'a>(
    alloc: Global,
    pool: &Pool<'a>,
    index: u16,
) -> Result<Effect<'a>, AllocError>
    ensures { IfOk result (λ d. effect_view d ≡ invoke_virtual (method_at pool.now index)) }
{
    let Some(constant) = method_at(alloc, pool, index)? else {
        return Ok(Effect::Stuck);
    };
    if !constant.interface && !is_init_name(&constant) && constant.units < 255 {
        object_call(alloc, &constant)
    } else {
        Ok(Effect::Stuck)
    }
}

// Whether `invokeinterface` may call it with this count: that of its arguments and its receiver.
fn may_invoke_interface(count: u8, constant: &MethodConstant<'_>) -> bool
    requires { let c = constant.now in c.units ≡ method_width (method_of c.method_type) false }
    ensures { result ≡ may_invoke_interface count (constant_view constant.now) }
{
    is_class(constant.class)
        && constant.interface
        && !is_init_name(constant)
        && constant.units < 255
        && u16::from(count) == constant.units + 1
}

/// `invokeinterface`: its count is the width of the arguments and the receiver.
pub fn invoke_interface<'a>(
    alloc: Global,
    pool: &Pool<'a>,
    index: u16,
    count: u8,
) -> Result<Effect<'a>, AllocError>
    ensures { IfOk result (λ d. effect_view d ≡ invoke_interface count (method_at pool.now index)) }
{
    let Some(constant) = method_at(alloc, pool, index)? else {
        return Ok(Effect::Stuck);
    };
    if may_invoke_interface(count, &constant) {
        object_call(alloc, &constant)
    } else {
        Ok(Effect::Stuck)
    }
}

// A call of an instance initialization method.
fn constructor_call<'a>(
    alloc: Global,
    constant: &MethodConstant<'a>,
) -> Result<Effect<'a>, AllocError>
    requires { let c = constant.now in c.units ≡ method_width (method_of c.method_type) false }
    ensures { let c = constant_view constant.now in IfOk result (λ d. effect_view d ≡ constructor_call c c.class) }
{
    let RunType::Class(class) = constant.class else {
        return Ok(Effect::Stuck);
    };
    if constant.interface || constant.units >= 255 {
        return Ok(Effect::Stuck);
    }
    let demands = arguments_on(alloc, &constant.method_type.params, None)?;
    Ok(Effect::Initializes { class, demands })
}

// A call of another method of the class or of one above it.
fn special_call<'a>(
    alloc: Global,
    method: &Method<'_, 'a>,
    constant: &MethodConstant<'a>,
) -> Result<Effect<'a>, AllocError>
    requires { let c = constant.now in c.units ≡ method_width (method_of c.method_type) false }
    ensures { let m = method_view method.now in
        IfOk result (λ d. effect_view d ≡ special_call m.major_version m.class (constant_view constant.now)) }
{
    if !is_class(constant.class)
        || constant.units >= 255
        || !may_name(method.declared.class.major_version, constant.interface)
    {
        return Ok(Effect::Stuck);
    }
    let me = RunType::Class(method.class_name());
    Ok(Effect::CallsSpecial {
        class: constant.class,
        operation: call_on(alloc, me, constant)?,
    })
}

/// `invokespecial`, of an instance initialization method or another one.
pub fn invoke_special<'a>(
    alloc: Global,
    method: &Method<'_, 'a>,
    index: u16,
) -> Result<Effect<'a>, AllocError>
    ensures { let m = method_view method.now in
        IfOk result (λ d. effect_view d ≡ invoke_special m.major_version m.class (method_at m.constant_pool index)) }
{
    let Some(constant) = method_at(alloc, method.pool(), index)? else {
        return Ok(Effect::Stuck);
    };
    if is_init_name(&constant) {
        constructor_call(alloc, &constant)
    } else {
        special_call(alloc, method, &constant)
    }
}

// Whether the name begins with '<', as `<init>` and `<clinit>`.
fn is_special_name(site: &CallSite<'_>) -> bool
    ensures { result ≡ is_special_name (site_view site.now) }
{
    match site.name {
        [first, ..] => *first == b'<',
        [] => false,
    }
}

/// `invokedynamic`
pub fn invoke_dynamic<'a>(
    alloc: Global,
    method: &Method<'_, 'a>,
    index: u16,
) -> Result<Effect<'a>, AllocError>
    ensures { let m = method_view method.now in
        IfOk result (λ d. effect_view d ≡ invoke_dynamic m (call_site_at m.constant_pool index)) }
{
    let Some(site) = call_site_at(alloc, method.pool(), index)? else {
        return Ok(Effect::Stuck);
    };
    if method.declared.dynamic && !is_special_name(&site) {
        call_of(alloc, &site.method_type)
    } else {
        Ok(Effect::Stuck)
    }
}
