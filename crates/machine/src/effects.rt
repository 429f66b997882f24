//! The effects of instructions (JVMS 6.5).
ghost use Rattle.std.specs.Prelude.{◌≡◌, [], ◌∷◌, None, Some, true, IfOk, option_map};
ghost use Rattle.names.specs.Descriptors.{primitive, class};
ghost use Rattle.names.specs.ReferenceTypes.{class_type};
ghost use Rattle.names.specs.StandardNames.{object_name};
ghost use Rattle.insn.specs.Kinds.{computed_as};
ghost use Rattle.insn.specs.declared.kinds.Kind.TheVariants as kinds;
ghost use Rattle.names.specs.Types.{type_of};
ghost use Rattle.pool.specs.ConstantMeanings.{constant_at, dynamic_type_at};
ghost use Rattle.insn.specs.Branching.{branches_view};
ghost use Rattle.insn.specs.Views.{act_view};
ghost use Rattle.machine.specs.Effects.{of_kind, of_type, some_array_for, gives_answer, objects, operates, reads, writes, no_reply, effect, return_number, return_reference, return_nothing, demands_of_kinds, load_dynamic, load_constant, load_wide_constant};
ghost use Rattle.machine.specs.private.EffectViews.{demand_view, demand_units, demands_view, effect_view};
ghost use Rattle.machine.specs.Bodies.{method_view};

use crate::body::Method;
use crate::calls::{
    invoke_dynamic, invoke_interface, invoke_special, invoke_static, invoke_virtual,
};
use crate::constants::dynamic_type_at;
use crate::creations::{
    check_cast, instance_of, new_array, new_multi_array, new_object, new_reference_array,
};
use crate::effect::{Demand, Effect, Operation, Reply, gives, operates};
use crate::fields::{get_field, get_static, put_field, put_static};
use crate::objects::{OBJECTS, RunType};
use insn::{Act, Branches, Kind, computed_as};
use names::{Base, FieldType, OBJECT, Primitive};
use pool::Constant;
use std::alloc::{AllocError, Global};

const INT: Demand<'static> = Demand::Number(Kind::Int);

const STRING: &[u8] = b"java/lang/String";

const CLASS: &[u8] = b"java/lang/Class";

const METHOD_TYPE: &[u8] = b"java/lang/invoke/MethodType";

const METHOD_HANDLE: &[u8] = b"java/lang/invoke/MethodHandle";

// It branches, or it may go on as well.
fn branches<'a>(demands: Vec<Demand<'a>>, branches: Branches<'a>, falls: bool) -> Effect<'a>
    ensures { effect_view result ≡ operates (demands_view demands.entry.items) None no_reply
        (branches_view branches.entry) falls }
{
    Effect::Operates {
        operation: Operation {
            demands,
            live: None,
            reply: Reply::Nothing,
        },
        branches,
        falls,
    }
}

// It branches by this offset, or goes on.
fn branches_if<'a>(demands: Vec<Demand<'a>>, offset: i32) -> Effect<'a>
    ensures { effect_view result ≡ operates (demands_view demands.entry.items) None no_reply (offset ∷ []) true }
{
    branches(demands, Branches::One(offset), true)
}

// Numbers of these kinds.
fn numbers<'a>(alloc: Global, kinds: &[Kind]) -> Result<Vec<Demand<'a>>, AllocError>
    ensures { IfOk result (λ v. demands_view v.items ≡ demands_of_kinds kinds.now) }
{
    let mut demands = Vec::new(alloc);
    for kind in kinds {
        demands.push(Demand::Number(*kind))?;
    }
    Ok(demands)
}

// ---- constants

// An object of the class.
fn object_of<'a>(name: &'a [u8]) -> FieldType<'a>
    ensures { type_of result ≡ class name.now }
{
    FieldType {
        dims: 0,
        base: Base::Class(name),
    }
}

fn number_of<'a>(number: Primitive) -> FieldType<'a>
    ensures { type_of result ≡ primitive number }
{
    FieldType {
        dims: 0,
        base: Base::Primitive(number),
    }
}

// A load of the Dynamic constant at this index, of a type of so many units.
fn load_dynamic<'a>(alloc: Global, method: &Method<'_, 'a>, units: u8, index: u16) -> Effect<'a>
    ensures { let m = method_view method.now in
        effect_view result ≡ load_dynamic m.dynamic units (dynamic_type_at m.constant_pool index) }
{
    let Some(computed) = dynamic_type_at(method.pool(), index) else {
        return Effect::Stuck;
    };
    if method.declared.dynamic && computed.width() == units {
        gives(alloc, Reply::Answer(computed))
    } else {
        Effect::Stuck
    }
}

// `ldc` and `ldc_w`
fn load_constant<'a>(alloc: Global, method: &Method<'_, 'a>, index: u16) -> Effect<'a>
    ensures { let m = method_view method.now in
        effect_view result ≡ load_constant m (dynamic_type_at m.constant_pool index)
        (constant_at m.constant_pool index) }
{
    let Ok(constant) = method.pool().get(index) else {
        return Effect::Stuck;
    };
    let loaded = match constant {
        Constant::Integer { .. } => number_of(Primitive::Int),
        Constant::Float { .. } => number_of(Primitive::Float),
        Constant::String { .. } => object_of(STRING),
        Constant::Class { .. } => object_of(CLASS),
        Constant::MethodType { .. } => object_of(METHOD_TYPE),
        Constant::MethodHandle { .. } => object_of(METHOD_HANDLE),
        Constant::Dynamic { .. } => return load_dynamic(alloc, method, 1, index),
        _ => return Effect::Stuck,
    };
    gives(alloc, Reply::Answer(loaded))
}

// `ldc2_w`
fn load_wide_constant<'a>(alloc: Global, method: &Method<'_, 'a>, index: u16) -> Effect<'a>
    ensures { let m = method_view method.now in
        effect_view result ≡ load_wide_constant m (dynamic_type_at m.constant_pool index)
        (constant_at m.constant_pool index) }
{
    let Ok(constant) = method.pool().get(index) else {
        return Effect::Stuck;
    };
    let kind = match constant {
        Constant::Long { .. } => Kind::Long,
        Constant::Double { .. } => Kind::Double,
        Constant::Dynamic { .. } => return load_dynamic(alloc, method, 2, index),
        _ => return Effect::Stuck,
    };
    gives(alloc, Reply::Number(kind))
}

// ---- returns

// A return of a number from a method with this result.
fn leave<'a>(number: Primitive, kind: Kind) -> Effect<'a>
    ensures { effect_view result ≡ return_number (Some (primitive number)) kind }
{
    if computed_as(number) == kind {
        Effect::Leaves(Demand::Number(kind))
    } else {
        Effect::Stuck
    }
}

fn return_number<'a>(result_type: Option<FieldType<'_>>, kind: Kind) -> Effect<'a>
    ensures { effect_view result ≡ return_number (option_map type_of result_type.entry) kind }
{
    let Some(t) = result_type else {
        return Effect::Stuck;
    };
    if t.dims != 0 {
        return Effect::Stuck;
    }
    let Base::Primitive(primitive) = t.base else {
        return Effect::Stuck;
    };
    leave(primitive, kind)
}

fn return_reference<'a>(result_type: Option<FieldType<'a>>) -> Effect<'a>
    ensures { effect_view result ≡ return_reference (option_map type_of result_type.entry) }
{
    let Some(t) = result_type else {
        return Effect::Stuck;
    };
    match t.dims {
        0 => match t.base {
            Base::Primitive(_) => Effect::Stuck,
            Base::Class(name) => Effect::Leaves(Demand::Type(RunType::Class(name))),
        },
        dims => Effect::Leaves(Demand::Type(RunType::Array { dims, base: t.base })),
    }
}

fn return_nothing<'a>(result_type: Option<FieldType<'_>>) -> Effect<'a>
    ensures { effect_view result ≡ return_nothing (option_map type_of result_type.entry) }
{
    match result_type {
        None => Effect::Ends,
        Some(_) => Effect::Stuck,
    }
}

// ---- elements of arrays

// `iaload` to `saload`, but for `aaload`
fn load_element<'a>(alloc: Global, element: Primitive) -> Result<Effect<'a>, AllocError>
    ensures { IfOk result (λ d. effect_view d
        ≡ operates (of_kind kinds.Int ∷ some_array_for element ∷ []) (Some 1)
        (gives_answer (primitive element)) [] true) }
{
    let demands = vec![in alloc; INT, Demand::ArrayFor(element)]?;
    Ok(operates(demands, Some(1), Reply::Answer(number_of(element))))
}

// `iastore` to `sastore`, but for `aastore`
fn store_element<'a>(alloc: Global, element: Primitive) -> Result<Effect<'a>, AllocError>
    ensures { IfOk result (λ d. effect_view d
        ≡ operates (of_kind (computed_as element) ∷ of_kind kinds.Int ∷ some_array_for element ∷ [])
        (Some 2) no_reply [] true) }
{
    let value = Demand::Number(computed_as(element));
    let demands = vec![in alloc; value, INT, Demand::ArrayFor(element)]?;
    Ok(operates(demands, Some(2), Reply::Nothing))
}

// `aastore`
fn store_reference_element<'a>(alloc: Global) -> Result<Effect<'a>, AllocError>
    ensures { IfOk result (λ d. effect_view d
        ≡ operates (of_type (class_type object_name) ∷ of_kind kinds.Int ∷ of_type objects ∷ [])
        (Some 2) no_reply [] true) }
{
    let value = Demand::Type(RunType::Class(OBJECT));
    let demands = vec![in alloc; value, INT, Demand::Type(OBJECTS)]?;
    Ok(operates(demands, Some(2), Reply::Nothing))
}

// ---- local variables

fn reads<'a>(demand: Demand<'a>, local: u16) -> Effect<'a>
    ensures { effect_view result ≡ reads (demand_view demand.entry) local }
{
    Effect::Reads { demand, local }
}

fn writes<'a>(demand: Demand<'a>, local: u16) -> Effect<'a>
    ensures { effect_view result ≡ writes (demand_view demand.entry) local (demand_units demand.entry) }
{
    Effect::Writes { demand, local }
}

// ---- the table

/// The effect of an instruction of the method.
pub fn effect_of<'a>(
    alloc: Global,
    act: Act<'a>,
    method: &Method<'_, 'a>,
) -> Result<Effect<'a>, AllocError>
    ensures { IfOk result (λ d. effect_view d ≡ effect (method_view method.now) (act_view act.entry)) }
{
    let pool = method.pool();
    match act {
        Act::Nothing => Ok(gives(alloc, Reply::Nothing)),
        Act::Constant(kind) => Ok(gives(alloc, Reply::Number(kind))),
        Act::ConstantNull => Ok(gives(alloc, Reply::Null)),
        Act::LoadConstant { index } => Ok(load_constant(alloc, method, index)),
        Act::LoadWideConstant { index } => Ok(load_wide_constant(alloc, method, index)),
        Act::Load { kind, local } => Ok(reads(Demand::Number(kind), local)),
        Act::LoadReference { local } => Ok(reads(Demand::Reference, local)),
        Act::Store { kind, local } => Ok(writes(Demand::Number(kind), local)),
        Act::StoreReference { local } => Ok(writes(Demand::Reference, local)),
        Act::Increment { local } => Ok(Effect::Increments { local }),
        Act::Numeric(operator) => {
            let (taken, given) = operator.row();
            Ok(operates(numbers(alloc, taken)?, None, Reply::Number(given)))
        }
        Act::Stack(operator) => Ok(Effect::Moves(operator)),
        Act::IfInt { offset } => Ok(branches_if(vec![in alloc; INT]?, offset)),
        Act::IfInts { offset } => Ok(branches_if(vec![in alloc; INT, INT]?, offset)),
        Act::IfReferences { offset } => {
            Ok(branches_if(
                vec![in alloc; Demand::Reference, Demand::Reference]?,
                offset,
            ))
        }
        Act::IfNull { offset } => Ok(branches_if(vec![in alloc; Demand::Reference]?, offset)),
        Act::Goto { offset } => Ok(branches(Vec::new(alloc), Branches::One(offset), false)),
        Act::Switch { default, targets } => Ok(branches(
            vec![in alloc; INT]?,
            Branches::Switch { default, targets },
            false,
        )),
        Act::Return(kind) => Ok(return_number(method.result_type(), kind)),
        Act::ReturnReference => Ok(return_reference(method.result_type())),
        Act::ReturnVoid => Ok(return_nothing(method.result_type())),
        Act::GetStatic { index } => Ok(get_static(alloc, pool, index)),
        Act::PutStatic { index } => put_static(alloc, pool, index),
        Act::GetField { index } => get_field(alloc, pool, index),
        Act::PutField { index } => put_field(alloc, method, index),
        Act::InvokeVirtual { index } => invoke_virtual(alloc, pool, index),
        Act::InvokeSpecial { index } => invoke_special(alloc, method, index),
        Act::InvokeStatic { index } => invoke_static(alloc, method, index),
        Act::InvokeInterface { index, count } => invoke_interface(alloc, pool, index, count),
        Act::InvokeDynamic { index } => invoke_dynamic(alloc, method, index),
        Act::New { index } => Ok(new_object(pool, index)),
        Act::LoadElement(element) => load_element(alloc, element),
        Act::StoreElement(element) => store_element(alloc, element),
        Act::LoadReferenceElement => Ok(Effect::TakesElement),
        Act::StoreReferenceElement => store_reference_element(alloc),
        Act::ArrayLength => Ok(operates(
            vec![in alloc; Demand::Array]?,
            Some(0),
            Reply::Number(Kind::Int),
        )),
        Act::NewArray(element) => new_array(alloc, element),
        Act::NewReferenceArray { index } => new_reference_array(alloc, pool, index),
        Act::NewMultiArray { index, dimensions } => new_multi_array(alloc, pool, index, dimensions),
        Act::CheckCast { index } => Ok(check_cast(pool, index)),
        Act::InstanceOf { index } => instance_of(alloc, pool, index),
        Act::Throw => Ok(Effect::Throws),
        Act::Monitor => Ok(operates(vec![in alloc; Demand::Reference]?, Some(0), Reply::Nothing)),
        Act::Unsupported => Ok(Effect::Stuck),
    }
}
