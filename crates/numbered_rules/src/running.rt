//! The rule of an instruction, on the running frame.
ghost use Rattle.std.specs.Prelude.{◌≡◌, ℕ, true, length};
ghost use Rattle.insn.specs.Views.{act_view};
ghost use Rattle.rules.specs.Table.{typing_rule};
ghost use Rattle.rules.specs.After.{after};
ghost use Rattle.rules.specs.Rules.{conditions};
ghost use Rattle.rules.specs.Bodies.{method_view};
ghost use Rattle.rules.specs.Naming.{names_bootstrapped, sets_own};
ghost use Rattle.rules.specs.Ways.{is_plain};
ghost use Rattle.rules.specs.Outcomes.{Done};
ghost use Rattle.numbered_rules.specs.RunningFrame.{held, IsRunning};
ghost use Rattle.numbered_rules.specs.RuleNumbers.{AreRuleNumbers};

use crate::arrays::{
    load_element, load_reference_element, new_array, store_element, store_reference_element,
};
use crate::body::Body;
use crate::calls::{invoke_dynamic, invoke_interface, invoke_static, invoke_virtual};
use crate::class_operands::{check_cast, instance_of, new_multi_array, new_reference_array};
use crate::constant_loads::loads_constant;
use crate::fields::{get_field, get_static, put_field, put_static};
use crate::invoke_special::invoke_special;
use crate::local_rules::increments;
use crate::object_creation::new_object;
use crate::returning::{return_nothing, return_number, return_reference};
use crate::rule_numbers::{NamedFacts, RuleNumbers};
use crate::simple_rules::{
    array_length, computes, gives_null, gives_number, loads_number, loads_reference, stores_number,
    stores_reference, takes_int, takes_ints, takes_nothing, takes_reference, takes_references,
    throws,
};
use crate::stacks::rearranges;
use classfile::CodeMethod;
use hierarchy::Classes;
use insn::Act;
use method_frames::MethodFrames;
use rules::Reason;

/// Runs the instruction at an offset on the running frame, in place, by its rule (JVMS 4.10.1.9). The frame has
/// max_locals locals, and the facts are those of what the instruction names.
///
/// The instruction is refused with the least number among the conditions of its rule that hold (60 to 66, 74, 76, 77,
/// 90), or with 1 where memory ran out; then nothing is said of the frame but how many locals it has.
pub fn run<'n, C: Classes>(
    body: &Body<'_, '_>,
    at: u16,
    act: &Act<'_>,
    facts: NamedFacts,
    frames: &mut MethodFrames<'_, '_, 'n, C>,
) -> Result<(), Reason<'n>>
    requires locals { length frames.old.running.locals ≡ body.now.method.now.code.now.max_locals }
    requires numbers { AreRuleNumbers frames.old.types (method_view body.now.method.now) body.now.numbers }
    requires own { facts.own ≡ sets_own (method_view body.now.method.now) (act_view act.now) }
    requires bootstrapped { facts.bootstrapped
        ≡ names_bootstrapped (method_view body.now.method.now) (act_view act.now) }
    ensures done { let m = method_view body.now.method.now in let f = held frames.old in
        let p = typing_rule m (act_view act.now) in
        Done (conditions frames.old.types.classes m at p f) (after m at p f) (held frames.new) result }
    ensures rest { IsRunning frames.old frames.new }
{
    let method = body.method;
    let numbers = &body.numbers;
    let table = numbers.table;
    match *act {
        Act::Goto { .. } => takes_nothing(method, frames),
        Act::IfInt { .. } | Act::Switch { .. } => takes_int(method, frames),
        Act::IfInts { .. } => takes_ints(method, frames),
        Act::IfReferences { .. } => takes_references(method, frames),
        Act::IfNull { .. } => takes_reference(method, frames),
        Act::Return(kind) => return_number(method, kind, frames),
        Act::ReturnReference => return_reference(method, numbers.returned, frames),
        Act::ReturnVoid => return_nothing(method, frames),
        Act::Throw => throws(method, numbers.throwable, frames),
        Act::GetStatic { index } => get_static(method, index, table, frames),
        Act::PutStatic { index } => put_static(method, index, table, frames),
        Act::GetField { index } => get_field(method, index, table, frames),
        Act::PutField { index } => put_field(method, index, facts.own, table, frames),
        Act::InvokeVirtual { index } => invoke_virtual(method, index, table, frames),
        Act::InvokeSpecial { index } => invoke_special(body, index, frames),
        Act::InvokeStatic { index } => invoke_static(method, index, table, frames),
        Act::InvokeInterface { index, count } => {
            invoke_interface(method, index, count, table, frames)
        }
        Act::InvokeDynamic { index } => {
            invoke_dynamic(method, index, facts.bootstrapped, table, frames)
        }
        Act::LoadConstant { index } => {
            loads_constant(method, false, index, facts.bootstrapped, table, frames)
        }
        Act::LoadWideConstant { index } => {
            loads_constant(method, true, index, facts.bootstrapped, table, frames)
        }
        Act::NewReferenceArray { index } => new_reference_array(method, index, table, frames),
        Act::NewMultiArray { index, dimensions } => {
            new_multi_array(method, index, dimensions, table, frames)
        }
        Act::CheckCast { index } => check_cast(method, index, numbers.object, table, frames),
        Act::InstanceOf { index } => instance_of(method, index, numbers.object, table, frames),
        Act::New { index } => new_object(method, at, index, table, frames),
        _ => run_plain(method, act, numbers, frames),
    }
}

/// Runs a plain instruction (see [`is_plain`](rules::is_plain)) as [`run`] does. It stands apart, so that what most
/// instructions take stays small.
#[inline(never)]
pub fn run_plain<'n, C: Classes>(
    method: &CodeMethod<'_, '_>,
    act: &Act<'_>,
    numbers: &RuleNumbers<'_>,
    frames: &mut MethodFrames<'_, '_, 'n, C>,
) -> Result<(), Reason<'n>>
    requires locals { length frames.old.running.locals ≡ method.now.code.now.max_locals }
    requires numbers { AreRuleNumbers frames.old.types (method_view method.now) numbers.now }
    requires plain { is_plain (act_view act.now) ≡ true }
    ensures done { (at : ℕ) → let m = method_view method.now in let f = held frames.old in
        let p = typing_rule m (act_view act.now) in
        Done (conditions frames.old.types.classes m at p f) (after m at p f) (held frames.new) result }
    ensures rest { IsRunning frames.old frames.new }
{
    match *act {
        Act::Nothing => takes_nothing(method, frames),
        Act::Constant(kind) => gives_number(method, kind, frames),
        Act::ConstantNull => gives_null(method, frames),
        Act::Load { kind, local } => loads_number(method, kind, local, frames),
        Act::LoadReference { local } => loads_reference(method, local, frames),
        Act::Store { kind, local } => stores_number(method, kind, local, frames),
        Act::StoreReference { local } => stores_reference(method, local, frames),
        Act::Increment { local } => increments(method, local, frames),
        Act::Numeric(operator) => computes(method, operator, frames),
        Act::Stack(operator) => rearranges(method, operator, frames),
        Act::LoadElement(element) => load_element(method, element, frames),
        Act::StoreElement(element) => store_element(method, element, frames),
        Act::LoadReferenceElement => load_reference_element(method, numbers.objects, frames),
        Act::StoreReferenceElement => {
            store_reference_element(method, numbers.object, numbers.objects, frames)
        }
        Act::ArrayLength => array_length(method, frames),
        Act::NewArray(element) => new_array(method, element, frames),
        Act::Monitor => takes_reference(method, frames),
        Act::Unsupported => Err(Reason::NotSupported),
        _ => unreachable!(),
    }
}
