//! Instructions that call methods.
ghost use Rattle.std.specs.Prelude.{◌≡◌, ◌&&◌, ℕ, List, Option, true, not, [], option_map, IfSome};
ghost use Rattle.names.specs.Descriptors.{MethodDescriptor};
ghost use Rattle.names.specs.ReferenceTypes.{ReferenceType, is_class_type};
ghost use Rattle.pool.specs.ConstantMeanings.{MethodConstant, constant_at, method_at, call_site_at};
ghost use Rattle.frames.specs.Slots.{to_reference};
ghost use Rattle.type_numbers.specs.Numbers.{Numbering, IsGiven, IsNumber, IsNumberOf};
ghost use Rattle.type_numbers.specs.Constants.{IsTable, arguments_of};
ghost use Rattle.type_numbers.specs.MethodNumbers.{AreTypes};
ghost use Rattle.rules.specs.TypingRules.{arguments_on, pops, result_types};
ghost use Rattle.rules.specs.Constants.{dynamic_call, has_room_for_receiver, invoke_dynamic, invoke_interface, invoke_static, invoke_virtual, is_bootstrapped, is_init_name, may_invoke_interface, may_name};
ghost use Rattle.numbered_rules.specs.private.Calls.{receivers};
ghost use Rattle.numbered_rules.specs.private.Named.{IsMethod};
ghost use Rattle.rules.specs.After.{after};
ghost use Rattle.rules.specs.Rules.{conditions};
ghost use Rattle.rules.specs.Bodies.{method_view};
ghost use Rattle.rules.specs.Outcomes.{Done};
ghost use Rattle.numbered_rules.specs.RunningFrame.{held, IsRunning};

use crate::arguments::take_arguments;
use crate::class_operands::dimensions;
use crate::constant_lookups::{NamedMethod, method_at, site_at};
use crate::pops_and_pushes::push_result_if_any;
use classfile::CodeMethod;
use hierarchy::{Answer, Classes};
use method_frames::MethodFrames;
use rules::Reason;
use type_numbers::{ConstantTable, MethodNumbers};

/// A call of a method of these types, with its arguments on a receiver, if it has one. Its refusals are 61 and 62,
/// those of [`judge_frame_after`](crate::pops_and_pushes::judge_frame_after), and 1 where memory runs out.
fn calls<'n, C: Classes>(
    method: &CodeMethod<'_, '_>,
    called: MethodNumbers,
    receiver: Option<u32>,
    table: &ConstantTable,
    frames: &mut MethodFrames<'_, '_, 'n, C>,
) -> Result<(), Reason<'n>>
    requires types { (t : MethodDescriptor) × AreTypes frames.old.types (arguments_of table.now) called t }
    requires receiver { IfSome receiver (IsGiven frames.old.types) }
    ensures done { (at : ℕ) (t : MethodDescriptor) (r : Option ReferenceType)
        → AreTypes frames.old.types (arguments_of table.now) called t
        → IsNumberOf frames.old.types receiver (option_map to_reference r)
        → let m = method_view method.now in let f = held frames.old in
        let p = pops (arguments_on t.params (receivers r)) (result_types t.result) [] true in
        Done (conditions frames.old.types.classes m at p f) (after m at p f) (held frames.new) result }
    ensures rest { IsRunning frames.old frames.new }
{
    match take_arguments(table.arguments(called), receiver, frames) {
        None => Err(Reason::MissingOperand),
        Some(answer) => match answer {
            Answer::No => Err(Reason::WrongOperand),
            _ => push_result_if_any(method, answer, called.result, frames),
        },
    }
}

/// Whether `invokestatic` and `invokespecial` may name a method, which is one of an interface or not: from version 52
/// on one of an interface too (JVMS 4.9.1).
pub fn may_name(major: u16, interface: bool) -> bool
    ensures { result ≡ may_name major interface }
{
    !interface || major > 51
}

/// Whether the class that is asked for the method is not an array.
pub fn is_of_class(called: NamedMethod) -> bool
    ensures { (s : Numbering) (row : List ℕ) (c : MethodConstant) → IsMethod s row called c
        → result ≡ is_class_type c.class }
{
    dimensions(called.class) == 0
}

/// Whether the arguments and a receiver take at most 255 units (JVMS 4.3.3).
pub fn has_room_for_receiver(called: NamedMethod) -> bool
    ensures { (s : Numbering) (row : List ℕ) (c : MethodConstant) → IsMethod s row called c
        → result ≡ has_room_for_receiver c }
{
    called.types.width < 255
}

/// Whether `invokestatic` may name the method.
fn may_invoke_static(major: u16, called: NamedMethod) -> bool
    ensures { (s : Numbering) (row : List ℕ) (c : MethodConstant) → IsMethod s row called c
        → result ≡ (is_class_type c.class && (not (is_init_name c) && may_name major c.interface)) }
{
    is_of_class(called) && !called.init && may_name(major, called.interface)
}

/// Whether `invokevirtual` may name the method.
fn may_invoke_virtual(called: NamedMethod) -> bool
    ensures { (s : Numbering) (row : List ℕ) (c : MethodConstant) → IsMethod s row called c
        → result ≡ (not c.interface && (not (is_init_name c) && has_room_for_receiver c)) }
{
    !called.interface && !called.init && has_room_for_receiver(called)
}

/// Whether `invokeinterface` may name the method, with a count that is to be the width of the arguments and the
/// receiver.
fn may_invoke_interface(count: u8, called: NamedMethod) -> bool
    ensures { (s : Numbering) (row : List ℕ) (c : MethodConstant) → IsMethod s row called c
        → result ≡ may_invoke_interface count c }
{
    is_of_class(called)
        && called.interface
        && !called.init
        && has_room_for_receiver(called)
        && u16::from(count) == u16::from(called.types.width) + 1
}

/// `invokestatic`. Its refusals are 66, and those of other calls: 61, 62, 65, 77, and 1 where memory runs out.
pub fn invoke_static<'n, C: Classes>(
    method: &CodeMethod<'_, '_>,
    index: u16,
    table: &ConstantTable,
    frames: &mut MethodFrames<'_, '_, 'n, C>,
) -> Result<(), Reason<'n>>
    requires { IsTable frames.old.types (method_view method.now).constant_pool table.now }
    ensures done { (at : ℕ) → let m = method_view method.now in let f = held frames.old in
        let p = invoke_static m.major_version (method_at m.constant_pool index) in
        Done (conditions frames.old.types.classes m at p f) (after m at p f) (held frames.new) result }
    ensures rest { IsRunning frames.old frames.new }
{
    let Some(called) = method_at(table, index) else {
        return Err(Reason::WrongConstant);
    };
    if may_invoke_static(method.class.major_version, called) {
        calls(method, called.types, None, table, frames)
    } else {
        Err(Reason::WrongConstant)
    }
}

/// `invokevirtual`. Its refusals are those of [`invoke_static`].
pub fn invoke_virtual<'n, C: Classes>(
    method: &CodeMethod<'_, '_>,
    index: u16,
    table: &ConstantTable,
    frames: &mut MethodFrames<'_, '_, 'n, C>,
) -> Result<(), Reason<'n>>
    requires { IsTable frames.old.types (method_view method.now).constant_pool table.now }
    ensures done { (at : ℕ) → let m = method_view method.now in let f = held frames.old in
        let p = invoke_virtual (method_at m.constant_pool index) in
        Done (conditions frames.old.types.classes m at p f) (after m at p f) (held frames.new) result }
    ensures rest { IsRunning frames.old frames.new }
{
    let Some(called) = method_at(table, index) else {
        return Err(Reason::WrongConstant);
    };
    if may_invoke_virtual(called) {
        calls(method, called.types, Some(called.class), table, frames)
    } else {
        Err(Reason::WrongConstant)
    }
}

/// `invokeinterface`. Its refusals are those of [`invoke_static`].
pub fn invoke_interface<'n, C: Classes>(
    method: &CodeMethod<'_, '_>,
    index: u16,
    count: u8,
    table: &ConstantTable,
    frames: &mut MethodFrames<'_, '_, 'n, C>,
) -> Result<(), Reason<'n>>
    requires { IsTable frames.old.types (method_view method.now).constant_pool table.now }
    ensures done { (at : ℕ) → let m = method_view method.now in let f = held frames.old in
        let p = invoke_interface count (method_at m.constant_pool index) in
        Done (conditions frames.old.types.classes m at p f) (after m at p f) (held frames.new) result }
    ensures rest { IsRunning frames.old frames.new }
{
    let Some(called) = method_at(table, index) else {
        return Err(Reason::WrongConstant);
    };
    if may_invoke_interface(count, called) {
        calls(method, called.types, Some(called.class), table, frames)
    } else {
        Err(Reason::WrongConstant)
    }
}

/// A call of the call site that is named, if the class has a bootstrap method for it that may be used.
fn dynamic_call<'n, C: Classes>(
    method: &CodeMethod<'_, '_>,
    index: u16,
    bootstrapped: bool,
    table: &ConstantTable,
    frames: &mut MethodFrames<'_, '_, 'n, C>,
) -> Result<(), Reason<'n>>
    requires { IsTable frames.old.types (method_view method.now).constant_pool table.now }
    ensures done { (at : ℕ) → let m = method_view method.now in let f = held frames.old in
        let p = dynamic_call bootstrapped (call_site_at m.constant_pool index) in
        Done (conditions frames.old.types.classes m at p f) (after m at p f) (held frames.new) result }
    ensures rest { IsRunning frames.old frames.new }
{
    let Some(site) = site_at(table, index) else {
        return Err(Reason::WrongConstant);
    };
    if site.special {
        return Err(Reason::WrongConstant);
    }
    if bootstrapped {
        calls(method, site.types, None, table, frames)
    } else {
        Err(Reason::BadBootstrap)
    }
}

/// `invokedynamic`, where such calls are judged; `bootstrapped` says that the class has a bootstrap method for the call
/// site that may be used. Its refusals are 60, 66 and 90, and those of [`invoke_static`].
pub fn invoke_dynamic<'n, C: Classes>(
    method: &CodeMethod<'_, '_>,
    index: u16,
    bootstrapped: bool,
    table: &ConstantTable,
    frames: &mut MethodFrames<'_, '_, 'n, C>,
) -> Result<(), Reason<'n>>
    requires { IsTable frames.old.types (method_view method.now).constant_pool table.now }
    ensures done { (at : ℕ) → let m = method_view method.now in let f = held frames.old in
        let p = invoke_dynamic m bootstrapped (call_site_at m.constant_pool index) in
        Done (conditions frames.old.types.classes m at p f) (after m at p f) (held frames.new) result }
    ensures rest { IsRunning frames.old frames.new }
{
    if method.dynamic {
        dynamic_call(method, index, bootstrapped, table, frames)
    } else {
        Err(Reason::NotSupported)
    }
}
