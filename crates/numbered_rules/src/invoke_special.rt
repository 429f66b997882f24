//! `invokespecial`.
ghost use Rattle.std.specs.Prelude.{◌≡◌, ◌&&◌, ℕ, List, [], ◌∷◌};
ghost use Rattle.names.specs.ReferenceTypes.{is_class_type};
ghost use Rattle.pool.specs.ConstantMeanings.{MethodConstant, method_at};
ghost use Rattle.frames.specs.VerificationType.{class};
ghost use Rattle.type_numbers.specs.Numbers.{Numbering, IsNumber};
ghost use Rattle.type_numbers.specs.Constants.{arguments_of};
ghost use Rattle.rules.specs.TypingRules.{arguments_on, calls_special, expected_class, result_types};
ghost use Rattle.rules.specs.Constants.{has_room_for_receiver, invoke_special, may_name, special_call};
ghost use Rattle.numbered_rules.specs.private.Named.{IsMethod};
ghost use Rattle.rules.specs.After.{after};
ghost use Rattle.rules.specs.Rules.{conditions};
ghost use Rattle.rules.specs.Bodies.{method_view};
ghost use Rattle.rules.specs.Outcomes.{Done};
ghost use Rattle.numbered_rules.specs.RunningFrame.{held, IsRunning};
ghost use Rattle.numbered_rules.specs.RuleNumbers.{AreRuleNumbers};

use crate::arguments::take_arguments;
use crate::body::Body;
use crate::calls::{has_room_for_receiver, is_of_class, may_name};
use crate::constant_lookups::{NamedMethod, method_at};
use crate::constructor_calls::invoke_constructor;
use crate::pops_and_pushes::push_result_if_any;
use classfile::CodeMethod;
use frames::both;
use hierarchy::{Answer, Classes};
use method_frames::MethodFrames;
use rules::Reason;
use type_numbers::ConstantTable;

/// A method that is not a constructor, of a class that the current class is assignable to, called on an object of the
/// current class, whose number is `me`.
fn calls_special<'n, C: Classes>(
    method: &CodeMethod<'_, '_>,
    called: NamedMethod,
    me: u32,
    table: &ConstantTable,
    frames: &mut MethodFrames<'_, '_, 'n, C>,
) -> Result<(), Reason<'n>>
    requires called { (c : MethodConstant) × IsMethod frames.old.types (arguments_of table.now) called c }
    requires me { IsNumber frames.old.types me (class (method_view method.now).class) }
    ensures done { (at : ℕ) (c : MethodConstant) → IsMethod frames.old.types (arguments_of table.now) called c
        → let m = method_view method.now in let f = held frames.old in
        let p = calls_special c.class (arguments_on c.type.params (expected_class m.class ∷ []))
        (result_types c.type.result) in
        Done (conditions frames.old.types.classes m at p f) (after m at p f) (held frames.new) result }
    ensures rest { IsRunning frames.old frames.new }
{
    let own = frames.types().assignable(me, called.class);
    if let Answer::No = own {
        return Err(Reason::WrongConstant);
    }
    let Some(answer) = take_arguments(table.arguments(called.types), Some(me), frames) else {
        return Err(Reason::MissingOperand);
    };
    match answer {
        Answer::No => Err(Reason::WrongOperand),
        _ => push_result_if_any(method, both(answer, own), called.types.result, frames),
    }
}

/// Whether `invokespecial` may name a method that is not a constructor.
fn may_call_special(major: u16, called: NamedMethod) -> bool
    ensures { (s : Numbering) (row : List ℕ) (c : MethodConstant) → IsMethod s row called c
        → result ≡ (is_class_type c.class && (has_room_for_receiver c && may_name major c.interface)) }
{
    is_of_class(called) && has_room_for_receiver(called) && may_name(major, called.interface)
}

/// `invokespecial` of a method that is not a constructor.
fn call_special<'n, C: Classes>(
    method: &CodeMethod<'_, '_>,
    called: NamedMethod,
    me: u32,
    table: &ConstantTable,
    frames: &mut MethodFrames<'_, '_, 'n, C>,
) -> Result<(), Reason<'n>>
    requires called { (c : MethodConstant) × IsMethod frames.old.types (arguments_of table.now) called c }
    requires me { IsNumber frames.old.types me (class (method_view method.now).class) }
    ensures done { (at : ℕ) (c : MethodConstant) → IsMethod frames.old.types (arguments_of table.now) called c
        → let m = method_view method.now in let f = held frames.old in
        let p = special_call m.major_version m.class c in
        Done (conditions frames.old.types.classes m at p f) (after m at p f) (held frames.new) result }
    ensures rest { IsRunning frames.old frames.new }
{
    if may_call_special(method.class.major_version, called) {
        calls_special(method, called, me, table, frames)
    } else {
        Err(Reason::WrongConstant)
    }
}

/// `invokespecial`. Its refusals are 66 where it may not name the method, or the current class is not assignable to
/// that of a method that is not a constructor; 61 and 62 where the arguments or the object beneath them are not those
/// of its rule; 65, 77, and 1 where memory runs out.
pub fn invoke_special<'n, C: Classes>(
    body: &Body<'_, '_>,
    index: u16,
    frames: &mut MethodFrames<'_, '_, 'n, C>,
) -> Result<(), Reason<'n>>
    requires { AreRuleNumbers frames.old.types (method_view body.now.method.now) body.now.numbers }
    ensures done { (at : ℕ) → let m = method_view body.now.method.now in let f = held frames.old in
        let p = invoke_special m.major_version m.class (method_at m.constant_pool index) in
        Done (conditions frames.old.types.classes m at p f) (after m at p f) (held frames.new) result }
    ensures rest { IsRunning frames.old frames.new }
{
    let Some(called) = method_at(body.numbers.table, index) else {
        return Err(Reason::WrongConstant);
    };
    if called.init {
        invoke_constructor(body, called, frames)
    } else {
        let numbers = &body.numbers;
        call_special(body.method, called, numbers.class, numbers.table, frames)
    }
}
