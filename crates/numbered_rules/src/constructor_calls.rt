//! Calls of constructors by `invokespecial`.
ghost use Rattle.std.specs.Prelude.{◌≡◌, ◌&&◌, ◌||◌, ℕ, List, Option, not, true, bytes_eq, [], option_map};
ghost use Rattle.classfile.specs.Methods.{Method, is_name};
ghost use Rattle.insn.specs.Meanings.{Act};
ghost use Rattle.names.specs.ReferenceTypes.{class_type, is_class_type};
ghost use Rattle.pool.specs.ConstantMeanings.{MethodConstant};
ghost use Rattle.frames.specs.VerificationType.{VerificationType, class as class_of};
ghost use Rattle.type_numbers.specs.Numbers.{Numbering, IsNumber, IsNumberOf};
ghost use Rattle.type_numbers.specs.Constants.{IsTable, arguments_of};
ghost use Rattle.rules.specs.TypingRules.{arguments_on, constructs};
ghost use Rattle.rules.specs.Constants.{constructor_call, has_room_for_receiver};
ghost use Rattle.rules.specs.Table.{class_made_at};
ghost use Rattle.rules.specs.After.{after, class_after};
ghost use Rattle.rules.specs.Rules.{conditions, may_construct};
ghost use Rattle.rules.specs.Bodies.{method_view};
ghost use Rattle.rules.specs.Outcomes.{Done};
ghost use Rattle.numbered_rules.specs.private.Named.{IsMethod};
ghost use Rattle.numbered_rules.specs.RunningFrame.{held, IsRunning};
ghost use Rattle.numbered_rules.specs.RuleNumbers.{AreRuleNumbers};

use crate::arguments::take_arguments;
use crate::body::Body;
use crate::calls::{has_room_for_receiver, is_of_class};
use crate::constant_lookups::{NamedMethod, class_named};
use crate::pops_and_pushes::push_result_if_any;
use crate::rule_numbers::RuleNumbers;
use frames::Starts;
use hierarchy::{Answer, Classes};
use method_frames::{MethodFrames, OWN_OBJECT, is_uninitialized};
use rules::Reason;

/// The number of the class that the `new` at an offset makes an object of, if there is one.
fn class_made_at(at: u16, body: &Body<'_, '_>) -> Option<u32>
    ensures { let m = method_view body.now.method.now in
        (s : Numbering) → IsTable s m.constant_pool body.now.numbers.table.now
        → IsNumberOf s result (option_map class_of (class_made_at m at)) }
{
    match body.starts.class_index(at) {
        None => None,
        Some(index) => class_named(body.numbers.table, index),
    }
}

/// Whether there is a class, and it has this number.
fn is_class(known: Option<u32>, class: u32) -> bool
    ensures { (s : Numbering) (o : Option (List ℕ)) (name : List ℕ) → IsNumberOf s known (option_map class_of o)
        → IsNumber s class (class_of name) → result ≡ is_name o name }
{
    match known {
        None => false,
        Some(other) => other == class,
    }
}

/// Whether a class is the current one or its direct superclass.
fn is_class_or_superclass(class: u32, numbers: &RuleNumbers<'_>) -> bool
    ensures { (s : Numbering) (m : Method Act) (name : List ℕ) → AreRuleNumbers s m numbers.now
        → IsNumber s class (class_of name) → result ≡ (bytes_eq m.class name || is_name m.superclass name) }
{
    is_class(Some(numbers.class), class) || is_class(numbers.superclass, class)
}

/// Whether a constructor of a class may be called on an object: on the own object, one of the current class or of its
/// direct superclass; on another object, one of the class of which `new` made it.
fn may_construct(class: u32, object: u32, body: &Body<'_, '_>) -> bool
    ensures { let m = method_view body.now.method.now in (s : Numbering) (name : List ℕ) (t : VerificationType)
        → AreRuleNumbers s m body.now.numbers → IsNumber s class (class_of name) → IsNumber s object t
        → result ≡ may_construct m name t }
{
    if object == OWN_OBJECT {
        return is_class_or_superclass(class, &body.numbers);
    }
    if !is_uninitialized(object) {
        return false;
    }
    is_class(class_made_at((object % 0x1_0000) as u16, body), class)
}

/// The class that an object is of once a constructor of a class has returned.
fn class_after(class: u32, object: u32, numbers: &RuleNumbers<'_>) -> u32
    ensures { (s : Numbering) (m : Method Act) (name : List ℕ) (t : VerificationType) → AreRuleNumbers s m numbers.now
        → IsNumber s class (class_of name) → IsNumber s object t → IsNumber s result (class_of (class_after m name t)) }
{
    if object == OWN_OBJECT {
        numbers.class
    } else {
        class
    }
}

/// A constructor of a class that is not an array, with its arguments on the object.
fn constructs<'n, C: Classes>(
    body: &Body<'_, '_>,
    called: NamedMethod,
    frames: &mut MethodFrames<'_, '_, 'n, C>,
) -> Result<(), Reason<'n>>
    requires numbers { AreRuleNumbers frames.old.types (method_view body.now.method.now) body.now.numbers }
    requires called { (c : MethodConstant) × IsMethod frames.old.types
        (arguments_of body.now.numbers.table.now) called c × (is_class_type c.class ≡ true) }
    ensures done { (at : ℕ) (c : MethodConstant) (name : List ℕ)
        → IsMethod frames.old.types (arguments_of body.now.numbers.table.now) called c → c.class ≡ class_type name
        → let m = method_view body.now.method.now in let f = held frames.old in
        let p = constructs name (arguments_on c.type.params []) in
        Done (conditions frames.old.types.classes m at p f) (after m at p f) (held frames.new) result }
    ensures rest { IsRunning frames.old frames.new }
{
    let table = body.numbers.table;
    let Some(answer) = take_arguments(table.arguments(called.types), None, frames) else {
        return Err(Reason::MissingOperand);
    };
    let Some(object) = frames.pop() else {
        return Err(Reason::MissingOperand);
    };
    if !may_construct(called.class, object, body) {
        return Err(Reason::WrongOperand);
    }
    match answer {
        Answer::No => Err(Reason::WrongOperand),
        _ => {
            frames.initialize(object, class_after(called.class, object, &body.numbers))?;
            push_result_if_any(body.method, answer, None, frames)
        }
    }
}

/// Whether `invokespecial` may name a constructor.
fn may_name_constructor(called: NamedMethod) -> bool
    ensures { (s : Numbering) (row : List ℕ) (c : MethodConstant) → IsMethod s row called c
        → result ≡ (is_class_type c.class && (not c.interface && has_room_for_receiver c)) }
{
    is_of_class(called) && !called.interface && has_room_for_receiver(called)
}

/// `invokespecial` of a constructor. Its refusals are 66 where it may not name the constructor, 61 and 62 where the
/// arguments or the object beneath them are not those of its rule, 65, 77, and 1 where memory runs out.
pub fn invoke_constructor<'n, C: Classes>(
    body: &Body<'_, '_>,
    called: NamedMethod,
    frames: &mut MethodFrames<'_, '_, 'n, C>,
) -> Result<(), Reason<'n>>
    requires numbers { AreRuleNumbers frames.old.types (method_view body.now.method.now) body.now.numbers }
    requires called { (c : MethodConstant)
        × IsMethod frames.old.types (arguments_of body.now.numbers.table.now) called c }
    ensures done { (at : ℕ) (c : MethodConstant)
        → IsMethod frames.old.types (arguments_of body.now.numbers.table.now) called c
        → let m = method_view body.now.method.now in let f = held frames.old in
        let p = constructor_call c c.class in
        Done (conditions frames.old.types.classes m at p f) (after m at p f) (held frames.new) result }
    ensures rest { IsRunning frames.old frames.new }
{
    if may_name_constructor(called) {
        constructs(body, called, frames)
    } else {
        Err(Reason::WrongConstant)
    }
}
