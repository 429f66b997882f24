//! The protected member that an instruction uses (JVMS 4.10.1.8), and whether it calls a constructor on the own object.
ghost use Rattle.std.specs.Prelude.{◌≡◌, ◌&&◌, true, false, ℕ, List, [], drop, is_some, option_map, None, IfOk, IfSome};
ghost use Rattle.std.specs.Option.{option_map_or};
ghost use Rattle.classfile.specs.Methods.{ExceptionEntry};
ghost use Rattle.hierarchy.specs.Answer.{outcome_of};
ghost use Rattle.hierarchy.specs.Nearest.{MemberReference, is_guarded};
ghost use Rattle.insn.specs.OperandStacks.{beneath};
ghost use Rattle.insn.specs.Views.{act_view};
ghost use Rattle.frames.specs.Conditions.{least};
ghost use Rattle.frames.specs.DeclaredFrames.{is_uninit_this};
ghost use Rattle.frames.specs.VerificationType.{VerificationType, class as class_of, type_of};
ghost use Rattle.method_frames.specs.NumberedFrames.{NumberedFrames};
ghost use Rattle.pool.specs.ConstantViews.{method_constant_view};
ghost use Rattle.type_numbers.specs.Numbers.{Numbering, IsNumber, IsGiven};
ghost use Rattle.type_numbers.specs.Constants.{constant_in, constants_of};
ghost use Rattle.type_numbers.specs.Decoding.{type_by};
ghost use Rattle.rules.specs.TypingRules.{arguments_on};
ghost use Rattle.rules.specs.After.{top_of};
ghost use Rattle.rules.specs.Bodies.{method_view};
ghost use Rattle.rules.specs.Constants.{invoke_special};
ghost use Rattle.rules.specs.Naming.{names_bootstrapped, sets_own};
ghost use Rattle.rules.specs.Outcomes.{Judges};
ghost use Rattle.rules.specs.Interfaces.{calls_indirect, interface_conditions};
ghost use Rattle.rules.specs.Protected.{member_conditions, object_answer, use_conditions, used_by};
ghost use Rattle.rules.specs.Rules.{constructs_own};
ghost use Rattle.rules.specs.Table.{typing_rule};
ghost use Rattle.rules.specs.Ways.{special_index};
ghost use Rattle.numbered_rules.specs.RunningFrame.{held};
ghost use Rattle.numbered_rules.specs.RuleNumbers.{AreRuleNumbers};
ghost use Rattle.verify.specs.Verdict.{is_covered};
ghost use Rattle.verify.specs.private.pass.Following.{Follows, AreAhead};
ghost use Rattle.verify.specs.private.pass.Objects.{is_array_type, member_class_of, names_interface, used_index, AnswersUse, UsesGuarded};

use crate::pass::handlers::Handlers;
use classfile::CodeMethod;
use frames::{VType, is_own};
use hierarchy::{Answer, Classes};
use insn::Act;
use method_frames::MethodFrames;
use numbered_rules::{Body, NamedFacts, TOP};
use pool::MethodConstant;
use rules::{
    ClassConstants, Reason, Use, check_object, is_constructor, special_index, together, used_by,
};
use std::alloc::AllocError;
use type_numbers::{ConstantTable, NamedConstant, Parts, TypeNumbers, tags};

/// The type of the item of the running frame's stack that so many stand above; top where there is none.
fn item_beneath<'n, C: Classes>(above: usize, frames: &MethodFrames<'_, '_, 'n, C>) -> u32
    ensures given { IsGiven frames.now.types result }
    ensures item { type_by frames.now.types result ≡ top_of (drop above (held frames.now).stack) }
{
    match frames.item(above) {
        Some(number) => number,
        None => TOP,
    }
}

/// Whether a type is that of an array.
fn is_array(t: &VType<'_>) -> bool
    ensures { result ≡ is_array_type (type_of t.now) }
{
    matches!(t, VType::Array { .. })
}

/// Whether an object may be one of a class, by their numbers. No array is, whatever the class. The own object is one,
/// which its constructor makes ready.
fn object_answer<'n, C: Classes>(
    object: u32,
    class: u32,
    types: &TypeNumbers<'_, 'n, C>,
) -> Answer<'n>
    requires object { IsGiven types.now object }
    requires class { IsGiven types.now class }
    ensures { (t : VerificationType) (name : List ℕ) → IsNumber types.now object t
        → IsNumber types.now class (class_of name) → outcome_of result ≡ object_answer types.now.classes name t }
{
    let t = types.vtype(object);
    if is_array(&t) {
        return Answer::No;
    }
    if is_own(&t) {
        return Answer::Yes;
    }
    types.assignable(object, class)
}

/// The index of the member that an instruction uses on an object, if it may use one. In a class of a release that may
/// be a constructor (JVMS 4.10.1.9, invokespecial).
#[inline(always)]
fn used_index(release: bool, act: &Act<'_>) -> Option<u16>
    ensures { result ≡ used_index release (act_view act.now) }
{
    match *act {
        Act::GetField { index } => Some(index),
        Act::PutField { index } => Some(index),
        Act::InvokeVirtual { index } => Some(index),
        Act::InvokeSpecial { index } if release => Some(index),
        _ => None,
    }
}

/// Whether the member is guarded that an instruction uses on an object, if it uses one. The only refusal: memory ran
/// out.
fn uses_guarded<'a, C: Classes>(
    method: &CodeMethod<'_, 'a>,
    act: &Act<'a>,
    constants: &mut ClassConstants<'_, '_, 'a, C>,
) -> Result<bool, AllocError>
    requires { constants.old.members.class ≡ method.now.class.now }
    ensures same { constants.new.members ≡ constants.old.members }
    ensures guarded { IfOk result (AnswersUse constants.old.members.classes (method_view method.now)
        (act_view act.now)) }
{
    match used_index(method.class.release, act) {
        None => Ok(false),
        Some(index) => constants.members.is_guarded(index),
    }
}

/// The number of the class of the field or the method that the constant at an index names, if it names one.
#[inline(always)]
fn member_class(table: &ConstantTable, index: u16) -> Option<u32>
    ensures { result ≡ member_class_of (constant_in (constants_of table.now) index) }
{
    match table.get(index) {
        NamedConstant::Field { class, .. } => Some(class),
        NamedConstant::Method { class, .. } => Some(class),
        _ => None,
    }
}

/// Whether a class may stand above the class itself, by the numbers of both. Where it does not, the class may use its
/// members on any object.
#[inline(always)]
fn may_be_above<'a, C: Classes>(
    class: u32,
    own: u32,
    constants: &ClassConstants<'_, '_, 'a, C>,
) -> bool
    ensures { (s : Numbering) (r : MemberReference) (name : List ℕ) → s.classes ≡ constants.now.members.classes
        → IsNumber s class (class_of r.class) → IsNumber s own (class_of name)
        → result ≡ false → is_guarded s.classes name r ≡ false }
{
    if class == own {
        return false;
    }
    let (parts, own_parts) = (Parts::of(class), Parts::of(own));
    if parts.dims > 0 {
        return false;
    }
    if parts.tag == tags::CLASS && own_parts.tag == tags::CLASS {
        return constants.members.is_below(own_parts.rest, parts.rest);
    }
    true
}

/// Whether an instruction may use a guarded member on an object, by the numbers of the class that is asked for the
/// member and of the class itself.
#[inline(always)]
fn may_use_guarded<'a, C: Classes>(
    body: &Body<'_, 'a>,
    act: &Act<'a>,
    constants: &ClassConstants<'_, '_, 'a, C>,
) -> bool
    ensures { let m = method_view body.now.method.now in (s : Numbering)
        → s.classes ≡ constants.now.members.classes → AreRuleNumbers s m body.now.numbers
        → result ≡ false → AnswersUse s.classes m (act_view act.now) false }
{
    let Some(index) = used_index(body.method.class.release, act) else {
        return false;
    };
    match member_class(body.numbers.table, index) {
        None => false,
        Some(class) => may_be_above(class, body.numbers.class, constants),
    }
}

/// The member that an instruction uses on an object, where that is guarded. The only refusal: memory ran out.
fn guarded_use<'a, C: Classes>(
    method: &CodeMethod<'_, 'a>,
    act: &Act<'a>,
    constants: &mut ClassConstants<'_, '_, 'a, C>,
) -> Result<Option<Use>, AllocError>
    requires { constants.old.members.class ≡ method.now.class.now }
    ensures same { constants.new.members ≡ constants.old.members }
    ensures used { IfOk result (UsesGuarded constants.old.members.classes (method_view method.now) (act_view act.now)) }
{
    if !uses_guarded(method, act, constants)? {
        return Ok(None);
    }
    let named = constants.named(method, act)?;
    Ok(used_by(method, act, &named))
}

/// 86 where an instruction calls a method of an interface that is no direct one (JVMS 4.9.2, invokespecial), and 1 where
/// memory runs out.
fn check_interface<'a, C: Classes>(
    method: &CodeMethod<'_, 'a>,
    act: &Act<'a>,
    constants: &mut ClassConstants<'_, '_, 'a, C>,
) -> Result<(), Reason<'a>>
    requires { constants.old.members.class ≡ method.now.class.now }
    ensures same { constants.new.members ≡ constants.old.members }
    ensures judged { Judges (interface_conditions (method_view method.now) (act_view act.now)) result }
{
    if constants.calls_indirect(method, act)? {
        return Err(Reason::NotDirectInterface);
    }
    Ok(())
}

/// Whether an instruction calls a constructor on the own object. Then nothing is asked of the member that it uses,
/// whether that is guarded or not. The only refusal: memory ran out.
fn makes_own_ready<'a, C: Classes>(
    method: &CodeMethod<'_, 'a>,
    act: &Act<'a>,
    constants: &mut ClassConstants<'_, '_, 'a, C>,
    frames: &MethodFrames<'_, '_, 'a, C>,
) -> Result<bool, AllocError>
    requires { constants.old.members.class ≡ method.now.class.now }
    ensures same { constants.new.members ≡ constants.old.members }
    ensures ready { IfOk result (λ b. let m = method_view method.now in b ≡ true
        → least (option_map_or (use_conditions frames.now.types.classes m (held frames.now))
        (used_by m (act_view act.now)) []) ≡ None) }
{
    match act {
        Act::InvokeSpecial { .. } => constructs_own(method, act, constants, frames),
        _ => Ok(false),
    }
}

/// 82 where an instruction uses a guarded member, unless the object is one of the class of this number, and 77 where a
/// class is missing; or 1 where memory runs out. The own object is one, so a constructor that calls that of its
/// superclass needs no look-up.
fn check_use<'a, C: Classes>(
    method: &CodeMethod<'_, 'a>,
    act: &Act<'a>,
    class: u32,
    constants: &mut ClassConstants<'_, '_, 'a, C>,
    frames: &MethodFrames<'_, '_, 'a, C>,
) -> Result<(), Reason<'a>>
    requires class { IsNumber frames.now.types class (class_of (method_view method.now).class) }
    requires constants { constants.old.members
        ≡ record { class = method.now.class.now; classes = frames.now.types.classes } }
    ensures same { constants.new.members ≡ constants.old.members }
    ensures judged { let m = method_view method.now in Judges (option_map_or
        (use_conditions frames.now.types.classes m (held frames.now)) (used_by m (act_view act.now)) []) result }
{
    if makes_own_ready(method, act, constants, frames)? {
        return Ok(());
    }
    match guarded_use(method, act, constants)? {
        None => Ok(()),
        Some(member) => {
            let object = item_beneath(member.above, frames);
            check_object(object_answer(object, class, frames.types()))
        }
    }
}

/// Judges an instruction, in the frame before it, by the member that it uses, and by the interface whose method it
/// calls. The number is that of the current class.
pub fn check_member<'a, C: Classes>(
    method: &CodeMethod<'_, 'a>,
    act: &Act<'a>,
    class: u32,
    constants: &mut ClassConstants<'_, '_, 'a, C>,
    frames: &MethodFrames<'_, '_, 'a, C>,
) -> Result<(), Reason<'a>>
    requires class { IsNumber frames.now.types class (class_of (method_view method.now).class) }
    requires constants { constants.old.members
        ≡ record { class = method.now.class.now; classes = frames.now.types.classes } }
    ensures same { constants.new.members ≡ constants.old.members }
    ensures judged { Judges (member_conditions frames.now.types.classes (method_view method.now) (act_view act.now)
        (held frames.now)) result }
{
    let called = check_interface(method, act, constants);
    let used = check_use(method, act, class, constants, frames);
    together(called, used)
}

/// Whether the own object, not initialized, stands beneath the arguments.
fn is_on_own<'a, C: Classes>(
    called: &MethodConstant<'a>,
    frames: &MethodFrames<'_, '_, 'a, C>,
) -> bool
    ensures { result ≡ is_uninit_this
        (top_of (beneath (arguments_on (method_constant_view called.now).type.params []) (held frames.now).stack)) }
{
    let object = item_beneath(called.method_type.params.len(), frames);
    is_own(&frames.types().vtype(object))
}

/// Whether `invokespecial` of the method calls a constructor on the own object.
fn calls_on_own<'a, C: Classes>(
    named: Option<&MethodConstant<'a>>,
    frames: &MethodFrames<'_, '_, 'a, C>,
) -> bool
    ensures { (major : ℕ) (me : List ℕ)
        → result ≡ constructs_own (invoke_special major me (option_map (λ c. method_constant_view c.now) named.entry))
        (held frames.now) }
{
    match named {
        None => false,
        Some(called) => is_constructor(called) && is_on_own(called, frames),
    }
}

/// Whether an instruction calls a constructor on the own object, which is not initialized (JVMS 4.10.1.9,
/// invokespecial). The only refusal: memory ran out.
pub fn constructs_own<'a, C: Classes>(
    method: &CodeMethod<'_, 'a>,
    act: &Act<'a>,
    constants: &mut ClassConstants<'_, '_, 'a, C>,
    frames: &MethodFrames<'_, '_, 'a, C>,
) -> Result<bool, AllocError>
    requires { constants.old.members.class ≡ method.now.class.now }
    ensures same { constants.new.members ≡ constants.old.members }
    ensures own { IfOk result (λ b.
        b ≡ constructs_own (typing_rule (method_view method.now) (act_view act.now)) (held frames.now)) }
{
    match special_index(act) {
        None => Ok(false),
        Some(_) => {
            let named = constants.named(method, act)?;
            Ok(calls_on_own(named.method(), frames))
        }
    }
}

/// Whether an entry of the exception table covers an instruction that calls a constructor on the own object, which is
/// not initialized (JVMS 4.10.1.9, invokespecial). The only refusal: memory ran out.
pub fn covers_constructor<'a, C: Classes>(
    method: &CodeMethod<'_, 'a>,
    at: u16,
    act: &Act<'a>,
    constants: &mut ClassConstants<'_, '_, 'a, C>,
    handlers: &Handlers,
    frames: &MethodFrames<'_, '_, 'a, C>,
) -> Result<bool, AllocError>
    requires { constants.old.members.class ≡ method.now.class.now }
    ensures same { constants.new.members ≡ constants.old.members }
    ensures covered { IfOk result (λ b. (x : NumberedFrames) (es : List ExceptionEntry) → Follows x es at handlers.now
        → AreAhead at handlers.now
        → b ≡ (constructs_own (typing_rule (method_view method.now) (act_view act.now)) (held frames.now)
        && is_covered es at)) }
{
    if !handlers.covers(at) {
        return Ok(false);
    }
    constructs_own(method, act, constants, frames)
}

/// The facts about what an instruction names. The only refusal: memory ran out.
pub fn facts_of<'a, C: Classes>(
    method: &CodeMethod<'_, 'a>,
    act: &Act<'a>,
    constants: &mut ClassConstants<'_, '_, 'a, C>,
) -> Result<NamedFacts, AllocError>
    requires { constants.old.members.class ≡ method.now.class.now }
    ensures same { constants.new.members ≡ constants.old.members }
    ensures own { IfOk result (λ x. x.own ≡ sets_own (method_view method.now) (act_view act.now)) }
    ensures bootstrapped { IfOk result (λ x. x.bootstrapped
        ≡ names_bootstrapped (method_view method.now) (act_view act.now)) }
{
    let mut facts = NamedFacts {
        own: false,
        bootstrapped: true,
    };
    match *act {
        Act::PutField { index } => facts.own = constants.sets_own(method, index)?,
        Act::LoadConstant { index }
        | Act::LoadWideConstant { index }
        | Act::InvokeDynamic { index } => {
            facts.bootstrapped = constants.members.is_bootstrapped(method, index)?;
        }
        _ => {}
    }
    Ok(facts)
}

/// Whether an entry of the exception table covers an instruction that may call a constructor.
#[inline(always)]
pub fn is_covered_call(at: u16, act: &Act<'_>, handlers: &Handlers) -> bool
    ensures { (x : NumberedFrames) (es : List ExceptionEntry) → Follows x es at handlers.now → AreAhead at handlers.now
        → result ≡ (is_some (special_index (act_view act.now)) && is_covered es at) }
{
    special_index(act).is_some() && handlers.covers(at)
}

/// Whether an instruction uses no guarded member on an object. It does not say so where memory ran out.
#[inline(always)]
fn uses_no_guarded<'a, C: Classes>(
    body: &Body<'_, 'a>,
    act: &Act<'a>,
    constants: &mut ClassConstants<'_, '_, 'a, C>,
) -> bool
    requires { constants.old.members.class ≡ body.now.method.now.class.now }
    ensures same { constants.new.members ≡ constants.old.members }
    ensures unguarded { let m = method_view body.now.method.now in result ≡ true → (s : Numbering)
        → s.classes ≡ constants.old.members.classes → AreRuleNumbers s m body.now.numbers
        → AnswersUse s.classes m (act_view act.now) false }
{
    if !may_use_guarded(body, act, constants) {
        return true;
    }
    match uses_guarded(body.method, act, constants) {
        Ok(guarded) => !guarded,
        Err(_) => false,
    }
}

/// Whether the constant at an index is a method of an interface.
fn names_interface(table: &ConstantTable, index: u16) -> bool
    ensures { result ≡ names_interface (constant_in (constants_of table.now) index) }
{
    match table.get(index) {
        NamedConstant::Method { interface, .. } => interface,
        _ => false,
    }
}

/// Whether an instruction may call a method of an interface that is no direct one, by the constant that it names.
#[inline(always)]
fn may_call_indirect(body: &Body<'_, '_>, act: &Act<'_>) -> bool
    ensures { let m = method_view body.now.method.now in (s : Numbering) → AreRuleNumbers s m body.now.numbers
        → result ≡ false → calls_indirect m (act_view act.now) ≡ false }
{
    match special_index(act) {
        Some(index) => body.method.class.release && names_interface(body.numbers.table, index),
        None => false,
    }
}

/// The facts about what an instruction names, where it uses no guarded member on an object, and calls no method of an
/// interface that is no direct one. There are none where memory ran out.
#[inline(never)]
pub fn look_up<'a, C: Classes>(
    body: &Body<'_, 'a>,
    act: &Act<'a>,
    constants: &mut ClassConstants<'_, '_, 'a, C>,
) -> Option<NamedFacts>
    requires { constants.old.members.class ≡ body.now.method.now.class.now }
    ensures same { constants.new.members ≡ constants.old.members }
    ensures own { IfSome result (λ x. x.own ≡ sets_own (method_view body.now.method.now) (act_view act.now)) }
    ensures bootstrapped { IfSome result (λ x. x.bootstrapped
        ≡ names_bootstrapped (method_view body.now.method.now) (act_view act.now)) }
    ensures unguarded { let m = method_view body.now.method.now in IfSome result (λ _. (s : Numbering)
        → s.classes ≡ constants.old.members.classes → AreRuleNumbers s m body.now.numbers
        → AnswersUse s.classes m (act_view act.now) false) }
    ensures direct { let m = method_view body.now.method.now in IfSome result (λ _. (s : Numbering)
        → AreRuleNumbers s m body.now.numbers → calls_indirect m (act_view act.now) ≡ false) }
{
    if may_call_indirect(body, act) {
        return None;
    }
    if !uses_no_guarded(body, act, constants) {
        return None;
    }
    match facts_of(body.method, act, constants) {
        Ok(facts) => Some(facts),
        Err(_) => None,
    }
}
