//! Instructions that take values off the stack and push a result, and the loads and stores of numbers and references.
ghost use Rattle.std.specs.Prelude.{◌≡◌, [], ◌∷◌, true, length};
ghost use Rattle.insn.specs.Kinds.{kind_units};
ghost use Rattle.insn.specs.Operators.{numeric_row};
ghost use Rattle.insn.specs.declared.kinds.Kind.TheVariants.{Int};
ghost use Rattle.frames.specs.Slots.{number_type};
ghost use Rattle.frames.specs.VerificationType.{class, int, null};
ghost use Rattle.names.specs.StandardNames.{throwable_name};
ghost use Rattle.type_numbers.specs.Numbers.{IsNumber};
ghost use Rattle.rules.specs.TypingRules.{number, numbers, any_reference, any_array, expected_class, pops, gives, loads, stores, takes};
ghost use Rattle.rules.specs.Table.{leaves_with};
ghost use Rattle.rules.specs.After.{after};
ghost use Rattle.rules.specs.Rules.{conditions};
ghost use Rattle.rules.specs.Bodies.{method_view};
ghost use Rattle.rules.specs.Outcomes.{Done};
ghost use Rattle.numbered_rules.specs.RunningFrame.{held, IsRunning};

use crate::expected::Expected;
use crate::fixed_numbers::{INT, NULL, number_of};
use crate::local_rules::{loads, stores};
use crate::pops_and_pushes::{gives, judge_frame_after, pops};
use classfile::CodeMethod;
use hierarchy::{Answer, Classes};
use insn::{Kind, NumericOperator};
use method_frames::MethodFrames;
use rules::Reason;

/// `nop`, and what `goto` does to the frame
pub fn takes_nothing<'n, C: Classes>(
    method: &CodeMethod<'_, '_>,
    frames: &mut MethodFrames<'_, '_, 'n, C>,
) -> Result<(), Reason<'n>>
    ensures done { let m = method_view method.now in let f = held frames.old in
        let p = takes [] in
        Done (conditions frames.old.types.classes m 0 p f) (after m 0 p f) (held frames.new) result }
    ensures rest { IsRunning frames.old frames.new }
{
    judge_frame_after(method, Answer::Yes, frames)
}

/// Pushes a number of a kind: `iconst_0` and its like
pub fn gives_number<'n, C: Classes>(
    method: &CodeMethod<'_, '_>,
    kind: Kind,
    frames: &mut MethodFrames<'_, '_, 'n, C>,
) -> Result<(), Reason<'n>>
    ensures done { let m = method_view method.now in let f = held frames.old in
        let p = gives (number_type kind) in
        Done (conditions frames.old.types.classes m 0 p f) (after m 0 p f) (held frames.new) result }
    ensures rest { IsRunning frames.old frames.new }
{
    gives(method, number_of(kind), frames)
}

/// `aconst_null`
pub fn gives_null<'n, C: Classes>(
    method: &CodeMethod<'_, '_>,
    frames: &mut MethodFrames<'_, '_, 'n, C>,
) -> Result<(), Reason<'n>>
    ensures done { let m = method_view method.now in let f = held frames.old in
        let p = gives null in
        Done (conditions frames.old.types.classes m 0 p f) (after m 0 p f) (held frames.new) result }
    ensures rest { IsRunning frames.old frames.new }
{
    gives(method, NULL, frames)
}

/// Takes numbers and pushes a number: `iadd` and its like
pub fn computes<'n, C: Classes>(
    method: &CodeMethod<'_, '_>,
    operator: NumericOperator,
    frames: &mut MethodFrames<'_, '_, 'n, C>,
) -> Result<(), Reason<'n>>
    ensures done { let m = method_view method.now in let f = held frames.old in
        let p = pops (numbers (numeric_row operator).taken) (number_type (numeric_row operator).given ∷ []) [] true in
        Done (conditions frames.old.types.classes m 0 p f) (after m 0 p f) (held frames.new) result }
    ensures rest { IsRunning frames.old frames.new }
{
    let (taken, given) = operator.row();
    pops(method, taken, Some(number_of(given)), frames)
}

/// Takes an `int` that is compared with 0, or is the key of a switch.
pub fn takes_int<'n, C: Classes>(
    method: &CodeMethod<'_, '_>,
    frames: &mut MethodFrames<'_, '_, 'n, C>,
) -> Result<(), Reason<'n>>
    ensures done { let m = method_view method.now in let f = held frames.old in
        let p = takes (number Int ∷ []) in
        Done (conditions frames.old.types.classes m 0 p f) (after m 0 p f) (held frames.new) result }
    ensures rest { IsRunning frames.old frames.new }
{
    pops(method, &[Expected::number(Kind::Int)], None, frames)
}

/// Takes two values of type `int`, which are compared.
pub fn takes_ints<'n, C: Classes>(
    method: &CodeMethod<'_, '_>,
    frames: &mut MethodFrames<'_, '_, 'n, C>,
) -> Result<(), Reason<'n>>
    ensures done { let m = method_view method.now in let f = held frames.old in
        let p = takes (number Int ∷ number Int ∷ []) in
        Done (conditions frames.old.types.classes m 0 p f) (after m 0 p f) (held frames.new) result }
    ensures rest { IsRunning frames.old frames.new }
{
    let int = Expected::number(Kind::Int);
    pops(method, &[int, int], None, frames)
}

/// Takes a reference that is compared with `null`, or whose monitor is entered or left.
pub fn takes_reference<'n, C: Classes>(
    method: &CodeMethod<'_, '_>,
    frames: &mut MethodFrames<'_, '_, 'n, C>,
) -> Result<(), Reason<'n>>
    ensures done { let m = method_view method.now in let f = held frames.old in
        let p = takes (any_reference ∷ []) in
        Done (conditions frames.old.types.classes m 0 p f) (after m 0 p f) (held frames.new) result }
    ensures rest { IsRunning frames.old frames.new }
{
    pops(method, &[Expected::Reference], None, frames)
}

/// Takes two references, which are compared.
pub fn takes_references<'n, C: Classes>(
    method: &CodeMethod<'_, '_>,
    frames: &mut MethodFrames<'_, '_, 'n, C>,
) -> Result<(), Reason<'n>>
    ensures done { let m = method_view method.now in let f = held frames.old in
        let p = takes (any_reference ∷ any_reference ∷ []) in
        Done (conditions frames.old.types.classes m 0 p f) (after m 0 p f) (held frames.new) result }
    ensures rest { IsRunning frames.old frames.new }
{
    pops(
        method,
        &[Expected::Reference, Expected::Reference],
        None,
        frames,
    )
}

/// `athrow`, by the number of the class `Throwable`
pub fn throws<'n, C: Classes>(
    method: &CodeMethod<'_, '_>,
    throwable: u32,
    frames: &mut MethodFrames<'_, '_, 'n, C>,
) -> Result<(), Reason<'n>>
    requires { IsNumber frames.old.types throwable (class throwable_name) }
    ensures done { let m = method_view method.now in let f = held frames.old in
        let p = leaves_with (expected_class throwable_name) in
        Done (conditions frames.old.types.classes m 0 p f) (after m 0 p f) (held frames.new) result }
    ensures rest { IsRunning frames.old frames.new }
{
    pops(method, &[Expected::Assignable(throwable)], None, frames)
}

/// `arraylength`
pub fn array_length<'n, C: Classes>(
    method: &CodeMethod<'_, '_>,
    frames: &mut MethodFrames<'_, '_, 'n, C>,
) -> Result<(), Reason<'n>>
    ensures done { let m = method_view method.now in let f = held frames.old in
        let p = pops (any_array ∷ []) (int ∷ []) [] true in
        Done (conditions frames.old.types.classes m 0 p f) (after m 0 p f) (held frames.new) result }
    ensures rest { IsRunning frames.old frames.new }
{
    pops(method, &[Expected::Array], Some(INT), frames)
}

/// Pushes the number in a local variable.
pub fn loads_number<'n, C: Classes>(
    method: &CodeMethod<'_, '_>,
    kind: Kind,
    local: u16,
    frames: &mut MethodFrames<'_, '_, 'n, C>,
) -> Result<(), Reason<'n>>
    requires { length frames.old.running.locals ≡ method.now.code.now.max_locals }
    ensures done { let m = method_view method.now in let f = held frames.old in
        let p = loads (number kind) local (kind_units kind) in
        Done (conditions frames.old.types.classes m 0 p f) (after m 0 p f) (held frames.new) result }
    ensures rest { IsRunning frames.old frames.new }
{
    loads(method, Expected::number(kind), local, kind.units(), frames)
}

/// Pushes the reference in a local variable.
pub fn loads_reference<'n, C: Classes>(
    method: &CodeMethod<'_, '_>,
    local: u16,
    frames: &mut MethodFrames<'_, '_, 'n, C>,
) -> Result<(), Reason<'n>>
    requires { length frames.old.running.locals ≡ method.now.code.now.max_locals }
    ensures done { let m = method_view method.now in let f = held frames.old in
        let p = loads any_reference local 1 in
        Done (conditions frames.old.types.classes m 0 p f) (after m 0 p f) (held frames.new) result }
    ensures rest { IsRunning frames.old frames.new }
{
    loads(method, Expected::Reference, local, 1, frames)
}

/// Stores the number on top of the stack to a local variable.
pub fn stores_number<'n, C: Classes>(
    method: &CodeMethod<'_, '_>,
    kind: Kind,
    local: u16,
    frames: &mut MethodFrames<'_, '_, 'n, C>,
) -> Result<(), Reason<'n>>
    requires { length frames.old.running.locals ≡ method.now.code.now.max_locals }
    ensures done { let m = method_view method.now in let f = held frames.old in
        let p = stores (number kind) local (kind_units kind) in
        Done (conditions frames.old.types.classes m 0 p f) (after m 0 p f) (held frames.new) result }
    ensures rest { IsRunning frames.old frames.new }
{
    stores(method, Expected::number(kind), local, kind.units(), frames)
}

/// Stores the reference on top of the stack to a local variable.
pub fn stores_reference<'n, C: Classes>(
    method: &CodeMethod<'_, '_>,
    local: u16,
    frames: &mut MethodFrames<'_, '_, 'n, C>,
) -> Result<(), Reason<'n>>
    requires { length frames.old.running.locals ≡ method.now.code.now.max_locals }
    ensures done { let m = method_view method.now in let f = held frames.old in
        let p = stores any_reference local 1 in
        Done (conditions frames.old.types.classes m 0 p f) (after m 0 p f) (held frames.new) result }
    ensures rest { IsRunning frames.old frames.new }
{
    stores(method, Expected::Reference, local, 1, frames)
}
