//! Instructions that make arrays of primitive types, and read and write elements of arrays.
ghost use Rattle.std.specs.Prelude.{◌≡◌, ℕ};
ghost use Rattle.names.specs.Descriptors.{primitive};
ghost use Rattle.names.specs.StandardNames.{object_name};
ghost use Rattle.insn.specs.Meanings.{LoadElement, StoreElement, StoreReferenceElement};
ghost use Rattle.frames.specs.VerificationType.{VerificationType, array, class};
ghost use Rattle.type_numbers.specs.Numbers.{Numbering, IsNumber, IsGiven};
ghost use Rattle.type_numbers.specs.Decoding.{type_by};
ghost use Rattle.rules.specs.TypingRules.{loads_element};
ghost use Rattle.rules.specs.Table.{typing_rule};
ghost use Rattle.rules.specs.Constants.{new_array};
ghost use Rattle.rules.specs.After.{after, element_of, top_of, rest_of};
ghost use Rattle.rules.specs.Rules.{conditions};
ghost use Rattle.rules.specs.Bodies.{method_view};
ghost use Rattle.rules.specs.Outcomes.{Done};
ghost use Rattle.numbered_rules.specs.Expected.{objects};
ghost use Rattle.numbered_rules.specs.RunningFrame.{held, IsRunning};

use crate::expected::{Expected, holds_references};
use crate::fixed_numbers::{NULL, TOP, number_of};
use crate::pops_and_pushes::pops;
use classfile::CodeMethod;
use hierarchy::Classes;
use insn::{Kind, computed_as};
use method_frames::MethodFrames;
use names::Primitive;
use rules::Reason;
use type_numbers::Parts;

/// The number of the type of an array's element, if that is a reference: null for null, otherwise top.
fn element_of(number: u32) -> u32
    ensures { (s : Numbering) (t : VerificationType) → IsNumber s number t → IsNumber s result (element_of t) }
{
    if number == NULL {
        NULL
    } else if holds_references(Parts::of(number)) {
        number - 0x1_0000
    } else {
        TOP
    }
}

/// The number of the type of an element of the array beneath an index; top where the stack has fewer than two items.
fn element_beneath<C: Classes>(frames: &MethodFrames<'_, '_, '_, C>) -> u32
    ensures given { IsGiven frames.now.types result }
    ensures element { type_by frames.now.types result ≡ element_of (top_of (rest_of (held frames.now).stack)) }
{
    match frames.item(1) {
        Some(number) => element_of(number),
        None => TOP,
    }
}

/// `iaload`, `laload`, `faload`, `daload`, `baload`, `caload` and `saload`
pub fn load_element<'n, C: Classes>(
    method: &CodeMethod<'_, '_>,
    element: Primitive,
    frames: &mut MethodFrames<'_, '_, 'n, C>,
) -> Result<(), Reason<'n>>
    ensures done { (at : ℕ) → let m = method_view method.now in let f = held frames.old in
        let p = typing_rule m (LoadElement element) in
        Done (conditions frames.old.types.classes m at p f) (after m at p f) (held frames.new) result }
    ensures rest { IsRunning frames.old frames.new }
{
    let asked = [Expected::number(Kind::Int), Expected::ArrayFor(element)];
    pops(
        method,
        &asked,
        Some(number_of(computed_as(element))),
        frames,
    )
}

/// `iastore`, `lastore`, `fastore`, `dastore`, `bastore`, `castore` and `sastore`
pub fn store_element<'n, C: Classes>(
    method: &CodeMethod<'_, '_>,
    element: Primitive,
    frames: &mut MethodFrames<'_, '_, 'n, C>,
) -> Result<(), Reason<'n>>
    ensures done { (at : ℕ) → let m = method_view method.now in let f = held frames.old in
        let p = typing_rule m (StoreElement element) in
        Done (conditions frames.old.types.classes m at p f) (after m at p f) (held frames.new) result }
    ensures rest { IsRunning frames.old frames.new }
{
    let stored = Expected::number(computed_as(element));
    let index = Expected::number(Kind::Int);
    let asked = [stored, index, Expected::ArrayFor(element)];
    pops(method, &asked, None, frames)
}

/// `aaload`, by the number of the type of arrays of the class `Object`
pub fn load_reference_element<'n, C: Classes>(
    method: &CodeMethod<'_, '_>,
    object_array: u32,
    frames: &mut MethodFrames<'_, '_, 'n, C>,
) -> Result<(), Reason<'n>>
    requires { IsNumber frames.old.types object_array objects }
    ensures done { (at : ℕ) → let m = method_view method.now in let f = held frames.old in
        Done (conditions frames.old.types.classes m at loads_element f) (after m at loads_element f)
        (held frames.new) result }
    ensures rest { IsRunning frames.old frames.new }
{
    let element = element_beneath(frames);
    let asked = [
        Expected::number(Kind::Int),
        Expected::ObjectArray(object_array),
    ];
    pops(method, &asked, Some(element), frames)
}

/// `aastore`, by the numbers of the class `Object` and of the type of arrays of it
pub fn store_reference_element<'n, C: Classes>(
    method: &CodeMethod<'_, '_>,
    object: u32,
    object_array: u32,
    frames: &mut MethodFrames<'_, '_, 'n, C>,
) -> Result<(), Reason<'n>>
    requires object { IsNumber frames.old.types object (class object_name) }
    requires array { IsNumber frames.old.types object_array objects }
    ensures done { (at : ℕ) → let m = method_view method.now in let f = held frames.old in
        let p = typing_rule m StoreReferenceElement in
        Done (conditions frames.old.types.classes m at p f) (after m at p f) (held frames.new) result }
    ensures rest { IsRunning frames.old frames.new }
{
    let asked = [
        Expected::Object(object),
        Expected::number(Kind::Int),
        Expected::ObjectArray(object_array),
    ];
    pops(method, &asked, None, frames)
}

/// The number of the type of arrays of a primitive type.
fn array_of(element: Primitive) -> u32
    ensures { (s : Numbering) → IsNumber s result (array (primitive element)) }
{
    match element {
        Primitive::Boolean => 0x0901_0004,
        Primitive::Char => 0x0901_0005,
        Primitive::Float => 0x0901_0006,
        Primitive::Double => 0x0901_0007,
        Primitive::Byte => 0x0901_0008,
        Primitive::Short => 0x0901_0009,
        Primitive::Int => 0x0901_000A,
        Primitive::Long => 0x0901_000B,
    }
}

/// `newarray`. Its refusals are 66 where it names no primitive type, and those of [`pops`].
pub fn new_array<'n, C: Classes>(
    method: &CodeMethod<'_, '_>,
    element: Option<Primitive>,
    frames: &mut MethodFrames<'_, '_, 'n, C>,
) -> Result<(), Reason<'n>>
    ensures done { (at : ℕ) → let m = method_view method.now in let f = held frames.old in
        let p = new_array element in
        Done (conditions frames.old.types.classes m at p f) (after m at p f) (held frames.new) result }
    ensures rest { IsRunning frames.old frames.new }
{
    match element {
        None => Err(Reason::WrongConstant),
        Some(primitive) => pops(method, &[Kind::Int], Some(array_of(primitive)), frames),
    }
}
