//! Instructions whose operand is a class: `checkcast`, `instanceof`, and those that make arrays of references and of
//! arrays.
ghost use Rattle.std.specs.Prelude.{◌≡◌, ℕ, map};
ghost use Rattle.names.specs.ReferenceTypes.{ReferenceType, dimensions_of};
ghost use Rattle.names.specs.StandardNames.{object_name};
ghost use Rattle.pool.specs.ConstantMeanings.{class_at};
ghost use Rattle.frames.specs.VerificationType.{class};
ghost use Rattle.frames.specs.Slots.{to_reference};
ghost use Rattle.type_numbers.specs.Numbers.{Numbering, IsNumber};
ghost use Rattle.type_numbers.specs.Constants.{IsTable};
ghost use Rattle.rules.specs.TypingRules.{number, sizes};
ghost use Rattle.rules.specs.Constants.{check_cast, instance_of, new_multi_array, new_reference_array};
ghost use Rattle.rules.specs.After.{after};
ghost use Rattle.rules.specs.Rules.{conditions};
ghost use Rattle.rules.specs.Bodies.{method_view};
ghost use Rattle.rules.specs.Outcomes.{Done};
ghost use Rattle.numbered_rules.specs.RunningFrame.{held, IsRunning};

use crate::constant_lookups::class_at;
use crate::expected::Expected;
use crate::fixed_numbers::INT;
use crate::pops_and_pushes::pops;
use classfile::CodeMethod;
use hierarchy::Classes;
use insn::Kind;
use method_frames::MethodFrames;
use rules::Reason;
use type_numbers::{ConstantTable, Parts};

/// The sizes of the most dimensions that an array has.
const SIZES: &[Kind] = &[Kind::Int; 255];

/// The number of dimensions of an array, 0 of a class.
pub fn dimensions(number: u32) -> u8
    ensures { (s : Numbering) (t : ReferenceType) → IsNumber s number (to_reference t) → result ≡ dimensions_of t }
{
    Parts::of(number).dims
}

/// The sizes of so many dimensions.
fn sizes(count: u8) -> &'static [Kind]
    ensures { map number result.now ≡ sizes count }
{
    &SIZES[..usize::from(count)]
}

/// `checkcast`, by the number of the class `Object`. Its refusals are 66, and those of [`pops`].
pub fn check_cast<'n, C: Classes>(
    method: &CodeMethod<'_, '_>,
    index: u16,
    object: u32,
    table: &ConstantTable,
    frames: &mut MethodFrames<'_, '_, 'n, C>,
) -> Result<(), Reason<'n>>
    requires object { IsNumber frames.old.types object (class object_name) }
    requires table { IsTable frames.old.types (method_view method.now).constant_pool table.now }
    ensures done { (at : ℕ) → let m = method_view method.now in let f = held frames.old in
        let p = check_cast (class_at m.constant_pool index) in
        Done (conditions frames.old.types.classes m at p f) (after m at p f) (held frames.new) result }
    ensures rest { IsRunning frames.old frames.new }
{
    match class_at(table, index) {
        None => Err(Reason::WrongConstant),
        Some(to) => pops(method, &[Expected::Object(object)], Some(to), frames),
    }
}

/// `instanceof`, by the number of the class `Object`. Its refusals are 66, and those of [`pops`].
pub fn instance_of<'n, C: Classes>(
    method: &CodeMethod<'_, '_>,
    index: u16,
    object: u32,
    table: &ConstantTable,
    frames: &mut MethodFrames<'_, '_, 'n, C>,
) -> Result<(), Reason<'n>>
    requires object { IsNumber frames.old.types object (class object_name) }
    requires table { IsTable frames.old.types (method_view method.now).constant_pool table.now }
    ensures done { (at : ℕ) → let m = method_view method.now in let f = held frames.old in
        let p = instance_of (class_at m.constant_pool index) in
        Done (conditions frames.old.types.classes m at p f) (after m at p f) (held frames.new) result }
    ensures rest { IsRunning frames.old frames.new }
{
    match class_at(table, index) {
        None => Err(Reason::WrongConstant),
        Some(_) => pops(method, &[Expected::Object(object)], Some(INT), frames),
    }
}

/// `anewarray`. Its refusals are 66, where it names no type or one of 255 dimensions, and those of [`pops`].
pub fn new_reference_array<'n, C: Classes>(
    method: &CodeMethod<'_, '_>,
    index: u16,
    table: &ConstantTable,
    frames: &mut MethodFrames<'_, '_, 'n, C>,
) -> Result<(), Reason<'n>>
    requires { IsTable frames.old.types (method_view method.now).constant_pool table.now }
    ensures done { (at : ℕ) → let m = method_view method.now in let f = held frames.old in
        let p = new_reference_array (class_at m.constant_pool index) in
        Done (conditions frames.old.types.classes m at p f) (after m at p f) (held frames.new) result }
    ensures rest { IsRunning frames.old frames.new }
{
    let Some(component) = class_at(table, index) else {
        return Err(Reason::WrongConstant);
    };
    if dimensions(component) < 255 {
        pops(method, &[Kind::Int], Some(component + 0x1_0000), frames)
    } else {
        Err(Reason::WrongConstant)
    }
}

/// `multianewarray`. Its refusals are 66, where it names no array of so many dimensions, 1 or more, and those of
/// [`pops`].
pub fn new_multi_array<'n, C: Classes>(
    method: &CodeMethod<'_, '_>,
    index: u16,
    count: u8,
    table: &ConstantTable,
    frames: &mut MethodFrames<'_, '_, 'n, C>,
) -> Result<(), Reason<'n>>
    requires { IsTable frames.old.types (method_view method.now).constant_pool table.now }
    ensures done { (at : ℕ) → let m = method_view method.now in let f = held frames.old in
        let p = new_multi_array count (class_at m.constant_pool index) in
        Done (conditions frames.old.types.classes m at p f) (after m at p f) (held frames.new) result }
    ensures rest { IsRunning frames.old frames.new }
{
    let Some(made) = class_at(table, index) else {
        return Err(Reason::WrongConstant);
    };
    if count > 0 && dimensions(made) >= count {
        pops(method, sizes(count), Some(made), frames)
    } else {
        Err(Reason::WrongConstant)
    }
}
