//! Instructions that read and write fields.
ghost use Rattle.std.specs.Prelude.{◌≡◌, ℕ};
ghost use Rattle.pool.specs.ConstantMeanings.{field_at};
ghost use Rattle.type_numbers.specs.Constants.{IsTable};
ghost use Rattle.rules.specs.Constants.{get_field, get_static, put_field, put_static};
ghost use Rattle.rules.specs.Naming.{is_own};
ghost use Rattle.rules.specs.After.{after};
ghost use Rattle.rules.specs.Rules.{conditions};
ghost use Rattle.rules.specs.Bodies.{method_view};
ghost use Rattle.rules.specs.Outcomes.{Done};
ghost use Rattle.numbered_rules.specs.RunningFrame.{held, IsRunning};

use crate::constant_lookups::field_at;
use crate::expected::Expected;
use crate::pops_and_pushes::{gives, pops};
use classfile::CodeMethod;
use hierarchy::Classes;
use method_frames::MethodFrames;
use rules::Reason;
use type_numbers::ConstantTable;

/// `getstatic`. Its refusals are 66, and those of [`gives`].
pub fn get_static<'n, C: Classes>(
    method: &CodeMethod<'_, '_>,
    index: u16,
    table: &ConstantTable,
    frames: &mut MethodFrames<'_, '_, 'n, C>,
) -> Result<(), Reason<'n>>
    requires { IsTable frames.old.types (method_view method.now).constant_pool table.now }
    ensures done { (at : ℕ) → let m = method_view method.now in let f = held frames.old in
        let p = get_static (field_at m.constant_pool index) in
        Done (conditions frames.old.types.classes m at p f) (after m at p f) (held frames.new) result }
    ensures rest { IsRunning frames.old frames.new }
{
    match field_at(table, index) {
        None => Err(Reason::WrongConstant),
        Some(field) => gives(method, field.held, frames),
    }
}

/// `putstatic`. Its refusals are 66, and those of [`pops`].
pub fn put_static<'n, C: Classes>(
    method: &CodeMethod<'_, '_>,
    index: u16,
    table: &ConstantTable,
    frames: &mut MethodFrames<'_, '_, 'n, C>,
) -> Result<(), Reason<'n>>
    requires { IsTable frames.old.types (method_view method.now).constant_pool table.now }
    ensures done { (at : ℕ) → let m = method_view method.now in let f = held frames.old in
        let p = put_static (field_at m.constant_pool index) in
        Done (conditions frames.old.types.classes m at p f) (after m at p f) (held frames.new) result }
    ensures rest { IsRunning frames.old frames.new }
{
    match field_at(table, index) {
        None => Err(Reason::WrongConstant),
        Some(field) => pops(method, &[Expected::Assignable(field.held)], None, frames),
    }
}

/// `getfield`. Its refusals are 66, and those of [`pops`].
pub fn get_field<'n, C: Classes>(
    method: &CodeMethod<'_, '_>,
    index: u16,
    table: &ConstantTable,
    frames: &mut MethodFrames<'_, '_, 'n, C>,
) -> Result<(), Reason<'n>>
    requires { IsTable frames.old.types (method_view method.now).constant_pool table.now }
    ensures done { (at : ℕ) → let m = method_view method.now in let f = held frames.old in
        let p = get_field (field_at m.constant_pool index) in
        Done (conditions frames.old.types.classes m at p f) (after m at p f) (held frames.new) result }
    ensures rest { IsRunning frames.old frames.new }
{
    match field_at(table, index) {
        None => Err(Reason::WrongConstant),
        Some(field) => pops(
            method,
            &[Expected::Assignable(field.class)],
            Some(field.held),
            frames,
        ),
    }
}

/// `putfield`; `own` says that a constructor sets a field of the current class, whose own object may then be the one.
/// Its refusals are 66, and those of [`pops`].
pub fn put_field<'n, C: Classes>(
    method: &CodeMethod<'_, '_>,
    index: u16,
    own: bool,
    table: &ConstantTable,
    frames: &mut MethodFrames<'_, '_, 'n, C>,
) -> Result<(), Reason<'n>>
    requires own { let m = method_view method.now in own ≡ is_own m (field_at m.constant_pool index) }
    requires table { IsTable frames.old.types (method_view method.now).constant_pool table.now }
    ensures done { (at : ℕ) → let m = method_view method.now in let f = held frames.old in
        let p = put_field m (field_at m.constant_pool index) in
        Done (conditions frames.old.types.classes m at p f) (after m at p f) (held frames.new) result }
    ensures rest { IsRunning frames.old frames.new }
{
    let Some(field) = field_at(table, index) else {
        return Err(Reason::WrongConstant);
    };
    let target = if own {
        Expected::OwnOr(field.class)
    } else {
        Expected::Assignable(field.class)
    };
    pops(
        method,
        &[Expected::Assignable(field.held), target],
        None,
        frames,
    )
}
