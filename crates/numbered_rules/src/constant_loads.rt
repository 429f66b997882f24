//! Instructions that load constants.
ghost use Rattle.std.specs.Prelude.{◌≡◌, ℕ, Option, option_map};
ghost use Rattle.names.specs.Descriptors.{FieldDescriptor};
ghost use Rattle.pool.specs.ConstantMeanings.{constant_at, dynamic_type_at};
ghost use Rattle.frames.specs.Slots.{descriptor_type};
ghost use Rattle.type_numbers.specs.Numbers.{IsNumberOf};
ghost use Rattle.type_numbers.specs.Constants.{IsTable};
ghost use Rattle.rules.specs.Constants.{is_bootstrapped, load_dynamic};
ghost use Rattle.numbered_rules.specs.private.ConstantLoads.{load_by, load_computed, units_by};
ghost use Rattle.rules.specs.After.{after};
ghost use Rattle.rules.specs.Rules.{conditions};
ghost use Rattle.rules.specs.Bodies.{method_view};
ghost use Rattle.rules.specs.Outcomes.{Done};
ghost use Rattle.numbered_rules.specs.RunningFrame.{held, IsRunning};

use crate::constant_lookups::{computed_at, loaded_at};
use crate::pops_and_pushes::gives;
use classfile::CodeMethod;
use hierarchy::Classes;
use method_frames::{MethodFrames, is_wide};
use pool::Constant;
use rules::Reason;
use type_numbers::ConstantTable;

/// Pushes the value of a Dynamic constant of the type of a number, which takes two units where `wide` says so: 66 where
/// there is no type or it takes another number of units, and 90 where the class has no bootstrap method for the
/// constant that may be used.
fn gives_computed<'n, C: Classes>(
    method: &CodeMethod<'_, '_>,
    wide: bool,
    computed: Option<u32>,
    bootstrapped: bool,
    frames: &mut MethodFrames<'_, '_, 'n, C>,
) -> Result<(), Reason<'n>>
    requires { (t : Option FieldDescriptor) × IsNumberOf frames.old.types computed (option_map descriptor_type t) }
    ensures done { (at : ℕ) (t : Option FieldDescriptor)
        → IsNumberOf frames.old.types computed (option_map descriptor_type t)
        → let m = method_view method.now in let f = held frames.old in
        let p = load_dynamic (units_by wide) bootstrapped t in
        Done (conditions frames.old.types.classes m at p f) (after m at p f) (held frames.new) result }
    ensures rest { IsRunning frames.old frames.new }
{
    let Some(number) = computed else {
        return Err(Reason::WrongConstant);
    };
    if is_wide(number) != wide {
        return Err(Reason::WrongConstant);
    }
    if bootstrapped {
        gives(method, number, frames)
    } else {
        Err(Reason::BadBootstrap)
    }
}

/// Loads a Dynamic constant, 60 where such constants are not judged; 66 where another constant stands at the index.
fn loads_computed<'n, C: Classes>(
    method: &CodeMethod<'_, '_>,
    wide: bool,
    index: u16,
    bootstrapped: bool,
    table: &ConstantTable,
    frames: &mut MethodFrames<'_, '_, 'n, C>,
) -> Result<(), Reason<'n>>
    requires table { IsTable frames.old.types (method_view method.now).constant_pool table.now }
    requires bootstrapped { let m = method_view method.now in
        bootstrapped ≡ is_bootstrapped m (constant_at m.constant_pool index) }
    ensures done { (at : ℕ) → let m = method_view method.now in let f = held frames.old in
        let p = load_computed m (units_by wide) (dynamic_type_at m.constant_pool index)
        (constant_at m.constant_pool index) in
        Done (conditions frames.old.types.classes m at p f) (after m at p f) (held frames.new) result }
    ensures rest { IsRunning frames.old frames.new }
{
    let Ok(Constant::Dynamic { .. }) = method.class.constant_pool.get(index) else {
        return Err(Reason::WrongConstant);
    };
    if method.dynamic {
        gives_computed(
            method,
            wide,
            computed_at(table, index),
            bootstrapped,
            frames,
        )
    } else {
        Err(Reason::NotSupported)
    }
}

/// `ldc`, `ldc_w` and `ldc2_w`: loads a constant, which takes two units where `wide` says so. Its refusals are 60, 66
/// and 90, and those of [`gives`].
pub fn loads_constant<'n, C: Classes>(
    method: &CodeMethod<'_, '_>,
    wide: bool,
    index: u16,
    bootstrapped: bool,
    table: &ConstantTable,
    frames: &mut MethodFrames<'_, '_, 'n, C>,
) -> Result<(), Reason<'n>>
    requires table { IsTable frames.old.types (method_view method.now).constant_pool table.now }
    requires bootstrapped { let m = method_view method.now in
        bootstrapped ≡ is_bootstrapped m (constant_at m.constant_pool index) }
    ensures done { (at : ℕ) → let m = method_view method.now in let f = held frames.old in
        let p = load_by wide m (dynamic_type_at m.constant_pool index) (constant_at m.constant_pool index) in
        Done (conditions frames.old.types.classes m at p f) (after m at p f) (held frames.new) result }
    ensures rest { IsRunning frames.old frames.new }
{
    let Some(number) = loaded_at(table, index) else {
        return loads_computed(method, wide, index, bootstrapped, table, frames);
    };
    if is_wide(number) != wide {
        return Err(Reason::WrongConstant);
    }
    gives(method, number, frames)
}
