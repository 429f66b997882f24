//! Writes to a local variable of the running frame, in place.
ghost use Rattle.std.specs.Prelude.{◌≡◌, ◌<◌, length, OnOk};
ghost use Rattle.type_numbers.specs.Numbers.{IsGiven};
ghost use Rattle.type_numbers.specs.Decoding.{type_by};
ghost use Rattle.rules.specs.After.{stored_type};
ghost use Rattle.rules.specs.Views.{with_half_free};
ghost use Rattle.rules.specs.After.{with_locals};
ghost use Rattle.numbered_rules.specs.RunningFrame.{held, IsRunning};

use crate::fixed_numbers::TOP;
use hierarchy::Classes;
use method_frames::{MethodFrames, is_wide};
use std::alloc::AllocError;

/// Where the local before this place holds a long or double, it becomes top.
#[inline(always)]
fn free_half<C: Classes>(
    place: usize,
    frames: &mut MethodFrames<'_, '_, '_, C>,
) -> Result<(), AllocError>
    requires { place < length frames.old.running.locals }
    ensures ok { let f = held frames.old in
        OnOk result (held frames.new ≡ with_locals f (with_half_free place f.locals)) }
    ensures rest { IsRunning frames.old frames.new }
{
    if place == 0 {
        return Ok(());
    }
    if is_wide(frames.local(place - 1)) {
        frames.set_local(place - 1, TOP)?;
    }
    Ok(())
}

/// Stores a type to a local variable (JVMS 4.10.1.2). A long or double makes the next one top; where the one before
/// held a long or double, that becomes top.
#[inline(always)]
pub fn store<C: Classes>(
    number: u32,
    place: usize,
    frames: &mut MethodFrames<'_, '_, '_, C>,
) -> Result<(), AllocError>
    requires place { place < length frames.old.running.locals }
    requires given { IsGiven frames.old.types number }
    ensures ok { let f = held frames.old in
        OnOk result (held frames.new ≡ with_locals f (stored_type (type_by frames.old.types number) place f.locals)) }
    ensures rest { IsRunning frames.old frames.new }
{
    free_half(place, frames)?;
    frames.set_local(place, number)?;
    let limit = usize::from(frames.max_locals());
    if is_wide(number) && place + 1 < limit {
        frames.set_local(place + 1, TOP)?;
    }
    Ok(())
}
