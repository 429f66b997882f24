//! The frame that comes to an instruction, and the one that is declared there.
ghost use Rattle.std.specs.Prelude.{◌≡◌, ◌<◌, true, length, Some, None, IsTrue};
ghost use Rattle.insn.specs.Offsets.{at_offset};
ghost use Rattle.method_frames.specs.MapFrames.{frames_by};
ghost use Rattle.method_frames.specs.NumberedFrames.{frame_by, declared_frame};
ghost use Rattle.numbered_rules.specs.RunningFrame.{held, IsRunning};
ghost use Rattle.verify.specs.private.JudgingSteps.{Enters};

use crate::flow::check_answer;
use crate::pass::declared::declared_in;
use hierarchy::Classes;
use method_frames::MethodFrames;
use rules::Reason;

/// The running frame, if it comes to a start, comes to the frame of this place, which is declared there: 69 and 77 by
/// their comparison; or 1 where memory runs out.
fn check_coming<'n, C: Classes>(
    comes: bool,
    frame: usize,
    frames: &mut MethodFrames<'_, '_, 'n, C>,
) -> Result<(), Reason<'n>>
    requires { frame < length frames.old.declared }
    ensures same { frames.new ≡ frames.old }
    ensures judged { let s = frames.old.types in let declared = frame_by s (declared_frame frames.old frame) in
        Enters s.classes comes (held frames.old) (Some declared) declared result }
{
    if !comes {
        return Ok(());
    }
    let answer = frames.answer(frame)?;
    check_answer(answer, Reason::NotAssignable)
}

/// The running frame, if it comes to a start, becomes the frame of this place, which is declared there: 69 and 77 by
/// their comparison; or 1 where memory runs out.
fn take_on<'n, C: Classes>(
    comes: bool,
    frame: usize,
    frames: &mut MethodFrames<'_, '_, 'n, C>,
) -> Result<(), Reason<'n>>
    requires { frame < length frames.old.declared }
    ensures entered { let s = frames.old.types in Enters s.classes comes (held frames.old)
        (Some (frame_by s (declared_frame frames.old frame))) (held frames.new) result }
    ensures rest { IsRunning frames.old frames.new }
{
    check_coming(comes, frame, frames)?;
    frames.take(frame)?;
    Ok(())
}

/// Whether a frame comes to a start at which none is declared, so that it goes on as it is.
#[inline(always)]
pub fn goes_straight<C: Classes>(at: u16, comes: bool, frames: &MethodFrames<'_, '_, '_, C>) -> bool
    ensures { IsTrue result → (comes ≡ true)
        × (at_offset (frames_by frames.now.types frames.now.declared) at ≡ None) }
{
    comes && declared_in(at, frames).is_none()
}

/// The running frame, if one comes to a start, becomes the one that is declared there, if one is: 69 and 77 by their
/// comparison, and 70 where none comes and none is declared; or 1 where memory runs out.
#[inline(never)]
pub fn enter<'n, C: Classes>(
    at: u16,
    comes: bool,
    frames: &mut MethodFrames<'_, '_, 'n, C>,
) -> Result<(), Reason<'n>>
    ensures entered { let s = frames.old.types in Enters s.classes comes (held frames.old)
        (at_offset (frames_by s frames.old.declared) at) (held frames.new) result }
    ensures rest { IsRunning frames.old frames.new }
{
    let Some(frame) = declared_in(at, frames) else {
        return if comes { Ok(()) } else { Err(Reason::NoFrame) };
    };
    take_on(comes, frame, frames)
}
