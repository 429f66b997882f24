//! The frames that are declared, by their offsets.
ghost use Rattle.std.specs.Prelude.{◌≡◌, pos, None, MatchOption};
ghost use Rattle.insn.specs.Offsets.{at_offset};
ghost use Rattle.method_frames.specs.MapFrames.{frames_by};
ghost use Rattle.verify.specs.Verdict.{declared_at};
ghost use Rattle.verify.specs.private.pass.Finding.{IsFound};

use hierarchy::Classes;
use method_frames::MethodFrames;

/// The place of the frame that is declared at an offset.
pub fn declared_in<C: Classes>(at: u16, frames: &MethodFrames<'_, '_, '_, C>) -> Option<usize>
    ensures { let s = frames.now.types in let ds = frames.now.declared in
        MatchOption result (at_offset (frames_by s ds) at ≡ None) (IsFound s ds (pos at)) }
{
    frames.find(usize::from(at))
}

/// The place of the frame that is declared at a target, which may lie outside the code.
pub fn declared_at<C: Classes>(target: i64, frames: &MethodFrames<'_, '_, '_, C>) -> Option<usize>
    ensures { let s = frames.now.types in let ds = frames.now.declared in
        MatchOption result (declared_at (frames_by s ds) target ≡ None) (IsFound s ds target) }
{
    if target < 0 {
        return None;
    }
    frames.find(target as usize)
}
