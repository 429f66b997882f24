//! Where an instruction branches to.
ghost use Rattle.std.specs.Prelude.{◌≡◌, ◌<◌, All, length, IfOk};
ghost use Rattle.insn.specs.Branching.{branches_view, targets_of};
ghost use Rattle.insn.specs.Offsets.{led_to};
ghost use Rattle.rules.specs.Outcomes.{Judges};
ghost use Rattle.verify.specs.private.Targets.{AreJudgedInTurn, FindsAll, all_targets, any_refuses, target_at};

use crate::flow::check_answer;
use crate::pass::declared::declared_at;
use hierarchy::{Answer, Classes};
use insn::{BranchTargets, Branches};
use method_frames::MethodFrames;
use rules::Reason;
use std::alloc::{AllocError, Global};

/// The frame after an instruction comes to a target: 67 where none is declared there, 68 and 77 by their comparison, or
/// 1 where memory runs out.
fn check_target<'n, C: Classes>(
    target: i64,
    frames: &mut MethodFrames<'_, '_, 'n, C>,
) -> Result<(), Reason<'n>>
    ensures same { frames.new ≡ frames.old }
    ensures judged { Judges (target_at frames.old target) result }
{
    let Some(frame) = declared_at(target, frames) else {
        return Err(Reason::NoFrameAtTarget);
    };
    let answer = frames.answer(frame)?;
    check_answer(answer, Reason::NotAssignableAtTarget)
}

/// The frame after an instruction comes to each of these targets, up to the first one to which it does not.
fn check_in_turn<'n, C: Classes>(
    targets: BranchTargets<'_>,
    frames: &mut MethodFrames<'_, '_, 'n, C>,
) -> Result<(), Reason<'n>>
    ensures same { frames.new ≡ frames.old }
    ensures judged { AreJudgedInTurn frames.old (targets_of targets.entry) result }
{
    for target in targets {
        check_target(target, frames)?;
    }
    Ok(())
}

/// The places of the frames that are declared at these targets, or none if there is a target without one.
fn frames_at<C: Classes>(
    alloc: Global,
    targets: BranchTargets<'_>,
    frames: &MethodFrames<'_, '_, '_, C>,
) -> Result<Option<Vec<usize>>, AllocError>
    ensures { IfOk result (FindsAll frames.now (targets_of targets.entry)) }
{
    let mut found = Vec::new(alloc);
    for target in targets {
        let Some(frame) = declared_at(target, frames) else {
            return Ok(None);
        };
        found.push(frame)?;
    }
    Ok(Some(found))
}

/// Whether the running frame may not stand where one of these declared ones is, whatever classes there are.
fn any_refuses<C: Classes>(
    declared: &[usize],
    frames: &mut MethodFrames<'_, '_, '_, C>,
) -> Result<bool, AllocError>
    requires { All (λ frame. frame < length frames.old.declared) declared.now }
    ensures same { frames.new ≡ frames.old }
    ensures refused { IfOk result (λ refused. refused ≡ any_refuses frames.old declared.now) }
{
    for i in 0..declared.len() {
        let answer = frames.answer(declared[i])?;
        if matches!(answer, Answer::No) {
            return Ok(true);
        }
    }
    Ok(false)
}

/// The frame after an instruction comes to each of these targets: 67 where no frame is declared at one, 68 and 77 by
/// their comparison, or 1 where memory runs out.
///
/// Frames that were declared in turn have much in common, so that they are compared in this order for 68 where the
/// frame does not come to all.
#[inline(never)]
fn check_all<'n, C: Classes>(
    alloc: Global,
    targets: BranchTargets<'_>,
    frames: &mut MethodFrames<'_, '_, 'n, C>,
) -> Result<(), Reason<'n>>
    ensures same { frames.new ≡ frames.old }
    ensures judged { Judges (all_targets frames.old (targets_of targets.entry)) result }
{
    let Err(first) = check_in_turn(targets, frames) else {
        return Ok(());
    };
    let Some(mut declared) = frames_at(alloc, targets, frames)? else {
        return Err(Reason::NoFrameAtTarget);
    };
    declared.sort()?;
    if any_refuses(&declared, frames)? {
        return Err(Reason::NotAssignableAtTarget);
    }
    Err(first)
}

/// The frame after an instruction at this offset comes to all its targets, the default of a switch first: 67 where no
/// frame is declared at one, 68 and 77 by their comparison, 77 by the first of these targets; or 1 where memory runs
/// out.
#[inline(always)]
pub fn check_targets<'n, C: Classes>(
    alloc: Global,
    at: u16,
    branches: Branches<'_>,
    frames: &mut MethodFrames<'_, '_, 'n, C>,
) -> Result<(), Reason<'n>>
    ensures same { frames.new ≡ frames.old }
    ensures judged { Judges (all_targets frames.old (led_to at (branches_view branches.entry))) result }
{
    match branches {
        Branches::Nowhere => Ok(()),
        Branches::One(offset) => check_target(i64::from(at) + i64::from(offset), frames),
        Branches::Switch { .. } => check_all(alloc, BranchTargets::new(at, branches), frames),
    }
}
