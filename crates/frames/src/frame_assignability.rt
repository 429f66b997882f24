//! When a frame may stand where another is wanted.
ghost use Rattle.std.specs.Prelude.{◌≡◌, map};
ghost use Rattle.hierarchy.specs.Answer.{outcome_of, yes_if};
ghost use Rattle.frames.specs.VerificationType.{type_of};
ghost use Rattle.frames.specs.FrameFact.{frame_of};
ghost use Rattle.frames.specs.FrameAssignable.{both, width_of, slot_answer, list_answer, flag_answer, frame_answer};

use crate::assignability::assignable;
use crate::frame::Frame;
use crate::vtype::VType;
use hierarchy::{Answer, Classes};

/// How many units of the stack an item takes: two for a long and a double, otherwise one (JVMS 2.6.2). Takes no memory.
pub fn width(t: &VType) -> u8
    ensures { result ≡ width_of (type_of t.now) }
{
    match *t {
        VType::Long | VType::Double => 2,
        _ => 1,
    }
}

// One local to another, or one item of the stack to another.
pub fn slot_assignable<'n, C: Classes>(
    from: &VType<'n>,
    to: &VType<'n>,
    on_stack: bool,
    classes: &C,
) -> Answer<'n>
    ensures { outcome_of result ≡ slot_answer (C.content classes.now) on_stack (type_of from.now) (type_of to.now) }
{
    if on_stack && width(from) != width(to) {
        return Answer::No;
    }
    assignable(from, to, classes)
}

/// Two answers as one: no before missing, and the first that is missing.
pub fn both<'n>(one: Answer<'n>, other: Answer<'n>) -> Answer<'n>
    ensures { outcome_of result ≡ both (outcome_of one.entry) (outcome_of other.entry) }
{
    match one {
        Answer::Yes => other,
        Answer::No => Answer::No,
        Answer::Missing(name) => match other {
            Answer::No => Answer::No,
            _ => Answer::Missing(name),
        },
    }
}

// The slots of two lists one by one, the first ones first.
fn slots_assignable<'n, C: Classes>(
    from: &[VType<'n>],
    to: &[VType<'n>],
    on_stack: bool,
    classes: &C,
) -> Answer<'n>
    ensures { outcome_of result
        ≡ list_answer (slot_answer (C.content classes.now) on_stack) (map type_of from.now) (map type_of to.now) }
{
    if from.len() != to.len() {
        return Answer::No;
    }
    let mut so_far = Answer::Yes;
    for i in 0..from.len() {
        let answer = slot_assignable(&from[i], &to[i], on_stack, classes);
        if let Answer::No = answer {
            return Answer::No;
        }
        so_far = both(so_far, answer);
    }
    so_far
}

/// Whether the flag is not set in the first frame alone.
pub fn keeps_flag(from: &Frame, to: &Frame) -> bool
    ensures { flag_answer from.now.flag to.now.flag ≡ yes_if result }
{
    !from.flag || to.flag
}

/// Whether a frame may stand where another is wanted (JVMS 4.10.1.4). Takes no memory.
///
/// `No` where the numbers of locals or of the stack's items differ, the flag is set in the first frame alone, some
/// local or item is not assignable to the other's, or an item of the stack has another width than the other's;
/// otherwise `Missing` with the first name that a comparison lacks, locals from 0 up and then the stack from the bottom
/// up; otherwise `Yes`.
pub fn frame_assignable<'n, C: Classes>(from: &Frame<'n>, to: &Frame<'n>, classes: &C) -> Answer<'n>
    ensures { outcome_of result ≡ frame_answer (C.content classes.now) (frame_of from.now) (frame_of to.now) }
{
    if !keeps_flag(from, to) {
        return Answer::No;
    }
    if from.stack.len() != to.stack.len() {
        return Answer::No;
    }
    let locals = slots_assignable(&from.locals, &to.locals, false, classes);
    if let Answer::No = locals {
        return Answer::No;
    }
    both(
        locals,
        slots_assignable(&from.stack, &to.stack, true, classes),
    )
}
