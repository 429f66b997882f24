//! Frames with their slots, and when one may stand where another is wanted.
ghost use Rattle.std.specs.Prelude.{◌≡◌, ◌+◌, ◌++◌, ◌<◌, IsTrue, ◌↔◌, IfOk, OnOk, Some, length, map, slice_get};
ghost use Rattle.hierarchy.specs.Answer.{outcome_of};
ghost use Rattle.frames.specs.FrameFact.{frame_of};
ghost use Rattle.frames.specs.FrameAssignable.{frame_answer};
ghost use Rattle.frames.specs.Meaning.{IsAlike, slot_answers};
ghost use Rattle.frames.specs.Packing.{slot_of};
ghost use Rattle.frames.specs.PackedFrames.{IsPacked};
ghost use Rattle.frames.specs.VerificationType.{type_of};

use crate::frame::Frame;
use crate::frame_assignability::{both, slot_assignable};
use crate::frame_fault::FrameFault;
use crate::packing::pack;
use crate::slot_comparison::{ABSENT, is_undecided};
use crate::vtype::VType;
use blocks::lanes::decided_lanes;
use hierarchy::{Answer, Classes};
use std::alloc::{AllocError, Global};
use std::simd::u32x8;

/// A frame, and a slot of four bytes for each local from 0 up and then each item of the stack from the bottom up.
#[derive(Debug, Drop)]
pub struct Packed<'a> {
    pub frame: Frame<'a>,
    pub slots: Vec<u32>,
}

/// A copy of types.
fn copy_of<'a>(alloc: Global, types: &[VType<'a>]) -> Result<Vec<VType<'a>>, AllocError>
    ensures { IfOk result (λ v. v.items ≡ types.now) }
{
    let mut copy = Vec::with_capacity(alloc, types.len())?;
    copy.extend_from_slice(types)?;
    Ok(copy)
}

/// Puts the slots of types after the others.
fn push_slots<C: Classes>(
    slots: &mut Vec<u32>,
    types: &[VType<'_>],
    classes: &C,
) -> Result<(), AllocError>
    ensures { OnOk result (slots.new.items ≡ slots.old.items
        ++ map (slot_of (C.content classes.now)) (map type_of types.now)) }
{
    for vtype in types {
        slots.push(pack(vtype, classes))?;
    }
    Ok(())
}

impl<'a> Packed<'a> {
    ghost use Rattle.std.specs.Prelude.{◌≡◌, IfOk, IfErr};
    ghost use Rattle.frames.specs.PackedFrames.{IsPacked};
    ghost use Rattle.frames.specs.declared.frame_fault.FrameFault.TheVariants.{OutOfMemory};

    /// A copy of a frame with its slots. The only refusal is 1, where memory runs out.
    pub fn new<C: Classes>(
        alloc: Global,
        frame: &Frame<'a>,
        classes: &C,
    ) -> Result<Packed<'a>, FrameFault>
        ensures packed { IfOk result (IsPacked (C.content classes.now)) }
        ensures frame { IfOk result (λ p. frame_of p.frame ≡ frame_of frame.now) }
        ensures err { IfErr result (λ e. e ≡ OutOfMemory) }
    {
        let locals = copy_of(alloc, &frame.locals)?;
        let stack = copy_of(alloc, &frame.stack)?;
        let mut slots = Vec::with_capacity(alloc, locals.len() + stack.len())?;
        push_slots(&mut slots, &locals, classes)?;
        push_slots(&mut slots, &stack, classes)?;
        Ok(Packed {
            frame: Frame {
                locals,
                stack,
                flag: frame.flag,
            },
            slots,
        })
    }
}

/// Whether two frames have as many locals and as many items, and the first alone has no flag.
fn are_alike(from: &Frame<'_>, to: &Frame<'_>) -> bool
    ensures { IsTrue result ↔ IsAlike (frame_of from.now) (frame_of to.now) }
{
    from.locals.len() == to.locals.len()
        && from.stack.len() == to.stack.len()
        && (!from.flag || to.flag)
}

/// One place of a frame to the same place of another: the locals from 0 up, then the stack from the bottom up.
fn place_assignable<'n, C: Classes>(
    from: &Frame<'n>,
    to: &Frame<'n>,
    place: usize,
    classes: &C,
) -> Answer<'n>
    requires alike { IsAlike (frame_of from.now) (frame_of to.now) }
    requires within { place < length from.now.locals.items + length from.now.stack.items }
    ensures { slice_get (slot_answers (C.content classes.now) (frame_of from.now) (frame_of to.now)) place
        ≡ Some (outcome_of result) }
{
    let count = from.locals.len();
    if place < count {
        slot_assignable(&from.locals[place], &to.locals[place], false, classes)
    } else {
        let item = place - count;
        slot_assignable(&from.stack[item], &to.stack[item], true, classes)
    }
}

/// Whether a packed frame may stand where another is wanted (JVMS 4.10.1.4): the answer of
/// [`frame_assignable`](crate::frame_assignable). Takes no memory.
///
/// Slots are compared eight at a time. Where two are equal, and not those of absent classes, nothing else is looked at.
pub fn packed_assignable<'n, C: Classes>(
    from: &Packed<'n>,
    to: &Packed<'n>,
    classes: &C,
) -> Answer<'n>
    requires from { IsPacked (C.content classes.now) from.now }
    requires to { IsPacked (C.content classes.now) to.now }
    ensures { outcome_of result ≡ frame_answer (C.content classes.now) (frame_of from.now.frame)
        (frame_of to.now.frame) }
{
    if !are_alike(&from.frame, &to.frame) {
        return Answer::No;
    }
    let ours: &[u32] = &from.slots;
    let theirs: &[u32] = &to.slots;
    let mut so_far = Answer::Yes;
    let mut at = 0;
    while ours.len() - at >= 8 {
        let decided = decided_lanes::<ABSENT, false>(
            u32x8::from_slice(&ours[at..]),
            u32x8::from_slice(&theirs[at..]),
        );
        at += decided;
        if decided < 8 {
            let answer = place_assignable(&from.frame, &to.frame, at, classes);
            if let Answer::No = answer {
                return Answer::No;
            }
            so_far = both(so_far, answer);
            at += 1;
        }
    }
    while at < ours.len() {
        if is_undecided(ours[at], theirs[at]) {
            let answer = place_assignable(&from.frame, &to.frame, at, classes);
            if let Answer::No = answer {
                return Answer::No;
            }
            so_far = both(so_far, answer);
        }
        at += 1;
    }
    so_far
}
