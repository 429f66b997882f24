//! The first difference of a frame from another where it may not stand, and the place at which a class is missing.
ghost use Rattle.std.specs.Prelude.{◌≡◌, map, option_map};
ghost use Rattle.hierarchy.specs.Answer.{outcome_of};
ghost use Rattle.frames.specs.VerificationType.{type_of};
ghost use Rattle.frames.specs.FrameFact.{frame_of};
ghost use Rattle.frames.specs.FrameAssignable.{slot_answer};
ghost use Rattle.frames.specs.Differences.{is_sought, first_mismatch, first_local, first_item, mismatch_of, stack_difference, first_difference, first_missing, difference_of};

use crate::frame::Frame;
use crate::frame_assignability::{keeps_flag, slot_assignable};
use crate::vtype::VType;
use hierarchy::{Answer, Classes};

/// A place of two frames, and the two types there, of which the first is not assignable to the second, or whose
/// comparison asks for a class that is missing.
#[derive(Clone, Copy, Debug, PartialEq, Eq)]
pub struct Mismatch<'a> {
    /// The index of a local, or of an item of the stack from the bottom up.
    pub place: usize,
    /// The type of the first frame.
    pub from: VType<'a>,
    /// The type of the second frame.
    pub to: VType<'a>,
}

/// The difference of a frame from another where it may not stand (JVMS 4.10.1.4).
#[derive(Clone, Copy, Debug, PartialEq, Eq)]
pub enum Difference<'a> {
    /// flagThisUninit is set in the first frame alone.
    Flag,
    /// The type of a local.
    Local(Mismatch<'a>),
    /// The stacks have so many items, which are not equally many.
    Sizes { from: usize, to: usize },
    /// The type of an item of the stack, or how many units it takes.
    Item(Mismatch<'a>),
}

/// The answer of a comparison that is looked for.
#[derive(Clone, Copy, Debug)]
pub enum Sought {
    /// The first type is not assignable to the second.
    No,
    /// A class that is asked for is missing.
    Missing,
}

/// Whether an answer is the one that is looked for.
pub fn is_sought(sought: Sought, answer: Answer<'_>) -> bool
    ensures { result ≡ is_sought sought (outcome_of answer.entry) }
{
    match (sought, answer) {
        (Sought::No, Answer::No) => true,
        (Sought::Missing, Answer::Missing(_)) => true,
        _ => false,
    }
}

// The first place of two lists at which the answer for the two types is the one that is looked for.
fn first_mismatch<'n, C: Classes>(
    sought: Sought,
    from: &[VType<'n>],
    to: &[VType<'n>],
    on_stack: bool,
    classes: &C,
) -> Option<Mismatch<'n>>
    ensures { option_map mismatch_of result
        ≡ first_mismatch (is_sought sought) (slot_answer (C.content classes.now) on_stack) 0
        (map type_of from.now) (map type_of to.now) }
{
    for place in 0..from.len().min(to.len()) {
        let (from, to) = (from[place], to[place]);
        if is_sought(sought, slot_assignable(&from, &to, on_stack, classes)) {
            return Some(Mismatch { place, from, to });
        }
    }
    None
}

// The first local, from 0 up, at which the answer is the one that is looked for.
fn first_local<'n, C: Classes>(
    sought: Sought,
    from: &[VType<'n>],
    to: &[VType<'n>],
    classes: &C,
) -> Option<Difference<'n>>
    ensures { option_map difference_of result
        ≡ first_local (is_sought sought) (C.content classes.now) (map type_of from.now) (map type_of to.now) }
{
    match first_mismatch(sought, from, to, false, classes) {
        Some(mismatch) => Some(Difference::Local(mismatch)),
        None => None,
    }
}

// The first item of a stack, from the bottom up, at which the answer is the one that is looked for.
fn first_item<'n, C: Classes>(
    sought: Sought,
    from: &[VType<'n>],
    to: &[VType<'n>],
    classes: &C,
) -> Option<Difference<'n>>
    ensures { option_map difference_of result
        ≡ first_item (is_sought sought) (C.content classes.now) (map type_of from.now) (map type_of to.now) }
{
    match first_mismatch(sought, from, to, true, classes) {
        Some(mismatch) => Some(Difference::Item(mismatch)),
        None => None,
    }
}

// The first difference of a stack from another.
fn stack_difference<'n, C: Classes>(
    from: &[VType<'n>],
    to: &[VType<'n>],
    classes: &C,
) -> Option<Difference<'n>>
    ensures { option_map difference_of result
        ≡ stack_difference (C.content classes.now) (map type_of from.now) (map type_of to.now) }
{
    if from.len() != to.len() {
        return Some(Difference::Sizes {
            from: from.len(),
            to: to.len(),
        });
    }
    first_item(Sought::No, from, to, classes)
}

/// The first difference of a frame from another: flagThisUninit, the locals from 0 up as far as both have them, the
/// number of the stack's items, and then these from the bottom up. `None` where a frame with as many locals may stand
/// for the other, or a class that is compared is missing. Takes no memory.
pub fn first_difference<'n, C: Classes>(
    from: &Frame<'n>,
    to: &Frame<'n>,
    classes: &C,
) -> Option<Difference<'n>>
    ensures { option_map difference_of result
        ≡ first_difference (C.content classes.now) (frame_of from.now) (frame_of to.now) }
{
    if !keeps_flag(from, to) {
        return Some(Difference::Flag);
    }
    match first_local(Sought::No, &from.locals, &to.locals, classes) {
        Some(difference) => Some(difference),
        None => stack_difference(&from.stack, &to.stack, classes),
    }
}

/// The first place at which the comparison of a frame with another asks for a class that is missing, as a `Local` or an
/// `Item`: the locals from 0 up, and then the items of the stack from the bottom up. `None` where the frame has a
/// [`first_difference`] from the other, since no class then changes the answer. Takes no memory.
pub fn first_missing<'n, C: Classes>(
    from: &Frame<'n>,
    to: &Frame<'n>,
    classes: &C,
) -> Option<Difference<'n>>
    ensures { option_map difference_of result
        ≡ first_missing (C.content classes.now) (frame_of from.now) (frame_of to.now) }
{
    if first_difference(from, to, classes).is_some() {
        return None;
    }
    match first_local(Sought::Missing, &from.locals, &to.locals, classes) {
        Some(missing) => Some(missing),
        None => first_item(Sought::Missing, &from.stack, &to.stack, classes),
    }
}
