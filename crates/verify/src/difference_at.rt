//! The first difference of a frame that leads to a branch target, or to the handler of an exception, from the frame
//! that is declared there, or the first place at which their comparison asks for a class that is missing (JVMS
//! 4.10.1.6).
ghost use Rattle.std.specs.Prelude.{◌≡◌, ◌<◌, ◌∷◌, [], false, Some, List, All, is_some, length, option_map, IfOk, IsTrue};
ghost use Rattle.std.specs.List.Sorted.{IsPermutation};
ghost use Rattle.classfile.specs.Methods.{ExceptionEntry, Method};
ghost use Rattle.hierarchy.specs.Answer.{outcome_of};
ghost use Rattle.insn.specs.Branching.{targets_of};
ghost use Rattle.insn.specs.Meanings as meanings;
ghost use Rattle.insn.specs.Views.{act_view};
ghost use Rattle.frames.specs.FrameAssignable.{frame_answer};
ghost use Rattle.frames.specs.FrameFact.{frame_of};
ghost use Rattle.frames.specs.Differences.{difference_of};
ghost use Rattle.frames.specs.declared.difference.Sought.{Sought};
ghost use Rattle.type_numbers.specs.Decoding.{type_by};
ghost use Rattle.type_numbers.specs.Numbers.{IsGiven};
ghost use Rattle.method_frames.specs.NumberedFrames.{frame_by, declared_frame};
ghost use Rattle.method_frames.specs.MapFrames.{frames_by};
ghost use Rattle.numbered_rules.specs.RunningFrame.{held};
ghost use Rattle.rules.specs.After.{with_stack};
ghost use Rattle.rules.specs.Table.{typing_rule};
ghost use Rattle.rules.specs.TypingRules.{targets};
ghost use Rattle.verify.specs.DifferencesAt.{sought_difference, at_target, at_targets, at_handler, at_handlers, difference_at_of, handler_difference_of};
ghost use Rattle.verify.specs.private.Ways.{IsWay, IsWayIf, IsPassed, IsAlikeBefore, FindsUnlike, IsFirstUnlike, difference_if, first_of_targets, first_of_ways, led_frame, way_difference, with_places};
ghost use Rattle.verify.specs.private.pass.Exceptions.{IsEntryBy, AreEntriesBy};

use crate::pass::declared::{declared_at, declared_in};
use crate::pass::exceptions::Entry;
use frames::{Difference, Frame, Sought, first_difference, first_missing, is_sought};
use hierarchy::{Answer, Classes};
use insn::{Act, BranchTargets};
use method_frames::MethodFrames;
use rules::branches_by;
use std::alloc::{AllocError, Global};

/// The first difference of a frame from one that is declared at an offset, or the first place at which their comparison
/// asks for a class that is missing.
#[derive(Clone, Copy, Debug, PartialEq, Eq)]
pub struct DifferenceAt<'a> {
    /// The offset of the declared frame, in bytes.
    pub at: usize,
    /// The difference.
    pub difference: Difference<'a>,
}

/// A declared frame to which the running one leads, as it is or with what is caught alone on its stack.
#[derive(Clone, Copy, Debug)]
struct Way {
    /// The offset of the declared frame, in bytes.
    at: usize,
    /// Its place among the declared frames.
    frame: usize,
    /// The number of the type that is caught, at a handler.
    caught: Option<u32>,
}

/// The first difference of a frame from another, or the first place at which their comparison asks for a class that is
/// missing, as is looked for.
pub fn sought_difference<'a, C: Classes>(
    sought: Sought,
    from: &Frame<'a>,
    to: &Frame<'a>,
    classes: &C,
) -> Option<Difference<'a>>
    ensures { option_map difference_of result
        ≡ sought_difference sought (C.content classes.now) (frame_of from.now) (frame_of to.now) }
{
    match sought {
        Sought::No => first_difference(from, to, classes),
        Sought::Missing => first_missing(from, to, classes),
    }
}

/// The way to a target, if a frame is declared there.
fn target_way<C: Classes>(target: i64, frames: &MethodFrames<'_, '_, '_, C>) -> Option<Way>
    ensures way { IsWayIf frames.now result }
    ensures same { let x = frames.now in (sought : Sought)
        → at_target sought x.types.classes (frames_by x.types x.declared) (held x) target
        ≡ difference_if sought x result }
{
    let frame = declared_at(target, frames)?;
    Some(Way {
        at: target as usize,
        frame,
        caught: None,
    })
}

/// The ways to these targets.
fn target_ways<C: Classes>(
    alloc: Global,
    targets: BranchTargets<'_>,
    frames: &MethodFrames<'_, '_, '_, C>,
) -> Result<Vec<Option<Way>>, AllocError>
    ensures ways { IfOk result (λ ways. All (IsWayIf frames.now) ways.items) }
    ensures same { let x = frames.now in IfOk result (λ ways. (sought : Sought)
        → at_targets sought x.types.classes (frames_by x.types x.declared) (held x) (targets_of targets.entry)
        ≡ first_of_targets sought x ways.items) }
{
    let mut ways = Vec::new(alloc);
    for target in targets {
        ways.push(target_way(target, frames))?;
    }
    Ok(ways)
}

/// The way to the handler of an entry, if it covers the instruction at an offset and a frame is declared at its
/// handler.
fn handler_way<C: Classes>(
    at: u16,
    entry: &Entry,
    frames: &MethodFrames<'_, '_, '_, C>,
) -> Option<Way>
    requires { (e : ExceptionEntry) × IsEntryBy frames.now.types e entry.now }
    ensures way { IsWayIf frames.now result }
    ensures same { let x = frames.now in (sought : Sought) (e : ExceptionEntry) → IsEntryBy x.types e entry.now
        → at_handler sought x.types.classes (frames_by x.types x.declared) at (held x) e
        ≡ difference_if sought x result }
{
    if at < entry.from || at >= entry.to {
        return None;
    }
    let frame = declared_in(entry.handler, frames)?;
    Some(Way {
        at: usize::from(entry.handler),
        frame,
        caught: Some(entry.caught),
    })
}

/// The ways to the handlers of these entries, each in the place of its entry.
fn handler_ways<C: Classes>(
    alloc: Global,
    at: u16,
    entries: &[Entry],
    frames: &MethodFrames<'_, '_, '_, C>,
) -> Result<Vec<Option<Way>>, AllocError>
    requires { (es : List ExceptionEntry) × AreEntriesBy frames.now.types es entries.now }
    ensures ways { IfOk result (λ ways. All (IsWayIf frames.now) ways.items) }
    ensures same { let x = frames.now in IfOk result (λ ways. (sought : Sought) (es : List ExceptionEntry)
        → AreEntriesBy x.types es entries.now
        → at_handlers sought x.types.classes (frames_by x.types x.declared) at (held x) 0 es
        ≡ first_of_ways sought x 0 ways.items) }
{
    let mut ways = Vec::with_capacity(alloc, entries.len())?;
    for place in 0..entries.len() {
        ways.push(handler_way(at, &entries[place], frames))?;
    }
    Ok(ways)
}

/// Whether the running frame may stand where it is led to.
fn answer<'n, C: Classes>(
    way: Way,
    frames: &mut MethodFrames<'_, '_, 'n, C>,
) -> Result<Answer<'n>, AllocError>
    requires { IsWay frames.old way }
    ensures same { frames.new ≡ frames.old }
    ensures told { let x = frames.old in IfOk result (λ answer. outcome_of answer
        ≡ frame_answer x.types.classes (led_frame x way.caught) (frame_by x.types (declared_frame x way.frame))) }
    ensures even { length (declared_frame frames.old way.frame).locals ≡ length frames.old.running.locals }
{
    match way.caught {
        None => frames.answer(way.frame),
        Some(caught) => Ok(frames.answer_caught(way.frame, caught)),
    }
}

/// Whether the answer for a way is the one that is looked for.
fn is_unlike<C: Classes>(
    sought: Sought,
    way: Way,
    frames: &mut MethodFrames<'_, '_, '_, C>,
) -> Result<bool, AllocError>
    requires { IsWay frames.old way }
    ensures same { frames.new ≡ frames.old }
    ensures unlike { IfOk result (λ unlike. unlike ≡ is_some (way_difference sought frames.old way)) }
{
    let told = answer(way, frames)?;
    Ok(is_sought(sought, told))
}

/// The ways that are there, each with its place, in the order of the frames to which they lead.
fn by_frame(alloc: Global, ways: &[Option<Way>]) -> Result<Vec<(usize, Way)>, AllocError>
    ensures { IfOk result (λ sorted. IsPermutation (with_places 0 ways.now) sorted.items) }
{
    let mut sorted = Vec::new(alloc);
    for place in 0..ways.len() {
        if let Some(way) = ways[place] {
            sorted.push((place, way))?;
        }
    }
    sorted.sort_by_key(|placed| placed.1.frame)?;
    Ok(sorted)
}

/// Whether a way is another one, if there is one.
fn is_repeated(way: Way, last: Option<Way>) -> bool
    ensures { IsTrue result → last ≡ Some way }
{
    match last {
        Some(last) => {
            way.at == last.at && way.frame == last.frame && is_same(way.caught, last.caught)
        }
        None => false,
    }
}

/// Whether two numbers are the same, or neither is there.
fn is_same(number: Option<u32>, other: Option<u32>) -> bool
    ensures { IsTrue result → number ≡ other }
{
    match (number, other) {
        (Some(number), Some(other)) => number == other,
        (None, None) => true,
        _ => false,
    }
}

/// Whether the place of a way lies between two others, and the way is not the one that was asked for last.
fn is_asked(alike: usize, end: usize, way: (usize, Way), last: Option<Way>) -> bool
    ensures asked { IsTrue result → way.0 < end }
    ensures passed { result ≡ false → IsPassed alike end last way }
{
    alike <= way.0 && way.0 < end && !is_repeated(way.1, last)
}

/// One of these ways for which the answer is the one that is looked for and whose place is in front of an end. It is not
/// asked for at the places in front of another one, where there is none, and once for ways one after the other that
/// lead to the same frame with the same type.
fn unlike_before<C: Classes>(
    alike: usize,
    end: usize,
    sought: Sought,
    ways: &[(usize, Way)],
    frames: &mut MethodFrames<'_, '_, '_, C>,
) -> Result<Option<(usize, Way)>, AllocError>
    requires ways { All (λ w. IsWay frames.old w.1) ways.now }
    requires alike { All (IsAlikeBefore sought frames.old alike) ways.now }
    ensures same { frames.new ≡ frames.old }
    ensures found { IfOk result (FindsUnlike sought frames.old end ways.now) }
{
    let mut last = None;
    for i in 0..ways.len() {
        let way = ways[i];
        if is_asked(alike, end, way, last) {
            if is_unlike(sought, way.1, frames)? {
                return Ok(Some(way));
            }
            last = Some(way.1);
        }
    }
    Ok(None)
}

/// The first of these ways for which the answer is the one that is looked for, with its place.
///
/// Frames that were declared in turn have much in common, so that they are compared in this order, up to one with this
/// answer. Each of these walks halves the places at which the first one may be, and asks for those alone.
fn first_unlike<C: Classes>(
    alloc: Global,
    sought: Sought,
    ways: &[Option<Way>],
    frames: &mut MethodFrames<'_, '_, '_, C>,
) -> Result<Option<(usize, Way)>, AllocError>
    requires { All (IsWayIf frames.old) ways.now }
    ensures same { frames.new ≡ frames.old }
    ensures found { IfOk result (IsFirstUnlike sought frames.old (with_places 0 ways.now)) }
{
    let sorted = by_frame(alloc, ways)?;
    let mut first = None;
    let mut alike = 0;
    let mut end = ways.len();
    while alike < end {
        let middle = end - (end - alike) / 2;
        match unlike_before(alike, middle, sought, &sorted, frames)? {
            Some(unlike) => {
                end = unlike.0;
                first = Some(unlike);
            }
            None => alike = middle,
        }
    }
    Ok(first)
}

/// The running frame with a type alone on its stack.
fn caught_frame<'a, C: Classes>(
    alloc: Global,
    caught: u32,
    frames: &MethodFrames<'_, '_, 'a, C>,
) -> Result<Frame<'a>, AllocError>
    requires { IsGiven frames.now.types caught }
    ensures { let x = frames.now in IfOk result (λ f. frame_of f
        ≡ with_stack (held x) (type_by x.types caught ∷ [])) }
{
    let mut frame = frames.frame(alloc)?;
    frame.stack.clear();
    frame.stack.push(frames.types().vtype(caught))?;
    Ok(frame)
}

/// The frame that is led to a declared one.
fn led_frame<'a, C: Classes>(
    alloc: Global,
    way: Way,
    frames: &MethodFrames<'_, '_, 'a, C>,
) -> Result<Frame<'a>, AllocError>
    requires { IsWay frames.now way }
    ensures { IfOk result (λ f. frame_of f ≡ led_frame frames.now way.caught) }
{
    match way.caught {
        None => frames.frame(alloc),
        Some(caught) => caught_frame(alloc, caught, frames),
    }
}

/// The difference on a way that is looked for.
fn way_difference<'a, C: Classes>(
    alloc: Global,
    sought: Sought,
    way: Way,
    frames: &MethodFrames<'_, '_, 'a, C>,
) -> Result<Option<DifferenceAt<'a>>, AllocError>
    requires { IsWay frames.now way }
    ensures { IfOk result (λ o. option_map difference_at_of o ≡ way_difference sought frames.now way) }
{
    let from = led_frame(alloc, way, frames)?;
    let declared = frames.declared_frame(alloc, way.frame)?;
    match sought_difference(sought, &from, &declared, frames.types().classes()) {
        Some(difference) => Ok(Some(DifferenceAt {
            at: way.at,
            difference,
        })),
        None => Ok(None),
    }
}

/// A difference, if there is one, with the place of the way on which it is.
fn numbered<'a>(
    place: usize,
    difference: Option<DifferenceAt<'a>>,
) -> Option<(usize, DifferenceAt<'a>)>
    ensures { option_map handler_difference_of result
        ≡ option_map (λ d. (place, d)) (option_map difference_at_of difference.entry) }
{
    match difference {
        Some(difference) => Some((place, difference)),
        None => None,
    }
}

/// The difference on the first of these ways on which there is one that is looked for, with the place of the way.
fn first_difference_on<'a, C: Classes>(
    alloc: Global,
    sought: Sought,
    ways: &[Option<Way>],
    frames: &mut MethodFrames<'_, '_, 'a, C>,
) -> Result<Option<(usize, DifferenceAt<'a>)>, AllocError>
    requires { All (IsWayIf frames.old) ways.now }
    ensures same { frames.new ≡ frames.old }
    ensures found { IfOk result (λ o. option_map handler_difference_of o ≡ first_of_ways sought frames.old 0 ways.now) }
{
    match first_unlike(alloc, sought, ways, frames)? {
        Some((place, way)) => {
            let difference = way_difference(alloc, sought, way, frames)?;
            Ok(numbered(place, difference))
        }
        None => Ok(None),
    }
}

/// The first difference of the running frame, which is the one after an instruction, from the frames that are declared
/// at its targets, the default of a switch first, or the first place that asks for a missing class, as is looked for
/// (JVMS 4.10.1.6).
pub fn target_difference<'a, C: Classes>(
    alloc: Global,
    sought: Sought,
    at: u16,
    act: &Act<'a>,
    frames: &mut MethodFrames<'_, '_, 'a, C>,
) -> Result<Option<DifferenceAt<'a>>, AllocError>
    ensures same { frames.new ≡ frames.old }
    ensures found { let x = frames.old in (m : Method meanings.Act)
        → IfOk result (λ o. option_map difference_at_of o
        ≡ at_targets sought x.types.classes (frames_by x.types x.declared) (held x)
        (targets at (typing_rule m (act_view act.now)))) }
{
    let ways = target_ways(alloc, BranchTargets::new(at, branches_by(act)), frames)?;
    match first_difference_on(alloc, sought, &ways, frames)? {
        Some((_, difference)) => Ok(Some(difference)),
        None => Ok(None),
    }
}

/// The first difference of the running frame, which is the one before an instruction, with what is caught alone on its
/// stack, from the frames of the handlers of the entries that cover it, or the first place that asks for a missing
/// class, as is looked for (JVMS 4.10.1.6), with the place of the entry in the table.
pub fn handler_difference<'a, C: Classes>(
    alloc: Global,
    sought: Sought,
    at: u16,
    entries: &[Entry],
    frames: &mut MethodFrames<'_, '_, 'a, C>,
) -> Result<Option<(usize, DifferenceAt<'a>)>, AllocError>
    requires { (es : List ExceptionEntry) × AreEntriesBy frames.old.types es entries.now }
    ensures same { frames.new ≡ frames.old }
    ensures found { let x = frames.old in (es : List ExceptionEntry) → AreEntriesBy x.types es entries.now
        → IfOk result (λ o. option_map handler_difference_of o
        ≡ at_handlers sought x.types.classes (frames_by x.types x.declared) at (held x) 0 es) }
{
    let ways = handler_ways(alloc, at, entries, frames)?;
    first_difference_on(alloc, sought, &ways, frames)
}
