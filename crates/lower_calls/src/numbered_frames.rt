ghost use Rattle.std.specs.Prelude.{◌≡◌, ◌+◌, ◌<◌, ◌≤◌, length, IfOk, OnOk};
ghost use Rattle.type_numbers.specs.Numbers.{IsGiven};

use crate::making::{A, B, frame, hasher, setting};
use frames::{Frame, VType, frame_assignable};
use hierarchy::{Answer, Classes, Rows};
use insn::StackOperator;
use method_frames::MethodFrames;
use names::OBJECT;
use std::alloc::{AllocError, Global};
use std::test::*;
use type_numbers::TypeNumbers;

/// The numbers of an int, of a type, and of the type that is wanted for it.
#[derive(Clone, Copy)]
struct Numbers {
    int: u32,
    ours: u32,
    theirs: u32,
}

/// Gives numbers to an int and to two types.
fn given_numbers<'n, C: Classes>(
    types: &mut TypeNumbers<'_, 'n, C>,
    pair: (VType<'n>, VType<'n>),
) -> Result<Numbers, AllocError>
    ensures int { IfOk result (λ n. IsGiven types.new n.int) }
    ensures ours { IfOk result (λ n. IsGiven types.new n.ours) }
    ensures theirs { IfOk result (λ n. IsGiven types.new n.theirs) }
{
    let int = types.number(&VType::Int)?;
    let ours = types.number(&pair.0)?;
    let theirs = types.number(&pair.1)?;
    Ok(Numbers { int, ours, theirs })
}

/// Gives a local variable of the running frame a type, if it has that local.
fn put<C: Classes>(
    frames: &mut MethodFrames<'_, '_, '_, C>,
    place: usize,
    number: u32,
) -> Result<(), AllocError>
    requires { IsGiven frames.old.types number }
    ensures rest { frames.new ≡ record frames.old { running = frames.new.running } }
    ensures stack { frames.new.running.stack ≡ frames.old.running.stack }
{
    if place < usize::from(frames.max_locals()) {
        frames.set_local(place, number)?;
    }
    Ok(())
}

/// Makes all local variables of the running frame ints, but for one.
fn fill<C: Classes>(
    frames: &mut MethodFrames<'_, '_, '_, C>,
    int: u32,
    other: u32,
    place: usize,
) -> Result<(), AllocError>
    requires int { IsGiven frames.old.types int }
    requires other { IsGiven frames.old.types other }
    ensures rest { frames.new ≡ record frames.old { running = frames.new.running } }
    ensures stack { frames.new.running.stack ≡ frames.old.running.stack }
{
    for local in 0..usize::from(frames.max_locals()) {
        let number = if local == place { other } else { int };
        put(frames, local, number)?;
    }
    Ok(())
}

/// Puts so many ints on the stack of the running frame in place of what it holds, but for one item.
fn stand<C: Classes>(
    frames: &mut MethodFrames<'_, '_, '_, C>,
    int: u32,
    other: u32,
    place: usize,
    items: u16,
) -> Result<(), AllocError>
    requires int { IsGiven frames.old.types int }
    requires other { IsGiven frames.old.types other }
    ensures rest { frames.new ≡ record frames.old { running = frames.new.running } }
    ensures items { OnOk result (length frames.new.running.stack ≡ items) }
{
    frames.clear_stack();
    for item in 0..usize::from(items) {
        let number = if item == place { other } else { int };
        frames.push(number)?;
    }
    Ok(())
}

/// Makes the local variables of the running frame ints, and puts so many ints on its stack in place of what it holds,
/// but for one place, counted from local 0 up and then from the bottom item up.
fn set<C: Classes>(
    frames: &mut MethodFrames<'_, '_, '_, C>,
    int: u32,
    other: u32,
    place: usize,
    items: u16,
) -> Result<(), AllocError>
    requires int { IsGiven frames.old.types int }
    requires other { IsGiven frames.old.types other }
    ensures rest { frames.new ≡ record frames.old { running = frames.new.running } }
    ensures items { OnOk result (length frames.new.running.stack ≡ items) }
{
    let locals = usize::from(frames.max_locals());
    let item = if place < locals {
        usize::MAX
    } else {
        place.saturating_sub(locals)
    };
    fill(frames, int, other, place)?;
    stand(frames, int, other, item, items)
}

/// Whether this is the answer of the running frame to a declared one, when they are first compared and when they are
/// again.
fn is_answered_twice<C: Classes>(
    frames: &mut MethodFrames<'_, '_, '_, C>,
    declared: usize,
    expected: Answer<'_>,
) -> Result<bool, AllocError>
    requires { declared < length frames.old.declared }
{
    let first = frames.answer(declared)?;
    let again = frames.answer(declared)?;
    Ok(first == expected && again == expected)
}

/// Whether this is the answer of the running frame to one that was declared. Each has so many locals and so many items,
/// ints but for one place.
fn is_answered<C: Classes>(
    alloc: Global,
    types: &TypeNumbers<'_, '_, C>,
    n: Numbers,
    sizes: (u16, u16),
    place: usize,
    expected: Answer<'_>,
) -> Result<bool, AllocError>
    requires int { IsGiven types.now n.int }
    requires ours { IsGiven types.now n.ours }
    requires theirs { IsGiven types.now n.theirs }
{
    let (locals, items) = sizes;
    let mut frames = MethodFrames::new(alloc, types, locals, items, false)?;
    set(&mut frames, n.int, n.theirs, place, items)?;
    let declared = frames.declare(3)?;
    set(&mut frames, n.int, n.ours, place, items)?;
    is_answered_twice(&mut frames, declared, expected)
}

/// A frame of so many locals and so many items, ints but for one place.
fn ints_but<'a>(
    alloc: Global,
    sizes: (u16, u16),
    place: usize,
    other: VType<'a>,
) -> Result<Frame<'a>, AllocError> {
    let locals = usize::from(sizes.0);
    let mut types = vec![in alloc; VType::Int; locals + usize::from(sizes.1)]?;
    if place < types.len() {
        types[place] = other;
    }
    let (locals, stack) = types.split_at(locals.min(types.len()));
    frame(alloc, locals, stack, false)
}

/// The answer on two frames of these sizes that differ at one place, by their types.
fn answer_at<'a, C: Classes>(
    alloc: Global,
    classes: &C,
    sizes: (u16, u16),
    place: usize,
    pair: (VType<'a>, VType<'a>),
) -> Result<Answer<'a>, AllocError> {
    let from = ints_but(alloc, sizes, place, pair.0)?;
    let to = ints_but(alloc, sizes, place, pair.1)?;
    Ok(frame_assignable(&from, &to, classes))
}

/// Whether two frames that differ at one place are compared by numbers as they are by their types.
fn agree_at<C: Classes>(
    alloc: Global,
    classes: &C,
    sizes: (u16, u16),
    place: usize,
    pair: (VType<'_>, VType<'_>),
) -> Result<bool, AllocError> {
    let expected = answer_at(alloc, classes, sizes, place, pair)?;
    let mut types = TypeNumbers::new(alloc, classes);
    let n = given_numbers(&mut types, pair)?;
    is_answered(alloc, &types, n, sizes, place, expected)
}

/// The types of one place: No, Yes, twice Missing, and types of other widths.
const PAIRS: [(VType<'static>, VType<'static>); 7] = [
    (VType::Int, VType::Float),
    (A, VType::Class(OBJECT)),
    (A, B),
    (B, A),
    (VType::Long, VType::Top),
    (VType::Int, VType::Double),
    (VType::Null, VType::Top),
];

/// Whether frames of these sizes agree, whatever the types of the place at which they differ.
fn agree_for_pairs<C: Classes>(
    alloc: Global,
    classes: &C,
    sizes: (u16, u16),
    place: usize,
    pairs: &[(VType<'_>, VType<'_>)],
) -> Result<bool, AllocError> {
    for pair in pairs {
        if !agree_at(alloc, classes, sizes, place, *pair)? {
            return Ok(false);
        }
    }
    Ok(true)
}

/// Whether frames of these sizes agree, whatever the place at which they differ.
fn agree<C: Classes>(alloc: Global, classes: &C, sizes: (u16, u16)) -> Result<bool, AllocError> {
    for place in 0..usize::from(sizes.0) + usize::from(sizes.1) + 1 {
        if !agree_for_pairs(alloc, classes, sizes, place, &PAIRS)? {
            return Ok(false);
        }
    }
    Ok(true)
}

/// How many locals and how many items.
const SIZES: [(u16, u16); 7] = [(0, 0), (1, 1), (15, 2), (16, 0), (17, 3), (0, 17), (33, 33)];

fn agree_for_sizes<C: Classes>(
    alloc: Global,
    classes: &C,
    list: &[(u16, u16)],
) -> Result<bool, AllocError> {
    for sizes in list {
        if !agree(alloc, classes, *sizes)? {
            return Ok(false);
        }
    }
    Ok(true)
}

/// Places of a large frame.
const PLACES: [usize; 9] = [0, 15, 16, 255, 256, 257, 272, 273, 289];

fn agree_in_a_large_one<C: Classes>(
    alloc: Global,
    classes: &C,
    places: &[usize],
) -> Result<bool, AllocError> {
    for place in places {
        if !agree_at(alloc, classes, (257, 33), *place, (A, B))? {
            return Ok(false);
        }
    }
    Ok(true)
}

fn all_agree<C: Classes>(alloc: Global, classes: &C) -> Result<bool, AllocError> {
    Ok(agree_for_sizes(alloc, classes, &SIZES)? && agree_in_a_large_one(alloc, classes, &PLACES)?)
}

/// Frames of which one is declared at 7: a long at local 18 of 20, an int above a long on the stack, and the flag.
fn declared_at_7<'t, 'c, 'n, C: Classes>(
    alloc: Global,
    types: &'t TypeNumbers<'c, 'n, C>,
    n: Numbers,
) -> Result<MethodFrames<'t, 'c, 'n, C>, AllocError>
    requires int { IsGiven types.now n.int }
    requires ours { IsGiven types.now n.ours }
    ensures types { IfOk result (λ x. x.types ≡ types.now) }
    ensures declared { IfOk result (λ x. length x.declared ≡ 1) }
{
    let mut frames = MethodFrames::new(alloc, types, 20, 2, true)?;
    put(&mut frames, 18, n.ours)?;
    frames.push(n.ours)?;
    frames.push(n.int)?;
    frames.declare(7)?;
    Ok(frames)
}

/// Whether the running frame has the locals and the flag of the one that is declared there.
fn has_declared_locals<C: Classes>(frames: &MethodFrames<'_, '_, '_, C>, n: Numbers) -> bool {
    frames.local(18) == n.ours && frames.local(20) == 0 && frames.flag()
}

/// Whether the running frame has the items of the one that is declared there.
fn has_declared_items<C: Classes>(frames: &MethodFrames<'_, '_, '_, C>, n: Numbers) -> bool {
    let items = [frames.item(0), frames.item(1), frames.item(2)];
    let has_size = frames.depth() == 2 && frames.has_units(3) && !frames.has_units(4);
    items == [Some(n.int), Some(n.ours), None] && has_size
}

/// Gives the running frame another local 18, an empty stack and no flag.
fn change<C: Classes>(
    frames: &mut MethodFrames<'_, '_, '_, C>,
    number: u32,
) -> Result<(), AllocError>
    requires { IsGiven frames.old.types number }
    ensures { frames.new.declared ≡ frames.old.declared }
{
    put(frames, 18, number)?;
    frames.clear_stack();
    frames.set_flag(false);
    Ok(())
}

/// Whether the running frame becomes the one that is declared.
fn becomes_declared<C: Classes>(
    frames: &mut MethodFrames<'_, '_, '_, C>,
    n: Numbers,
) -> Result<bool, AllocError>
    requires { length frames.old.declared ≡ 1 }
{
    frames.take(0)?;
    let taken = has_declared_locals(frames, n) && has_declared_items(frames, n);
    Ok(taken && frames.answer(0)? == Answer::Yes)
}

/// Whether the frame that was declared is found, and the running one becomes it, whatever it was before.
fn is_taken<C: Classes>(
    frames: &mut MethodFrames<'_, '_, '_, C>,
    n: Numbers,
) -> Result<bool, AllocError>
    requires theirs { IsGiven frames.old.types n.theirs }
    requires declared { length frames.old.declared ≡ 1 }
{
    let found = frames.find(7) == Some(0) && frames.find(8).is_none();
    change(frames, n.theirs)?;
    let changed = frames.answer(0)?;
    Ok(found && changed == Answer::No && becomes_declared(frames, n)?)
}

/// Whether items come off from the top down.
fn are_popped<C: Classes>(frames: &mut MethodFrames<'_, '_, '_, C>, n: Numbers) -> bool {
    let items = [frames.pop(), frames.pop(), frames.pop()];
    items == [Some(n.int), Some(n.ours), None]
}

/// Swaps the two items at the top, where there are two.
fn swap<C: Classes>(frames: &mut MethodFrames<'_, '_, '_, C>) -> Result<(), AllocError>
    ensures { frames.new.declared ≡ frames.old.declared }
{
    for form in StackOperator::Swap.forms() {
        if form.takes.len() <= frames.depth() {
            frames.rearrange(*form)?;
        }
    }
    Ok(())
}

/// Whether items are moved, and those that were declared before stay.
fn is_moved<C: Classes>(
    frames: &mut MethodFrames<'_, '_, '_, C>,
    n: Numbers,
) -> Result<bool, AllocError>
    requires { length frames.old.declared ≡ 1 }
{
    swap(frames)?;
    let items = [frames.item(0), frames.item(1), frames.item(2)];
    Ok(items == [Some(n.ours), Some(n.int), None] && frames.answer(0)? == Answer::No)
}

/// Whether an object that `new` made is forgotten in the locals, and found on the stack.
fn is_forgotten<C: Classes>(
    frames: &mut MethodFrames<'_, '_, '_, C>,
    n: Numbers,
) -> Result<bool, AllocError>
    requires { IsGiven frames.old.types n.ours }
{
    put(frames, 3, n.ours)?;
    let made = frames.has_made(9) && !frames.has_made(10);
    frames.forget(9)?;
    Ok(made && frames.local(3) == 0 && frames.local(18) == 0 && frames.item(1) == Some(n.ours))
}

/// The first local variable that changed since they were kept, and the first one after 18.
fn changed<C: Classes>(frames: &MethodFrames<'_, '_, '_, C>) -> [Option<usize>; 2] {
    [frames.first_changed(0), frames.first_changed(19)]
}

/// Whether it is told which local variable changed since they were kept, and that a frame has the locals that it has.
fn changes_are_told<C: Classes>(
    frames: &mut MethodFrames<'_, '_, '_, C>,
) -> Result<bool, AllocError>
    requires { length frames.old.declared ≡ 1 }
{
    let alike = frames.first_unequal(0, 0).is_none() && frames.count() == 1;
    let before = changed(frames) == [Some(18), None];
    frames.keep_locals()?;
    let kept = changed(frames) == [None, None];
    frames.forget(9)?;
    Ok(alike && before && kept && changed(frames) == [Some(18), None])
}

/// Whether a frame has these types in its local variables and on its stack, from the bottom up, and this flag.
fn has_types(frame: &Frame<'_>, locals: &[VType<'_>], stack: &[VType<'_>], flag: bool) -> bool {
    frame.locals.as_slice() == locals && frame.stack.as_slice() == stack && frame.flag == flag
}

/// Gives the running frame this local 0 and this item on top, and no flag.
fn add<C: Classes>(frames: &mut MethodFrames<'_, '_, '_, C>, number: u32) -> Result<(), AllocError>
    requires { IsGiven frames.old.types number }
    ensures { frames.new.declared ≡ frames.old.declared }
{
    put(frames, 0, number)?;
    frames.push(number)?;
    frames.set_flag(false);
    Ok(())
}

/// Whether frames are told by their types: a declared one, and the running one that changed since.
fn types_are_told<C: Classes>(
    alloc: Global,
    frames: &mut MethodFrames<'_, '_, '_, C>,
    n: Numbers,
) -> Result<bool, AllocError>
    requires theirs { IsGiven frames.old.types n.theirs }
    requires declared { length frames.old.declared ≡ 1 }
{
    add(frames, n.theirs)?;
    let declared = frames.declared_frame(alloc, 0)?;
    let running = frames.frame(alloc)?;
    let mut locals = [VType::Top; 20];
    locals[18] = VType::Long;
    let before = has_types(&declared, &locals, &[VType::Long, VType::Int], true);
    locals[0] = B;
    Ok(before && has_types(&running, &locals, &[VType::Long, VType::Int, B], false))
}

/// Whether frames begin anew for another method.
fn begins_anew<C: Classes>(frames: &mut MethodFrames<'_, '_, '_, C>) -> Result<bool, AllocError> {
    frames.restart(30, 1, false);
    let none = frames.find(7).is_none() && frames.depth() == 0 && !frames.flag();
    let declared = frames.declare(7)?;
    let locals = frames.max_locals() == 30 && frames.local(18) == 0 && frames.local(29) == 0;
    Ok(none && locals && frames.answer(declared)? == Answer::Yes)
}

/// Something that is asked of frames of which one is declared at 7.
#[derive(Clone, Copy)]
enum Asked {
    AreTaken,
    ArePopped,
    AreMoved,
    Forget,
    TellChanges,
    TellTypes,
    BeginAnew,
}

fn ask_frames<C: Classes>(
    alloc: Global,
    frames: &mut MethodFrames<'_, '_, '_, C>,
    n: Numbers,
    asked: Asked,
) -> Result<bool, AllocError>
    requires ours { IsGiven frames.old.types n.ours }
    requires theirs { IsGiven frames.old.types n.theirs }
    requires declared { length frames.old.declared ≡ 1 }
{
    match asked {
        Asked::AreTaken => is_taken(frames, n),
        Asked::ArePopped => Ok(are_popped(frames, n)),
        Asked::AreMoved => is_moved(frames, n),
        Asked::Forget => is_forgotten(frames, n),
        Asked::TellChanges => changes_are_told(frames),
        Asked::TellTypes => types_are_told(alloc, frames, n),
        Asked::BeginAnew => begins_anew(frames),
    }
}

/// The answer where these are the types in the frame that is declared, and beside it.
fn ask<C: Classes>(
    alloc: Global,
    classes: &C,
    pair: (VType<'_>, VType<'_>),
    asked: Asked,
) -> Result<bool, AllocError> {
    let mut types = TypeNumbers::new(alloc, classes);
    let n = given_numbers(&mut types, pair)?;
    let mut frames = declared_at_7(alloc, &types, n)?;
    ask_frames(alloc, &mut frames, n, asked)
}

/// Two types, and what is asked of frames with them.
type Question<'a> = ((VType<'a>, VType<'a>), Asked);

const OBJECT_MADE: VType<'static> = VType::Uninit(9);

const QUESTIONS: [Question<'static>; 7] = [
    ((VType::Long, A), Asked::AreTaken),
    ((VType::Long, A), Asked::ArePopped),
    ((VType::Long, A), Asked::AreMoved),
    ((OBJECT_MADE, A), Asked::Forget),
    ((OBJECT_MADE, A), Asked::TellChanges),
    ((VType::Long, B), Asked::TellTypes),
    ((OBJECT_MADE, A), Asked::BeginAnew),
];

fn are_answered<C: Classes>(
    alloc: Global,
    classes: &C,
    questions: &[Question<'_>],
) -> Result<bool, AllocError> {
    for (pair, asked) in questions {
        if !ask(alloc, classes, *pair, *asked)? {
            return Ok(false);
        }
    }
    Ok(true)
}

/// Whether the flag of an uninitialized `this` is compared.
fn flags_count<C: Classes>(alloc: Global, classes: &C) -> Result<bool, AllocError> {
    let types = TypeNumbers::new(alloc, classes);
    let mut frames = MethodFrames::new(alloc, &types, 0, 0, false)?;
    let declared = frames.declare(0)?;
    let without = frames.answer(declared)?;
    frames.set_flag(true);
    Ok(without == Answer::Yes && frames.answer(declared)? == Answer::No)
}

/// Frames of which one is declared at 5, with one item on the stack and its type in local 1 of 2.
fn caught_at_5<'t, 'c, 'n, C: Classes>(
    alloc: Global,
    types: &'t TypeNumbers<'c, 'n, C>,
    n: Numbers,
) -> Result<MethodFrames<'t, 'c, 'n, C>, AllocError>
    requires theirs { IsGiven types.now n.theirs }
    ensures types { IfOk result (λ x. x.types ≡ types.now) }
    ensures declared { IfOk result (λ x. length x.declared ≡ 1) }
{
    let mut frames = MethodFrames::new(alloc, types, 2, 2, false)?;
    put(&mut frames, 1, n.theirs)?;
    frames.push(n.theirs)?;
    frames.declare(5)?;
    Ok(frames)
}

/// Whether an exception is caught by a frame with one item that takes it, a local of that frame takes its type, and its
/// locals take those of the running frame.
fn catches<C: Classes>(frames: &mut MethodFrames<'_, '_, '_, C>, n: Numbers) -> bool
    requires int { IsGiven frames.old.types n.int }
    requires ours { IsGiven frames.old.types n.ours }
    requires declared { length frames.old.declared ≡ 1 }
{
    let caught = frames.answer_caught(0, n.ours) == Answer::Yes;
    let others = frames.answer_caught(0, n.int) == Answer::No;
    let takes = frames.takes(0, 1, n.ours) && frames.takes(0, 0, n.int);
    caught && others && takes && !frames.takes(0, 1, n.int) && frames.takes_locals(0)
}

fn is_caught<C: Classes>(alloc: Global, classes: &C) -> Result<bool, AllocError> {
    let mut types = TypeNumbers::new(alloc, classes);
    let n = given_numbers(&mut types, (A, VType::Class(OBJECT)))?;
    let mut frames = caught_at_5(alloc, &types, n)?;
    Ok(catches(&mut frames, n))
}

/// Local variables from one up to another, and whether two frames that differ in local 18 of 20 alone share them.
const SHARED: [(usize, usize, bool); 6] = [
    (0, 18, true),
    (0, 19, false),
    (18, 18, true),
    (18, 19, false),
    (19, 20, true),
    (19, usize::MAX, true),
];

/// Whether two declared frames share exactly the local variables that they are said to.
fn are_shared<C: Classes>(
    frames: &MethodFrames<'_, '_, '_, C>,
    frame: usize,
    other: usize,
    parts: &[(usize, usize, bool)],
) -> bool
    requires frame { frame < length frames.now.declared }
    requires other { other < length frames.now.declared }
{
    for (from, to, shared) in parts {
        if frames.share_locals(frame, other, *from, *to) != *shared {
            return false;
        }
    }
    true
}

/// Whether local variables of declared frames are told, and which of them two frames share.
fn are_told<C: Classes>(
    alloc: Global,
    types: &TypeNumbers<'_, '_, C>,
    n: Numbers,
) -> Result<bool, AllocError>
    requires int { IsGiven types.now n.int }
    requires ours { IsGiven types.now n.ours }
{
    let mut frames = MethodFrames::new(alloc, types, 20, 0, false)?;
    put(&mut frames, 18, n.ours)?;
    let frame = frames.declare(3)?;
    put(&mut frames, 18, n.int)?;
    let other = frames.declare(9)?;
    let told = [
        frames.declared_local(frame, 18),
        frames.declared_local(other, 18),
        frames.declared_local(frame, 20),
    ];
    Ok(told == [n.ours, n.int, 0] && are_shared(&frames, frame, other, &SHARED))
}

fn locals_are_shared<C: Classes>(alloc: Global, classes: &C) -> Result<bool, AllocError> {
    let mut types = TypeNumbers::new(alloc, classes);
    let n = given_numbers(&mut types, (A, B))?;
    are_told(alloc, &types, n)
}

fn all_hold<C: Classes>(alloc: Global, classes: &C) -> Result<bool, AllocError> {
    Ok(
        are_answered(alloc, classes, &QUESTIONS)?
            && flags_count(alloc, classes)?
            && is_caught(alloc, classes)?
            && locals_are_shared(alloc, classes)?,
    )
}

/// Whether all that is said of frames by numbers holds; or memory ran out, where it may.
fn holds(alloc: Global, of_sizes: bool, may_fail: bool) -> bool {
    let list = setting(alloc);
    let Ok(classes) = Rows::new(alloc, &list, hasher()) else {
        return may_fail;
    };
    let held = if of_sizes {
        all_agree(alloc, &classes)
    } else {
        all_hold(alloc, &classes)
    };
    held.unwrap_or(may_fail)
}

#[test]
fn frames_that_differ_at_one_place(rt: HostRuntime) {
    assert!(rt; holds(rt.alloc(), true, false));
}

#[test]
fn frames_by_number(rt: HostRuntime) {
    assert!(rt; holds(rt.alloc(), false, false));
}

#[test]
fn memory_runs_out_for_frames_by_number(rt: HostRuntime) {
    assert!(rt; holds(rt.alloc(), false, true));
}
