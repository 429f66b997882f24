//! The first of all that an instruction takes that the frame before it has not, or has of another type, or of a type
//! whose comparison asks for a class that is missing.
ghost use Rattle.std.specs.Prelude.{◌≡◌, ◌≤◌, ◌-◌, map, option_map};
ghost use Rattle.frames.specs.Slots.{units_of};
ghost use Rattle.insn.specs.OperandStacks.{beneath};
ghost use Rattle.frames.specs.FrameFact.{frame_of};
ghost use Rattle.frames.specs.VerificationType.{type_of};
ghost use Rattle.rules.specs.After.{local_of};
ghost use Rattle.rules.specs.Bodies.{method_view};
ghost use Rattle.rules.specs.ExpectedTypes.{local_view, types_view};
ghost use Rattle.frames.specs.Differences.{is_no, is_missing, is_sought};
ghost use Rattle.rules.specs.Unmet.{absent, absent_operand, absent_receiver, absent_units, first_of, first_unknown, first_unmet, found_in, operand_of, receivers, sought_local, sought_operand, unmet_of, wrong, wrong_receiver};
ghost use Rattle.rules.specs.UnmetLaws.{UnmetIsFound};
ghost use Rattle.rules.specs.Views.{expected_view, stack_of};

use crate::constructing::may_construct;
use crate::expected::ExpectedType;
use crate::expected_types::{ExpectedLocal, ExpectedTypes};
use crate::operands::accepts;
use classfile::CodeMethod;
use frames::{Frame, Sought, Starts, VType, is_sought, width};
use hierarchy::Classes;

/// An operand that is not there, or is of another type than the expected one.
#[derive(Clone, Copy, Debug)]
pub struct UnmetOperand<'a> {
    /// Its place from the operand that is pushed first, which is at 1.
    pub place: usize,
    /// The expected type.
    pub expected: ExpectedType<'a>,
    /// The type of the item there, or none where the stack has no such item.
    pub found: Option<VType<'a>>,
}

/// The thing that an instruction takes and a frame has not, or has of another type.
#[derive(Clone, Copy, Debug)]
pub enum Unmet<'a> {
    /// One of so many operands.
    Operand {
        wrong: UnmetOperand<'a>,
        count: usize,
    },
    /// On the object at the first of so many operands no constructor of this class may be called, or the stack has no
    /// such item.
    Receiver {
        class: &'a [u8],
        found: Option<VType<'a>>,
        count: usize,
    },
    /// The local variable at a place.
    Local {
        place: u16,
        expected: ExpectedType<'a>,
        found: VType<'a>,
    },
    /// So many units of the stack are moved, and it has these.
    Units {
        taken: usize,
        there: usize,
    },
}

/// The first operand, from the top down, that the stack has not. So many others stand beneath them.
fn absent_operand<'a>(
    below: usize,
    expected: &[ExpectedType<'a>],
    stack: &[VType<'a>],
) -> Option<UnmetOperand<'a>>
    requires { below ≤ 1 }
    ensures { option_map found_in result ≡ absent_operand below (map expected_view expected.now) (stack_of stack.now) }
{
    match expected {
        [] => None,
        [first, others @ ..] => match stack {
            [] => Some(UnmetOperand {
                place: below + others.len() + 1,
                expected: *first,
                found: None,
            }),
            [rest @ .., _top] => absent_operand(below, others, rest),
        },
    }
}

/// The first operand, from the top down, of which the answer is the one that is looked for. So many others stand
/// beneath them.
fn sought_operand<'a, C: Classes>(
    sought: Sought,
    below: usize,
    expected: &[ExpectedType<'a>],
    stack: &[VType<'a>],
    classes: &C,
) -> Option<UnmetOperand<'a>>
    requires { below ≤ 1 }
    ensures { option_map found_in result
        ≡ sought_operand (is_sought sought) (C.content classes.now) below (map expected_view expected.now)
        (stack_of stack.now) }
{
    match expected {
        [] => None,
        [first, others @ ..] => match stack {
            [] => None,
            [rest @ .., top] => {
                if is_sought(sought, accepts(*first, top, classes)) {
                    return Some(UnmetOperand {
                        place: below + others.len() + 1,
                        expected: *first,
                        found: Some(*top),
                    });
                }
                sought_operand(sought, below, others, rest, classes)
            }
        },
    }
}

/// One of so many operands, if there is one.
fn operand_of<'a>(count: usize, wrong: Option<UnmetOperand<'a>>) -> Option<Unmet<'a>>
    ensures { option_map unmet_of result ≡ operand_of count (option_map found_in wrong.entry) }
{
    match wrong {
        None => None,
        Some(wrong) => Some(Unmet::Operand { wrong, count }),
    }
}

/// The item beneath as many as these.
fn item_beneath<'a>(expected: &[ExpectedType<'a>], stack: &[VType<'a>]) -> Option<VType<'a>>
    ensures { option_map type_of result ≡ first_of (beneath (map expected_view expected.now) (stack_of stack.now)) }
{
    match expected {
        [] => match stack {
            [] => None,
            [.., top] => Some(*top),
        },
        [_, others @ ..] => match stack {
            [] => None,
            [rest @ .., _top] => item_beneath(others, rest),
        },
    }
}

/// The object that a constructor of this class is to be called on, where there is none.
fn absent_receiver<'a>(
    receiver: Option<&'a [u8]>,
    count: usize,
    found: Option<VType<'a>>,
) -> Option<Unmet<'a>>
    ensures { option_map unmet_of result
        ≡ absent_receiver (option_map (λ n. n.now) receiver.entry) count (option_map type_of found.entry) }
{
    match (receiver, found) {
        (Some(class), None) => Some(Unmet::Receiver {
            class,
            found,
            count,
        }),
        _ => None,
    }
}

/// The object that a constructor of this class is called on, where it may not be.
fn wrong_receiver<'a, S: Starts>(
    method: &CodeMethod<'_, 'a>,
    starts: &S,
    receiver: Option<&'a [u8]>,
    count: usize,
    found: Option<VType<'a>>,
) -> Option<Unmet<'a>>
    requires code { S.code starts.now ≡ (method_view method.now).code }
    ensures { option_map unmet_of result ≡ wrong_receiver (method_view method.now)
        (option_map (λ n. n.now) receiver.entry) count (option_map type_of found.entry) }
{
    let (Some(class), Some(object)) = (receiver, found) else {
        return None;
    };
    if may_construct(method, starts, class, &object) {
        None
    } else {
        Some(Unmet::Receiver {
            class,
            found,
            count,
        })
    }
}

/// The type of a local variable, top where there is none.
fn local_of<'a>(place: u16, frame: &Frame<'a>) -> VType<'a>
    ensures { type_of result ≡ local_of place (frame_of frame.now) }
{
    match frame.locals.get(usize::from(place)) {
        Some(t) => *t,
        None => VType::Top,
    }
}

/// The local variable that is read, where the answer for its type is the one that is looked for.
fn sought_local<'a, C: Classes>(
    sought: Sought,
    method: &CodeMethod<'_, 'a>,
    local: Option<ExpectedLocal<'a>>,
    frame: &Frame<'a>,
    classes: &C,
) -> Option<Unmet<'a>>
    ensures { option_map unmet_of result
        ≡ sought_local (is_sought sought) (C.content classes.now) (method_view method.now)
        (option_map local_view local.entry) (frame_of frame.now) }
{
    let Some(local) = local else {
        return None;
    };
    let max_locals = usize::from(method.code.max_locals);
    if max_locals < local.width || max_locals - local.width < usize::from(local.place) {
        return None;
    }
    let (place, expected) = (local.place, local.expected);
    let found = local_of(place, frame);
    if is_sought(sought, accepts(expected, &found, classes)) {
        return Some(Unmet::Local {
            place,
            expected,
            found,
        });
    }
    None
}

/// How many units more are taken than these items have, 0 where they have enough.
fn missing_units(taken: usize, stack: &[VType<'_>]) -> usize
    ensures { result ≡ taken - units_of (stack_of stack.now) }
{
    let mut missing = taken;
    for t in stack {
        missing = missing.saturating_sub(usize::from(width(t)));
    }
    missing
}

/// The units that are moved, where the stack has fewer.
fn absent_units<'a>(taken: usize, frame: &Frame<'a>) -> Option<Unmet<'a>>
    ensures { option_map unmet_of result ≡ absent_units taken (frame_of frame.now) }
{
    let missing = missing_units(taken, &frame.stack);
    if missing == 0 {
        return None;
    }
    let there = taken - missing;
    Some(Unmet::Units { taken, there })
}

/// How many operands the object is that a constructor of this class is called on.
fn receivers(receiver: Option<&[u8]>) -> usize
    ensures same { result ≡ receivers (option_map (λ n. n.now) receiver.entry) }
    ensures few { result ≤ 1 }
{
    match receiver {
        None => 0,
        Some(_) => 1,
    }
}

/// The first operand, from the top down, that the stack has not.
fn absent<'a>(types: &ExpectedTypes<'a>, frame: &Frame<'a>) -> Option<Unmet<'a>>
    ensures { option_map unmet_of result ≡ absent (types_view types.now) (frame_of frame.now) }
{
    let below = receivers(types.receiver);
    let count = below + types.operands.len();
    let operand = operand_of(count, absent_operand(below, &types.operands, &frame.stack));
    let found = item_beneath(&types.operands, &frame.stack);
    operand.or(absent_receiver(types.receiver, count, found))
}

/// The first operand, from the top down, that is of another type.
fn wrong<'a, S: Starts, C: Classes>(
    method: &CodeMethod<'_, 'a>,
    starts: &S,
    types: &ExpectedTypes<'a>,
    frame: &Frame<'a>,
    classes: &C,
) -> Option<Unmet<'a>>
    requires code { S.code starts.now ≡ (method_view method.now).code }
    ensures { option_map unmet_of result ≡ wrong (C.content classes.now) (method_view method.now)
        (types_view types.now) (frame_of frame.now) }
{
    let below = receivers(types.receiver);
    let count = below + types.operands.len();
    let operand = operand_of(
        count,
        sought_operand(Sought::No, below, &types.operands, &frame.stack, classes),
    );
    let found = item_beneath(&types.operands, &frame.stack);
    operand.or(wrong_receiver(method, starts, types.receiver, count, found))
}

/// The first of all that an instruction takes that the frame before it has not, or has of another type: the local
/// variable, then units or operands that the stack has not, then operands of another type, each from the top of the
/// stack down. `None` where the frame has all of them, or a class that is compared is missing. Takes no memory.
pub fn first_unmet<'a, S: Starts, C: Classes>(
    method: &CodeMethod<'_, 'a>,
    starts: &S,
    types: &ExpectedTypes<'a>,
    frame: &Frame<'a>,
    classes: &C,
) -> Option<Unmet<'a>>
    requires code { S.code starts.now ≡ (method_view method.now).code }
    ensures { option_map unmet_of result ≡ first_unmet (C.content classes.now) (method_view method.now)
        (types_view types.now) (frame_of frame.now) }
{
    let operand = absent(types, frame).or(wrong(method, starts, types, frame, classes));
    let on_stack = absent_units(types.units, frame).or(operand);
    sought_local(Sought::No, method, types.local, frame, classes).or(on_stack)
}

/// The first of all that an instruction takes of which it is not known whether the frame has it, as a `Local` or an
/// `Operand` with the type that was found: their comparison asks for a class that is missing. First the local variable,
/// and then the operands from the top of the stack down. Takes no memory.
pub fn first_unknown<'a, C: Classes>(
    method: &CodeMethod<'_, 'a>,
    types: &ExpectedTypes<'a>,
    frame: &Frame<'a>,
    classes: &C,
) -> Option<Unmet<'a>>
    ensures { option_map unmet_of result ≡ first_unknown (C.content classes.now) (method_view method.now)
        (types_view types.now) (frame_of frame.now) }
{
    let below = receivers(types.receiver);
    let count = below + types.operands.len();
    let (operands, stack) = (&types.operands, &frame.stack);
    let operand = sought_operand(Sought::Missing, below, operands, stack, classes);
    let local = sought_local(Sought::Missing, method, types.local, frame, classes);
    local.or(operand_of(count, operand))
}

/// A law: where the least number against an instruction is 61 or 63, [`first_unmet`] finds something that it takes and
/// the frame before it has not. Where it is 62, it does so too, but for two kinds: an instruction that moves items of
/// the stack, of which those on top are of none of its forms, and a `new` whose object of an earlier pass is still on
/// the stack.
pub fn unmet_is_found()
    ensures { UnmetIsFound }
{}
