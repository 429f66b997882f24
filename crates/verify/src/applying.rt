//! One instruction, judged by its rule on a copy of a frame.
ghost use Rattle.std.specs.Prelude.{◌≡◌, ◌++◌, ◌<◌, ℕ, length, map, reverse, slice_index, OnOk, IfOk};
ghost use Rattle.classfile.specs.Methods.{Method};
ghost use Rattle.classfile.specs.Values.{Class};
ghost use Rattle.classfile.specs.Views.{class_view};
ghost use Rattle.insn.specs.Meanings as meanings;
ghost use Rattle.insn.specs.Meanings.{act};
ghost use Rattle.insn.specs.Views.{act_view, view};
ghost use Rattle.frames.specs.FrameFact.{FrameFact, frame_of};
ghost use Rattle.frames.specs.VerificationType.{type_of};
ghost use Rattle.frames.specs.MarkedCode.{code_in};
ghost use Rattle.type_numbers.specs.Numbers.{Extends, IsGiven};
ghost use Rattle.type_numbers.specs.MethodNumbers.{AreNumbers};
ghost use Rattle.numbered_rules.specs.RunningFrame.{held, IsRunning};
ghost use Rattle.numbered_rules.specs.RuleNumbers.{AreRuleNumbers};
ghost use Rattle.rules.specs.declared.reason.Reason.TheVariants.{OutOfMemory};
ghost use Rattle.rules.specs.After.{after};
ghost use Rattle.rules.specs.Bodies.{method_view};
ghost use Rattle.rules.specs.Rules.{constructs_own};
ghost use Rattle.rules.specs.Table.{typing_rule};
ghost use Rattle.verify.specs.Applied.{Applied, Leaves};
ghost use Rattle.verify.specs.private.Judged.{IsNumbered, JudgesRule};

use crate::environment::Env;
use crate::pass::ClassTypes;
use crate::pass::members::{check_member, constructs_own, facts_of};
use classfile::{ClassFile, CodeAttr};
use frames::{CodeStarts, Frame, VType};
use hierarchy::Classes;
use insn::{Act, BranchTargets, CodeFault, Insn, act};
use method_frames::MethodFrames;
use numbered_rules::{Body, run};
use rules::{ClassConstants, Reason, branches, falls, first_reason};
use std::alloc::{AllocError, Global};
use type_numbers::TypeNumbers;

/// The frame after an instruction that is not refused, and where the instruction leads.
#[derive(Debug, Drop)]
pub struct After<'a> {
    /// The frame after it.
    pub frame: Frame<'a>,
    /// Where it branches to: the offsets of instructions.
    pub targets: BranchTargets<'a>,
    /// Whether it goes on to the next instruction.
    pub falls: bool,
    /// Whether it is an instance initialization method's call on the own object.
    pub own: bool,
}

/// Why an instruction is refused.
#[derive(Clone, Copy, Debug)]
pub struct Refusal<'a> {
    /// The least reason.
    pub reason: Reason<'a>,
    /// Whether the instruction calls a constructor on the own object, where the reason is 77. It says nothing for other
    /// reasons.
    pub own: bool,
}

/// Memory ran out.
impl<'a> From<AllocError> for Refusal<'a> {
    ghost from_gives = { λ _ e. e.reason ≡ OutOfMemory };

    fn from(_: AllocError) -> Refusal<'a> {
        Refusal {
            reason: Reason::OutOfMemory,
            own: false,
        }
    }
}

/// The numbers of types, in their order. The only refusal is 1, where memory runs out.
fn numbers_of<'a, C: Classes>(
    alloc: Global,
    vtypes: &[VType<'a>],
    types: &mut TypeNumbers<'_, 'a, C>,
) -> Result<Vec<u32>, AllocError>
    ensures kept { Extends types.old types.new }
    ensures numbers { IfOk result (λ v. AreNumbers types.new v.items (map type_of vtypes.now)) }
{
    let mut numbers = Vec::with_capacity(alloc, vtypes.len())?;
    for vtype in vtypes {
        numbers.push(types.number(vtype)?)?;
    }
    Ok(numbers)
}

/// Gives the local variables of the running frame these types.
fn set_locals<C: Classes>(
    numbers: &[u32],
    frames: &mut MethodFrames<'_, '_, '_, C>,
) -> Result<(), AllocError>
    requires size { length numbers.now ≡ length frames.old.running.locals }
    requires given { (i : ℕ) → i < length numbers.now → IsGiven frames.old.types (slice_index numbers.now i) }
    ensures { OnOk result (frames.new ≡ record frames.old {
      running = record frames.old.running {
        locals = numbers.now;
      };
    }) }
{
    for place in 0..numbers.len() {
        frames.set_local(place, numbers[place])?;
    }
    Ok(())
}

/// Puts types on the stack of the running frame, the last of them on top.
fn push_all<C: Classes>(
    numbers: &[u32],
    frames: &mut MethodFrames<'_, '_, '_, C>,
) -> Result<(), AllocError>
    requires { (i : ℕ) → i < length numbers.now → IsGiven frames.old.types (slice_index numbers.now i) }
    ensures { OnOk result (frames.new ≡ record frames.old {
      running = record frames.old.running {
        stack = reverse numbers.now ++ frames.old.running.stack;
      };
    }) }
{
    for i in 0..numbers.len() {
        frames.push(numbers[i])?;
    }
    Ok(())
}

/// Where the instructions of the method begin. The only refusal is 1, where memory runs out.
fn starts_of<'c, C: Classes>(
    alloc: Global,
    env: &Env<'_, 'c, '_, C>,
) -> Result<CodeStarts<'c>, AllocError>
    ensures { IfOk result (λ s. code_in s ≡ env.now.method.code.now.code.now) }
{
    match CodeStarts::new(alloc, env.method.code.code) {
        Ok(starts) => Ok(starts),
        Err(fault) => match fault {
            CodeFault::OutOfMemory => Err(AllocError),
            _ => unreachable!(),
        },
    }
}

/// Judges an instruction by its rule and by the protected member that it uses, on the running frame, which becomes the
/// one after it. Tells whether it is an instance initialization method's call on the own object.
fn judge<'a, C: Classes>(
    body: &Body<'_, 'a>,
    at: u16,
    act: &Act<'a>,
    constants: &mut ClassConstants<'_, '_, 'a, C>,
    frames: &mut MethodFrames<'_, '_, 'a, C>,
) -> Result<bool, Refusal<'a>>
    requires constants { constants.old.members
        ≡ record { class = body.now.method.now.class.now; classes = frames.old.types.classes } }
    requires locals { length frames.old.running.locals ≡ body.now.method.now.code.now.max_locals }
    requires numbers { AreRuleNumbers frames.old.types (method_view body.now.method.now) body.now.numbers }
    ensures judged { let m = method_view body.now.method.now in let a = act_view act.now in
        JudgesRule frames.old.types.classes m at a (typing_rule m a) (held frames.old) (held frames.new) result }
    ensures rest { IsRunning frames.old frames.new }
{
    let own = constructs_own(body.method, act, constants, frames)?;
    let facts = facts_of(body.method, act, constants)?;
    let used = check_member(body.method, act, body.numbers.class, constants, frames);
    if let Err(reason) = run(body, at, act, facts, frames) {
        let reason = first_reason(reason, used);
        return Err(Refusal { reason, own });
    }
    match used {
        Err(reason) => Err(Refusal { reason, own }),
        Ok(()) => Ok(own),
    }
}

/// Judges an instruction as [`judge`] does, with constants that are looked up for it alone.
fn judge_alone<'a, C: Classes>(
    alloc: Global,
    body: &Body<'_, 'a>,
    at: u16,
    act: &Act<'a>,
    frames: &mut MethodFrames<'_, '_, 'a, C>,
) -> Result<bool, Refusal<'a>>
    requires locals { length frames.old.running.locals ≡ body.now.method.now.code.now.max_locals }
    requires numbers { AreRuleNumbers frames.old.types (method_view body.now.method.now) body.now.numbers }
    ensures { let m = method_view body.now.method.now in let a = act_view act.now in
        JudgesRule frames.old.types.classes m at a (typing_rule m a) (held frames.old) (held frames.new) result }
{
    let classes = frames.types().classes();
    let mut constants = ClassConstants::new(alloc, body.method.class, classes);
    judge(body, at, act, &mut constants, frames)
}

/// A frame by numbers, with those of the types of its method's class.
#[derive(Drop)]
struct Numbered {
    class: ClassTypes,
    locals: Vec<u32>,
    stack: Vec<u32>,
}

/// The numbers of a frame and of a class. The only refusal is 1, where memory runs out.
fn number<'a, C: Classes>(
    alloc: Global,
    class: &ClassFile<'a>,
    frame: &Frame<'a>,
    types: &mut TypeNumbers<'_, 'a, C>,
) -> Result<Numbered, AllocError>
    ensures same { types.new.classes ≡ types.old.classes }
    ensures numbers { IfOk result (IsNumbered types.new (class_view class.now) frame.now) }
{
    let locals = numbers_of(alloc, &frame.locals, types)?;
    let stack = numbers_of(alloc, &frame.stack, types)?;
    let class = ClassTypes::new(alloc, class, types)?;
    Ok(Numbered {
        class,
        locals,
        stack,
    })
}

/// The frames of a method, of which the running one is this frame. The only refusal is 1, where memory runs out.
fn begin<'t, 'c, 'a, C: Classes>(
    alloc: Global,
    frame: &Frame<'a>,
    numbered: &Numbered,
    code: &CodeAttr<'a>,
    types: &'t TypeNumbers<'c, 'a, C>,
) -> Result<MethodFrames<'t, 'c, 'a, C>, AllocError>
    requires locals { length frame.now.locals.items ≡ code.now.max_locals }
    requires numbered { (c : Class) × IsNumbered types.now c frame.now numbered.now }
    ensures types { IfOk result (λ x. x.types ≡ types.now) }
    ensures running { IfOk result (λ x. held x ≡ frame_of frame.now) }
    ensures size { IfOk result (λ x. length x.running.locals ≡ code.now.max_locals) }
{
    let mut frames = MethodFrames::new(alloc, types, code.max_locals, code.max_stack, frame.flag)?;
    set_locals(&numbered.locals, &mut frames)?;
    push_all(&numbered.stack, &mut frames)?;
    Ok(frames)
}

/// The answer for an instruction that is not refused: the running frame is the one after it.
fn leave<'a, C: Classes>(
    alloc: Global,
    at: u16,
    insn: &Insn<'a>,
    own: bool,
    frames: &MethodFrames<'_, '_, 'a, C>,
) -> Result<After<'a>, AllocError>
    ensures { let a = act (view insn.now) in (m : Method meanings.Act) (f : FrameFact)
        → held frames.now ≡ after m at (typing_rule m a) f → own ≡ constructs_own (typing_rule m a) f
        → IfOk result (Leaves m at (typing_rule m a) f) }
{
    Ok(After {
        frame: frames.frame(alloc)?,
        targets: BranchTargets::new(at, branches(insn)),
        falls: falls(insn),
        own,
    })
}

/// Judges an instruction as [`apply`] does, in a frame whose types and those of the class have numbers.
fn apply_numbered<'a, C: Classes>(
    alloc: Global,
    env: &Env<'_, '_, 'a, C>,
    at: u16,
    insn: &Insn<'a>,
    frame: &Frame<'a>,
    numbered: &Numbered,
    types: &TypeNumbers<'_, 'a, C>,
) -> Result<After<'a>, Refusal<'a>>
    requires locals { length frame.now.locals.items ≡ env.now.method.code.now.max_locals }
    requires numbered { IsNumbered types.now (class_view env.now.method.class.now) frame.now numbered.now }
    ensures { let m = method_view env.now.method in
        let a = act (view insn.now) in
        Applied types.now.classes m at a (typing_rule m a) (frame_of frame.now) result }
{
    let method = &env.method;
    let starts = starts_of(alloc, env)?;
    let body = Body {
        method,
        starts: &starts,
        numbers: numbered.class.rule_numbers(method),
    };
    let mut frames = begin(alloc, frame, numbered, method.code, types)?;
    let own = judge_alone(alloc, &body, at, &act(insn), &mut frames)?;
    Ok(leave(alloc, at, insn, own, &frames)?)
}

/// Judges the instruction at an offset by its rule (JVMS 4.10.1.9). The frame before it has max_locals locals.
///
/// The instruction is refused with the least number that holds: one of its rule (60 to 66, 74, 76, 77, 90), or 77 or 82
/// for the protected member that it uses; or with 1 where memory ran out.
///
/// All types of the class get numbers for the one instruction. To judge a whole method call
/// [`verify_method`](crate::verify_method), which gives them out once.
pub fn apply<'a, C: Classes>(
    alloc: Global,
    env: &Env<'_, '_, 'a, C>,
    at: u16,
    insn: &Insn<'a>,
    frame: &Frame<'a>,
) -> Result<After<'a>, Refusal<'a>>
    requires { length frame.now.locals.items ≡ env.now.method.code.now.max_locals }
    ensures { let m = method_view env.now.method in
        let a = act (view insn.now) in
        Applied (C.content env.now.classes.now) m at a (typing_rule m a) (frame_of frame.now) result }
{
    let mut types = TypeNumbers::new(alloc, env.classes);
    let numbered = number(alloc, env.method.class, frame, &mut types)?;
    apply_numbered(alloc, env, at, insn, frame, &numbered, &types)
}
