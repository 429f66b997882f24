//! Walks of methods that are verified.
ghost use Rattle.std.specs.Prelude.{◌≡◌, ◌≢◌, ◌↔◌, ◌<◌, IsTrue, map, length, IfOk, IfErr};
ghost use Rattle.classfile.specs.CodeMethods.{judged_class};
ghost use Rattle.classfile.specs.Methods.{Method as MethodFact};
ghost use Rattle.classfile.specs.Views.{class_view};
ghost use Rattle.hierarchy.specs.Class.{world_of};
ghost use Rattle.hierarchy.specs.Rules.{IsHierarchy};
ghost use Rattle.insn.specs.Meanings.{Act};
ghost use Rattle.machine.specs.declared.walks.Last.TheVariants.{Fault};
ghost use Rattle.machine.specs.Runs.{IsInitial};
ghost use Rattle.machine.specs.Views.{state_view, choice_view, stop_view};
ghost use Rattle.verify.specs.declared.verdict.Verdict.TheVariants.{Verified};
ghost use Rattle.verify.specs.ClassMethods.{IsMethod, IsTypeSafeIn, IsSafeIn};
ghost use Rattle.verify.specs.Listed.{IsListed};
ghost use Rattle.verify.specs.VerifiedWalks.{BeginsIn, WalksIn, IsSafeWalk, IsUnverified, WalksVerified, walk_fault_number};

use crate::method::verify_method;
use crate::verdict::{Verdict, VerifyFault};
use classfile::Formed;
use hierarchy::Classes;
use insn::CodeFault;
use machine::{Choice, Method, State, StepFault, Walked, is_initial, walk};
use names::OBJECT;
use std::alloc::{AllocError, Global};
use thiserror::Error;

/// Why there is no walk of a method that is to be verified.
#[derive(Clone, Copy, Debug, PartialEq, Eq, Error)]
pub enum WalkFault {
    /// 1: memory ran out.
    #[error("refused 1")]
    OutOfMemory,
    /// 55: the method does not begin in the state, or has no code.
    #[error("refused 55")]
    NotInitial,
    /// 56: the method is not verified.
    #[error("refused 56")]
    NotVerified,
    /// 80: the hierarchy has no class with exactly the summary of this one.
    #[error("refused 80")]
    NotInHierarchy,
}

impl WalkFault {
    /// The number of this fault.
    pub fn number(&self) -> u8
        ensures { result ≡ walk_fault_number self.now }
    {
        match self {
            WalkFault::OutOfMemory => 1,
            WalkFault::NotInitial => 55,
            WalkFault::NotVerified => 56,
            WalkFault::NotInHierarchy => 80,
        }
    }
}

impl From<AllocError> for WalkFault {
    ghost use Rattle.verify.specs.declared.verified_walk.WalkFault.TheVariants.{OutOfMemory};

    ghost from_gives = { λ _ e. e ≡ OutOfMemory };

    fn from(_error: AllocError) -> WalkFault {
        WalkFault::OutOfMemory
    }
}

impl From<VerifyFault> for WalkFault {
    ghost use Rattle.verify.specs.VerifiedWalks.{of_verify_fault};

    ghost from_gives = { λ fault e. e ≡ of_verify_fault fault };

    fn from(fault: VerifyFault) -> WalkFault {
        match fault {
            VerifyFault::OutOfMemory => WalkFault::OutOfMemory,
            VerifyFault::NotInHierarchy => WalkFault::NotInHierarchy,
        }
    }
}

/// Whether the method has code and begins in the state. The only refusal: memory ran out.
fn begins_in<'a, C: Classes>(
    alloc: Global,
    formed: &Formed<'_, 'a>,
    number: usize,
    classes: &C,
    state: &State<'a>,
) -> Result<bool, AllocError>
    requires { number < length formed.now.class.now.methods.items }
    ensures begins { IfOk result (λ b. IsTrue b
        ↔ BeginsIn (C.content classes.now) (judged_class formed.now) number (state_view state.now)) }
    // So the method with its instructions begins there, if its code is some.
    ensures so { IfOk result (λ b. IsTrue b → (m : MethodFact Act) → IsMethod (judged_class formed.now) number m
        → IsInitial (world_of (C.content classes.now)) m (state_view state.now)) }
{
    match formed.method(number) {
        None => Ok(false),
        Some(method) => is_initial(alloc, &method, state, classes),
    }
}

fn is_verified(verdict: &Verdict<'_>) -> bool
    ensures { IsTrue result ↔ (verdict.now ≡ Verified) }
{
    match verdict {
        Verdict::Verified => true,
        Verdict::NoCode | Verdict::Refused { .. } => false,
    }
}

/// Refuses a method that is not verified, with 80 where the hierarchy does not have its class as it is, and otherwise
/// with 56; or with 1 where memory ran out.
fn check_verified<C: Classes>(
    alloc: Global,
    formed: &Formed<'_, '_>,
    number: usize,
    classes: &C,
) -> Result<(), WalkFault>
    requires { number < length formed.now.class.now.methods.items }
    ensures listed { IfOk result (λ _. IsListed (C.content classes.now) (class_view formed.now.class.now)) }
    ensures type_safe { IfOk result (λ _. IsTypeSafeIn (C.content classes.now) (judged_class formed.now) number) }
    // By the theorem no run of it meets a fault.
    ensures safe { IfOk result (λ _. IsSafeIn (C.content classes.now) (judged_class formed.now) number) }
    ensures refused { IfErr result (IsUnverified (C.content classes.now) (judged_class formed.now) number) }
{
    let verdict = verify_method(alloc, formed, number, classes)?;
    if !is_verified(&verdict) {
        return Err(WalkFault::NotVerified);
    }
    Ok(())
}

/// The walk of a method whose code is instructions. The only refusal: memory ran out.
fn walk_method<'a, C: Classes>(
    alloc: Global,
    formed: &Formed<'_, 'a>,
    number: usize,
    classes: &C,
    state: &State<'a>,
    choices: &[Choice<'a>],
) -> Result<Walked<'a>, AllocError>
    requires within { number < length formed.now.class.now.methods.items }
    requires coded { (m : MethodFact Act) × IsMethod (judged_class formed.now) number m }
    ensures walks { IfOk result (λ w. WalksIn (C.content classes.now) (judged_class formed.now) number
        (state_view state.now) (map choice_view choices.now) w.taken (stop_view w.last)) }
    ensures hierarchy { IsHierarchy (C.content classes.now) }
{
    let _object = classes.find(OBJECT);
    let method = match Method::new(alloc, formed, number) {
        Ok(method) => method,
        Err(CodeFault::OutOfMemory) => return Err(AllocError),
        Err(_) => unreachable!(),
    };
    match walk(alloc, &method, classes, state, choices) {
        Ok(walked) => Ok(walked),
        Err(StepFault::OutOfMemory) => Err(AllocError),
        Err(StepFault::NotAChoice | StepFault::NotInitial) => unreachable!(),
    }
}

/// The walk by these choices of the method of this number, which counts from 0, from a state in which it begins (see
/// [`walk`]), where the method is verified (see [`verify_method`]): in the world that has the hierarchy's classes and
/// no other.
///
/// No such walk meets a fault, whatever the choices: neither where it stops nor in a state on the way (JVMS 2.6, 2.10,
/// 4.10.1).
///
/// It is refused with the least number that holds: the method does not begin in the state, or has no code (55); the
/// method is not verified (56); the hierarchy does not have its class with exactly its summary (80). Or with 1 where
/// memory ran out.
pub fn walk_verified<'a, C: Classes>(
    alloc: Global,
    formed: &Formed<'_, 'a>,
    number: usize,
    classes: &C,
    state: &State<'a>,
    choices: &[Choice<'a>],
) -> Result<Walked<'a>, WalkFault>
    requires { number < length formed.now.class.now.methods.items }
    // Each answer exactly where it holds, unless memory runs out.
    ensures exactly { WalksVerified (C.content classes.now) (judged_class formed.now) number (state_view state.now)
        (map choice_view choices.now) result }
    // It never stops at a fault.
    ensures no_fault { IfOk result (λ w. w.last ≢ Fault) }
    // Nor is any state on the way one.
    ensures safe { IfOk result (λ w. IsSafeWalk (C.content classes.now) (judged_class formed.now) number
        (state_view state.now) (map choice_view choices.now) (stop_view w.last)) }
{
    if !begins_in(alloc, formed, number, classes, state)? {
        return Err(WalkFault::NotInitial);
    }
    check_verified(alloc, formed, number, classes)?;
    let walked = walk_method(alloc, formed, number, classes, state, choices)?;
    Ok(walked)
}
