//! Why an instruction or a method is refused.
ghost use Rattle.std.specs.Prelude.{◌≡◌};
ghost use Rattle.rules.specs.Reasons.{reason_number};
ghost use Rattle.rules.specs.declared.reason.Reason.TheVariants.{OutOfMemory};

use std::alloc::{AllocError, AllocFailed};

/// Why an instruction, or with it its method, is refused (JVMS 4.10.1).
#[derive(Clone, Copy, Debug, PartialEq, Eq)]
pub enum Reason<'a> {
    /// 1: memory ran out.
    OutOfMemory,
    /// 60: the verifier has no rule for the instruction.
    NotSupported,
    /// 61: the stack has fewer items than the rule names; for the instructions that move items, fewer units.
    MissingOperand,
    /// 62: an operand does not meet the rule.
    WrongOperand,
    /// 63: the local variable that is read is of another type.
    WrongLocal,
    /// 64: the local variable, or its second half, is not below max_locals.
    LocalOutOfRange,
    /// 65: the stack is then wider than max_stack.
    StackOver,
    /// 66: the constant, or an immediate byte, does not meet the rule.
    WrongConstant,
    /// 67: a target has no declared frame.
    NoFrameAtTarget,
    /// 68: the frame after is not assignable to that of a target.
    NotAssignableAtTarget,
    /// 69: the frame that comes in is not assignable to the declared one.
    NotAssignable,
    /// 70: no frame comes in, and none is declared.
    NoFrame,
    /// 71: the last instruction goes on.
    FallsOff,
    /// 72: an entry of the exception table is wrong.
    BadException,
    /// 73: the frame before is not assignable to that of a handler which covers the instruction.
    HandlerNotAssignable,
    /// 74: an instance initialization method returns before its own object is initialized.
    OwnObjectNotReady,
    /// 75: a handler covers an instance initialization method's call on the own object.
    ConstructorCovered,
    /// 76: the return is of another kind than the method's result.
    WrongReturn,
    /// 77: a comparison needs the class of this name, which is absent.
    ClassMissing(&'a [u8]),
    /// 78: the stack map is refused, by the fault of this number.
    BadStackMap { fault: u8 },
    /// 79: the code is refused, by the fault of this number.
    BadCode { fault: u8 },
    /// 82: a protected member of another package is used on an object that may not be of the current class.
    ProtectedMember,
    /// 86: the interface whose method `invokespecial` calls is not the class itself, its direct superclass or one of its
    /// direct superinterfaces (JVMS 4.9.2); of a class that is read as a release has it.
    NotDirectInterface,
    /// 90: the class has no bootstrap method for the constant, or one that may not be used (JVMS 4.4.10, 4.7.23).
    BadBootstrap,
}

impl Reason<'_> {
    /// The number of this reason.
    pub fn number(&self) -> u8
        ensures { result ≡ reason_number self.now }
    {
        match self {
            Reason::OutOfMemory => 1,
            Reason::NotSupported => 60,
            Reason::MissingOperand => 61,
            Reason::WrongOperand => 62,
            Reason::WrongLocal => 63,
            Reason::LocalOutOfRange => 64,
            Reason::StackOver => 65,
            Reason::WrongConstant => 66,
            Reason::NoFrameAtTarget => 67,
            Reason::NotAssignableAtTarget => 68,
            Reason::NotAssignable => 69,
            Reason::NoFrame => 70,
            Reason::FallsOff => 71,
            Reason::BadException => 72,
            Reason::HandlerNotAssignable => 73,
            Reason::OwnObjectNotReady => 74,
            Reason::ConstructorCovered => 75,
            Reason::WrongReturn => 76,
            Reason::ClassMissing(_) => 77,
            Reason::BadStackMap { .. } => 78,
            Reason::BadCode { .. } => 79,
            Reason::ProtectedMember => 82,
            Reason::NotDirectInterface => 86,
            Reason::BadBootstrap => 90,
        }
    }
}

impl<'a, T: Drop> From<AllocFailed<T>> for Reason<'a> {
    ghost use Rattle.rules.specs.declared.reason.Reason.TheVariants.{OutOfMemory};

    ghost from_gives = { λ _ e. e ≡ OutOfMemory };

    fn from(_failed: AllocFailed<T>) -> Reason<'a> {
        Reason::OutOfMemory
    }
}

impl<'a> From<AllocError> for Reason<'a> {
    ghost use Rattle.rules.specs.declared.reason.Reason.TheVariants.{OutOfMemory};

    ghost from_gives = { λ _ e. e ≡ OutOfMemory };

    fn from(_error: AllocError) -> Reason<'a> {
        Reason::OutOfMemory
    }
}
