//! The choice at a step, and its outcome.
ghost use Rattle.std.specs.Prelude.{◌≡◌};
ghost use Rattle.machine.specs.Views.{fault_number};

use crate::items::Value;
use crate::objects::RunType;
use crate::snapshot::State;
use std::alloc::{AllocError, AllocFailed};
use thiserror::Error;

/// A choice for whatever an instruction leaves open (JVMS 6.5). In each choice `fresh` has the objects that come into
/// being first: ready, each at an address that is unused.
#[derive(Drop)]
pub enum Choice<'a> {
    /// The instruction is done.
    Go {
        /// The offset in the code that is gone to, given exactly for an instruction with targets.
        branch: Option<u16>,
        /// The value that is answered, given exactly for an instruction that asks for one.
        answer: Option<Value>,
        fresh: Vec<(u32, RunType<'a>)>,
    },
    /// An object is raised (JVMS 2.10).
    Raise {
        /// Where the object is.
        address: u32,
        fresh: Vec<(u32, RunType<'a>)>,
        /// The place in the exception table, from 0, of the entry that catches it. Without one the method ends.
        entry: Option<u16>,
    },
}

/// The outcome of a choice in a state.
#[derive(Drop)]
pub enum Outcome<'a> {
    /// The state before the next instruction.
    Next(State<'a>),
    /// The method has ended.
    Ended,
    /// The state does not meet what its instruction demands.
    Fault,
}

/// Why a step was not taken.
#[derive(Clone, Copy, Debug, PartialEq, Eq, Error)]
pub enum StepFault {
    /// 1: memory ran out.
    #[error("refused 1")]
    OutOfMemory,
    /// 54: the state is not a fault, and nothing comes of this choice there.
    #[error("refused 54")]
    NotAChoice,
    /// 55: the method begins with no such values and objects.
    #[error("refused 55")]
    NotInitial,
}

impl StepFault {
    /// The number of this fault.
    pub fn number(&self) -> u8
        ensures { result ≡ fault_number self.now }
    {
        match self {
            StepFault::OutOfMemory => 1,
            StepFault::NotAChoice => 54,
            StepFault::NotInitial => 55,
        }
    }
}

impl From<AllocError> for StepFault {
    ghost use Rattle.machine.specs.declared.choosing.StepFault.TheVariants.{OutOfMemory};

    ghost from_gives = { λ _ e. e ≡ OutOfMemory };

    fn from(_error: AllocError) -> StepFault {
        StepFault::OutOfMemory
    }
}

impl<T: Drop> From<AllocFailed<T>> for StepFault {
    ghost use Rattle.machine.specs.declared.choosing.StepFault.TheVariants.{OutOfMemory};

    ghost from_gives = { λ _ e. e ≡ OutOfMemory };

    fn from(_failed: AllocFailed<T>) -> StepFault {
        StepFault::OutOfMemory
    }
}
