//! The verdict on a method.
ghost use Rattle.std.specs.Prelude.{◌≡◌};
ghost use Rattle.verify.specs.Answers.{verify_fault_number};

use rules::Reason;
use std::alloc::{AllocError, AllocFailed};
use thiserror::Error;

/// The verdict on a method (JVMS 4.10.1).
#[derive(Clone, Copy, Debug, PartialEq, Eq)]
pub enum Verdict<'a> {
    /// It is type-safe.
    Verified,
    /// It has no code.
    NoCode,
    /// It is refused at the instruction that begins `at`, counted in bytes from the start of the code.
    Refused { at: usize, reason: Reason<'a> },
}

/// Why there is no verdict.
#[derive(Clone, Copy, Debug, PartialEq, Eq, Error)]
pub enum VerifyFault {
    /// 1: memory ran out.
    #[error("refused 1")]
    OutOfMemory,
    /// 80: the hierarchy has no class with exactly the summary of this one.
    #[error("refused 80")]
    NotInHierarchy,
}

impl VerifyFault {
    /// The number of this fault.
    pub fn number(&self) -> u8
        ensures { result ≡ verify_fault_number self.now }
    {
        match self {
            VerifyFault::OutOfMemory => 1,
            VerifyFault::NotInHierarchy => 80,
        }
    }
}

impl From<AllocError> for VerifyFault {
    ghost use Rattle.verify.specs.declared.verdict.VerifyFault.TheVariants.{OutOfMemory};

    ghost from_gives = { λ _ e. e ≡ OutOfMemory };

    fn from(_error: AllocError) -> VerifyFault {
        VerifyFault::OutOfMemory
    }
}

impl<T: Drop> From<AllocFailed<T>> for VerifyFault {
    ghost use Rattle.verify.specs.declared.verdict.VerifyFault.TheVariants.{OutOfMemory};

    ghost from_gives = { λ _ e. e ≡ OutOfMemory };

    fn from(_failed: AllocFailed<T>) -> VerifyFault {
        VerifyFault::OutOfMemory
    }
}
