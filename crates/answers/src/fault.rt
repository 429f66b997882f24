//! Why an answer was not written as a whole.
ghost use Rattle.std.specs.Prelude.{◌≡◌};

use printing::WriteFailed;
use std::alloc::{AllocError, AllocFailed};
use thiserror::Error;

/// Why an answer was not written as a whole.
#[derive(Clone, Copy, Debug, Error)]
pub enum AnswerFault {
    /// 1: memory ran out, and nothing was written.
    #[error("refused 1")]
    OutOfMemory,
    /// 19: a write failed or took nothing, and a prefix of the text was written.
    #[error("refused 19")]
    WriteFailed,
}

impl From<WriteFailed> for AnswerFault {
    ghost use Rattle.answers.specs.declared.fault.AnswerFault.TheVariants as faults;

    ghost from_gives = { λ _ e. e ≡ faults.WriteFailed };

    fn from(_failed: WriteFailed) -> AnswerFault {
        AnswerFault::WriteFailed
    }
}

impl From<AllocError> for AnswerFault {
    ghost use Rattle.answers.specs.declared.fault.AnswerFault.TheVariants as faults;

    ghost from_gives = { λ _ e. e ≡ faults.OutOfMemory };

    fn from(_error: AllocError) -> AnswerFault {
        AnswerFault::OutOfMemory
    }
}

impl<T: Drop> From<AllocFailed<T>> for AnswerFault {
    ghost use Rattle.answers.specs.declared.fault.AnswerFault.TheVariants as faults;

    ghost from_gives = { λ _ e. e ≡ faults.OutOfMemory };

    fn from(_failed: AllocFailed<T>) -> AnswerFault {
        AnswerFault::OutOfMemory
    }
}
