//! Why a call has no answer.
ghost use Rattle.std.specs.Prelude.{◌≡◌};
ghost use Rattle.libclassck.specs.Calls.{no_status};

use answers::AnswerFault;
use std::alloc::AllocError;
use thiserror::Error;

/// Why a call has no answer.
#[derive(Clone, Copy, Debug, Error)]
pub enum NoAnswer {
    /// 2: the request is none, or the ends are not those of files that are all of the bytes.
    #[error("nothing can be asked so")]
    NotAsked,
    /// 3: memory ran out, or the text is longer than it may be.
    #[error("refused 1")]
    OutOfMemory,
}

impl NoAnswer {
    /// The status of the call.
    pub fn status(self) -> u32
        ensures { result ≡ no_status self }
    {
        match self {
            NoAnswer::NotAsked => 2,
            NoAnswer::OutOfMemory => 3,
        }
    }
}

impl From<AllocError> for NoAnswer {
    ghost use Rattle.libclassck.specs.declared.no_answer.NoAnswer.TheVariants as none;

    ghost from_gives = { λ _ e. e ≡ none.OutOfMemory };

    fn from(_error: AllocError) -> NoAnswer {
        NoAnswer::OutOfMemory
    }
}

impl From<AnswerFault> for NoAnswer {
    ghost use Rattle.libclassck.specs.declared.no_answer.NoAnswer.TheVariants as none;

    ghost from_gives = { λ _ e. e ≡ none.OutOfMemory };

    // The text is written to memory, so a write fails only where that runs out, or the text is longer than it may be.
    fn from(_fault: AnswerFault) -> NoAnswer {
        NoAnswer::OutOfMemory
    }
}
