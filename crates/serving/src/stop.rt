//! Why no message, or no further one, is answered.
ghost use Rattle.std.specs.Prelude.{◌≡◌};

use crate::known::KnownFault;
use std::alloc::AllocError;
use thiserror::Error;

/// Why no further message is answered, although the input has not ended where a message could begin.
#[derive(Clone, Copy, Debug, PartialEq, Eq, Error)]
pub enum Stop {
    /// 1: memory ran out, or a text is longer than its length can say.
    #[error("refused 1")]
    OutOfMemory,
    /// The random source refuses.
    #[error("no random words")]
    NoRandom,
    /// The input ends within a message.
    #[error("a message is cut")]
    Cut,
    /// A message begins with the letter of no kind.
    #[error("a message is of no kind")]
    NoKind,
    /// A message says that it has more than 16,777,216 bytes.
    #[error("a message is too long")]
    TooLong,
    /// The input cannot be read.
    #[error("the input cannot be read")]
    ReadFailed,
    /// A reply could not be written, or not whole.
    #[error("refused 19")]
    NotWritten,
    /// So many messages were answered.
    #[error("too many messages")]
    TooMany,
}

impl From<AllocError> for Stop {
    ghost use Rattle.serving.specs.declared.stop.Stop.TheVariants.{OutOfMemory};

    ghost from_gives = { λ _ e. e ≡ OutOfMemory };

    fn from(_error: AllocError) -> Stop {
        Stop::OutOfMemory
    }
}

/// Why not all messages up to the end of the input were answered.
#[derive(Clone, Copy, Debug, Error)]
pub enum ServeFault {
    /// The class in the known file of this number, which counts from 1, does not become known; those before it do. No
    /// message was read.
    #[error("known {number} {fault}")]
    NotKnown { number: usize, fault: KnownFault },
    /// Messages were answered up to here.
    #[error(transparent)]
    Stopped(Stop),
}
