//! Why the program ends without an answer.

use thiserror::Error;

/// Why the program ends without an answer, with status 2.
#[derive(Clone, Copy, Debug, Error)]
pub enum MainFault {
    /// The random source refuses.
    #[error("no random words")]
    NoRandom,
    /// This file cannot be opened; files count from 1 in the order of the line.
    #[error("file {0} cannot be opened")]
    CannotOpen(usize),
    /// Memory ran out.
    #[error("refused 1")]
    Memory,
    /// The answer could not be written whole.
    #[error("refused 19")]
    NotWritten,
}
