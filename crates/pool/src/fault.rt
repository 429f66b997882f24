//! Why an index of the pool does not lead to what is asked for.
ghost use Rattle.std.specs.Prelude.{◌≡◌};
ghost use Rattle.pool.specs.Refusals.{pool_fault_number};

use thiserror::Error;

/// Why a look-up fails, with the index at fault: the first in the order in which a reader follows
/// them.
#[derive(Clone, Copy, Debug, PartialEq, Eq, Error)]
pub enum PoolFault {
    /// 8: the index is 0, past the pool's end, or the second index of a `Long` or `Double`.
    #[error("refused 8 index {index}")]
    BadIndex { index: u16 },
    /// 9: a constant of another kind stands at the index.
    #[error("refused 9 index {index}")]
    WrongKind { index: u16 },
}

impl PoolFault {
    /// The number of this fault.
    pub fn number(&self) -> u8
        ensures { result ≡ pool_fault_number self.now }
    {
        match self {
            PoolFault::BadIndex { .. } => 8,
            PoolFault::WrongKind { .. } => 9,
        }
    }
}
