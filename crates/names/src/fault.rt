//! Why a text, a name or a descriptor is refused.

ghost use Rattle.std.specs.Prelude.{◌≡◌};

use std::alloc::{AllocError, AllocFailed};
use thiserror::Error;

/// The refusals of this crate. Their numbers are those of the whole product.
#[derive(Clone, Copy, Debug, PartialEq, Eq, Error)]
pub enum NameFault {
    /// 1: memory ran out. It may stand in place of any other answer of a call that takes memory.
    #[error("refused 1")]
    OutOfMemory,
    /// 3: the byte at this place begins a unit that has no right spelling there (JVMS 4.4.7).
    #[error("refused 3 at {at}")]
    BadText { at: usize },
    /// 4: the text is not a descriptor (JVMS 4.3). It is no beginning of one with the byte at this place,
    /// which is the text's length where the text ends early.
    #[error("refused 4 at {at}")]
    BadDescriptor { at: usize },
    /// 5: an array type has more than 255 dimensions (JVMS 4.3.2).
    #[error("refused 5")]
    TooManyDimensions,
    /// 6: the parameters, with the receiver if there is one, take more than 255 units (JVMS 4.3.3).
    #[error("refused 6")]
    TooWide,
}

impl NameFault {
    ghost use Rattle.names.specs.Faults.{number_of};

    /// The number of the refusal.
    pub fn number(&self) -> u8
        ensures { result ≡ number_of self.now }
    {
        match self {
            NameFault::OutOfMemory => 1,
            NameFault::BadText { .. } => 3,
            NameFault::BadDescriptor { .. } => 4,
            NameFault::TooManyDimensions => 5,
            NameFault::TooWide => 6,
        }
    }
}

impl From<AllocError> for NameFault {
    ghost use Rattle.names.specs.declared.fault.NameFault.TheVariants.{OutOfMemory};

    ghost from_gives = { λ _ e. e ≡ OutOfMemory };

    fn from(_e: AllocError) -> NameFault {
        NameFault::OutOfMemory
    }
}

impl<T: Drop> From<AllocFailed<T>> for NameFault {
    ghost use Rattle.names.specs.declared.fault.NameFault.TheVariants.{OutOfMemory};

    ghost from_gives = { λ _ e. e ≡ OutOfMemory };

    fn from(_e: AllocFailed<T>) -> NameFault {
        NameFault::OutOfMemory
    }
}
