//! Why an entry of a stack map declares no frame.
ghost use Rattle.std.specs.Prelude.{◌≡◌};
ghost use Rattle.frames.specs.FrameReasons.{frame_fault_number};

use std::alloc::AllocError;
use thiserror::Error;

/// Why an entry of a stack map is refused (JVMS 4.7.4, 4.10.1): of the first such entry the fault of the least number.
#[derive(Clone, Copy, Debug, PartialEq, Eq, Error)]
pub enum FrameFault {
    /// 1: memory ran out.
    #[error("refused 1")]
    OutOfMemory,
    /// 8: the index of a class is 0, past the pool's end, or the second index of a Long or Double.
    #[error("refused 8")]
    BadIndex,
    /// 9: another constant than a class stands at the index of a class.
    #[error("refused 9")]
    WrongKind,
    /// 49: the locals take more units than max_locals.
    #[error("refused 49")]
    LocalsOver,
    /// 50: the stack takes more units than max_stack.
    #[error("refused 50")]
    StackOver,
    /// 51: more locals are taken off than there are, a long or double being one of them.
    #[error("refused 51")]
    ChopTooMany,
    /// 52: no instruction begins at the offset of the entry.
    #[error("refused 52")]
    NotAStart,
    /// 53: no `new` begins where an uninitialized object is said to be made.
    #[error("refused 53")]
    NotANew,
}

impl FrameFault {
    /// The number of this fault.
    pub fn number(&self) -> u8
        ensures { result ≡ frame_fault_number self.now }
    {
        match self {
            FrameFault::OutOfMemory => 1,
            FrameFault::BadIndex => 8,
            FrameFault::WrongKind => 9,
            FrameFault::LocalsOver => 49,
            FrameFault::StackOver => 50,
            FrameFault::ChopTooMany => 51,
            FrameFault::NotAStart => 52,
            FrameFault::NotANew => 53,
        }
    }
}

impl From<AllocError> for FrameFault {
    ghost use Rattle.std.specs.Prelude.{◌≡◌};
    ghost use Rattle.frames.specs.declared.frame_fault.FrameFault.TheVariants.{OutOfMemory};

    ghost from_gives = { λ _ e. e ≡ OutOfMemory };

    fn from(_error: AllocError) -> FrameFault {
        FrameFault::OutOfMemory
    }
}
