//! Why bytes could not be read, and why a value could not be written.

ghost use Rattle.std.specs.Prelude.{◌≡◌};
ghost use Rattle.layout.specs.Refusals.{read_fault_number, write_fault_number};

use std::alloc::{AllocError, AllocFailed};
use thiserror::Error;

/// Why bytes are no spelling of a value. Each place counts bytes from 0.
#[derive(Clone, Copy, Debug, PartialEq, Eq, Error)]
pub enum ReadFault {
    /// 1: memory ran out.
    #[error("refused 1")]
    OutOfMemory,
    /// 2: the number or part that begins at `at` is not whole.
    #[error("refused 2 at {at}")]
    EndsEarly { at: usize },
    /// 3: a text is not modified UTF-8 (JVMS 4.4.7); `at` is the first byte of the first unit
    /// without a spelling.
    #[error("refused 3 at {at}")]
    BadText { at: usize },
    /// 7: the tag at `at` is not a tag of a constant, or may not stand there (JVMS 4.4), or the byte
    /// there is no kind of a method handle (JVMS 4.4.8); `tag` is that byte.
    #[error("refused 7 at {at} tag {tag}")]
    BadTag { at: usize, tag: u8 },
    /// 10: the file does not begin with `CAFEBABE` (JVMS 4.1).
    #[error("refused 10")]
    BadMagic,
    /// 11: the version is not one of those that are read (JVMS 4.1).
    #[error("refused 11 {major}.{minor}")]
    BadVersion { major: u16, minor: u16 },
    /// 12: the attribute whose name index stands at `at` does not use exactly its length (JVMS
    /// 4.7); where a stack map's body is read alone, bytes are left over from `at` on (4.7.4).
    #[error("refused 12 at {at}")]
    AttributeLength { at: usize },
    /// 13: bytes stand after the end, from `at` on.
    #[error("refused 13 at {at}")]
    BytesAfter { at: usize },
    /// 14: the part that begins at `at` would pass the most bytes that a class file may have.
    #[error("refused 14 at {at}")]
    TooLong { at: usize },
    /// 15: the reader failed after the first `at` bytes.
    #[error("refused 15 at {at}")]
    ReadFailed { at: usize },
    /// 16: the count of the constant pool, which stands at `at`, is 0 (JVMS 4.1).
    #[error("refused 16 at {at}")]
    BadPoolCount { at: usize },
    /// 47: the byte at `at` is not a type of a stack map frame (JVMS 4.7.4).
    #[error("refused 47 at {at}")]
    BadFrameType { at: usize },
    /// 48: the byte at `at` is not a tag of a verification type (JVMS 4.7.4).
    #[error("refused 48 at {at}")]
    BadTypeTag { at: usize },
}

impl ReadFault {
    /// The number of this fault.
    pub fn number(&self) -> u8
        ensures { result ≡ read_fault_number self.now }
    {
        match self {
            ReadFault::OutOfMemory => 1,
            ReadFault::EndsEarly { .. } => 2,
            ReadFault::BadText { .. } => 3,
            ReadFault::BadTag { .. } => 7,
            ReadFault::BadMagic => 10,
            ReadFault::BadVersion { .. } => 11,
            ReadFault::AttributeLength { .. } => 12,
            ReadFault::BytesAfter { .. } => 13,
            ReadFault::TooLong { .. } => 14,
            ReadFault::ReadFailed { .. } => 15,
            ReadFault::BadPoolCount { .. } => 16,
            ReadFault::BadFrameType { .. } => 47,
            ReadFault::BadTypeTag { .. } => 48,
        }
    }
}

/// Why a stream was not read to its end: what its reader gave, and the fault.
#[derive(Clone, Copy, Debug, PartialEq, Eq, Error)]
#[error("{why}")]
pub struct StreamFault {
    /// How many bytes the reader has given.
    pub taken: usize,
    /// Why no more were asked for.
    pub why: ReadFault,
}

/// Why a value is not written. Where both 17 and 18 hold, 17 is reported.
#[derive(Clone, Copy, Debug, PartialEq, Eq, Error)]
pub enum WriteFault {
    /// 1: memory ran out.
    #[error("refused 1")]
    OutOfMemory,
    /// 17: a count or a length passes its field, or the spelling has more than
    /// [`MAX_CLASS_BYTES`](crate::MAX_CLASS_BYTES) bytes.
    #[error("refused 17")]
    DoesNotFit,
    /// 18: no bytes spell the value.
    #[error("refused 18")]
    HasNoSpelling,
}

impl WriteFault {
    /// The number of this fault.
    pub fn number(&self) -> u8
        ensures { result ≡ write_fault_number self.now }
    {
        match self {
            WriteFault::OutOfMemory => 1,
            WriteFault::DoesNotFit => 17,
            WriteFault::HasNoSpelling => 18,
        }
    }
}

impl From<AllocError> for ReadFault {
    ghost use Rattle.layout.specs.declared.fault.ReadFault.TheVariants.{OutOfMemory};

    ghost from_gives = { λ _ e. e ≡ OutOfMemory };

    fn from(_e: AllocError) -> ReadFault {
        ReadFault::OutOfMemory
    }
}

impl<T: Drop> From<AllocFailed<T>> for ReadFault {
    ghost use Rattle.layout.specs.declared.fault.ReadFault.TheVariants.{OutOfMemory};

    ghost from_gives = { λ _ e. e ≡ OutOfMemory };

    fn from(_e: AllocFailed<T>) -> ReadFault {
        ReadFault::OutOfMemory
    }
}

impl From<AllocError> for WriteFault {
    ghost use Rattle.layout.specs.declared.fault.WriteFault.TheVariants.{OutOfMemory};

    ghost from_gives = { λ _ e. e ≡ OutOfMemory };

    fn from(_e: AllocError) -> WriteFault {
        WriteFault::OutOfMemory
    }
}

impl<T: Drop> From<AllocFailed<T>> for WriteFault {
    ghost use Rattle.layout.specs.declared.fault.WriteFault.TheVariants.{OutOfMemory};

    ghost from_gives = { λ _ e. e ≡ OutOfMemory };

    fn from(_e: AllocFailed<T>) -> WriteFault {
        WriteFault::OutOfMemory
    }
}
