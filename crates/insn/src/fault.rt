//! Why bytes are no code.
ghost use Rattle.std.specs.Prelude.{◌≡◌};
ghost use Rattle.insn.specs.Faults.{code_fault_number};

use std::alloc::{AllocError, AllocFailed};
use thiserror::Error;

/// Why bytes are no code: the first instruction at fault, which begins at `at`, counted in bytes
/// from 0 (JVMS 4.9.1, 6.5).
#[derive(Clone, Copy, Debug, PartialEq, Eq, Error)]
pub enum CodeFault {
    /// 1: memory ran out.
    #[error("refused 1")]
    OutOfMemory,
    /// 31: the byte is not an opcode (202 to 255).
    #[error("refused 31 at {at}")]
    BadOpcode { at: usize },
    /// 32: the code ends inside the instruction.
    #[error("refused 32 at {at}")]
    CutInstruction { at: usize },
    /// 33: a `tableswitch` has a low bound over its high one, or a `lookupswitch` a negative count
    /// or keys that do not rise.
    #[error("refused 33 at {at}")]
    BadSwitch { at: usize },
    /// 34: what follows `wide` is not an opcode that it modifies.
    #[error("refused 34 at {at}")]
    BadWide { at: usize },
    /// 35: a byte of `invokeinterface` or `invokedynamic` that must be 0 is not.
    #[error("refused 35 at {at}")]
    NonZeroByte { at: usize },
}

impl CodeFault {
    /// The number of this fault.
    pub fn number(&self) -> u8
        ensures { result ≡ code_fault_number self.now }
    {
        match self {
            CodeFault::OutOfMemory => 1,
            CodeFault::BadOpcode { .. } => 31,
            CodeFault::CutInstruction { .. } => 32,
            CodeFault::BadSwitch { .. } => 33,
            CodeFault::BadWide { .. } => 34,
            CodeFault::NonZeroByte { .. } => 35,
        }
    }
}

impl From<AllocError> for CodeFault {
    ghost use Rattle.insn.specs.declared.fault.CodeFault.TheVariants.{OutOfMemory};

    ghost from_gives = { λ _ e. e ≡ OutOfMemory };

    fn from(_e: AllocError) -> CodeFault {
        CodeFault::OutOfMemory
    }
}

impl<T: Drop> From<AllocFailed<T>> for CodeFault {
    ghost use Rattle.insn.specs.declared.fault.CodeFault.TheVariants.{OutOfMemory};

    ghost from_gives = { λ _ e. e ≡ OutOfMemory };

    fn from(_e: AllocFailed<T>) -> CodeFault {
        CodeFault::OutOfMemory
    }
}
