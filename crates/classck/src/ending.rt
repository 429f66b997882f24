//! Ends without an answer, with status 2.
ghost use Rattle.std.specs.Prelude.{◌≡◌};
ghost use Rattle.classck.specs.declared.ending.Ending.TheVariants.{Fault};
ghost use Rattle.command_line.specs.declared.fault.MainFault.TheVariants.{Memory};
ghost use Rattle.classck.specs.Endings.{line_ending, answer_ending};

use answers::AnswerFault;
use command_line::{LineFault, MainFault, complaint};
use serving::ServeFault;
use std::alloc::{AllocError, AllocFailed};

/// Why the program ends with status 2.
#[derive(Drop)]
pub enum Ending {
    /// The command line is invalid, or asks for help.
    Line(clap::Error),
    /// A word of the line is not a UTF-8.
    NoText,
    /// Something else went wrong.
    Fault(MainFault),
    /// Not all messages were answered.
    Serving(ServeFault),
}

impl Ending {
    /// Says why on standard error, as far as that takes it.
    pub fn tell(&self, rt: &HostRuntime) {
        let _ = match self {
            Ending::Line(error) => rt.eprint(error).is_ok(),
            Ending::NoText => rt.eprint(&"the line is no UTF-8\n").is_ok(),
            Ending::Fault(fault) => complaint(fault, &mut rt.stderr()).is_ok(),
            Ending::Serving(fault) => serving::complaint(fault, &mut rt.stderr()).is_ok(),
        };
    }
}

impl From<AllocError> for Ending {
    ghost from_gives = { λ _ e. e ≡ Fault Memory };

    fn from(_e: AllocError) -> Ending {
        Ending::Fault(MainFault::Memory)
    }
}

impl<T: Drop> From<AllocFailed<T>> for Ending {
    ghost from_gives = { λ _ e. e ≡ Fault Memory };

    fn from(_e: AllocFailed<T>) -> Ending {
        Ending::Fault(MainFault::Memory)
    }
}

impl From<LineFault> for Ending {
    ghost from_gives = { λ fault e. e ≡ line_ending fault };

    fn from(fault: LineFault) -> Ending {
        match fault {
            LineFault::OutOfMemory => Ending::Fault(MainFault::Memory),
            LineFault::NoRequest(error) => Ending::Line(error),
        }
    }
}

impl From<AnswerFault> for Ending {
    ghost from_gives = { λ fault e. e ≡ answer_ending fault };

    fn from(fault: AnswerFault) -> Ending {
        match fault {
            AnswerFault::OutOfMemory => Ending::Fault(MainFault::Memory),
            AnswerFault::WriteFailed => Ending::Fault(MainFault::NotWritten),
        }
    }
}
