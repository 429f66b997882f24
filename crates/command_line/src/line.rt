//! The request that a command line makes, or why it makes none.
ghost use Rattle.std.specs.Prelude.{◌≡◌};
ghost use Rattle.command_line.specs.declared.line.LineFault.TheVariants.{OutOfMemory};

use answers::{Command, Form};
use classfile::Profile;
use std::alloc::{AllocError, AllocFailed};
use thiserror::Error;

/// A task of the program.
#[derive(Clone, Copy, Debug, PartialEq, Eq)]
pub enum Task {
    /// To answer a command about its files.
    Answer(Command),
    /// To answer messages, where the classes in its files are known from the beginning.
    Serve { form: Form, profile: Profile },
}

/// A task and its files.
#[derive(Debug, Drop)]
pub struct Request {
    /// The task.
    pub task: Task,
    /// The paths of its files, in the order of the line, as they stand there.
    pub files: Vec<String>,
}

/// Why a command line makes no request.
#[derive(Debug, Drop, Error)]
pub enum LineFault {
    /// 1: memory ran out.
    #[error("refused 1")]
    OutOfMemory,
    /// 36: the command line is invalid, or asks for help; `clap` says which, in its own words.
    #[error("{0}")]
    NoRequest(clap::Error),
}

impl From<AllocError> for LineFault {
    ghost from_gives = { λ _ e. e ≡ OutOfMemory };

    fn from(_e: AllocError) -> LineFault {
        LineFault::OutOfMemory
    }
}

impl<T: Drop> From<AllocFailed<T>> for LineFault {
    ghost from_gives = { λ _ e. e ≡ OutOfMemory };

    fn from(_e: AllocFailed<T>) -> LineFault {
        LineFault::OutOfMemory
    }
}
