//! Command lines: the request that the words make, and the text where the program ends without an answer.
//!
//! `line` has what is asked for, `parsing` reads it of words with `clap`, `fault` has what else may go wrong, and
//! `complaining` says it.
#![tactic(auto)]

mod complaining;
mod fault;
mod line;
mod parsing;

pub use complaining::complaint;
pub use fault::MainFault;
pub use line::{LineFault, Request, Task};
pub use parsing::request;
