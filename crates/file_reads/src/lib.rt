//! How much of a file is read: the class that it begins with, and the byte after it.
//!
//! - `blocks`: [`read_file`] reads that from any reader, by blocks of bytes; `reading`: part by part.
//! - `memory`: [`read_bytes`] takes it of a file whose bytes are in memory, by `outline`.
//! - `outline`: how far the outline of a class file reaches in bytes.
//!
//! Definitions: `specs/FileReads.antt` has the part of a file that is read.
#![tactic(auto)]

mod blocks;
mod memory;
mod outline;
mod reading;

pub use blocks::read_file;
pub use memory::read_bytes;
