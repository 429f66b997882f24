//! Reading and writing the parts of a binary format, each as the bytes that spell it.
//!
//! Proved against formats (`specs/Format.antt`): a format says which bytes spell which value
//! (`Spells`) and what the first fault of other bytes is (`FirstFault`). The one trait to know is
//! [`Part`]: `take` and `put` are the two directions of one format, and its laws tie them together.
//!
//! - `cursor`: bytes that are read from left to right
//! - `fault`: why bytes are refused, why a value is not written, and the numbers of both
//! - `laws`: laws of all formats and of what is written; its functions do nothing
//! - `limits`: the most bytes of a class file and of code
//! - `lists`: lists of parts, and the end of an attribute's body
//! - `output`: bytes that are written part by part, up to the limit
//! - `part`: the trait `Part`, and its implementation for numbers of two bytes
//! - `reading`: bytes that are gathered from a reader, part by part, and no byte more
#![tactic(auto)]

mod cursor;
mod fault;
mod laws;
mod limits;
mod lists;
mod output;
mod part;
mod reading;

pub use cursor::Cursor;
pub use fault::{ReadFault, StreamFault, WriteFault};
pub use laws::{
    body_is_whole, reading_is_spelling, streams_are_decided, whole_is_spelling, writing_is_spelling,
};
pub use limits::{MAX_CLASS_BYTES, MAX_CODE_BYTES};
pub use lists::{many, whole};
pub use output::Output;
pub use part::Part;
pub use reading::Reading;
