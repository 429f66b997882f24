//! `libclassck`: the answers of the program to callers in C, Java or Python, about files that are in memory.
//!
//! [`classck_answer`] is the one call. `include/classck.h` says the same of it in C.
//!
//! - `request`: what a call asks for, and the command for that.
//! - `files`: the files of a call, from bytes that hold them one after the other.
//! - `answering`: the text and the status; `text`: the text as it is written; `no_answer`: why there are none; `seed`:
//!   the keys of hashes.
//!
//! Definitions: `specs/Calls.antt` has what a call answers, by `Requests` and `Files`.
#![tactic(auto)]

mod answering;
mod files;
mod no_answer;
mod request;
mod seed;
mod text;

ghost use Rattle.std.specs.Prelude.{◌≡◌, ◌++◌, length, take, drop};
ghost use Rattle.libclassck.specs.Calls.{Answers};

use crate::answering::answered;
pub use request::Request;
use std::alloc::Global;

/// How a call ended.
#[repr(C)]
pub struct Outcome {
    /// The status of the program, 0 or 1, if there is an answer; 2 if nothing can be asked so; 3 if memory ran out.
    pub status: u32,
    /// How many bytes the text has, whether or not they fit; 0 without an answer.
    pub needed: usize,
}

/// Copies the text, as far as the room goes.
fn put(text: &[u8], room: &mut [u8])
    ensures { room.new ≡ take (length room.old) text.now ++ drop (length text.now) room.old }
{
    let count = text.len().min(room.len());
    room[..count].copy_from_slice(&text[..count]);
}

/// Answers a request about files, which stand one after the other in `bytes`; `ends` has for each the offset in
/// `bytes` at which it ends. The text goes to `room`, as far as that reaches. Nothing is kept between calls.
///
/// The status is 2, and the room is as before, where the request is none, an end lies before the one in front of it or
/// behind the bytes, or bytes are left after the last end. It is 3 where memory runs out or
/// the text has over 64 MiB more than the room.
#[unsafe(no_mangle)]
pub extern "C" fn classck_answer(
    alloc: Global,
    request: &Request,
    bytes: &[u8],
    ends: &[u32],
    room: &mut [u8],
    outcome: &mut Outcome,
)
    ensures { Answers request.now bytes.now ends.now room.old room.new outcome.new }
{
    match answered(alloc, request, bytes, ends, room.len()) {
        Ok((status, text)) => {
            put(&text, room);
            outcome.status = u32::from(status);
            outcome.needed = text.len();
        }
        Err(none) => {
            outcome.status = none.status();
            outcome.needed = 0;
        }
    }
}
