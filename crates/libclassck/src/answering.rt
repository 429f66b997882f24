//! The text and the status of a call.
ghost use Rattle.std.specs.Prelude.{◌≡◌, IfOk, IfErr};
ghost use Rattle.libclassck.specs.Calls.{Told, NothingAsked};
ghost use Rattle.libclassck.specs.declared.no_answer.NoAnswer.TheVariants.{NotAsked};

use crate::files::{files_of, read_files};
use crate::no_answer::NoAnswer;
use crate::request::{Request, command_of};
use crate::seed::Seed;
use crate::text::Text;
use answers::answer;
use std::alloc::Global;
use std::hash::RandomState;

/// The status and the text that answer a request about the files that the bytes are, or why there are none. A text that
/// has over 64 MiB more than the room is none, as where memory runs out.
pub fn answered(
    alloc: Global,
    request: &Request,
    bytes: &[u8],
    ends: &[u32],
    room: usize,
) -> Result<(u8, Vec<u8>), NoAnswer>
    ensures told { IfOk result (λ x. Told request.now bytes.now ends.now x.1.items x.0) }
    ensures none { IfErr result (λ e. e ≡ NotAsked → NothingAsked request.now bytes.now ends.now) }
{
    let Some(command) = command_of(request, ends.len()) else {
        return Err(NoAnswer::NotAsked);
    };
    let Some(files) = files_of(alloc, bytes, ends)? else {
        return Err(NoAnswer::NotAsked);
    };
    let reads = read_files(alloc, &files)?;
    let Ok(hasher) = RandomState::new(&Seed(request.seed)) else {
        return Err(NoAnswer::OutOfMemory);
    };
    let mut text = Text::for_room(alloc, room);
    let status = answer(alloc, command, &reads, hasher, &mut text)?;
    Ok((status, text.bytes))
}
