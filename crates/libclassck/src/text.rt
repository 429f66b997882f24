//! The text of an answer, as it is written.
ghost use Rattle.std.specs.Prelude.{◌≡◌, []};

use std::alloc::Global;
use std::io::{self, ErrorKind, Write};

/// How many bytes a text may have that the room has not: 64 MiB.
const BEYOND: usize = 1 << 26;

/// A text in memory, of at most so many bytes. A write that would pass them fails, and changes nothing.
#[derive(Drop)]
pub struct Text {
    pub bytes: Vec<u8>,
    most: usize,
}

impl Text {
    /// An empty text for a room of so many bytes.
    pub fn for_room(alloc: Global, room: usize) -> Text
        ensures { result.bytes.items ≡ [] }
    {
        Text {
            bytes: Vec::new(alloc),
            most: room.saturating_add(BEYOND),
        }
    }
}

impl Write for Text {
    ghost use Rattle.std.specs.Prelude.{Some};

    ghost contents = { λ t. Some t.bytes.items };

    fn write(&mut self, buf: &[u8]) -> io::Result<usize> {
        if buf.len() > self.most.saturating_sub(self.bytes.len()) {
            return Err(io::Error::from(ErrorKind::OutOfMemory));
        }
        self.bytes.extend_from_slice(buf)?;
        Ok(buf.len())
    }

    fn flush(&mut self) -> io::Result<()> {
        Ok(())
    }
}
