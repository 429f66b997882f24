//! The first entry of a stack map that its bytes do not spell.
ghost use Rattle.std.specs.Prelude.{◌≡◌, IfOk};
ghost use Rattle.frames.specs.RefusedEntries.{faulty_entry};

use crate::stack_map::MapEntry;
use layout::{Cursor, Part, ReadFault};
use std::alloc::{AllocError, Global};

/// The place of the entry, from 0, that has the first fault of the body of a StackMapTable (JVMS 4.7.4): a part of it
/// passes the end, or its frame type or the tag of one of its types is none.
///
/// `None` where the body is a stack map, or its fault is in the number of the entries or after the last of them. The
/// memory that is taken is that of one entry at a time.
pub fn faulty_entry(alloc: Global, body: &[u8]) -> Result<Option<usize>, AllocError>
    ensures { IfOk result (λ o. o ≡ faulty_entry body.now) }
{
    let mut cursor = Cursor::new(body);
    let Ok(count) = cursor.u2() else {
        return Ok(None);
    };
    for place in 0..usize::from(count) {
        match MapEntry::take(alloc, &mut cursor) {
            Ok(_) => {}
            Err(ReadFault::OutOfMemory) => return Err(AllocError),
            Err(_) => return Ok(Some(place)),
        }
    }
    Ok(None)
}
