//! Memory for the types of an entry of a stack map, kept from method to method.

use std::alloc::Global;

/// Memory for the types of an entry of a stack map. It holds nothing from one stack map to the next.
#[derive(Drop)]
pub struct EntryBuffers {
    /// For the locals of the frame that an entry declares.
    pub locals: Vec<u32>,
    /// For the numbers of the types that stand in an entry.
    pub given: Vec<u32>,
}

impl EntryBuffers {
    /// Buffers without memory.
    pub fn new(alloc: Global) -> EntryBuffers {
        EntryBuffers {
            locals: Vec::new(alloc),
            given: Vec::new(alloc),
        }
    }
}
