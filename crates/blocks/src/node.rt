//! A node of a tree.
ghost use Rattle.std.specs.Prelude.{◌≡◌, ◌↔◌, IsTrue, Some};

/// How many levels of nodes there are: one of the highest is above 65,536 slots.
pub(crate) const LEVELS: u32 = 4;

/// A node of a tree: a block of 16 numbers, or 16 nodes of the level below by their places.
#[derive(Clone, Copy, Debug)]
pub(crate) struct Node {
    pub numbers: [u32; 16],
    /// How many levels there are below: none below a block.
    pub level: u32,
    /// The node that was last said to fit this one, slot by slot.
    pub seen: Option<u32>,
}

/// Whether a node was the last that was said to fit another.
pub(crate) fn is_seen(node: &Node, id: u32) -> bool
    ensures { IsTrue result ↔ (node.now.seen ≡ Some id) }
{
    match node.seen {
        Some(seen) => seen == id,
        None => false,
    }
}
