//! Nodes that are said to fit others, slot by slot.
ghost use Rattle.std.specs.Prelude.{◌≡◌, ◌<◌, IsTrue, length};
ghost use Rattle.blocks.specs.private.Trees.{IsForest, IsKnownToFit, IsNoted, level_of};

use crate::node::{Node, is_seen};
use crate::remembering::Fits;

/// Whether it is known that a node was said to fit another.
#[inline(always)]
pub(crate) fn is_known(nodes: &[Node], fits: &Fits, id: u32, wanted: u32) -> bool
    requires { wanted < length nodes.now }
    ensures { IsTrue result → IsKnownToFit nodes.now id wanted }
{
    let other = &nodes[wanted as usize];
    id == wanted || is_seen(other, id) || other.level > 1 && fits.have(nodes, id, wanted)
}

/// Notes that a node fits another, and so does each node below it the one at its place.
pub(crate) fn note(nodes: &mut [Node], fits: &Fits, id: u32, wanted: u32)
    requires forest { IsForest nodes.old }
    requires node { id < length nodes.old }
    requires wanted { wanted < length nodes.old }
    requires level { level_of nodes.old wanted ≡ level_of nodes.old id }
    ensures { IsNoted nodes.old nodes.new (level_of nodes.old id) id wanted }
{
    if is_known(nodes, fits, id, wanted) {
        return;
    }
    if nodes[id as usize].level > 0 {
        for place in 0..16usize {
            let below = nodes[id as usize].numbers[place];
            let other = nodes[wanted as usize].numbers[place];
            note(nodes, fits, below, other);
        }
    }
    nodes[wanted as usize].seen = Some(id);
}
