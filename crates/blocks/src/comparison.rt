//! Two trees compared slot by slot: as far as numbers and what was said before decide, or by numbers alone.
ghost use Rattle.std.specs.Prelude.{◌≡◌, ◌≤◌, ◌<◌, ◌+◌, ◌*◌, ◌/◌, ◌^◌, ◌↔◌, length, IsTrue, Some};
ghost use Rattle.blocks.specs.private.Trees.{IsForest, IsSettledUpTo, IsFirstUndecidedBelow, IsEqualUpTo, IsFirstUnequalBelow, level_of, width};

use crate::block::{first_lane, first_new_lane, first_unequal_lane, place_in};
use crate::fitting::is_known;
use crate::node::{Node, is_seen};
use crate::remembering::Fits;

/// The slot after the node of a level in which a slot stands.
fn end_of(slot: usize, level: u32) -> usize
    requires level { level < 4 }
    requires slot { slot < 2 ^ 32 }
    ensures { result ≡ (slot / width level + 1) * width level }
{
    let bits = 4 + 4 * level;
    ((slot >> bits) + 1) << bits
}

/// How far the slots from one on are decided in two blocks, or known to fit; at most to the end of the blocks. Where the
/// wanted one was fitted by another block, only the lanes in which the two differ are left open.
fn settled_in_block(nodes: &[Node], id: u32, wanted: u32, slot: usize) -> usize
    requires forest { IsForest nodes.now }
    requires node { id < length nodes.now }
    requires wanted { wanted < length nodes.now }
    requires block { level_of nodes.now id ≡ 0 }
    requires level { level_of nodes.now wanted ≡ 0 }
    requires slot { slot < 2 ^ 32 }
    ensures { IsSettledUpTo nodes.now 0 id wanted slot result }
{
    let node = &nodes[id as usize];
    let other = &nodes[wanted as usize];
    if id == wanted || is_seen(other, id) {
        return slot / 16 * 16 + 16;
    }
    let lane = first_lane(&node.numbers, &other.numbers, slot % 16);
    match other.seen {
        Some(seen) if lane < 16 && (seen as usize) < nodes.len() => {
            let fitting = &nodes[seen as usize];
            slot / 16 * 16 + first_new_lane(&node.numbers, &other.numbers, &fitting.numbers, lane)
        }
        _ => slot / 16 * 16 + lane,
    }
}

/// How far the slots from one on are decided below two nodes, or known to fit; at most to the end of a node.
fn settled_end(nodes: &[Node], fits: &Fits, id: u32, wanted: u32, slot: usize) -> usize
    requires forest { IsForest nodes.now }
    requires node { id < length nodes.now }
    requires wanted { wanted < length nodes.now }
    requires level { level_of nodes.now wanted ≡ level_of nodes.now id }
    requires slot { slot < 2 ^ 32 }
    ensures { IsSettledUpTo nodes.now (level_of nodes.now id) id wanted slot result }
{
    let node = &nodes[id as usize];
    let other = &nodes[wanted as usize];
    if node.level == 0 {
        return settled_in_block(nodes, id, wanted, slot);
    }
    if is_known(nodes, fits, id, wanted) {
        return end_of(slot, node.level);
    }
    let place = place_in(slot, node.level);
    settled_end(nodes, fits, node.numbers[place], other.numbers[place], slot)
}

/// The first slot from one up to an end at which neither numbers nor what was said before decide.
pub(crate) fn first_undecided_below(
    nodes: &[Node],
    fits: &Fits,
    id: u32,
    wanted: u32,
    from: usize,
    to: usize,
) -> Option<usize>
    requires forest { IsForest nodes.now }
    requires node { id < length nodes.now }
    requires wanted { wanted < length nodes.now }
    requires level { level_of nodes.now wanted ≡ level_of nodes.now id }
    requires few { to < 2 ^ 32 }
    ensures { IsFirstUndecidedBelow nodes.now (level_of nodes.now id) id wanted from to result }
{
    let mut at = from;
    while at < to {
        let end = settled_end(nodes, fits, id, wanted, at);
        if end == at {
            return Some(at);
        }
        at = end;
    }
    None
}

/// How far the slots from one on hold equal numbers below two nodes; at most to the end of a node.
fn equal_end(nodes: &[Node], id: u32, other: u32, slot: usize) -> usize
    requires forest { IsForest nodes.now }
    requires node { id < length nodes.now }
    requires other { other < length nodes.now }
    requires level { level_of nodes.now other ≡ level_of nodes.now id }
    requires slot { slot < 2 ^ 32 }
    ensures { IsEqualUpTo nodes.now (level_of nodes.now id) id other slot result }
{
    let node = &nodes[id as usize];
    if id == other {
        return end_of(slot, node.level);
    }
    let beside = &nodes[other as usize];
    if node.level == 0 {
        return slot / 16 * 16 + first_unequal_lane(&node.numbers, &beside.numbers, slot % 16);
    }
    let place = place_in(slot, node.level);
    equal_end(nodes, node.numbers[place], beside.numbers[place], slot)
}

/// The first slot from one up to an end at which the numbers below two nodes differ.
pub(crate) fn first_unequal_below(
    nodes: &[Node],
    id: u32,
    other: u32,
    from: usize,
    to: usize,
) -> Option<usize>
    requires forest { IsForest nodes.now }
    requires node { id < length nodes.now }
    requires other { other < length nodes.now }
    requires level { level_of nodes.now other ≡ level_of nodes.now id }
    requires few { to < 2 ^ 32 }
    ensures { IsFirstUnequalBelow nodes.now (level_of nodes.now id) id other from to result }
{
    let mut at = from;
    while at < to {
        let end = equal_end(nodes, id, other, at);
        if end == at {
            return Some(at);
        }
        at = end;
    }
    None
}
