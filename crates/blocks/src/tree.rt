//! Nodes of trees, which rows share.
ghost use Rattle.std.specs.Prelude.{◌≡◌, ◌≤◌, ◌<◌, ◌+◌, ◌*◌, ◌^◌, length, vec_len, vec_capacity, IfOk, OnOk, OnErr, ◌∷◌, [], ◌++◌};
ghost use Rattle.blocks.specs.private.Blocks.{place_in};
ghost use Rattle.blocks.specs.private.Trees.{IsForest, IsTree, IsCopy, Keeps, IsBelow, IsOwned, IsPut, level_of, number_at, block_at, width};

use crate::block::place_in;
use crate::node::Node;
use std::alloc::AllocError;

/// The number of a slot below a node.
pub(crate) fn number(nodes: &[Node], id: u32, slot: usize) -> u32
    requires forest { IsForest nodes.now }
    requires node { id < length nodes.now }
    ensures { result ≡ number_at nodes.now (level_of nodes.now id) id slot }
{
    let node = &nodes[id as usize];
    if node.level == 0 {
        return node.numbers[slot % 16];
    }
    number(nodes, node.numbers[place_in(slot, node.level)], slot)
}

/// Makes room for one node more. It stands apart, so that what [`copy`] inlines stays small.
#[inline(never)]
fn make_room(nodes: &mut Vec<Node>) -> Result<(), AllocError>
    ensures same { nodes.new.items ≡ nodes.old.items }
    ensures room { OnOk result (vec_len nodes.new < vec_capacity nodes.new) }
{
    nodes.reserve(1)
}

/// A copy of a shared node, which the running row has alone.
pub(crate) fn copy(nodes: &mut Vec<Node>, id: u32) -> Result<u32, AllocError>
    requires forest { IsForest nodes.old.items }
    requires node { id < length nodes.old.items }
    ensures ok { IfOk result (λ copy. IsCopy nodes.old.items nodes.new.items id copy) }
    ensures err { OnErr result (nodes.new.items ≡ nodes.old.items) }
{
    let mut node = nodes[id as usize];
    node.seen = None;
    let copy = nodes.len() as u32;
    if copy == u32::MAX {
        return Err(AllocError);
    }
    if nodes.len() >= nodes.capacity() {
        make_room(nodes)?;
    }
    nodes.push_reserved(node);
    Ok(copy)
}

/// The node at a place below a node that the running row has alone: made a copy first where it is shared.
fn own_below(nodes: &mut Vec<Node>, own: u32, id: u32, place: usize) -> Result<u32, AllocError>
    requires tree { IsTree nodes.old.items own }
    requires node { id < length nodes.old.items }
    requires alone { own ≤ id }
    requires inner { 0 < level_of nodes.old.items id }
    requires place { place < 16 }
    ensures tree { IsTree nodes.new.items own }
    ensures kept { Keeps nodes.old.items nodes.new.items (level_of nodes.old.items id) }
    ensures ok { IfOk result (λ node. IsBelow nodes.new.items own id place node) }
{
    let below = nodes[id as usize].numbers[place];
    if below >= own {
        return Ok(below);
    }
    let copy = copy(nodes, below)?;
    nodes[id as usize].numbers[place] = copy;
    Ok(copy)
}

/// The block of a slot, level by level, as [`own_block`] gives it.
fn own_block_below(nodes: &mut Vec<Node>, own: u32, id: u32, slot: usize) -> Result<u32, AllocError>
    requires tree { IsTree nodes.old.items own }
    requires node { id < length nodes.old.items }
    requires alone { own ≤ id }
    ensures tree { IsTree nodes.new.items own }
    ensures kept { Keeps nodes.old.items nodes.new.items (level_of nodes.old.items id) }
    ensures ok { IfOk result (λ block. (own ≤ block)
        × (block_at nodes.new.items (level_of nodes.old.items id) id slot ≡ block)) }
{
    let level = nodes[id as usize].level;
    if level == 0 {
        return Ok(id);
    }
    let below = own_below(nodes, own, id, place_in(slot, level))?;
    own_block_below(nodes, own, below, slot)
}

/// The block of a slot below a node that the running row has alone: it has it and all above it alone afterwards.
#[inline(always)]
fn own_block(nodes: &mut Vec<Node>, own: u32, id: u32, slot: usize) -> Result<u32, AllocError>
    requires tree { IsTree nodes.old.items own }
    requires node { id < length nodes.old.items }
    requires alone { own ≤ id }
    ensures tree { IsTree nodes.new.items own }
    ensures kept { Keeps nodes.old.items nodes.new.items (level_of nodes.old.items id) }
    ensures ok { IfOk result (λ block. (own ≤ block)
        × (block_at nodes.new.items (level_of nodes.old.items id) id slot ≡ block)) }
{
    if nodes[id as usize].level == 0 {
        return Ok(id);
    }
    own_block_below(nodes, own, id, slot)
}

/// A node with what another holds, which the running row has alone.
fn owned(nodes: &mut Vec<Node>, own: u32, id: u32) -> Result<u32, AllocError>
    requires tree { IsTree nodes.old.items own }
    requires node { id < length nodes.old.items }
    ensures ok { IfOk result (λ node. IsOwned nodes.old.items nodes.new.items own id node) }
    ensures err { OnErr result (nodes.new.items ≡ nodes.old.items) }
{
    if id >= own { Ok(id) } else { copy(nodes, id) }
}

/// Puts a number into a slot below a node, where no other row sees it. Returns the node that holds the outcome.
#[inline(always)]
pub(crate) fn put(
    nodes: &mut Vec<Node>,
    own: u32,
    id: u32,
    slot: usize,
    number: u32,
) -> Result<u32, AllocError>
    requires tree { IsTree nodes.old.items own }
    requires node { id < length nodes.old.items }
    requires slot { slot < width (level_of nodes.old.items id) }
    ensures tree { IsTree nodes.new.items own }
    ensures ok { IfOk result (λ now. IsPut nodes.old.items nodes.new.items own id slot number now) }
    ensures err { OnErr result (Keeps nodes.old.items nodes.new.items (level_of nodes.old.items id)) }
{
    let now = owned(nodes, own, id)?;
    let block = own_block(nodes, own, now, slot)?;
    nodes[block as usize].numbers[slot % 16] = number;
    Ok(now)
}
