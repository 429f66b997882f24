//! Copies of the nodes that rows have, without all others.
ghost use Rattle.std.specs.Prelude.{◌≡◌, ◌<◌, ℕ, length, slice_index, IfOk, OnErr};
ghost use Rattle.blocks.specs.private.Arenas.{empty_node, AreEmpty};
ghost use Rattle.blocks.specs.private.Compacting.{AreCopies, AreCopiesOf, AreSameIn, GrowsTo, IsKept, IsSameIn};
ghost use Rattle.blocks.specs.private.Trees.{IsForest};

use crate::node::{LEVELS, Node};
use std::alloc::{AllocError, Global};

/// For so many nodes there is room at first, which is as many as the rows of most methods have.
const FIRST_ROOM: usize = 12;

/// A node of a level that holds nothing but Top: a block of zeros, or sixteen times the one below, by its place.
pub(crate) fn empty_node(level: u32) -> Node
    ensures { result ≡ empty_node level }
{
    Node {
        numbers: [level.saturating_sub(1); 16],
        level,
        seen: None,
    }
}

/// A node of each level that holds nothing but Top.
pub(crate) fn empty_nodes(alloc: Global) -> Result<Vec<Node>, AllocError>
    ensures { IfOk result (λ nodes. AreEmpty nodes.items) }
{
    let mut nodes = Vec::with_capacity(alloc, FIRST_ROOM)?;
    for level in 0..LEVELS {
        nodes.push(empty_node(level))?;
    }
    Ok(nodes)
}

/// Nodes that hold what others do, of which each was made once, behind one of each level that holds nothing but Top. Of
/// none of them it is known what fits it.
#[derive(Drop)]
pub(crate) struct Copies {
    pub nodes: Vec<Node>,
    /// By a node, its copy.
    known: Vec<Option<u32>>,
}

impl Copies {
    /// No copy yet of so many nodes.
    pub fn new(alloc: Global, count: usize) -> Result<Copies, AllocError>
        ensures { IfOk result (λ copies. AreCopies count copies) }
    {
        Ok(Copies {
            nodes: empty_nodes(alloc)?,
            known: vec![in alloc; None; count]?,
        })
    }

    /// Puts a copy of a node after the others: a node of a level with these numbers.
    fn put(&mut self, id: u32, level: u32, numbers: [u32; 16]) -> Result<u32, AllocError>
        requires node { id < length self.old.known.items }
        requires few { length self.old.nodes.items < 4294967296 }
        ensures ok { IfOk result (IsKept self.old self.new id level numbers) }
        ensures err { OnErr result (self.new.nodes.items ≡ self.old.nodes.items) }
        ensures known { OnErr result (self.new.known ≡ self.old.known) }
    {
        let copy = self.nodes.len() as u32;
        if copy == u32::MAX {
            return Err(AllocError);
        }
        self.nodes.push(Node {
            numbers,
            level,
            seen: None,
        })?;
        self.known[id as usize] = Some(copy);
        Ok(copy)
    }

    /// The copy of a node, which is made where it was not.
    pub fn copy(&mut self, nodes: &[Node], id: u32) -> Result<u32, AllocError>
        requires forest { IsForest nodes.now }
        requires node { id < length nodes.now }
        requires copies { AreCopiesOf nodes.now self.old }
        ensures grown { GrowsTo self.old.nodes.items self.new.nodes.items }
        ensures copies { AreCopiesOf nodes.now self.new }
        ensures ok { IfOk result (IsSameIn nodes.now self.new.nodes.items id) }
    {
        if let Some(copy) = self.known[id as usize] {
            return Ok(copy);
        }
        let mut numbers = nodes[id as usize].numbers;
        if nodes[id as usize].level == 0 {
            return self.put(id, 0, numbers);
        }
        for place in 0..16usize {
            numbers[place] = self.copy(nodes, numbers[place])?;
        }
        self.put(id, nodes[id as usize].level, numbers)
    }

    /// The copies of these nodes, in their order.
    pub fn copy_all(&mut self, nodes: &[Node], ids: &[u32]) -> Result<Vec<u32>, AllocError>
        requires forest { IsForest nodes.now }
        requires ids { (i : ℕ) → i < length ids.now → slice_index ids.now i < length nodes.now }
        requires copies { AreCopiesOf nodes.now self.old }
        ensures grown { GrowsTo self.old.nodes.items self.new.nodes.items }
        ensures copies { AreCopiesOf nodes.now self.new }
        ensures ok { IfOk result (λ copies. AreSameIn nodes.now self.new.nodes.items ids.now copies.items) }
    {
        let mut copies = Vec::with_capacity(*self.nodes.allocator(), ids.len())?;
        for i in 0..ids.len() {
            copies.push(self.copy(nodes, ids[i])?)?;
        }
        Ok(copies)
    }
}
