//! A number put in place of another, in trees that share what comes of it.
ghost use Rattle.std.specs.Prelude.{◌≡◌, ◌+◌, ◌*◌, ◌<◌, ℕ, [], length, slice_index, IfOk, OnErr};
ghost use Rattle.blocks.specs.Rows.{replaced};
ghost use Rattle.blocks.specs.private.Replacing.{key_of, kept_at, AreReplaced, IsReplaced, IsMade, Grows, KeepsReplaced};
ghost use Rattle.blocks.specs.private.Trees.{IsForest};

use crate::block::first_unequal_lane;
use crate::node::Node;
use std::alloc::{AllocError, Global};
use std::collections::BTreeMap;

/// So many replacements are remembered at once.
const MOST_KEPT: usize = 0x1_0000;

/// The outcomes of nodes above blocks in which a number was replaced. It is emptied where a method begins, where nodes
/// are taken out, and where it has [`MOST_KEPT`] entries.
#[derive(Drop)]
pub(crate) struct Replacements {
    /// By a node and the two numbers, the node that holds the outcome.
    nodes: BTreeMap<u128, u32>,
}

/// The key of a node, a number and the one in its place.
fn key_of(id: u32, number: u32, by: u32) -> u128
    ensures { result ≡ key_of id number by }
{
    u128::from(id) * 0x1_0000_0000_0000_0000 + u128::from(number) * 0x1_0000_0000 + u128::from(by)
}

/// Puts a number in place of another in a block.
fn replace_lanes(numbers: &mut [u32; 16], number: u32, by: u32)
    ensures { (k : ℕ) → k < 16 → slice_index numbers.new k ≡ replaced number by (slice_index numbers.old k) }
{
    for lane in 0..16usize {
        if numbers[lane] == number {
            numbers[lane] = by;
        }
    }
}

impl Replacements {
    /// None yet.
    pub fn new(alloc: Global) -> Replacements
        ensures { AreReplaced [] 0 result }
    {
        Replacements {
            nodes: BTreeMap::new(alloc),
        }
    }

    /// Forgets all, for another method.
    pub fn clear(&mut self)
        ensures { AreReplaced [] 0 self.new }
    {
        self.nodes.clear();
    }

    /// The node that holds the outcome for one, if it was made before.
    fn get(&self, id: u32, number: u32, by: u32) -> Option<u32>
        ensures { result ≡ kept_at self.now id number by }
    {
        self.nodes.get(&key_of(id, number, by)).copied()
    }

    /// Remembers the node that holds the outcome for one.
    fn keep(&mut self, id: u32, number: u32, by: u32, now: u32) -> Result<(), AllocError>
        ensures { KeepsReplaced self.old id number by now self.new }
    {
        if self.nodes.len() >= MOST_KEPT {
            self.nodes.clear();
        }
        self.nodes.insert(key_of(id, number, by), now)?;
        Ok(())
    }

    /// A node like another but with these numbers, after the others; the other one, where it has these numbers.
    fn put(&mut self, nodes: &mut Vec<Node>, id: u32, numbers: [u32; 16]) -> Result<u32, AllocError>
        requires forest { IsForest nodes.old.items }
        requires node { id < length nodes.old.items }
        ensures kept { self.new.nodes ≡ self.old.nodes }
        ensures ok { IfOk result (λ now. IsMade nodes.old.items nodes.new.items id numbers now) }
        ensures err { OnErr result (nodes.new.items ≡ nodes.old.items) }
    {
        let mut node = nodes[id as usize];
        if first_unequal_lane(&node.numbers, &numbers, 0) == 16 {
            return Ok(id);
        }
        node.numbers = numbers;
        node.seen = None;
        let last = nodes.len() as u32;
        if last == u32::MAX {
            return Err(AllocError);
        }
        nodes.push(node)?;
        Ok(last)
    }

    /// The node that holds what another does, with a number in place of another throughout. It is made once for each
    /// node above blocks.
    pub fn replace(
        &mut self,
        nodes: &mut Vec<Node>,
        id: u32,
        number: u32,
        by: u32,
    ) -> Result<u32, AllocError>
        requires forest { IsForest nodes.old.items }
        requires node { id < length nodes.old.items }
        requires replaced { AreReplaced nodes.old.items (length nodes.old.items) self.old }
        ensures grown { Grows nodes.old.items nodes.new.items }
        ensures replaced { AreReplaced nodes.new.items (length nodes.new.items) self.new }
        ensures ok { IfOk result (IsReplaced nodes.new.items (length nodes.new.items) id number by) }
    {
        let mut numbers = nodes[id as usize].numbers;
        if nodes[id as usize].level == 0 {
            replace_lanes(&mut numbers, number, by);
            return self.put(nodes, id, numbers);
        }
        if let Some(now) = self.get(id, number, by) {
            return Ok(now);
        }
        for place in 0..16usize {
            numbers[place] = self.replace(nodes, numbers[place], number, by)?;
        }
        let now = self.put(nodes, id, numbers)?;
        self.keep(id, number, by, now)?;
        Ok(now)
    }
}
