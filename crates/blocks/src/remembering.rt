//! Pairs of nodes of which the first was said to fit the second, beside the last such node that each node has.
ghost use Rattle.std.specs.Prelude.{◌≡◌, ◌<◌, IsTrue, length};
ghost use Rattle.blocks.specs.private.Trees.{IsForest, IsCopyOf, IsRemembered, level_of};
ghost use Rattle.blocks.specs.private.Remembering.{AreCopied};

use crate::block::first_unequal_lane;
use crate::node::{Node, is_seen};
use std::alloc::{AllocError, Global};
use std::collections::BTreeMap;

/// So many pairs are remembered at once.
const MOST_PAIRS: usize = 0x1_0000;

/// So many copies may be made in one method.
const MOST_COPIES: usize = 0x4_0000;

/// Copies of nodes, which keep what was said of them when another node is said to fit them. They are made of nodes
/// above 256 slots, so that rows of fewer slots have none. There are at most [`MOST_COPIES`], and they are forgotten
/// where a method begins.
///
/// A copy is believed only if it holds what its node does.
#[derive(Drop)]
pub(crate) struct Fits {
    /// By a node and the one that it was said to fit, the copy of the second that tells it. It is emptied where a
    /// method begins, and where it has [`MOST_PAIRS`] entries.
    copies: BTreeMap<u64, u32>,
    /// By a node, whether it may be the first of a pair, so that a node that never was is not looked up.
    firsts: Vec<bool>,
    /// How many copies were made.
    made: usize,
}

/// The key of two nodes.
fn key_of(id: u32, wanted: u32) -> u64 {
    u64::from(id) * 0x1_0000_0000 + u64::from(wanted)
}

/// Whether a node holds what another does.
fn is_copy(nodes: &[Node], copy: u32, wanted: u32) -> bool
    requires { wanted < length nodes.now }
    ensures { IsTrue result → IsCopyOf nodes.now copy wanted }
{
    let copy = copy as usize;
    let wanted = wanted as usize;
    copy < nodes.len()
        && nodes[copy].level == nodes[wanted].level
        && first_unequal_lane(&nodes[copy].numbers, &nodes[wanted].numbers, 0) == 16
}

impl Fits {
    /// None.
    pub fn new(alloc: Global) -> Fits {
        Fits {
            copies: BTreeMap::new(alloc),
            firsts: Vec::new(alloc),
            made: 0,
        }
    }

    /// Forgets all, for another method.
    pub fn clear(&mut self) {
        if self.made > 0 {
            self.copies.clear();
            self.firsts.clear();
            self.made = 0;
        }
    }

    /// Whether it is remembered that a node was said to fit another.
    pub fn have(&self, nodes: &[Node], id: u32, wanted: u32) -> bool
        requires { wanted < length nodes.now }
        ensures { IsTrue result → IsRemembered nodes.now id wanted }
    {
        if !self.firsts.get(id as usize).copied().unwrap_or(false) {
            return false;
        }
        match self.copies.get(&key_of(id, wanted)).copied() {
            Some(copy) => is_copy(nodes, copy, wanted) && is_seen(&nodes[copy as usize], id),
            None => false,
        }
    }

    /// Remembers the copy of a node that another was said to fit.
    fn put(&mut self, id: u32, wanted: u32, copy: u32) -> Result<(), AllocError> {
        if self.copies.len() >= MOST_PAIRS {
            self.copies.clear();
        }
        let first = id as usize;
        if self.firsts.len() <= first {
            self.firsts.resize(first + 1, false)?;
        }
        self.firsts[first] = true;
        self.copies.insert(key_of(id, wanted), copy)?;
        Ok(())
    }

    /// Makes a copy of a node, if another was said to fit it.
    fn copy(&mut self, nodes: &mut Vec<Node>, wanted: u32) -> Result<(), AllocError>
        requires forest { IsForest nodes.old.items }
        requires wanted { wanted < length nodes.old.items }
        ensures { AreCopied nodes.old.items nodes.new.items }
    {
        let node = nodes[wanted as usize];
        let Some(seen) = node.seen else {
            return Ok(());
        };
        let copy = nodes.len() as u32;
        if self.made >= MOST_COPIES || copy == u32::MAX {
            return Ok(());
        }
        nodes.push(node)?;
        self.made += 1;
        self.put(seen, wanted, copy)
    }

    /// Makes copies of a node and those below it that another node is to be said to fit, and of which it is not known.
    /// Where memory runs out, some are not made.
    pub fn save(&mut self, nodes: &mut Vec<Node>, id: u32, wanted: u32) -> Result<(), AllocError>
        requires forest { IsForest nodes.old.items }
        requires node { id < length nodes.old.items }
        requires wanted { wanted < length nodes.old.items }
        requires level { level_of nodes.old.items wanted ≡ level_of nodes.old.items id }
        ensures { AreCopied nodes.old.items nodes.new.items }
    {
        let level = nodes[id as usize].level;
        if level < 2
            || id == wanted
            || is_seen(&nodes[wanted as usize], id)
            || self.have(nodes, id, wanted)
        {
            return Ok(());
        }
        for place in 0..16usize {
            let below = nodes[id as usize].numbers[place];
            let other = nodes[wanted as usize].numbers[place];
            self.save(nodes, below, other)?;
        }
        self.copy(nodes, wanted)
    }
}
