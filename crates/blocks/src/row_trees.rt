//! The rows of a method, as trees of nodes that they share.
ghost use Rattle.std.specs.Prelude.{◌≡◌, ◌<◌, ◌≤◌, ◌^◌, ◌⊎◌, ◌++◌, ◌∷◌, [], length, map, replicate, slice_index, slice_index_or, slice_set, IfOk, OnOk, OnErr, IsTrue, ◌↔◌};
ghost use Rattle.blocks.specs.Rows.{declared_row, AreEqualBetween, IsFirstUndecided, IsFirstUnequal, IsSaidToFit, replaced};
ghost use Rattle.blocks.specs.private.Trees.{width};
ghost use Rattle.blocks.specs.private.Arenas.{AreEmpty};

use crate::compacting::{Copies, empty_node, empty_nodes};
use crate::comparison::{first_undecided_below, first_unequal_below};
use crate::fitting::note;
use crate::node::{LEVELS, Node};
use crate::remembering::Fits;
use crate::replacing::Replacements;
use crate::tree::{number, put};
use std::alloc::{AllocError, Global};
use std::marker::Model;

/// A declared row, by its place among those of its arena.
#[derive(Clone, Copy, Debug, PartialEq, Eq)]
pub struct Row {
    place: usize,
}

impl Model for Row {
    ghost use Rattle.std.specs.Prelude.{ℕ};

    ghost Value = { ℕ };

    ghost view = { λ r. r.place };

    ghost inverse = { λ n. record { place = n } };
}

/// The rows of a method: that of the running frame, those of the declared frames, and one that is kept to tell what
/// changed since.
///
/// A slot holds the number of a type, at first 0, which is Top. Where memory runs out, a call leaves all rows as they
/// were.
#[derive(Drop)]
pub(crate) struct RowTrees {
    nodes: Vec<Node>,
    /// Nodes from here on belong to the running row alone.
    own: u32,
    root: u32,
    /// The root of the row that is kept.
    kept: u32,
    count: usize,
    declared: Vec<u32>,
    /// The outcomes of shared nodes in which a number was replaced.
    replacements: Replacements,
    /// Pairs of nodes of which the first was said to fit the second.
    fits: Fits,
    /// There is room for fewer nodes than these: [`MOST_NODES`], or twice as many as rows had when the others were taken
    /// out.
    most: usize,
}

impl Model for RowTrees {
    ghost use Rattle.blocks.specs.Rows.{Rows};

    ghost Value = { Rows };

    ghost use Rattle.blocks.specs.private.Arenas.{rows_of, IsWholeArena};

    ghost view = { λ a. rows_of a.nodes.items a.root a.kept a.count a.declared.items };

    ghost invariant = { λ a. IsWholeArena a.nodes.items a.own a.root a.kept a.count a.declared.items a.replacements };
}

/// There may be so many nodes before those that no row has are taken out.
const MOST_NODES: usize = 0x4_0000;

/// The lowest level of a node that is above as many slots as a method has.
fn top_of(count: u16) -> u32
    ensures low { result < 4 }
    ensures wide { count ≤ width result }
{
    match count {
        0..=16 => 0,
        17..=256 => 1,
        257..=4096 => 2,
        _ => 3,
    }
}

/// Leaves a node of each level, and each holds nothing but Top.
fn clear(nodes: &mut Vec<Node>)
    requires { LEVELS ≤ length nodes.old.items }
    ensures { AreEmpty nodes.new.items }
{
    nodes.truncate(LEVELS as usize);
    for level in 0..LEVELS {
        nodes[level as usize] = empty_node(level);
    }
}

/// The root of a declared row.
fn root_of(declared: &[u32], row: Row) -> u32
    requires { row < length declared.now }
    ensures { result ≡ slice_index declared.now row }
{
    declared[row.place]
}

impl RowTrees {
    /// The rows of a method with so many local variables: the running one, which holds Top throughout.
    pub fn new(alloc: Global, count: u16) -> Result<RowTrees, AllocError>
        ensures { IfOk result (λ rows. rows ≡ record {
          running = replicate count 0;
          declared = [];
          kept = replicate count 0;
          known = [];
        }) }
    {
        let top = top_of(count);
        Ok(RowTrees {
            nodes: empty_nodes(alloc)?,
            own: LEVELS,
            root: top,
            kept: top,
            count: count as usize,
            declared: Vec::new(alloc),
            replacements: Replacements::new(alloc),
            fits: Fits::new(alloc),
            most: MOST_NODES,
        })
    }

    /// Begins anew, for another method: keeps the memory, and takes none.
    pub fn restart(&mut self, count: u16)
        ensures { self.new ≡ record {
          running = replicate count 0;
          declared = [];
          kept = replicate count 0;
          known = [];
        } }
    {
        let top = top_of(count);
        clear(&mut self.nodes);
        self.declared.clear();
        self.replacements.clear();
        self.fits.clear();
        self.own = LEVELS;
        self.root = top;
        self.kept = top;
        self.count = count as usize;
        self.most = MOST_NODES;
    }

    /// How many slots a row has.
    pub fn slots(&self) -> usize
        ensures count { result ≡ length self.now.running }
        ensures few { result < 2 ^ 16 }
        ensures even { length self.now.kept ≡ length self.now.running }
    {
        self.count
    }

    /// The number in a slot of the running row.
    pub fn get(&self, slot: usize) -> u32
        requires { slot < length self.now.running }
        ensures { result ≡ slice_index self.now.running slot }
    {
        number(&self.nodes, self.root, slot)
    }

    /// The number in a slot of a declared row.
    pub fn get_declared(&self, row: Row, slot: usize) -> u32
        requires row { row < length self.now.declared }
        requires slot { slot < length self.now.running }
        ensures { result ≡ slice_index (declared_row self.now row) slot }
    {
        let root = root_of(&self.declared, row);
        number(&self.nodes, root, slot)
    }

    /// The number in a slot of what was kept.
    pub fn get_kept(&self, slot: usize) -> u32
        requires { slot < length self.now.running }
        ensures { result ≡ slice_index self.now.kept slot }
    {
        number(&self.nodes, self.kept, slot)
    }

    /// Puts a number into a slot of the running row.
    pub fn set(&mut self, slot: usize, number: u32) -> Result<(), AllocError>
        requires { slot < length self.old.running }
        ensures ok { OnOk result (self.new ≡ record self.old { running = slice_set self.old.running slot number }) }
        ensures err { OnErr result (self.new ≡ self.old) }
    {
        self.root = put(&mut self.nodes, self.own, self.root, slot, number)?;
        Ok(())
    }

    /// Declares a row that holds what the running one does.
    pub fn declare(&mut self) -> Result<Row, AllocError>
        ensures place { IfOk result (λ row. row ≡ length self.old.declared) }
        ensures ok { OnOk result (self.new
            ≡ record self.old { declared = self.old.declared ++ self.old.running ∷ [] }) }
        ensures err { OnErr result (self.new ≡ self.old) }
    {
        let place = self.declared.len();
        self.declared.push(self.root)?;
        self.own = self.nodes.len() as u32;
        Ok(Row { place })
    }

    /// Puts a number in place of another, throughout the running row. All rows share what comes of a node that they
    /// share: so to do it again in a row that another one shares takes time for the nodes in which the two differ.
    ///
    /// The nodes that come of it stay until [`compact`](RowTrees::compact) takes them out.
    pub fn replace(&mut self, number: u32, by: u32) -> Result<(), AllocError>
        requires { 0 < number }
        ensures ok { OnOk result (self.new
            ≡ record self.old { running = map (replaced number by) self.old.running }) }
        ensures err { OnErr result (self.new ≡ self.old) }
    {
        let root = self
            .replacements
            .replace(&mut self.nodes, self.root, number, by);
        self.own = self.nodes.len() as u32;
        self.root = root?;
        Ok(())
    }

    /// Whether there are fewer nodes than an arena may keep.
    pub fn has_room(&self) -> bool {
        self.nodes.len() < self.most
    }

    /// Takes out all nodes but those that rows have, and forgets what was said to fit. Takes time for the nodes.
    pub fn compact(&mut self) -> Result<(), AllocError>
        ensures { (self.new ≡ self.old) ⊎ (self.new ≡ record self.old { known = [] }) }
    {
        let mut copies = Copies::new(*self.nodes.allocator(), self.nodes.len())?;
        let root = copies.copy(&self.nodes, self.root)?;
        let kept = copies.copy(&self.nodes, self.kept)?;
        let declared = copies.copy_all(&self.nodes, &self.declared)?;
        self.replacements.clear();
        self.fits.clear();
        self.nodes = copies.nodes;
        self.own = self.nodes.len() as u32;
        self.root = root;
        self.kept = kept;
        self.declared = declared;
        self.most = MOST_NODES.max(self.own as usize * 2);
        Ok(())
    }

    /// The running row becomes a declared one. Takes no memory, and no more time for a long row; nodes that it had alone
    /// are given back.
    pub fn take(&mut self, row: Row)
        requires { row < length self.old.declared }
        ensures { self.new ≡ record self.old { running = declared_row self.old row } }
    {
        self.nodes.truncate(self.own as usize);
        self.root = root_of(&self.declared, row);
    }

    /// The first slot from one on at which neither numbers nor what was said before show that the running row fits a
    /// declared one. Numbers that are equal fit, and so does each where Top is wanted.
    pub fn first_undecided(&self, row: Row, from: usize) -> Option<usize>
        requires { row < length self.now.declared }
        ensures first { IsFirstUndecided self.now row from result }
        // a slot has one after it that is counted too
        ensures few { length self.now.running < 2 ^ 16 }
    {
        let wanted = root_of(&self.declared, row);
        first_undecided_below(&self.nodes, &self.fits, self.root, wanted, from, self.count)
    }

    /// Keeps the running row as it is, in place of what was kept before. Takes no memory, but the running row shares
    /// all of its blocks afterwards.
    pub fn keep(&mut self)
        ensures { self.new ≡ record self.old { kept = self.old.running } }
    {
        self.own = self.nodes.len() as u32;
        self.kept = self.root;
    }

    /// The first slot from one on at which the running row differs from what was kept. Takes no time where nothing
    /// changed.
    pub fn first_changed(&self, from: usize) -> Option<usize>
        ensures first { IsFirstUnequal self.now.running self.now.kept from result }
        ensures even { length self.now.kept ≡ length self.now.running }
        ensures few { length self.now.running < 2 ^ 16 }
    {
        first_unequal_below(&self.nodes, self.root, self.kept, from, self.count)
    }

    /// The first slot at which two declared rows differ.
    pub fn first_unequal(&self, row: Row, other: Row) -> Option<usize>
        requires row { row < length self.now.declared }
        requires other { other < length self.now.declared }
        ensures { IsFirstUnequal (declared_row self.now row) (declared_row self.now other) 0 result }
    {
        let root = root_of(&self.declared, row);
        let beside = root_of(&self.declared, other);
        first_unequal_below(&self.nodes, root, beside, 0, self.count)
    }

    /// Whether two declared rows hold the same numbers in the slots from one up to another; rows have the same ones beyond
    /// their ends.
    pub fn are_equal(&self, row: Row, other: Row, from: usize, to: usize) -> bool
        requires row { row < length self.now.declared }
        requires other { other < length self.now.declared }
        ensures { IsTrue result ↔ AreEqualBetween (declared_row self.now row) (declared_row self.now other) from to }
    {
        let root = root_of(&self.declared, row);
        let beside = root_of(&self.declared, other);
        let end = to.min(self.count);
        first_unequal_below(&self.nodes, root, beside, from, end).is_none()
    }

    /// Notes that the running row fits a declared one, so that the two are not compared again until the running row
    /// changes, and then only where it changed. Takes no memory, but the running row shares all of its blocks
    /// afterwards: for rows of one block a comparison costs less than the copy that the next change then takes.
    pub fn note_fit(&mut self, row: Row)
        requires { row < length self.old.declared }
        ensures { IsSaidToFit self.old self.new row }
    {
        let wanted = root_of(&self.declared, row);
        // Without memory for it, less is remembered.
        let _saved = self.fits.save(&mut self.nodes, self.root, wanted);
        self.own = self.nodes.len() as u32;
        note(&mut self.nodes, &self.fits, self.root, wanted);
    }
}
