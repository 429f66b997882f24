//! Numbers that are to take the place of others, one after the other, before this is done in a row.
ghost use Rattle.std.specs.Prelude.{◌≡◌, ◌≤◌, ◌<◌, ℕ, [], false, length, slice_index_or, drop, IsTrue, OnOk, OnErr};
ghost use Rattle.blocks.specs.Rows.{replaced};
ghost use Rattle.blocks.specs.private.Pending.{shown, no_pair, Commute, IsPushed, ShowsEarlier};

use std::alloc::{AllocError, Global};

/// So many replacements may be pending: a number is read through all of them.
const MOST: usize = 1024;

/// A number, and the one that takes its place.
#[derive(Clone, Copy, Debug)]
pub(crate) struct Pair {
    pub number: u32,
    pub by: u32,
}

/// Whether one replacement may be done before another that was asked for first, and is to be: it replaces a lesser
/// number, and neither replaces what the other puts.
fn goes_before(pair: Pair, other: Pair) -> bool
    ensures { IsTrue result → Commute pair other }
{
    pair.number < other.number && pair.by != other.number && other.by != pair.number
}

/// Replacements that are pending: in the order in which they were asked for, or, where their outcome is the same, in
/// that of the numbers that they replace. So the same ones have the same nodes between the first and the last.
#[derive(Drop)]
pub(crate) struct Pending {
    pairs: Vec<Pair>,
}

impl Pending {
    /// None.
    pub fn new(alloc: Global) -> Pending
        ensures { result.pairs.items ≡ [] }
    {
        Pending {
            pairs: Vec::new(alloc),
        }
    }

    /// Whether there is none.
    pub fn is_empty(&self) -> bool
        ensures empty { IsTrue result → self.now.pairs.items ≡ [] }
        ensures some { result ≡ false → 0 < length self.now.pairs.items }
    {
        self.pairs.is_empty()
    }

    /// Whether no more may be added.
    pub fn is_full(&self) -> bool {
        self.pairs.len() >= MOST
    }

    /// Forgets all.
    pub fn clear(&mut self)
        ensures { self.new.pairs.items ≡ [] }
    {
        self.pairs.clear();
    }

    /// The number that is in the place of one when all is done.
    pub fn shown(&self, number: u32) -> u32
        ensures { result ≡ shown self.now.pairs.items number }
    {
        let mut shown = number;
        for pair in &self.pairs {
            if shown == pair.number {
                shown = pair.by;
            }
        }
        shown
    }

    /// The place where one goes, in front of the last ones that it may be done before.
    fn place_of(&self, pair: Pair) -> usize
        ensures within { result ≤ length self.now.pairs.items }
        ensures earlier { ShowsEarlier pair (drop result self.now.pairs.items) }
    {
        let mut place = self.pairs.len();
        while place > 0 && goes_before(pair, self.pairs[place - 1]) {
            place -= 1;
        }
        place
    }

    /// Adds one, which is done as if it were the last.
    pub fn push(&mut self, number: u32, by: u32) -> Result<(), AllocError>
        ensures ok { OnOk result (IsPushed self.old.pairs.items number by self.new.pairs.items) }
        ensures err { OnErr result (self.new.pairs.items ≡ self.old.pairs.items) }
    {
        let pair = Pair { number, by };
        let place = self.place_of(pair);
        self.pairs.insert(place, pair)?;
        Ok(())
    }

    /// The first one.
    pub fn first(&self) -> Pair
        requires { 0 < length self.now.pairs.items }
        ensures { result ≡ slice_index_or self.now.pairs.items 0 no_pair }
    {
        self.pairs[0]
    }

    /// Takes the first one out, since it is done.
    pub fn drop_first(&mut self)
        requires { 0 < length self.old.pairs.items }
        ensures { self.new.pairs.items ≡ drop 1 self.old.pairs.items }
    {
        self.pairs.remove(0);
    }
}
