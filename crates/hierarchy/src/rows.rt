//! Classes by rows of ancestors.
ghost use Rattle.std.specs.Prelude.{◌≡◌, ℕ, ◌+◌, ◌^◌, ◌<◌, ◌≤◌, List, Some, IfOk, IfErr, length, slice_get, count_ones};
ghost use Rattle.hierarchy.specs.Answer.{SubclassAnswer, outcome_of, yes_if};
ghost use Rattle.hierarchy.specs.Class.{ClassFact};
ghost use Rattle.hierarchy.specs.Places.{place_in};
ghost use Rattle.hierarchy.specs.Summary.{facts_of};
ghost use Rattle.hierarchy.specs.Faults.{FaultOf};
ghost use Rattle.hierarchy.specs.Rules.{IsHierarchy};
ghost use Rattle.hierarchy.specs.Ancestors.{IsAncestor};
ghost use Rattle.hierarchy.specs.Rows.{AncestorAnswer, AreRows, IsDepth, IsLookedUp};

use crate::answer::Answer;
use crate::checked_classes::checked_index;
use crate::classes::Classes;
use crate::fault::HierarchyFault;
use crate::index::Index;
use crate::member_references::References;
use crate::places::short;
use crate::row_table::{RowTable, has_entry, rows_of};
use crate::skips::skips_up;
use crate::summary::Summary;
use std::alloc::{AllocError, Global};
use std::hash::BuildHasher;
use std::marker::Model;

/// A hierarchy that answers by the depths of its classes and by rows of ancestors. It borrows the list that it is made
/// from, and copies no name.
#[derive(Drop)]
pub struct Rows<'s, 'a, S: BuildHasher> {
    index: Index<'s, 'a, S>,
    rows: RowTable,
}

impl<'s, 'a, S: BuildHasher> Model for Rows<'s, 'a, S> {
    ghost use Rattle.std.specs.Prelude.{List};
    ghost use Rattle.hierarchy.specs.Class.{ClassFact};
    ghost use Rattle.hierarchy.specs.Rules.{IsHierarchy};
    ghost use Rattle.hierarchy.specs.Rows.{AreRows};

    ghost Value = { List ClassFact };

    ghost view = { λ r. r.index };

    ghost invariant = { λ r. IsHierarchy r.index
        × AreRows r.index r.rows.depths.items r.rows.starts.items r.rows.entries.items };
}

// The rows of the classes of a list.
fn rows_in<'s, 'a, S: BuildHasher>(
    alloc: Global,
    classes: &[Summary<'a>],
    index: &Index<'s, 'a, S>,
) -> Result<RowTable, AllocError>
    requires same { index.now ≡ facts_of classes.now }
    requires formed { IsHierarchy index.now }
    ensures { IfOk result (λ rows. AreRows index.now rows.depths.items rows.starts.items rows.entries.items) }
{
    let skips = skips_up(alloc, classes, index)?;
    rows_of(alloc, &skips)
}

impl<'s, 'a, S: BuildHasher + Drop> Rows<'s, 'a, S> {
    /// The classes of a list. A class of depth d has a row of as many entries as d has binary digits, which are 16 at
    /// most.
    ///
    /// Names are found by their hashes: n classes take time n log n, unless the hasher gives most of their names one
    /// hash, as each hasher does for some names that are known beforehand, and then n². Which one is handed in is the
    /// caller's choice; `RandomState` hides its hashes from those who make class files.
    ///
    /// Refused as by [`Chains::new`](crate::Chains::new): 40 to 46, and 1 where there was no memory left.
    pub fn new(
        alloc: Global,
        classes: &'s [Summary<'a>],
        hasher: S,
    ) -> Result<Self, HierarchyFault<'a>>
        ensures ok { IfOk result (λ r. r ≡ facts_of classes.now) }
        ensures formed { IfOk result IsHierarchy }
        ensures err { IfErr result (FaultOf (facts_of classes.now)) }
    {
        let index = checked_index(alloc, classes, hasher)?;
        let rows = rows_in(alloc, classes, &index)?;
        Ok(Rows { index, rows })
    }
}

impl<'s, 'a, S: BuildHasher> Rows<'s, 'a, S> {
    /// The place in the list, from 0, of the ancestor at the distance 2 to the power of `k` from the class at a place,
    /// or `None` where fewer classes stand above it. Looks at one entry of a row, and counts it.
    pub fn ancestor(&self, place: u16, k: u8, looks: &mut u32) -> Option<u16>
        requires place { place < length self.now }
        requires looks { looks.old < 16 }
        ensures looked { looks.new ≡ looks.old + 1 }
        ensures found { AncestorAnswer self.now (2 ^ k) place result }
    {
        *looks += 1;
        let place = usize::from(place);
        let k = usize::from(k);
        let rows = &self.rows;
        if !has_entry(rows.depths[place], k) {
            return None;
        }
        Some(rows.entries[rows.starts[place] as usize + k])
    }

    // The place of the class so many steps above one, and how many entries of rows were looked at.
    fn above(&self, place: u16, steps: u16) -> (u16, u32)
        requires formed { IsHierarchy self.now }
        requires deep { (c : ClassFact) × (d : ℕ) × (slice_get self.now place ≡ Some c) × IsDepth self.now c.name d
            × (steps ≤ d) }
        ensures there { IsAncestor self.now steps place result.0 }
        ensures looked { result.1 ≡ count_ones steps }
        ensures few { result.1 ≤ 16 }
    {
        let mut at = place;
        let mut left = steps;
        let mut looks = 0;
        let mut k = 0;
        while left > 0 {
            if left % 2 == 1 {
                match self.ancestor(at, k, &mut looks) {
                    Some(next) => at = next,
                    None => unreachable!(),
                }
            }
            left /= 2;
            k += 1;
        }
        (at, looks)
    }

    // Whether the class at the place `from` is that at the place `to` or stands below it, and how many entries of rows
    // were looked at. False where a place is that of no class.
    fn climb_at(&self, from: usize, to: usize) -> (bool, u32)
        ensures answer { (a b : List ℕ) → place_in self.now a ≡ Some from → place_in self.now b ≡ Some to
            → SubclassAnswer self.now a b (yes_if result.0) }
        ensures looked { (a b : List ℕ) → place_in self.now a ≡ Some from → place_in self.now b ≡ Some to
            → IsLookedUp self.now a b result.1 }
    {
        let depths = &self.rows.depths;
        if from >= depths.len() || to >= depths.len() {
            return (false, 0);
        }
        if from == to {
            return (true, 0);
        }
        let (low, high) = (depths[from], depths[to]);
        if low <= high {
            return (false, 0);
        }
        let (above, looks) = self.above(from as u16, low - high);
        (usize::from(above) == to, looks)
    }

    /// Whether `a` is `b` or stands below it, as [`Classes::is_subclass`], and how many entries of rows were looked at:
    /// where both are in the list and `a` is the deeper, as many as the difference of their depths has binary digits 1,
    /// and otherwise none.
    pub fn climb<'n>(&self, a: &'n [u8], b: &'n [u8]) -> (Answer<'n>, u32)
        ensures answer { SubclassAnswer self.now a.now b.now (outcome_of result.0) }
        ensures looked { IsLookedUp self.now a.now b.now result.1 }
    {
        let index = &self.index;
        if a == b {
            return (Answer::Yes, 0);
        }
        let Some(from) = index.place(a) else {
            return (Answer::Missing(a), 0);
        };
        let Some(to) = index.place(b) else {
            return (Answer::No, 0);
        };
        let (below, looks) = self.climb_at(from, to);
        (Answer::yes_if(below), looks)
    }
}

impl<'s, 'a, S: BuildHasher> Classes for Rows<'s, 'a, S> {
    ghost content = { λ r. r };

    fn find(&self, name: &[u8]) -> Option<&Summary<'_>> {
        self.index.find(name)
    }

    fn place(&self, name: &[u8]) -> Option<u16> {
        short(self.index.place(name))
    }

    fn is_interface(&self, name: &[u8]) -> Option<bool> {
        self.index.is_interface(name)
    }

    fn is_subclass<'n>(&self, a: &'n [u8], b: &'n [u8]) -> Answer<'n> {
        self.climb(a, b).0
    }

    fn is_interface_at(&self, place: u16) -> bool {
        self.index.is_interface_at(usize::from(place))
    }

    fn is_below(&self, a: u16, b: u16) -> bool {
        self.climb_at(usize::from(a), usize::from(b)).0
    }

    fn guarded_in_advance(
        &self,
        _alloc: Global,
        _class: &[u8],
        _references: &References<'_>,
    ) -> Result<Option<Vec<bool>>, AllocError> {
        Ok(None)
    }

    fn overriding_in_advance(
        &self,
        _alloc: Global,
        _class: &Summary<'_>,
    ) -> Result<Option<Option<usize>>, AllocError> {
        Ok(None)
    }
}
