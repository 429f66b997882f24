//! Rows of ancestors, one after the other.
ghost use Rattle.std.specs.Prelude.{◌^◌, ◌<◌, ◌≤◌, ◌↔◌, IsTrue, IfOk, OnOk, length, map};
ghost use Rattle.hierarchy.specs.private.Skips.{AreLong, IsRowAdded, FitTogether, HaveRows};

use crate::skips::{Skip, Skips};
use std::alloc::{AllocError, Global};

/// The depth of each class of a list, which is how many classes stand above it, and its row: the places of its
/// ancestors at the distances 1, 2, 4 and so on, as far as its depth reaches.
#[derive(Drop)]
pub struct RowTable {
    pub depths: Vec<u16>,
    /// Where the row of each class begins among the entries.
    pub starts: Vec<u32>,
    pub entries: Vec<u16>,
}

/// Whether a class of a depth has an ancestor at the distance 2 to the power of `k`.
pub fn has_entry(depth: u16, k: usize) -> bool
    ensures { IsTrue result ↔ (2 ^ k ≤ depth) }
{
    k < 16 && depth >> k > 0
}

// Puts the row of a place after the entries.
fn push_row(
    tables: &[Vec<Skip>],
    place: usize,
    depth: u16,
    entries: &mut Vec<u16>,
) -> Result<(), AllocError>
    requires within { AreLong (map (λ t. t.items) tables.now) place }
    requires enough { depth < 2 ^ length tables.now }
    ensures { OnOk result (IsRowAdded (map (λ t. t.items) tables.now) place depth entries.old.items entries.new.items) }
{
    for (k, skips) in tables.iter().enumerate() {
        if !has_entry(depth, k) {
            return Ok(());
        }
        entries.push(skips[place].place)?;
    }
    Ok(())
}

/// The rows of all places.
pub fn rows_of(alloc: Global, skips: &Skips) -> Result<RowTable, AllocError>
    requires { FitTogether (map (λ t. t.items) skips.now.tables.items) skips.now.tops.items }
    ensures { IfOk result (λ rows. HaveRows (map (λ t. t.items) skips.now.tables.items) skips.now.tops.items
        (length skips.now.tops.items) rows.depths.items rows.starts.items rows.entries.items) }
{
    let mut depths = Vec::with_capacity(alloc, skips.tops.len())?;
    let mut starts = Vec::with_capacity(alloc, skips.tops.len())?;
    let mut entries = Vec::new(alloc);
    for (place, top) in skips.tops.iter().enumerate() {
        depths.push(top.steps)?;
        starts.push(entries.len() as u32)?;
        push_row(&skips.tables, place, top.steps, &mut entries)?;
    }
    entries.shrink_to_fit();
    Ok(RowTable {
        depths,
        starts,
        entries,
    })
}
