//! Rows of local variables that stand twice, or without another (JVMS 4.7.13, 4.7.14).
ghost use Rattle.std.specs.Prelude.{◌≡◌, ◌||◌, IfOk, List, [], false};
ghost use Rattle.std.specs.List.{list_any};
ghost use Rattle.classfile.specs.release.DebugTables.{are_same, is_alone, are_alone, are_repeated};
ghost use Rattle.classfile.specs.release.Twice.{has_twice};
ghost use Rattle.classfile.specs.private.MetRows.{key_of, is_met, Meets, AreMet};

use crate::release_form::debug_tables::Variable;
use std::alloc::{AllocError, Global};
use std::collections::BTreeSet;

/// A row as it is told from others: its start, its length, its name and its index.
type Key = ((u16, u16), (u16, u16));

/// The rows that were met.
#[derive(Drop)]
struct MetRows {
    keys: BTreeSet<Key>,
}

fn key_of(row: Variable) -> Key
    ensures { result ≡ key_of row }
{
    ((row.start, row.length), (row.name, row.index))
}

impl MetRows {
    /// None yet.
    fn new(alloc: Global) -> MetRows
        ensures { AreMet [] result }
    {
        MetRows {
            keys: BTreeSet::new(alloc),
        }
    }

    /// Whether this row was met before; now it is met.
    fn meet(&mut self, row: Variable) -> Result<bool, AllocError>
        ensures { IfOk result (Meets self.old self.new row) }
    {
        let is_new = self.keys.insert(key_of(row))?;
        Ok(!is_new)
    }

    /// Whether this row was met.
    fn has(&self, row: Variable) -> bool
        ensures { result ≡ is_met self.now row }
    {
        self.keys.contains(&key_of(row))
    }
}

/// Whether two rows have one name for one place, from one offset to another.
pub fn are_same(row: Variable, other: Variable) -> bool
    ensures { result ≡ are_same row other }
{
    row.start == other.start
        && row.length == other.length
        && row.name == other.name
        && row.index == other.index
}

/// Whether one of the rows stands twice; otherwise all are met.
fn meet_all(met: &mut MetRows, rows: &[Variable]) -> Result<bool, AllocError>
    requires { AreMet [] met.now }
    ensures told { IfOk result (λ r. r ≡ has_twice are_same rows.now) }
    ensures met { IfOk result (λ r. r ≡ false → AreMet rows.now met.new) }
{
    for row in rows {
        if met.meet(*row)? {
            return Ok(true);
        }
    }
    Ok(false)
}

/// Whether one of the types has no row among the local variables that were met.
fn one_is_alone(met: &MetRows, _variables: &[Variable], types: &[Variable]) -> bool
    requires { AreMet _variables.now met.now }
    ensures { result ≡ list_any (is_alone _variables.now) types.now }
{
    for row in types {
        if !met.has(*row) {
            return true;
        }
    }
    false
}

/// Whether one of the types has no row among the local variables that were met, if there are any.
fn are_alone(met: &MetRows, variables: &[Variable], types: &[Variable]) -> bool
    requires { AreMet variables.now met.now }
    ensures { result ≡ are_alone variables.now types.now }
{
    match variables {
        [] => false,
        [_, ..] => one_is_alone(met, variables, types),
    }
}

/// Whether a row of the local variables stands twice, or one of their types stands twice or without its row among the
/// local variables.
pub fn are_repeated(
    alloc: Global,
    variables: &[Variable],
    types: &[Variable],
) -> Result<bool, AllocError>
    ensures { IfOk result (λ r. r ≡ are_repeated variables.now types.now) }
{
    let mut met = MetRows::new(alloc);
    let mut met_types = MetRows::new(alloc);
    if meet_all(&mut met, variables)? || meet_all(&mut met_types, types)? {
        return Ok(true);
    }
    Ok(are_alone(&met, variables, types))
}
