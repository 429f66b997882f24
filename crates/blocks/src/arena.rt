//! The rows of a method, in which replacements may be pending.
ghost use Rattle.std.specs.Prelude.{◌≡◌, ◌<◌, ◌+◌, ◌^◌, ◌⊎◌, ◌++◌, ◌∷◌, [], length, map, replicate, slice_index, slice_set, IfOk, OnOk, OnErr, IsTrue, ◌↔◌};
ghost use Rattle.blocks.specs.Rows.{declared_row, AreEqualBetween, IsFirstUndecided, IsFirstUnequal, IsSaidToFit, replaced};
ghost use Rattle.blocks.specs.private.Pending.{shown, read_through, AreDirect, AreReplacedSome};

use crate::block::is_decided;
use crate::pending::{Pair, Pending};
use crate::row_trees::{Row, RowTrees};
use std::alloc::{AllocError, Global};
use std::marker::Model;

/// The rows of a method: that of the running frame, those of the declared frames, and one that is kept to tell what
/// changed since.
///
/// A slot holds the number of a type, at first 0, which is Top. Where memory runs out, a call leaves all rows as they
/// were.
#[derive(Drop)]
pub struct Arena {
    rows: RowTrees,
    /// Replacements that were asked for in the running row, and not done yet: at most 1,024 of them. They are done
    /// before the row is declared, kept or compared, and forgotten where another row becomes the running one.
    pending: Pending,
    /// So many first slots are read and written as they are: all, or none while replacements are pending.
    direct: usize,
    /// Whether a row was kept. Changes are then asked for after each replacement, so that it is done at once.
    watched: bool,
}

impl Model for Arena {
    ghost use Rattle.blocks.specs.Rows.{Rows};
    ghost use Rattle.blocks.specs.private.Pending.{read_through, AreDirect};

    ghost Value = { Rows };

    ghost view = { λ a. read_through a.pending.pairs.items a.rows };

    ghost invariant = { λ a. AreDirect a.pending.pairs.items a.direct };
}

/// Puts a number in place of another, slot by slot.
fn replace_slots(pair: Pair, rows: &mut RowTrees) -> Result<(), AllocError>
    ensures rest { rows.new ≡ record rows.old { running = rows.new.running } }
    ensures each { AreReplacedSome pair.number pair.by rows.old.running rows.new.running }
    ensures ok { OnOk result (rows.new.running ≡ map (replaced pair.number pair.by) rows.old.running) }
{
    for slot in 0..rows.slots() {
        if rows.get(slot) == pair.number {
            rows.set(slot, pair.by)?;
        }
    }
    Ok(())
}

/// Puts a number in place of another throughout the running row: node by node while there is room for nodes that come
/// of it.
fn replace_all(pair: Pair, rows: &mut RowTrees) -> Result<(), AllocError>
    ensures rest { rows.new ≡ record rows.old { running = rows.new.running } }
    ensures each { AreReplacedSome pair.number pair.by rows.old.running rows.new.running }
    ensures ok { OnOk result (rows.new.running ≡ map (replaced pair.number pair.by) rows.old.running) }
{
    if pair.number == 0 || !rows.has_room() {
        return replace_slots(pair, rows);
    }
    rows.replace(pair.number, pair.by)
}

/// Does the first of the replacements that are pending.
fn do_first(pending: &mut Pending, rows: &mut RowTrees) -> Result<(), AllocError>
    requires { 0 < length pending.old.pairs.items }
    ensures same { read_through pending.new.pairs.items rows.new ≡ read_through pending.old.pairs.items rows.old }
    ensures fewer { OnOk result (length pending.new.pairs.items + 1 ≡ length pending.old.pairs.items) }
{
    replace_all(pending.first(), rows)?;
    pending.drop_first();
    Ok(())
}

/// Does all replacements that are pending.
fn do_all(pending: &mut Pending, rows: &mut RowTrees) -> Result<(), AllocError>
    ensures same { read_through pending.new.pairs.items rows.new ≡ read_through pending.old.pairs.items rows.old }
    ensures none { OnOk result (pending.new.pairs.items ≡ []) }
{
    while !pending.is_empty() {
        do_first(pending, rows)?;
    }
    Ok(())
}

/// Does all replacements that are pending; so many slots are then read as they are.
#[inline(never)]
fn settle_all(
    pending: &mut Pending,
    direct: &mut usize,
    rows: &mut RowTrees,
) -> Result<(), AllocError>
    ensures same { read_through pending.new.pairs.items rows.new ≡ read_through pending.old.pairs.items rows.old }
    ensures direct { AreDirect pending.new.pairs.items direct.new }
    ensures none { OnOk result (pending.new.pairs.items ≡ []) }
{
    *direct = 0;
    do_all(pending, rows)?;
    *direct = rows.slots();
    Ok(())
}

/// Does all replacements that are pending, if there are any.
#[inline(always)]
fn settle(pending: &mut Pending, direct: &mut usize, rows: &mut RowTrees) -> Result<(), AllocError>
    requires { AreDirect pending.old.pairs.items direct.old }
    ensures same { read_through pending.new.pairs.items rows.new ≡ read_through pending.old.pairs.items rows.old }
    ensures direct { AreDirect pending.new.pairs.items direct.new }
    ensures none { OnOk result (pending.new.pairs.items ≡ []) }
{
    if *direct == 0 {
        return settle_all(pending, direct, rows);
    }
    Ok(())
}

/// Does all replacements that are pending, if one of them replaces a number.
fn settle_for(
    number: u32,
    pending: &mut Pending,
    direct: &mut usize,
    rows: &mut RowTrees,
) -> Result<(), AllocError>
    requires { AreDirect pending.old.pairs.items direct.old }
    ensures same { read_through pending.new.pairs.items rows.new ≡ read_through pending.old.pairs.items rows.old }
    ensures direct { AreDirect pending.new.pairs.items direct.new }
    ensures shown { OnOk result (shown pending.new.pairs.items number ≡ number) }
{
    if pending.shown(number) == number {
        return Ok(());
    }
    settle(pending, direct, rows)
}

/// Does all replacements that are pending, if no more may be added.
fn settle_full(
    pending: &mut Pending,
    direct: &mut usize,
    rows: &mut RowTrees,
) -> Result<(), AllocError>
    requires { AreDirect pending.old.pairs.items direct.old }
    ensures same { read_through pending.new.pairs.items rows.new ≡ read_through pending.old.pairs.items rows.old }
    ensures direct { AreDirect pending.new.pairs.items direct.new }
{
    if !pending.is_full() {
        return Ok(());
    }
    settle(pending, direct, rows)
}

/// Forgets the replacements that are pending; so many slots are then read as they are.
#[inline(always)]
fn forget(slots: usize, pending: &mut Pending, direct: &mut usize)
    requires { AreDirect pending.old.pairs.items direct.old }
    ensures { pending.new.pairs.items ≡ [] }
{
    if *direct == 0 {
        pending.clear();
        *direct = slots;
    }
}

impl Arena {
    /// The rows of a method with so many local variables: the running one, which holds Top throughout.
    pub fn new(alloc: Global, count: u16) -> Result<Arena, AllocError>
        ensures { IfOk result (λ arena. arena ≡ record {
          running = replicate count 0;
          declared = [];
          kept = replicate count 0;
          known = [];
        }) }
    {
        Ok(Arena {
            rows: RowTrees::new(alloc, count)?,
            pending: Pending::new(alloc),
            direct: count as usize,
            watched: false,
        })
    }

    /// Begins anew, for another method: keeps the memory, and takes none.
    pub fn restart(&mut self, count: u16)
        ensures { self.new ≡ record {
          running = replicate count 0;
          declared = [];
          kept = replicate count 0;
          known = [];
        } }
    {
        self.rows.restart(count);
        forget(count as usize, &mut self.pending, &mut self.direct);
        self.direct = count as usize;
        self.watched = false;
    }

    /// How many slots a row has.
    #[inline(always)]
    pub fn slots(&self) -> usize
        ensures count { result ≡ length self.now.running }
        ensures few { result < 2 ^ 16 }
    {
        self.rows.slots()
    }

    /// The number in a slot of the running row, through the replacements that are pending.
    #[inline(never)]
    fn get_through(&self, slot: usize) -> u32
        requires { slot < length self.now.running }
        ensures { result ≡ slice_index self.now.running slot }
    {
        self.pending.shown(self.rows.get(slot))
    }

    /// The number in a slot of the running row.
    #[inline(always)]
    pub fn get(&self, slot: usize) -> u32
        requires { slot < length self.now.running }
        ensures { result ≡ slice_index self.now.running slot }
    {
        if slot < self.direct {
            return self.rows.get(slot);
        }
        self.get_through(slot)
    }

    /// The number in a slot of a declared row.
    #[inline(always)]
    pub fn get_declared(&self, row: Row, slot: usize) -> u32
        requires row { row < length self.now.declared }
        requires slot { slot < length self.now.running }
        ensures { result ≡ slice_index (declared_row self.now row) slot }
    {
        self.rows.get_declared(row, slot)
    }

    /// Does the replacements that are pending, so that what follows takes no time for them. All rows hold what they
    /// held.
    #[inline(always)]
    pub fn settle(&mut self) -> Result<(), AllocError>
        ensures same { self.new ≡ self.old }
    {
        if self.direct > 0 {
            return Ok(());
        }
        settle_all(&mut self.pending, &mut self.direct, &mut self.rows)
    }

    /// Puts a number into a slot while replacements are pending: these are done first if they replace it.
    #[inline(never)]
    fn set_through(&mut self, slot: usize, number: u32) -> Result<(), AllocError>
        requires { slot < length self.old.running }
        ensures ok { OnOk result (self.new ≡ record self.old { running = slice_set self.old.running slot number }) }
        ensures err { OnErr result (self.new ≡ self.old) }
    {
        settle_for(number, &mut self.pending, &mut self.direct, &mut self.rows)?;
        self.rows.set(slot, number)
    }

    /// Puts a number into a slot of the running row.
    #[inline(always)]
    pub fn set(&mut self, slot: usize, number: u32) -> Result<(), AllocError>
        requires { slot < length self.old.running }
        ensures ok { OnOk result (self.new ≡ record self.old { running = slice_set self.old.running slot number }) }
        ensures err { OnErr result (self.new ≡ self.old) }
    {
        if slot < self.direct {
            return self.rows.set(slot, number);
        }
        self.set_through(slot, number)
    }

    /// Declares a row that holds what the running one does.
    pub fn declare(&mut self) -> Result<Row, AllocError>
        ensures place { IfOk result (λ row. row ≡ length self.old.declared) }
        ensures ok { OnOk result (self.new
            ≡ record self.old { declared = self.old.declared ++ self.old.running ∷ [] }) }
        ensures err { OnErr result (self.new ≡ self.old) }
    {
        settle(&mut self.pending, &mut self.direct, &mut self.rows)?;
        self.rows.declare()
    }

    /// Puts a number in place of another, throughout the running row, when this row is compared, or a row was kept: it
    /// takes no time for the slots before. All rows share what comes of a node that they share: so to do it again in a
    /// row that another one shares takes time for the nodes in which the two differ.
    ///
    /// The nodes that come of it stay until [`make_room`](Arena::make_room) takes them out.
    pub fn replace(&mut self, number: u32, by: u32) -> Result<(), AllocError>
        requires { 0 < number }
        ensures ok { OnOk result (self.new
            ≡ record self.old { running = map (replaced number by) self.old.running }) }
        ensures err { OnErr result (self.new ≡ self.old) }
    {
        if self.watched {
            settle(&mut self.pending, &mut self.direct, &mut self.rows)?;
            return self.rows.replace(number, by);
        }
        settle_full(&mut self.pending, &mut self.direct, &mut self.rows)?;
        self.pending.push(number, by)?;
        self.direct = 0;
        Ok(())
    }

    /// Takes out the nodes that no row has, where there are very many nodes. What was said to fit is forgotten then.
    pub fn make_room(&mut self) -> Result<(), AllocError>
        ensures { (self.new ≡ self.old) ⊎ (self.new ≡ record self.old { known = [] }) }
    {
        if self.rows.has_room() {
            return Ok(());
        }
        self.rows.compact()
    }

    /// The running row becomes a declared one. Takes no memory, and no more time for a long row; nodes that it had
    /// alone are given back.
    pub fn take(&mut self, row: Row)
        requires { row < length self.old.declared }
        ensures { self.new ≡ record self.old { running = declared_row self.old row } }
    {
        forget(self.rows.slots(), &mut self.pending, &mut self.direct);
        self.rows.take(row);
    }

    /// The first slot from one on that is not decided by numbers alone, through the replacements that are pending.
    #[inline(never)]
    fn first_undecided_through(&self, row: Row, from: usize) -> Option<usize>
        requires { row < length self.now.declared }
        ensures first { IsFirstUndecided self.now row from result }
        ensures few { length self.now.running < 2 ^ 16 }
    {
        for slot in from..self.slots() {
            if !is_decided(self.get(slot), self.get_declared(row, slot)) {
                return Some(slot);
            }
        }
        None
    }

    /// The first slot from one on at which neither numbers nor what was said before show that the running row fits a
    /// declared one. Numbers that are equal fit, and so does each where Top is wanted.
    #[inline(always)]
    pub fn first_undecided(&self, row: Row, from: usize) -> Option<usize>
        requires { row < length self.now.declared }
        ensures first { IsFirstUndecided self.now row from result }
        // a slot has one after it that is counted too
        ensures few { length self.now.running < 2 ^ 16 }
    {
        if self.direct == 0 {
            return self.first_undecided_through(row, from);
        }
        self.rows.first_undecided(row, from)
    }

    /// Keeps the running row as it is, in place of what was kept before. The running row shares all of its blocks
    /// afterwards. Takes memory only for replacements that are pending.
    pub fn keep(&mut self) -> Result<(), AllocError>
        ensures ok { OnOk result (self.new ≡ record self.old { kept = self.old.running }) }
        ensures err { OnErr result (self.new ≡ self.old) }
    {
        settle(&mut self.pending, &mut self.direct, &mut self.rows)?;
        self.rows.keep();
        self.watched = true;
        Ok(())
    }

    /// The first slot from one on at which the running row, through the replacements that are pending, differs from
    /// what was kept.
    #[inline(never)]
    fn first_changed_through(&self, from: usize) -> Option<usize>
        ensures first { IsFirstUnequal self.now.running self.now.kept from result }
        ensures even { length self.now.kept ≡ length self.now.running }
        ensures few { length self.now.running < 2 ^ 16 }
    {
        for slot in from..self.rows.slots() {
            if self.get(slot) != self.rows.get_kept(slot) {
                return Some(slot);
            }
        }
        None
    }

    /// The first slot from one on at which the running row differs from what was kept. Takes no time where nothing
    /// changed.
    #[inline(always)]
    pub fn first_changed(&self, from: usize) -> Option<usize>
        ensures first { IsFirstUnequal self.now.running self.now.kept from result }
        ensures even { length self.now.kept ≡ length self.now.running }
        ensures few { length self.now.running < 2 ^ 16 }
    {
        if self.direct == 0 {
            return self.first_changed_through(from);
        }
        self.rows.first_changed(from)
    }

    /// The first slot at which two declared rows differ.
    #[inline(always)]
    pub fn first_unequal(&self, row: Row, other: Row) -> Option<usize>
        requires row { row < length self.now.declared }
        requires other { other < length self.now.declared }
        ensures { IsFirstUnequal (declared_row self.now row) (declared_row self.now other) 0 result }
    {
        self.rows.first_unequal(row, other)
    }

    /// Whether two declared rows hold the same numbers in the slots from one up to another; rows have the same ones
    /// beyond their ends.
    #[inline(always)]
    pub fn are_equal(&self, row: Row, other: Row, from: usize, to: usize) -> bool
        requires row { row < length self.now.declared }
        requires other { other < length self.now.declared }
        ensures { IsTrue result ↔ AreEqualBetween (declared_row self.now row) (declared_row self.now other) from to }
    {
        self.rows.are_equal(row, other, from, to)
    }

    /// Notes that the running row fits a declared one, so that the two are not compared again until the running row
    /// changes, and then only where it changed; while replacements are pending nothing is noted. Takes no memory, but
    /// the running row shares all of its blocks afterwards: for rows of one block a comparison costs less than the
    /// copy that the next change then takes.
    #[inline(always)]
    pub fn note_fit(&mut self, row: Row)
        requires { row < length self.old.declared }
        ensures { (self.new ≡ self.old) ⊎ IsSaidToFit self.old self.new row }
    {
        if self.direct > 0 {
            self.rows.note_fit(row);
        }
    }
}
