ghost use Rattle.std.specs.Prelude.{◌≡◌, ◌<◌, length};

use blocks::lanes::decided_lanes;
use blocks::{Arena, Row, laws};
use std::alloc::{AllocError, Global};
use std::simd::u32x8;
use std::test::*;

/// Puts a number into a slot of the running row, if it has that slot.
fn put(arena: &mut Arena, slot: usize, number: u32) -> Result<(), AllocError>
    ensures slots { length arena.new.running ≡ length arena.old.running }
    ensures declared { arena.new.declared ≡ arena.old.declared }
{
    if slot < arena.slots() {
        arena.set(slot, number)?;
    }
    Ok(())
}

/// The number of a slot of the running row, if it has that slot.
fn running(arena: &Arena, slot: usize) -> Option<u32> {
    if slot < arena.slots() {
        Some(arena.get(slot))
    } else {
        None
    }
}

/// The number of a slot of a declared row, if it has that slot.
fn declared(arena: &Arena, row: Row, slot: usize) -> Option<u32>
    requires { row < length arena.now.declared }
{
    if slot < arena.slots() {
        Some(arena.get_declared(row, slot))
    } else {
        None
    }
}

/// Puts a number into each slot of the running row.
fn fill(arena: &mut Arena, number: u32) -> Result<(), AllocError>
    ensures { arena.new.declared ≡ arena.old.declared }
{
    for slot in 0..arena.slots() {
        put(arena, slot, number)?;
    }
    Ok(())
}

/// Rows of so many slots, of which the running one has a number throughout.
fn filled(alloc: Global, count: u16, number: u32) -> Result<Arena, AllocError> {
    let mut arena = Arena::new(alloc, count)?;
    fill(&mut arena, number)?;
    Ok(arena)
}

/// Whether a row is found to differ at a place from one declared before, and there alone.
fn differs_at(alloc: Global, count: u16, place: u16) -> Result<bool, AllocError> {
    let slot = place as usize;
    let mut arena = filled(alloc, count, 5)?;
    let row = arena.declare()?;
    put(&mut arena, slot, 7)?;
    let first = arena.first_undecided(row, 0);
    let at = arena.first_undecided(row, slot);
    let behind = arena.first_undecided(row, slot + 1);
    let expected = if place < count { Some(slot) } else { None };
    Ok(first == expected && at == expected && behind.is_none())
}

/// Whether it does at each of these places.
fn differs_at_each(alloc: Global, count: u16, places: &[u16]) -> Result<bool, AllocError> {
    for place in places {
        if !differs_at(alloc, count, *place)? {
            return Ok(false);
        }
    }
    Ok(true)
}

/// Whether it does at each place of so many, and nowhere after the last.
fn differs_everywhere(alloc: Global, count: u16) -> Result<bool, AllocError> {
    for place in 0..count.saturating_add(1) {
        if !differs_at(alloc, count, place)? {
            return Ok(false);
        }
    }
    Ok(true)
}

const COUNTS: [u16; 10] = [0, 1, 7, 8, 9, 15, 16, 17, 33, 257];

/// Places of the longest row.
const PLACES: [u16; 8] = [0, 15, 16, 255, 256, 4095, 4096, 65534];

fn one_slot_differs(alloc: Global) -> Result<bool, AllocError> {
    for count in &COUNTS {
        if !differs_everywhere(alloc, *count)? {
            return Ok(false);
        }
    }
    differs_at_each(alloc, u16::MAX, &PLACES)
}

/// Whether two declared rows of ones, of which the second has 2 at slot 20, keep what they hold when the first is
/// taken on and changed.
fn are_kept_behind(arena: &mut Arena, first: Row, second: Row) -> Result<bool, AllocError>
    requires first { first < length arena.old.declared }
    requires second { second < length arena.old.declared }
{
    arena.take(first);
    put(arena, 0, 6)?;
    let taken = [running(arena, 20), running(arena, 0)] == [Some(1), Some(6)];
    let stays = [declared(arena, first, 0), declared(arena, second, 0)] == [Some(1), Some(1)];
    Ok(taken && stays)
}

/// Whether declared rows keep what they hold, whatever the running row, which has ones, holds afterwards.
fn are_kept(arena: &mut Arena) -> Result<bool, AllocError> {
    let first = arena.declare()?;
    put(arena, 20, 2)?;
    let second = arena.declare()?;
    put(arena, 20, 3)?;
    put(arena, 39, 4)?;
    let both = [declared(arena, first, 20), declared(arena, second, 20)] == [Some(1), Some(2)];
    let last = [declared(arena, second, 39), running(arena, 39)] == [Some(1), Some(4)];
    Ok(both && last && are_kept_behind(arena, first, second)?)
}

/// Whether Top fits, and is fitted, as the standard has it.
fn top_is_wanted(alloc: Global) -> Result<bool, AllocError> {
    let mut arena = Arena::new(alloc, 20)?;
    let top = arena.declare()?;
    put(&mut arena, 18, 1)?;
    let any = arena.first_undecided(top, 0).is_none();
    let int = arena.declare()?;
    arena.take(top);
    Ok(any && arena.first_undecided(int, 0) == Some(18))
}

/// Whether a declared row, which differs from the running one everywhere, is said to fit, and is compared again where
/// the running one changes, and only there.
fn is_noted(arena: &mut Arena, row: Row, place: usize) -> Result<bool, AllocError>
    requires { row < length arena.old.declared }
{
    let before = arena.first_undecided(row, 0);
    arena.note_fit(row);
    let noted = arena.first_undecided(row, 0);
    put(arena, place, 7)?;
    let changed = arena.first_undecided(row, 0);
    arena.note_fit(row);
    let again = arena.first_undecided(row, 0);
    Ok(before == Some(0) && noted.is_none() && changed == Some(place) && again.is_none())
}

fn is_noted_among(alloc: Global, count: u16, place: usize) -> Result<bool, AllocError> {
    let mut arena = filled(alloc, count, 6)?;
    let row = arena.declare()?;
    fill(&mut arena, 5)?;
    is_noted(&mut arena, row, place)
}

fn what_was_said_is_kept(alloc: Global) -> Result<bool, AllocError> {
    let short = is_noted_among(alloc, 9, 8)?;
    let long = is_noted_among(alloc, 300, 299)?;
    Ok(short && long && is_noted_among(alloc, 5000, 4100)?)
}

/// Whether it is told where two declared rows differ.
fn is_unequal(arena: &Arena, row: Row, other: Row, place: usize) -> bool
    requires row { row < length arena.now.declared }
    requires other { other < length arena.now.declared }
{
    let unequal = [
        arena.first_unequal(row, other),
        arena.first_unequal(row, row),
    ];
    unequal == [Some(place), None]
}

/// Whether it is told where the running row changed since it was kept, and where two declared rows differ.
fn is_told(arena: &mut Arena, place: usize) -> Result<bool, AllocError> {
    let before = arena.first_changed(0);
    arena.keep()?;
    let row = arena.declare()?;
    let kept = arena.first_changed(0);
    put(arena, place, 7)?;
    let other = arena.declare()?;
    let changed = [arena.first_changed(0), arena.first_changed(arena.slots())];
    let told = changed == [Some(place), None] && is_unequal(arena, row, other, place);
    arena.take(row);
    Ok(before == Some(0) && kept.is_none() && told && arena.first_changed(0).is_none())
}

fn changes_are_told(alloc: Global, count: u16, place: usize) -> Result<bool, AllocError> {
    let mut arena = filled(alloc, count, 6)?;
    is_told(&mut arena, place)
}

/// Parts of two rows that differ at slots 17 and 39 alone, and whether the rows are equal there.
const PARTS: [(usize, usize, bool); 9] = [
    (0, 17, true),
    (0, 18, false),
    (17, 17, true),
    (17, 18, false),
    (18, 0, true),
    (18, 39, true),
    (18, 40, false),
    (39, usize::MAX, false),
    (40, usize::MAX, true),
];

/// Whether two declared rows are equal in each part that is said to be, and in no other.
fn are_equal_in(arena: &Arena, row: Row, other: Row, parts: &[(usize, usize, bool)]) -> bool
    requires row { row < length arena.now.declared }
    requires other { other < length arena.now.declared }
{
    for (from, to, equal) in parts {
        if arena.are_equal(row, other, *from, *to) != *equal {
            return false;
        }
    }
    true
}

/// Whether a row is equal to itself, and to another one in all parts but those in which they differ.
fn parts_are_compared(alloc: Global) -> Result<bool, AllocError> {
    let mut arena = filled(alloc, 40, 1)?;
    let row = arena.declare()?;
    put(&mut arena, 17, 2)?;
    put(&mut arena, 39, 3)?;
    let other = arena.declare()?;
    Ok(arena.are_equal(row, row, 0, 40) && are_equal_in(&arena, row, other, &PARTS))
}

/// Whether 9 takes the place of 5 throughout the running row, whose last slot this is, and not in a declared one that
/// holds the same; and does so again where that one is taken on.
fn is_replaced(arena: &mut Arena, row: Row, last: usize) -> Result<bool, AllocError>
    requires { row < length arena.old.declared }
{
    arena.replace(5, 9)?;
    let first = [running(arena, 0), running(arena, last)];
    let stays = declared(arena, row, last) == Some(5);
    arena.take(row);
    arena.replace(5, 9)?;
    let again = [running(arena, 0), running(arena, last)];
    arena.make_room()?;
    let after = [running(arena, 0), running(arena, last)];
    Ok(first == [Some(9), Some(9)] && again == first && stays && after == first)
}

/// Whether 5 can be put where 9 took its place, and 9 stays at this slot, also in a row that is kept then.
fn is_put_again(arena: &mut Arena, last: usize) -> Result<bool, AllocError> {
    arena.replace(5, 9)?;
    put(arena, 0, 5)?;
    let put = [running(arena, 0), running(arena, last)] == [Some(5), Some(9)];
    arena.replace(5, 7)?;
    arena.keep()?;
    let kept = [running(arena, 0), running(arena, last)] == [Some(7), Some(9)];
    Ok(put && kept && arena.first_changed(0).is_none())
}

fn numbers_are_replaced(alloc: Global, count: u16) -> Result<bool, AllocError> {
    let last = usize::from(count.saturating_sub(1));
    let mut arena = filled(alloc, count, 5)?;
    let row = arena.declare()?;
    Ok(is_replaced(&mut arena, row, last)? && is_put_again(&mut filled(alloc, count, 5)?, last)?)
}

/// Whether an arena begins anew.
fn begins_anew(alloc: Global) -> Result<bool, AllocError> {
    let mut arena = filled(alloc, 300, 5)?;
    arena.declare()?;
    arena.restart(17);
    let unchanged = arena.first_changed(0).is_none();
    put(&mut arena, 16, 2)?;
    let row = arena.declare()?;
    let are_few = arena.slots() == 17 && running(&arena, 0) == Some(0);
    Ok(unchanged && are_few && declared(&arena, row, 16) == Some(2))
}

fn rows_are_kept(alloc: Global) -> Result<bool, AllocError> {
    let mut arena = filled(alloc, 40, 1)?;
    are_kept(&mut arena)
}

fn all_hold(alloc: Global) -> Result<bool, AllocError> {
    let rows = rows_are_kept(alloc)? && top_is_wanted(alloc)? && parts_are_compared(alloc)?;
    let changes = changes_are_told(alloc, 17, 16)? && changes_are_told(alloc, 5000, 4100)?;
    let replaced = numbers_are_replaced(alloc, 9)? && numbers_are_replaced(alloc, 5000)?;
    Ok(rows && changes && replaced && what_was_said_is_kept(alloc)? && begins_anew(alloc)?)
}

#[test]
fn rows_that_differ_at_one_slot(rt: HostRuntime) {
    assert!(rt; one_slot_differs(rt.alloc()) == Ok(true));
}

#[test]
fn rows_are_shared(rt: HostRuntime) {
    assert!(rt; all_hold(rt.alloc()) == Ok(true));
}

#[test]
fn memory_runs_out_for_shared_rows(rt: HostRuntime) {
    assert!(rt; all_hold(rt.alloc()) != Ok(false));
}

/// Eight numbers, eight that are wanted, and how many of them fit up to the first that does not: where every number fits
/// 0, and where none does.
type Lanes = ([u32; 8], [u32; 8], usize, usize);

const LANES: [Lanes; 6] = [
    ([1, 2, 3, 4, 5, 6, 7, 8], [1, 2, 3, 4, 5, 6, 7, 8], 8, 8),
    ([1, 2, 3, 4, 5, 6, 7, 8], [1, 2, 3, 4, 5, 6, 7, 9], 7, 7),
    ([9, 2, 3, 4, 5, 6, 7, 8], [1, 2, 3, 4, 5, 6, 7, 9], 0, 0),
    ([1, 2, 3, 4, 5, 6, 7, 8], [1, 2, 0, 4, 5, 6, 7, 8], 8, 2),
    ([1, 2, 0, 4, 5, 6, 7, 8], [1, 2, 3, 4, 5, 6, 7, 8], 2, 2),
    ([1, 2, 0, 4, 5, 6, 7, 8], [1, 2, 0, 4, 5, 9, 7, 8], 5, 2),
];

fn are_decided(rows: &[Lanes]) -> bool {
    for (numbers, wanted, fitting, others) in rows {
        let numbers = u32x8::from_slice(numbers);
        let wanted = u32x8::from_slice(wanted);
        if decided_lanes::<0, true>(numbers, wanted) != *fitting
            || decided_lanes::<0, false>(numbers, wanted) != *others
        {
            return false;
        }
    }
    true
}

#[test]
fn numbers_by_lanes(rt: HostRuntime) {
    assert!(rt; are_decided(&LANES));
}

#[test]
fn laws_are_called() {
    laws::settled_slots_fit();
    laws::truths_stay();
}
