//! Why an entry of a stack map is refused.
ghost use Rattle.std.specs.Prelude.{◌≡◌, ◌<◌, ◌≤◌, List, length, map, nat_lt, None};
ghost use Rattle.frames.specs.VerificationType.{VerificationType};
ghost use Rattle.frames.specs.MapViews.{info_of, entry_of};
ghost use Rattle.frames.specs.Conditions.{least};
ghost use Rattle.frames.specs.DeclaredFrames.{any_info, infos_of, chops_more, entry_conditions};
ghost use Rattle.frames.specs.EntrySizes.{HaveSizes, told};
ghost use Rattle.frames.specs.private.Judging.{is_wrong, seven_faults};

use crate::constants::{is_absent, is_other};
use crate::frame_fault::FrameFault;
use crate::stack_map::{MapEntry, TypeInfo};
use crate::starts::Starts;
use pool::Pool;

/// The limits of the entries of a method's stack map.
#[derive(Drop)]
pub struct Limits<'m, 'a, S: Starts> {
    /// The constants that they may name.
    pub pool: &'m Pool<'a>,
    /// Where the instructions of the method begin.
    pub starts: &'m S,
    /// How many local variables it has.
    pub max_locals: u16,
    /// How many units its stack may have.
    pub max_stack: u16,
}

/// The faults that a type of an entry may have.
#[derive(Clone, Copy, Debug)]
pub enum Wrong {
    /// The index of its class names nothing.
    NamesNothing,
    /// It names another constant than a class.
    NamesNoClass,
    /// No `new` stands where the object was made.
    MadeNowhere,
}

#[inline(always)]
fn is_wrong<S: Starts>(wrong: Wrong, info: TypeInfo, pool: &Pool<'_>, starts: &S) -> bool
    ensures { result ≡ is_wrong wrong pool.now (S.code starts.now) (info_of info) }
{
    match (wrong, info) {
        (Wrong::NamesNothing, TypeInfo::Object(class)) => is_absent(pool, class),
        (Wrong::NamesNoClass, TypeInfo::Object(class)) => is_other(pool, class),
        (Wrong::MadeNowhere, TypeInfo::Uninitialized(offset)) => !starts.is_new(offset),
        _ => false,
    }
}

#[inline(always)]
fn any_wrong<S: Starts>(wrong: Wrong, infos: &[TypeInfo], pool: &Pool<'_>, starts: &S) -> bool
    ensures { result ≡ any_info (is_wrong wrong pool.now (S.code starts.now)) (map info_of infos.now) }
{
    for info in infos {
        if is_wrong(wrong, *info, pool, starts) {
            return true;
        }
    }
    false
}

#[tactic(auto, using(crate::proofs::Judging::any_more))]
#[inline(always)]
fn has_wrong<S: Starts>(wrong: Wrong, entry: &MapEntry, pool: &Pool<'_>, starts: &S) -> bool
    ensures { result ≡ any_info (is_wrong wrong pool.now (S.code starts.now)) (infos_of (entry_of entry.now)) }
{
    match entry {
        MapEntry::Same(_) => false,
        MapEntry::SameWithItem(_, item) => is_wrong(wrong, *item, pool, starts),
        MapEntry::SameWithItemExtended(_, item) => is_wrong(wrong, *item, pool, starts),
        MapEntry::Chop(_, _) => false,
        MapEntry::SameExtended(_) => false,
        MapEntry::Append(_, locals) => any_wrong(wrong, locals, pool, starts),
        MapEntry::Full(_, locals, stack) => {
            any_wrong(wrong, locals, pool, starts) || any_wrong(wrong, stack, pool, starts)
        }
    }
}

/// How much an entry of a stack map leaves, and after how much it stands.
#[derive(Clone, Copy, Debug)]
pub struct Sizes {
    /// How many locals stand in front of it: a long or double is one of them.
    pub before: usize,
    /// How many units its locals take.
    pub locals: usize,
    /// How many units its stack takes.
    pub stack: usize,
}

/// Whether an entry takes more locals off than there are in front of it.
fn chops_more(entry: &MapEntry, before: usize) -> bool
    ensures { (ts : List VerificationType) → length ts ≡ before → result ≡ chops_more (entry_of entry.now) ts }
{
    match entry {
        MapEntry::Chop(count, _) => before < usize::from(*count),
        _ => false,
    }
}

/// Whether units are more than a limit.
fn is_over(limit: u16, units: usize) -> bool
    ensures { result ≡ nat_lt limit units }
{
    units > usize::from(limit)
}

/// Which faults an entry has.
#[derive(Drop)]
struct EntryFaults {
    names_nothing: bool,
    names_no_class: bool,
    locals_over: bool,
    stack_over: bool,
    chops_more: bool,
    starts_nowhere: bool,
    made_nowhere: bool,
}

impl EntryFaults {
    /// The one of the least number.
    fn least(&self) -> Option<FrameFault>
        ensures { let f = self.now in
            told result ≡ least (seven_faults f.names_nothing f.names_no_class f.locals_over f.stack_over f.chops_more
            f.starts_nowhere f.made_nowhere) }
    {
        if self.names_nothing {
            return Some(FrameFault::BadIndex);
        }
        if self.names_no_class {
            return Some(FrameFault::WrongKind);
        }
        if self.locals_over {
            return Some(FrameFault::LocalsOver);
        }
        if self.stack_over {
            return Some(FrameFault::StackOver);
        }
        if self.chops_more {
            return Some(FrameFault::ChopTooMany);
        }
        if self.starts_nowhere {
            return Some(FrameFault::NotAStart);
        }
        if self.made_nowhere {
            return Some(FrameFault::NotANew);
        }
        None
    }
}

/// The fault of the least number that an entry has which declares a frame at an offset in bytes: 8, 9 and 53 for its
/// types, 49 and 50 for its sizes, 51 where it takes more locals off than there are, and 52 where no instruction begins
/// at the offset (JVMS 4.7.4, 4.10.1).
pub fn judge_entry<S: Starts>(
    entry: &MapEntry,
    at: u32,
    sizes: Sizes,
    limits: &Limits<'_, '_, S>,
) -> Option<FrameFault>
    ensures small { result ≡ None → at < 65536 }
    ensures fits { result ≡ None → (sizes.locals ≤ limits.now.max_locals) × (sizes.stack ≤ limits.now.max_stack) }
    ensures least { (before locals stack : List VerificationType) → HaveSizes before locals stack sizes
        → told result ≡ least (entry_conditions limits.now.pool.now (S.code limits.now.starts.now)
        limits.now.max_locals limits.now.max_stack at (entry_of entry.now) before locals stack) }
{
    let pool = limits.pool;
    let starts = limits.starts;
    let faults = EntryFaults {
        names_nothing: has_wrong(Wrong::NamesNothing, entry, pool, starts),
        names_no_class: has_wrong(Wrong::NamesNoClass, entry, pool, starts),
        locals_over: is_over(limits.max_locals, sizes.locals),
        stack_over: is_over(limits.max_stack, sizes.stack),
        chops_more: chops_more(entry, sizes.before),
        starts_nowhere: !starts.is_start(at),
        made_nowhere: has_wrong(Wrong::MadeNowhere, entry, pool, starts),
    };
    faults.least()
}
