//! The exception handlers of a method, while a pass goes over its code (JVMS 4.10.1.6).
ghost use Rattle.std.specs.Prelude.{◌≡◌, ◌≤◌, ℕ, true, false, None, Some, List, All, slice_get, IsTrue, IfOk, OnOk, MatchOption};
ghost use Rattle.std.specs.List.{list_any};
ghost use Rattle.classfile.specs.Methods.{ExceptionEntry};
ghost use Rattle.frames.specs.Conditions.{is_no, least};
ghost use Rattle.method_frames.specs.NumberedFrames.{NumberedFrames};
ghost use Rattle.method_frames.specs.MapFrames.{frames_by};
ghost use Rattle.numbered_rules.specs.RunningFrame.{held};
ghost use Rattle.rules.specs.Outcomes.{Judges};
ghost use Rattle.verify.specs.Verdict.{answer_conditions, handler_conditions, is_covered};
ghost use Rattle.verify.specs.private.InTurn.{IsJudgedInTurn};
ghost use Rattle.verify.specs.private.pass.Following.{IsHandler, AreHandlers, IsTaken, IsUnchanged, IsOfEntry, IsLike, IsPassed, Comes, AreAllTaken, Catches, AreCaught, IsCaught, IsKnown, Follows, AreAhead, AreFrom, handler_answer, one_handler_at, is_covering, refuses};

use crate::flow::check_answer;
use crate::pass::representatives::Representatives;
use hierarchy::{Answer, Classes};
use method_frames::MethodFrames;
use rules::Reason;
use std::alloc::{AllocError, Global};
use std::collections::BTreeMap;

/// For a table of at most so many entries it is not remembered what their handlers' frames take.
const FEW_ENTRIES: usize = 64;

/// An entry of an exception table (JVMS 4.7.3).
#[derive(Clone, Copy, Debug)]
pub struct Handler {
    /// The offset of the first instruction that it covers, in bytes.
    pub from: u16,
    /// The offset after those that it covers.
    pub to: u16,
    /// The place of the frame that is declared at the handler.
    pub frame: usize,
    /// The number of the type that it catches.
    pub caught: u32,
    /// The place of a declared frame that stands for that frame, since it has the same locals.
    pub lead: usize,
}

/// Whether an entry covers an offset.
fn covers(at: u16, handler: &Handler) -> bool
    ensures { result ≡ is_covering handler.now at }
{
    handler.from <= at && at < handler.to
}

/// Whether an entry has the frame of another one, if there is one, and catches the same type.
fn is_like(handler: &Handler, last: &Option<Handler>) -> bool
    ensures { IsTrue result → IsLike handler.now last.now }
{
    match last {
        Some(last) => handler.frame == last.frame && handler.caught == last.caught,
        None => false,
    }
}

/// Whether an entry covers an instruction, and is not like the one that was asked last.
fn is_asked(at: u16, handler: &Handler, last: &Option<Handler>) -> bool
    ensures asked { IsTrue result → is_covering handler.now at ≡ true }
    ensures passed { result ≡ false → IsPassed at last.now handler.now }
{
    covers(at, handler) && !is_like(handler, last)
}

/// The frame before an instruction that an entry covers, with what the entry catches alone on its stack, comes to the
/// handler: 73 and 77 by their comparison.
fn check_handler<'n, C: Classes>(
    handler: &Handler,
    frames: &mut MethodFrames<'_, '_, 'n, C>,
) -> Result<(), Reason<'n>>
    requires { IsOfEntry frames.old handler.now }
    ensures same { frames.new ≡ frames.old }
    ensures judged { Judges (answer_conditions 73 (handler_answer frames.old handler.now)) result }
{
    let answer = frames.answer_caught(handler.frame, handler.caught);
    check_answer(answer, Reason::HandlerNotAssignable)
}

/// Whether the frame before an instruction that an entry covers may not stand at the handler, with what the entry
/// catches alone on its stack: whatever classes there are.
fn is_refused<C: Classes>(handler: &Handler, frames: &mut MethodFrames<'_, '_, '_, C>) -> bool
    requires { IsOfEntry frames.old handler.now }
    ensures same { frames.new ≡ frames.old }
    ensures refused { result ≡ is_no (handler_answer frames.old handler.now) }
{
    matches!(
        frames.answer_caught(handler.frame, handler.caught),
        Answer::No
    )
}

/// Whether one of these entries refuses an instruction. Entries one after the other that have the same frame and catch
/// the same type are asked once.
fn any_refuses<C: Classes>(
    at: u16,
    handlers: &[Handler],
    frames: &mut MethodFrames<'_, '_, '_, C>,
) -> bool
    requires { All (IsOfEntry frames.old) handlers.now }
    ensures same { frames.new ≡ frames.old }
    ensures refused { result ≡ list_any (refuses frames.old at) handlers.now }
{
    let mut last = None;
    for i in 0..handlers.len() {
        let handler = handlers[i];
        if is_asked(at, &handler, &last) {
            if is_refused(&handler, frames) {
                return true;
            }
            last = Some(handler);
        }
    }
    false
}

/// The frame before an instruction comes to the handler of each entry that covers the instruction, up to the first one
/// to whose handler it does not. Entries one after the other that have the same frame and catch the same type are asked
/// once.
fn check_in_turn<'n, C: Classes>(
    at: u16,
    table: &[Handler],
    frames: &mut MethodFrames<'_, '_, 'n, C>,
) -> Result<(), Reason<'n>>
    requires { (es : List ExceptionEntry) × AreHandlers frames.old.types frames.old.declared es table.now }
    ensures same { frames.new ≡ frames.old }
    ensures judged { let x = frames.old in let fs = frames_by x.types x.declared in (es : List ExceptionEntry)
        → AreHandlers x.types x.declared es table.now
        → IsJudgedInTurn (one_handler_at x.types.classes fs at (held x))
        (handler_conditions x.types.classes fs at (held x)) es result }
{
    let mut last = None;
    for i in 0..table.len() {
        let handler = table[i];
        if is_asked(at, &handler, &last) {
            check_handler(&handler, frames)?;
            last = Some(handler);
        }
    }
    Ok(())
}

/// The frame before an instruction comes to the handler of each entry that covers the instruction: 73 and 77 by their
/// comparison, 77 by the first of these entries.
///
/// Frames that were declared in turn have much in common, so that they are compared in this order for 73.
fn check_handlers<'n, C: Classes>(
    alloc: Global,
    at: u16,
    table: &[Handler],
    frames: &mut MethodFrames<'_, '_, 'n, C>,
) -> Result<(), Reason<'n>>
    requires { (es : List ExceptionEntry) × AreHandlers frames.old.types frames.old.declared es table.now }
    ensures same { frames.new ≡ frames.old }
    ensures judged { let x = frames.old in (es : List ExceptionEntry) → AreHandlers x.types x.declared es table.now
        → Judges (handler_conditions x.types.classes (frames_by x.types x.declared) at (held x) es) result }
{
    let mut by_frame = copied(alloc, table)?;
    by_frame.sort_by_key(|handler| handler.caught)?;
    by_frame.sort_by_key(|handler| handler.frame)?;
    if any_refuses(at, &by_frame, frames) {
        return Err(Reason::HandlerNotAssignable);
    }
    check_in_turn(at, table, frames)
}

/// Whether the running frame, with what an entry catches alone on its stack, may stand for the frame at its handler.
fn comes<C: Classes>(handler: &Handler, frames: &mut MethodFrames<'_, '_, '_, C>) -> bool
    requires { (e : ExceptionEntry) × IsHandler frames.old.types frames.old.declared e handler.now }
    ensures same { frames.new ≡ frames.old }
    ensures taken { let x = frames.old in IsTrue result → (e : ExceptionEntry)
        → IsHandler x.types x.declared e handler.now → IsTaken x.types x.declared (held x) e }
{
    matches!(
        frames.answer_caught(handler.frame, handler.caught),
        Answer::Yes
    )
}

/// Whether the running frame has the locals that were kept, and this flag.
fn is_unchanged<C: Classes>(flag: bool, frames: &MethodFrames<'_, '_, '_, C>) -> bool
    ensures { IsTrue result → IsUnchanged frames.now flag }
{
    frames.flag() == flag && frames.first_changed(0).is_none()
}

/// The entries of an exception table once more.
fn copied(alloc: Global, table: &[Handler]) -> Result<Vec<Handler>, AllocError>
    ensures { IfOk result (λ v. v.items ≡ table.now) }
{
    let mut copy = Vec::with_capacity(alloc, table.len())?;
    for handler in table {
        copy.push(*handler)?;
    }
    Ok(copy)
}

/// The key of the frame and the type of an entry.
fn key_of(handler: &Handler) -> u64 {
    (handler.frame % 0x1_0000_0000) as u64 * 0x1_0000_0000 + u64::from(handler.caught)
}

/// The entries of an exception table. At an instruction, the frame is compared with the handlers of those that begin to
/// cover it; with the others only by the local variables that changed, and once for all whose frames have the same
/// locals.
#[derive(Drop)]
pub struct Handlers {
    /// Where the pass takes memory.
    pub alloc: Global,
    // The entries, in the order of the exception table.
    table: Vec<Handler>,
    // All entries, in the order in which their ranges begin.
    by_start: Vec<Handler>,
    // How many of these ranges have begun.
    begun: usize,
    // How many of these entries were compared with the frame that was kept, or have ended.
    settled: usize,
    // The offset after the last instruction that one of those covers whose ranges have begun, in bytes; 0 at first.
    reach: u16,
    // No range that has not begun begins before this offset.
    next_start: u16,
    // Whether the own object was uninitialized in the frame that was kept.
    flag: bool,
    // For the frames at the handlers of the entries that were compared, as long as these cover instructions.
    representatives: Representatives,
    // By frame and type, an entry to whose handler a frame came. It has at most one for each entry of a table of more
    // than [`FEW_ENTRIES`], and is dropped with the table.
    caught: BTreeMap<u64, Handler>,
}

impl Handlers {
    /// The handlers of this table, before the first instruction.
    pub fn new(alloc: Global, table: Vec<Handler>) -> Result<Handlers, AllocError>
        ensures { (x : NumberedFrames) (es : List ExceptionEntry) → AreHandlers x.types x.declared es table.items
            → IfOk result (Follows x es 0) }
    {
        let mut by_start = copied(alloc, &table)?;
        // Ranges that begin at one offset are in the order of the frames at their handlers, which have more in common
        // so.
        by_start.sort_by_key(|handler| handler.frame)?;
        by_start.sort_by_key(|handler| handler.from)?;
        Ok(Handlers {
            alloc,
            table,
            by_start,
            begun: 0,
            settled: 0,
            reach: 0,
            next_start: 0,
            flag: false,
            representatives: Representatives::new(alloc),
            caught: BTreeMap::new(alloc),
        })
    }

    /// The next entry whose range has begun at an offset.
    fn next(&self, at: u16) -> Option<Handler>
        ensures { MatchOption result ((x : NumberedFrames) (es : List ExceptionEntry) (before : ℕ)
            → Follows x es before self.now → AreAhead at self.now)
            (λ h. (slice_get self.now.by_start.items self.now.begun ≡ Some h) × (h.from ≤ at)) }
    {
        if self.begun >= self.by_start.len() {
            return None;
        }
        let handler = self.by_start[self.begun];
        if handler.from > at {
            return None;
        }
        Some(handler)
    }

    /// The offset at which the next range begins, or the greatest one where all have begun.
    fn start_of_next(&self) -> u16
        ensures { (x : NumberedFrames) (es : List ExceptionEntry) (before : ℕ) → Follows x es before self.now
            → AreFrom result self.now }
    {
        if self.begun >= self.by_start.len() {
            return u16::MAX;
        }
        self.by_start[self.begun].from
    }

    /// Comes to an offset where a range begins, or where it is not known that none does.
    #[inline(never)]
    fn begin(&mut self, at: u16)
        ensures { (x : NumberedFrames) (es : List ExceptionEntry) → Follows x es at self.old
            → Follows x es at self.new × AreAhead at self.new }
    {
        while let Some(handler) = self.next(at) {
            self.reach = self.reach.max(handler.to);
            self.begun += 1;
        }
        self.next_start = self.start_of_next();
    }

    /// Comes to an offset: the entries whose ranges have begun there are to be compared.
    #[inline(always)]
    pub fn come_to(&mut self, at: u16)
        ensures { (x : NumberedFrames) (es : List ExceptionEntry) → Follows x es at self.old
            → Follows x es at self.new × AreAhead at self.new }
    {
        if at >= self.next_start {
            self.begin(at);
        }
    }

    /// Whether an entry covers the offset to which the pass has come.
    #[inline(always)]
    pub fn covers(&self, at: u16) -> bool
        ensures { (x : NumberedFrames) (es : List ExceptionEntry) → Follows x es at self.now → AreAhead at self.now
            → result ≡ is_covered es at }
    {
        at < self.reach
    }

    /// Whether all entries that have begun were compared with the frame.
    #[inline(never)]
    fn are_settled<C: Classes>(&self, frames: &MethodFrames<'_, '_, '_, C>) -> bool
        ensures { let x = frames.now in IsTrue result → (es : List ExceptionEntry) (at : ℕ) → Follows x es at self.now
            → AreAhead at self.now
            → least (handler_conditions x.types.classes (frames_by x.types x.declared) at (held x) es) ≡ None }
    {
        self.settled == self.begun && is_unchanged(self.flag, frames)
    }

    /// Whether nothing is to be compared at an offset: no entry covers it, or all that do were compared with the frame.
    #[inline(always)]
    pub fn are_idle<C: Classes>(&self, at: u16, frames: &MethodFrames<'_, '_, '_, C>) -> bool
        ensures { let x = frames.now in IsTrue result → (es : List ExceptionEntry) → Follows x es at self.now
            → AreAhead at self.now
            → least (handler_conditions x.types.classes (frames_by x.types x.declared) at (held x) es) ≡ None }
    {
        if !self.covers(at) {
            return true;
        }
        self.are_settled(frames)
    }

    /// Whether the frames of all handlers that were compared, as long as their entries last, take what changed since.
    fn take_changes<C: Classes>(
        &mut self,
        frames: &mut MethodFrames<'_, '_, '_, C>,
    ) -> Result<bool, AllocError>
        requires { (es : List ExceptionEntry) × (at : ℕ) × Follows frames.old es at self.old }
        ensures same { frames.new ≡ frames.old }
        ensures followed { let x = frames.old in (es : List ExceptionEntry) (at : ℕ) → Follows x es at self.old
            → OnOk result (Follows x es at self.new) }
        ensures ahead { (at : ℕ) → AreAhead at self.old → AreAhead at self.new }
        ensures taken { let x = frames.old in (es : List ExceptionEntry) (at : ℕ) → Follows x es at self.old
            → IfOk result (λ taken. IsTrue taken → AreAllTaken x at self.new) }
    {
        if self.representatives.is_empty() {
            return Ok(true);
        }
        if frames.flag() == self.flag {
            return self.representatives.take_changes(frames);
        }
        Ok(false)
    }

    /// Whether the frame comes to the handlers of all entries that were compared and have not ended, by what changed
    /// since.
    fn are_taken<C: Classes>(
        &mut self,
        at: u16,
        frames: &mut MethodFrames<'_, '_, '_, C>,
    ) -> Result<bool, AllocError>
        requires { (es : List ExceptionEntry) × Follows frames.old es at self.old }
        ensures same { frames.new ≡ frames.old }
        ensures followed { let x = frames.old in (es : List ExceptionEntry) → Follows x es at self.old
            → OnOk result (Follows x es at self.new) }
        ensures ahead { AreAhead at self.old → AreAhead at self.new }
        ensures taken { let x = frames.old in (es : List ExceptionEntry) → Follows x es at self.old
            → IfOk result (λ taken. IsTrue taken → AreAllTaken x at self.new) }
    {
        if self.take_changes(frames)? {
            return Ok(true);
        }
        self.representatives.drop_ended(at)?;
        self.take_changes(frames)
    }

    /// Keeps the locals of the running frame, with which the handlers of these entries were compared.
    fn keep<C: Classes>(
        &mut self,
        at: u16,
        frames: &mut MethodFrames<'_, '_, '_, C>,
    ) -> Result<(), AllocError>
        ensures rest { frames.new ≡ record frames.old { kept = frames.new.kept } }
        ensures kept { OnOk result (frames.new.kept ≡ frames.old.running.locals) }
        ensures ahead { AreAhead at self.old → AreAhead at self.new }
        ensures followed { (es : List ExceptionEntry) → Follows frames.old es at self.old
            → AreAllTaken frames.old at self.old → OnOk result (Follows frames.new es at self.new) }
        ensures flag { OnOk result (self.new.flag ≡ frames.new.running.flag) }
    {
        frames.keep_locals()?;
        self.flag = frames.flag();
        Ok(())
    }

    /// Whether it is remembered that a frame came to the handler of an entry with this frame and this type.
    fn catches(&self, handler: &Handler) -> bool
        ensures { IsTrue result → IsCaught self.now handler.now }
    {
        match self.caught.get(&key_of(handler)) {
            Some(one) => one.frame == handler.frame && one.caught == handler.caught,
            None => false,
        }
    }

    /// Whether it is known that the frame, which was kept, comes to the handler of an entry: one that stands for the
    /// handler's frame takes its locals, and what is caught was compared before.
    fn is_known(&self, handler: &Handler) -> bool
        ensures { IsTrue result → IsKnown self.now handler.now }
    {
        self.table.len() > FEW_ENTRIES
            && !self.flag
            && self.representatives.stands(handler.lead)
            && self.catches(handler)
    }

    /// Remembers that the frame comes to the handler of an entry.
    fn learn(&mut self, handler: &Handler) -> Result<(), AllocError>
        ensures rest { self.new ≡ record self.old { caught = self.new.caught } }
        ensures caught { (x : NumberedFrames) → Catches x handler.now → AreCaught x self.old
            → OnOk result (AreCaught x self.new) }
    {
        if self.table.len() > FEW_ENTRIES {
            self.caught.insert(key_of(handler), *handler)?;
        }
        Ok(())
    }

    /// Whether the frame, which was kept, comes to the handler of an entry.
    fn takes<C: Classes>(
        &mut self,
        handler: &Handler,
        frames: &mut MethodFrames<'_, '_, '_, C>,
    ) -> Result<bool, AllocError>
        requires follows { (es : List ExceptionEntry) × (at : ℕ) × Follows frames.old es at self.old }
        requires entry { IsOfEntry frames.old handler.now }
        requires kept { frames.old.kept ≡ frames.old.running.locals }
        requires flag { self.old.flag ≡ frames.old.running.flag }
        ensures same { frames.new ≡ frames.old }
        ensures rest { self.new ≡ record self.old { caught = self.new.caught } }
        ensures caught { OnOk result (AreCaught frames.old self.new) }
        ensures taken { IfOk result (λ taken. IsTrue taken → Comes frames.old (held frames.old) handler.now) }
    {
        if self.is_known(handler) {
            return Ok(true);
        }
        if !comes(handler, frames) {
            return Ok(false);
        }
        self.learn(handler)?;
        Ok(true)
    }

    /// Compares the entries that have begun and were not compared, up to one to whose handler the frame does not come.
    fn compare<C: Classes>(
        &mut self,
        at: u16,
        frames: &mut MethodFrames<'_, '_, '_, C>,
    ) -> Result<bool, AllocError>
        requires follows { (es : List ExceptionEntry) × Follows frames.old es at self.old }
        requires kept { frames.old.kept ≡ frames.old.running.locals }
        requires flag { self.old.flag ≡ frames.old.running.flag }
        ensures same { frames.new ≡ frames.old }
        ensures followed { (es : List ExceptionEntry) → Follows frames.old es at self.old
            → OnOk result (Follows frames.old es at self.new) }
        ensures compared { (es : List ExceptionEntry) → Follows frames.old es at self.old → AreAhead at self.old
            → let x = frames.old in IfOk result (λ all. IsTrue all
            → least (handler_conditions x.types.classes (frames_by x.types x.declared) at (held x) es) ≡ None) }
    {
        while self.settled < self.begun {
            let handler = self.by_start[self.settled];
            if at < handler.to {
                if !self.takes(&handler, frames)? {
                    return Ok(false);
                }
                self.representatives
                    .add(handler.lead, at, handler.to, frames)?;
            }
            self.settled += 1;
        }
        Ok(true)
    }

    /// Whether the frame before an instruction comes to the handler of each entry that covers the instruction. It is
    /// kept where it comes to those of the entries that were compared before.
    fn settle<C: Classes>(
        &mut self,
        at: u16,
        frames: &mut MethodFrames<'_, '_, '_, C>,
    ) -> Result<bool, AllocError>
        requires { (es : List ExceptionEntry) × Follows frames.old es at self.old }
        ensures rest { frames.new ≡ record frames.old { kept = frames.new.kept } }
        ensures followed { (es : List ExceptionEntry) → Follows frames.old es at self.old
            → OnOk result (Follows frames.new es at self.new) }
        ensures settled { (es : List ExceptionEntry) → Follows frames.old es at self.old → AreAhead at self.old
            → let x = frames.old in IfOk result (λ all. IsTrue all
            → least (handler_conditions x.types.classes (frames_by x.types x.declared) at (held x) es) ≡ None) }
    {
        if !self.are_taken(at, frames)? {
            return Ok(false);
        }
        self.keep(at, frames)?;
        self.compare(at, frames)
    }

    /// The frame before an instruction, with the caught exception alone on its stack, comes to the handler of each
    /// entry that covers the instruction: 73 and 77 by their comparison, 77 by the first of these entries.
    pub fn catch<'n, C: Classes>(
        &mut self,
        at: u16,
        frames: &mut MethodFrames<'_, '_, 'n, C>,
    ) -> Result<(), Reason<'n>>
        requires follows { (es : List ExceptionEntry) × Follows frames.old es at self.old }
        requires ahead { AreAhead at self.old }
        ensures rest { frames.new ≡ record frames.old { kept = frames.new.kept } }
        ensures judged { let x = frames.old in (es : List ExceptionEntry) → Follows x es at self.old
            → Judges (handler_conditions x.types.classes (frames_by x.types x.declared) at (held x) es) result }
        ensures followed { (es : List ExceptionEntry) → Follows frames.old es at self.old
            → OnOk result (Follows frames.new es at self.new) }
    {
        if self.are_idle(at, frames) {
            return Ok(());
        }
        if self.settle(at, frames)? {
            return Ok(());
        }
        check_handlers(self.alloc, at, &self.table, frames)
    }
}
