//! The offsets at which the instructions of a method's code begin, marked byte by byte.
ghost use Rattle.std.specs.Prelude.{◌≡◌, ◌≤◌, ℕ, List, Some, length, get_or, OnOk, IfErr};
ghost use Rattle.insn.specs.Code.{SpellsCode, FaultyCode, UnlessMemory};
ghost use Rattle.insn.specs.Instructions.{Instruction};
ghost use Rattle.insn.specs.Meanings.{Act, made_index};
ghost use Rattle.insn.specs.Offsets.{acts};
ghost use Rattle.insn.specs.Decoding.{instructions_in};
ghost use Rattle.insn.specs.Views.{views};
ghost use Rattle.frames.specs.declared.code_starts.StartKind.TheVariants.{Inside};
ghost use Rattle.frames.specs.DeclaredFrames.{is_new};
ghost use Rattle.frames.specs.Marks.{IsMark, AreMarks, AreClear, is_start_mark, is_new_mark, index_of_mark};

use crate::starts::Starts;
use insn::{CodeFault, Insn, Instructions, made_index};
use std::alloc::{AllocError, Global};

/// The thing that stands at an offset of code.
#[derive(Clone, Copy, Debug)]
pub enum StartKind {
    /// No instruction begins there.
    Inside,
    /// An instruction begins there that is not a `new`.
    Start,
    /// A `new` begins there.
    New {
        /// The constant pool's index of its class.
        index: u16,
    },
}

/// Where the instructions of a method's code begin, with four bytes for each byte of the code.
#[derive(Drop)]
pub struct CodeStarts<'a> {
    code: &'a [u8],
    marks: Vec<StartKind>,
    ghost marked: { AreMarks marks.items (acts (instructions_in code.now)) },
    ghost few: { length marks.items ≤ 65536 },
}

// The mark of an instruction that makes an object of this class, or of none.
fn mark_of(made: Option<u16>) -> StartKind
    ensures { (what : Act) → made ≡ made_index what → IsMark result (Some what) }
{
    match made {
        Some(index) => StartKind::New { index },
        None => StartKind::Start,
    }
}

fn mark_at(marks: &[StartKind], at: usize) -> StartKind
    ensures { result ≡ get_or marks.now at Inside }
{
    if at < marks.len() {
        marks[at]
    } else {
        StartKind::Inside
    }
}

fn is_start(mark: StartKind) -> bool
    ensures { result ≡ is_start_mark mark }
{
    match mark {
        StartKind::Inside => false,
        StartKind::Start | StartKind::New { .. } => true,
    }
}

fn is_new(mark: StartKind) -> bool
    ensures { result ≡ is_new_mark mark }
{
    match mark {
        StartKind::New { .. } => true,
        StartKind::Inside | StartKind::Start => false,
    }
}

fn index_of(mark: StartKind) -> Option<u16>
    ensures { result ≡ index_of_mark mark }
{
    match mark {
        StartKind::New { index } => Some(index),
        StartKind::Inside | StartKind::Start => None,
    }
}

// So many marks, at none of which an instruction begins.
fn clear_marks(marks: &mut Vec<StartKind>, count: usize) -> Result<(), AllocError>
    ensures clear { AreClear marks.new.items }
    ensures len { OnOk result (length marks.new.items ≡ count) }
{
    marks.clear();
    marks.resize(count, StartKind::Inside)
}

// Marks where instructions begin; or tells the fault of the first that is none, and then nothing of the marks.
#[inline(never)]
fn mark_starts(code: &[u8], marks: &mut [StartKind]) -> Result<(), CodeFault>
    requires clear { AreClear marks.old }
    requires len { length marks.old ≡ length code.now }
    ensures marked { OnOk result (AreMarks marks.new (acts (instructions_in code.now))) }
    ensures spelled { OnOk result ((xs : List (ℕ × Instruction)) × SpellsCode 0 code.now xs) }
    ensures fault { IfErr result (λ e. FaultyCode code.now e) }
{
    let mut instructions = Instructions::new(code);
    loop {
        let at = instructions.at();
        if instructions.skip_unconstrained() {
            marks[at] = mark_of(None);
            continue;
        }
        let Some(step) = instructions.next_start() else {
            return Ok(());
        };
        let (at, made) = step?;
        marks[at] = mark_of(made);
    }
}

// Marks where instructions of a list begin, the last first, so that of several at one offset the first is marked.
fn mark_list(list: &[(u16, Insn<'_>)], marks: &mut [StartKind])
    requires clear { AreClear marks.old }
    requires len { length marks.old ≡ 65536 }
    ensures { AreMarks marks.new (acts (views list.now)) }
{
    for i in (0..list.len()).rev() {
        let (at, insn) = &list[i];
        marks[usize::from(*at)] = mark_of(made_index(insn));
    }
}

impl<'a> CodeStarts<'a> {
    ghost use Rattle.std.specs.Prelude.{ℕ, List, IfOk, IfErr};
    ghost use Rattle.layout.specs.declared.limits.TheConstants.{MAX_CODE_BYTES};
    ghost use Rattle.frames.specs.MarkedCode.{code_in};

    /// Where the instructions of this code begin, which has at most 65,535 bytes (JVMS 4.7.3); or the fault of the
    /// first that is none, 31 to 35; or 1 where memory ran out.
    pub fn new(alloc: Global, code: &'a [u8]) -> Result<CodeStarts<'a>, CodeFault>
        requires { length code.now ≤ MAX_CODE_BYTES }
        ensures found { IfOk result (λ s. code_in s ≡ code.now) }
        ensures spelled { OnOk result ((xs : List (ℕ × Instruction)) × SpellsCode 0 code.now xs) }
        ensures fault { IfErr result (λ e. UnlessMemory e (FaultyCode code.now e)) }
    {
        let mut marks: Vec<StartKind> = Vec::new(alloc);
        clear_marks(&mut marks, code.len())?;
        mark_starts(code, &mut marks)?;
        Ok(CodeStarts { code, marks })
    }
}

impl<'a> Starts for CodeStarts<'a> {
    ghost use Rattle.insn.specs.Offsets.{acts};
    ghost use Rattle.insn.specs.Decoding.{instructions_in};

    ghost code = { λ s. acts (instructions_in s.code.now) };

    fn is_start(&self, at: u32) -> bool {
        is_start(mark_at(&self.marks, at as usize))
    }

    fn is_new(&self, at: u16) -> bool {
        is_new(mark_at(&self.marks, usize::from(at)))
    }

    fn class_index(&self, at: u16) -> Option<u16> {
        index_of(mark_at(&self.marks, usize::from(at)))
    }
}

/// Where the instructions of a list begin, of which the first at an offset counts. It takes 262,144 bytes.
#[derive(Drop)]
pub struct ListStarts<'c, 'a> {
    list: &'c [(u16, Insn<'a>)],
    marks: Vec<StartKind>,
    ghost marked: { AreMarks marks.items (acts (views list.now)) },
    ghost few: { length marks.items ≤ 65536 },
}

impl<'c, 'a> ListStarts<'c, 'a> {
    ghost use Rattle.std.specs.Prelude.{IfOk};
    ghost use Rattle.frames.specs.MarkedCode.{list_in};

    /// Where the instructions of this list begin.
    pub fn new(alloc: Global, list: &'c [(u16, Insn<'a>)]) -> Result<ListStarts<'c, 'a>, AllocError>
        ensures { IfOk result (λ s. list_in s ≡ views list.now) }
    {
        let mut marks: Vec<StartKind> = Vec::new(alloc);
        clear_marks(&mut marks, 65_536)?;
        mark_list(list, &mut marks);
        Ok(ListStarts { list, marks })
    }
}

impl<'c, 'a> Starts for ListStarts<'c, 'a> {
    ghost use Rattle.insn.specs.Offsets.{acts};
    ghost use Rattle.insn.specs.Views.{views};

    ghost code = { λ s. acts (views s.list.now) };

    fn is_start(&self, at: u32) -> bool {
        is_start(mark_at(&self.marks, at as usize))
    }

    fn is_new(&self, at: u16) -> bool {
        is_new(mark_at(&self.marks, usize::from(at)))
    }

    fn class_index(&self, at: u16) -> Option<u16> {
        index_of(mark_at(&self.marks, usize::from(at)))
    }
}
