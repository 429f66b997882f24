//! The line of an instruction (JVMS 6.5).
ghost use Rattle.std.specs.Prelude.{◌≡◌, ◌<◌, ◌++◌, true, codes, length};
ghost use Rattle.std.specs.List.{flat_map};
ghost use Rattle.printing.specs.Writing.{Writes};
ghost use Rattle.printing.specs.InstructionLines.{target_text, pair_text, wide_text, operands_text, offset_text, beginning_text, instruction_line};
ghost use Rattle.insn.specs.Opcodes.{mnemonic};
ghost use Rattle.insn.specs.Views.{operands_view, located};

use crate::print::{Number, Print, Then, Word, WriteFailed, put_bytes};
use insn::{Insn, LookupSwitch, Opcode, Operands, Pairs, TableSwitch, Targets, mnemonic};
use itoa::{Integer, write_digits};
use std::io::Write;

/// A number after a blank.
#[derive(Clone, Copy)]
pub struct Value<I>(pub I);

impl<I: Integer> Print for Value<I> {
    ghost text = { λ t. codes " " ++ I.text t.0 };

    fn put<W: Write>(&self, out: &mut W) -> Result<(), WriteFailed> {
        Then(Word(" "), Number(self.0)).put(out)
    }
}

/// An index into the constant pool.
#[derive(Clone, Copy)]
pub struct Index(pub u16);

impl Print for Index {
    ghost use Rattle.printing.specs.InstructionLines.{index_text};

    ghost text = { λ t. index_text t.0 };

    fn put<W: Write>(&self, out: &mut W) -> Result<(), WriteFailed> {
        Then(Word(" #"), Number(self.0)).put(out)
    }
}

/// Where an instruction branches to that begins at `at`.
#[derive(Clone, Copy)]
struct Target {
    at: usize,
    offset: i32,
}

impl Target {
    ghost use Rattle.printing.specs.InstructionLines.{target};

    fn new(at: usize, offset: i32) -> Self
        ensures { (result.at ≡ at) × (result.offset ≡ offset) }
    {
        Target { at, offset }
    }

    fn place(self) -> i128
        ensures { result ≡ target self.at self.offset }
    {
        self.at as i128 + i128::from(self.offset)
    }
}

impl Print for Target {
    ghost text = { λ t. target_text t.at t.offset };

    fn put<W: Write>(&self, out: &mut W) -> Result<(), WriteFailed> {
        Value(self.place()).put(out)
    }
}

/// Where an instruction that begins at `at` goes by this offset.
fn put_target<W: Write>(out: &mut W, at: usize, offset: i32) -> Result<(), WriteFailed>
    ensures { Writes (W.contents out.old) (W.contents out.new) (target_text at offset) result }
{
    Target::new(at, offset).put(out)
}

/// The targets of a `tableswitch` that begins at `at`.
#[derive(Clone, Copy)]
struct Table<'a> {
    at: usize,
    offsets: &'a [u8],
}

impl<'a> Print for Table<'a> {
    ghost use Rattle.insn.specs.Meanings.{offsets};

    ghost text = { λ t. flat_map (target_text t.at) (offsets t.offsets.now) };

    fn put<W: Write>(&self, out: &mut W) -> Result<(), WriteFailed> {
        for offset in Targets::Offsets(self.offsets).offsets() {
            match put_target(out, self.at, offset) {
                Ok(()) => {}
                Err(failed) => return Err(failed),
            }
        }
        Ok(())
    }
}

/// A key of a `lookupswitch` that begins at `at`, and where it goes for it.
fn put_case<W: Write>(out: &mut W, at: usize, key: i32, offset: i32) -> Result<(), WriteFailed>
    ensures { Writes (W.contents out.old) (W.contents out.new) (pair_text at (key, offset)) result }
{
    let place = Target::new(at, offset).place();
    Then(Word(" "), Then(Number(key), Then(Word(":"), Number(place)))).put(out)
}

/// The keys of a `lookupswitch` that begins at `at`, each with where it goes.
#[derive(Clone, Copy)]
struct Cases<'a> {
    at: usize,
    pairs: &'a [u8],
}

impl<'a> Print for Cases<'a> {
    ghost use Rattle.insn.specs.Instructions.{pairs};

    ghost text = { λ t. flat_map (pair_text t.at) (pairs t.pairs.now) };

    fn put<W: Write>(&self, out: &mut W) -> Result<(), WriteFailed> {
        for (key, offset) in Pairs::new(self.pairs) {
            match put_case(out, self.at, key, offset) {
                Ok(()) => {}
                Err(failed) => return Err(failed),
            }
        }
        Ok(())
    }
}

/// An instruction with the offset in bytes where it begins.
#[derive(Clone, Copy)]
pub struct Located<'a> {
    pub at: usize,
    pub insn: Insn<'a>,
}

impl<'a> Located<'a> {
    /// `wide` where it modifies the opcode after it.
    fn wide(&self) -> Word<'static>
        ensures { result.0.now ≡ wide_text (operands_view self.now.insn.operands) }
    {
        match self.insn.operands {
            Operands::WideLocal { .. } | Operands::WideIncrement { .. } => Word("wide "),
            Operands::Nothing
            | Operands::Byte(_)
            | Operands::Short(_)
            | Operands::Constant(_)
            | Operands::Index(_)
            | Operands::Local(_)
            | Operands::Increment { .. }
            | Operands::Branch(_)
            | Operands::WideBranch(_)
            | Operands::InvokeInterface { .. }
            | Operands::InvokeDynamic { .. }
            | Operands::NewArray(_)
            | Operands::MultiNewArray { .. }
            | Operands::TableSwitch(_)
            | Operands::LookupSwitch(_) => Word(""),
        }
    }

    /// Where it goes by this offset.
    fn target(&self, offset: i32) -> Target
        ensures { (result.at ≡ self.now.at) × (result.offset ≡ offset) }
    {
        Target::new(self.at, offset)
    }

    /// Writes its operands.
    fn put_operands<W: Write>(&self, out: &mut W) -> Result<(), WriteFailed>
        ensures { Writes (W.contents out.old) (W.contents out.new)
            (operands_text self.now.at (operands_view self.now.insn.operands)) result }
    {
        match self.insn.operands {
            Operands::Nothing => Word("").put(out),
            Operands::Byte(value) => Value(value).put(out),
            Operands::Short(value) => Value(value).put(out),
            Operands::Constant(index) => Index(u16::from(index)).put(out),
            Operands::Index(index) | Operands::InvokeDynamic { index } => Index(index).put(out),
            Operands::Local(local) => Value(local).put(out),
            Operands::Increment { local, by } => Then(Value(local), Value(by)).put(out),
            Operands::Branch(offset) => self.target(i32::from(offset)).put(out),
            Operands::WideBranch(offset) => self.target(offset).put(out),
            Operands::InvokeInterface { index, count } => {
                Then(Index(index), Value(count)).put(out)
            }
            Operands::NewArray(element) => Value(element).put(out),
            Operands::MultiNewArray { index, dimensions } => {
                Then(Index(index), Value(dimensions)).put(out)
            }
            Operands::TableSwitch(bytes) => {
                let switch = TableSwitch::new(bytes);
                let table = Table {
                    at: self.at,
                    offsets: switch.offsets,
                };
                let targets = Then(self.target(switch.default), table);
                Then(Value(switch.low), Then(Value(switch.high), targets)).put(out)
            }
            Operands::LookupSwitch(bytes) => {
                let switch = LookupSwitch::new(bytes);
                let cases = Cases {
                    at: self.at,
                    pairs: switch.pairs,
                };
                Then(self.target(switch.default), cases).put(out)
            }
            Operands::WideLocal { local, .. } => Value(local).put(out),
            Operands::WideIncrement { local, by, .. } => Then(Value(local), Value(by)).put(out),
        }
    }
}

/// The operands of an instruction, after its name.
#[derive(Clone, Copy)]
struct OperandsOf<'a>(Located<'a>);

impl<'a> Print for OperandsOf<'a> {
    ghost text = { λ t. operands_text t.0.at (operands_view t.0.insn.operands) };

    fn put<W: Write>(&self, out: &mut W) -> Result<(), WriteFailed> {
        self.0.put_operands(out)
    }
}

/// The name of an instruction and its operands.
#[derive(Clone, Copy)]
struct Named<'a>(Located<'a>);

impl<'a> Print for Named<'a> {
    ghost use Rattle.insn.specs.Views.{view};
    ghost use Rattle.printing.specs.InstructionLines.{named_text};

    ghost text = { λ t. named_text (t.0.at, view t.0.insn) };

    fn put<W: Write>(&self, out: &mut W) -> Result<(), WriteFailed> {
        let name = Word(mnemonic(&self.0.insn));
        Then(self.0.wide(), Then(name, OperandsOf(self.0))).put(out)
    }
}

/// An instruction with its offset, its name and its operands.
#[derive(Clone, Copy)]
pub struct InstructionText<'a>(pub Located<'a>);

impl<'a> Print for InstructionText<'a> {
    ghost use Rattle.insn.specs.Views.{located};
    ghost use Rattle.printing.specs.InstructionLines.{instruction_text};

    ghost text = { λ t. instruction_text (located (t.0.at, t.0.insn)) };

    fn put<W: Write>(&self, out: &mut W) -> Result<(), WriteFailed> {
        Then(Number(self.0.at), Then(Word(" "), Named(self.0))).put(out)
    }
}

/// The offset of an instruction, with the blanks around it in its line.
#[derive(Clone, Copy)]
struct Offset(usize);

impl Print for Offset {
    ghost text = { λ t. offset_text t.0 };

    fn put<W: Write>(&self, out: &mut W) -> Result<(), WriteFailed> {
        put_beginning(out, self.0, "", false)
    }
}

/// A line with no offset and no name in it: blanks, and from where a name begins on ends of the line.
const EMPTY_LINE: [u8; 48] =
    *b"                       \n\n\n\n\n\n\n\n\n\n\n\n\n\n\n\n\n\n\n\n\n\n\n\n\n";

/// Where a name begins.
const NAME: usize = 23;

/// Writes the offset of an instruction with the blanks around it, a short name after it and, if the line ends there,
/// its end, all at once.
#[inline(always)]
fn put_beginning<W: Write>(
    out: &mut W,
    at: usize,
    name: &str,
    ends: bool,
) -> Result<(), WriteFailed>
    requires { length name.now < 25 }
    ensures { Writes (W.contents out.old) (W.contents out.new) (beginning_text at name.now ends) result }
{
    let mut line = EMPTY_LINE;
    let end = NAME + name.len();
    line[NAME..end].copy_from_slice(name.as_bytes());
    let start = write_digits(at as u64, &mut line, NAME - 1);
    put_bytes(out, &line[start - 2..end + usize::from(ends)])
}

/// Writes the line of an instruction without operands.
#[inline(always)]
fn put_alone<W: Write>(out: &mut W, at: usize, opcode: Opcode) -> Result<(), WriteFailed>
    ensures { Writes (W.contents out.old) (W.contents out.new) (beginning_text at (mnemonic opcode) true) result }
{
    put_beginning(out, at, opcode.mnemonic(), true)
}

/// Writes the line of an instruction with operands. It is not inlined, to keep the loop over the instructions small.
#[inline(never)]
fn put_with_operands<W: Write>(out: &mut W, it: Located<'_>) -> Result<(), WriteFailed>
    ensures { Writes (W.contents out.old) (W.contents out.new)
        (instruction_line (located (it.entry.at, it.entry.insn))) result }
{
    Then(Offset(it.at), Then(Named(it), Word("\n"))).put(out)
}

impl<'a> Print for Located<'a> {
    ghost text = { λ t. instruction_line (located (t.at, t.insn)) };

    #[inline(always)]
    fn put<W: Write>(&self, out: &mut W) -> Result<(), WriteFailed> {
        if let Operands::Nothing = self.insn.operands {
            put_alone(out, self.at, self.insn.opcode)
        } else {
            put_with_operands(out, *self)
        }
    }
}
