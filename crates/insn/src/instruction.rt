//! Instructions: an opcode and what stands after it.
ghost use Rattle.std.specs.Prelude.{◌≡◌};
ghost use Rattle.insn.specs.Code.{modified};
ghost use Rattle.insn.specs.Offsets.{StartsRise, has_offset};
ghost use Rattle.insn.specs.Opcodes.{mnemonic};
ghost use Rattle.insn.specs.Views.{view, views};

use crate::opcode::Opcode;
use std::fmt;

/// The operands after an opcode (JVMS 6.5), as its [`Form`](crate::Form) says. A switch keeps all
/// bytes after its opcode as they stand in the code, so that all operands are small.
#[derive(Clone, Copy)]
pub enum Operands<'a> {
    /// Nothing.
    Nothing,
    /// The `int` that `bipush` pushes.
    Byte(i8),
    /// The `int` that `sipush` pushes.
    Short(i16),
    /// The index of `ldc` into the constant pool.
    Constant(u8),
    /// An index into the constant pool.
    Index(u16),
    /// The number of a local variable.
    Local(u8),
    /// The local variable of `iinc`, and what is added to it.
    Increment { local: u8, by: i8 },
    /// Where a branch goes, in bytes from the instruction's own start.
    Branch(i16),
    /// Where `goto_w` or `jsr_w` goes, in bytes from the instruction's own start.
    WideBranch(i32),
    /// The index and the count of `invokeinterface`; the byte after them is 0.
    InvokeInterface { index: u16, count: u8 },
    /// The index of `invokedynamic`; the two bytes after it are 0.
    InvokeDynamic { index: u16 },
    /// The number of the element type of `newarray` (JVMS 6.5, table 6.5.newarray-A).
    NewArray(u8),
    /// The index of `multianewarray`, and how many dimensions are made.
    MultiNewArray { index: u16, dimensions: u8 },
    /// `tableswitch`: all bytes after the opcode, whose parts
    /// [`TableSwitch`](crate::TableSwitch) gives.
    TableSwitch(&'a [u8]),
    /// `lookupswitch`: all bytes after the opcode, whose parts
    /// [`LookupSwitch`](crate::LookupSwitch) gives.
    LookupSwitch(&'a [u8]),
    /// `wide` before a load, a store or `ret`: that opcode, and the number of a local variable.
    WideLocal { opcode: Opcode, local: u16 },
    /// `wide` before `iinc`: that opcode, the local variable, and what is added to it.
    WideIncrement { opcode: Opcode, local: u16, by: i16 },
}

/// An instruction (JVMS 6.5).
#[derive(Clone, Copy)]
pub struct Insn<'a> {
    /// The instruction's first byte.
    pub opcode: Opcode,
    /// Its operands.
    pub operands: Operands<'a>,
}

/// By its mnemonic, without its operands.
impl fmt::Debug for Insn<'_> {
    fn fmt<W: fmt::Write>(&self, f: &mut fmt::Formatter<W>) -> fmt::Result {
        f.write_str(mnemonic(self))
    }
}

/// The opcode that says what is done: after `wide` the one that is modified.
pub fn modified(insn: &Insn<'_>) -> Opcode
    ensures { result ≡ modified (view insn.now).opcode (view insn.now).operands }
{
    match insn.operands {
        Operands::WideLocal { opcode, .. } => opcode,
        Operands::WideIncrement { opcode, .. } => opcode,
        Operands::Nothing
        | Operands::Byte(_)
        | Operands::Short(_)
        | Operands::Constant(_)
        | Operands::Index(_)
        | Operands::Local(_)
        | Operands::Increment { .. }
        | Operands::Branch(_)
        | Operands::WideBranch(_)
        | Operands::InvokeInterface { .. }
        | Operands::InvokeDynamic { .. }
        | Operands::NewArray(_)
        | Operands::MultiNewArray { .. }
        | Operands::TableSwitch(_)
        | Operands::LookupSwitch(_) => insn.opcode,
    }
}

/// The standard's name of the instruction (JVMS 6.5); after `wide` that of the opcode which is
/// modified. Takes no memory.
pub fn mnemonic(insn: &Insn<'_>) -> &'static str
    ensures { result.now ≡ mnemonic (modified (view insn.now).opcode (view insn.now).operands) }
{
    modified(insn).mnemonic()
}

/// Whether an instruction of the list begins at this offset, in whichever order the list is. Takes no
/// memory. It looks at one after the other: [`is_rising_start`] is quicker where the offsets rise.
pub fn is_start(list: &[(u16, Insn<'_>)], at: u16) -> bool
    ensures { result ≡ has_offset (views list.now) at }
{
    list.iter().any(|(start, _)| *start == at)
}

/// Whether an instruction of the list, whose offsets rise, begins at this offset. Takes no memory. The
/// offsets of [`decode_code`](crate::decode_code)'s list rise, so it is found by binary
/// search.
pub fn is_rising_start(list: &[(u16, Insn<'_>)], at: u16) -> bool
    requires { StartsRise 0 (views list.now) }
    ensures { result ≡ has_offset (views list.now) at }
{
    list.binary_search_by_key(&at, |(start, _)| *start).is_ok()
}
