//! The act of an instruction, from the meaning of its opcode and its operands. No call takes memory.
ghost use Rattle.std.specs.Prelude.{◌≡◌};
ghost use Rattle.insn.specs.Code.{modified};
ghost use Rattle.insn.specs.Meanings.{act, made_index, element_of, index_of, local_of, offset_of};
ghost use Rattle.insn.specs.private.OperandParts.{AreParts, IsActAlways, IsActBy, IsActOf, index_and_byte};
ghost use Rattle.insn.specs.Views.{view, operands_view, act_view};

use crate::acts::{Act, Meaning};
use crate::instruction::{Insn, Operands, modified};
use crate::opcode::Opcode;
use crate::switch::{LookupSwitch, TableSwitch, Targets};
use names::Primitive;

/// The meaning of an instruction, without its form: `iload_0`, `iload 0` and `wide iload 0` have one
/// act (JVMS 6.5). Takes no memory. Where what stands after the opcode is not of its form, an
/// operand that is missing counts as 0.
pub fn act<'a>(insn: &Insn<'a>) -> Act<'a>
    ensures { act_view result ≡ act (view insn.now) }
{
    act_of(modified(insn).meaning(), &parts_of(insn.operands))
}

/// The index of the class of which an instruction makes an object, where it is a `new` (JVMS 6.5, new). Takes no
/// memory.
pub fn made_index(insn: &Insn<'_>) -> Option<u16>
    ensures { result ≡ made_index (act (view insn.now)) }
{
    match modified(insn).meaning() {
        Meaning::New => Some(parts_of(insn.operands).index),
        _ => None,
    }
}

/// The act of this meaning with an index alone as operand; none where no such instruction has this meaning.
#[inline(always)]
pub(crate) fn act_of_index<'a>(meaning: Meaning, index: u16) -> Option<Act<'a>>
    ensures { IsActBy index_of meaning index result }
{
    Some(match meaning {
        Meaning::LoadConstant => Act::LoadConstant { index },
        Meaning::LoadWideConstant => Act::LoadWideConstant { index },
        Meaning::GetStatic => Act::GetStatic { index },
        Meaning::PutStatic => Act::PutStatic { index },
        Meaning::GetField => Act::GetField { index },
        Meaning::PutField => Act::PutField { index },
        Meaning::InvokeVirtual => Act::InvokeVirtual { index },
        Meaning::InvokeSpecial => Act::InvokeSpecial { index },
        Meaning::InvokeStatic => Act::InvokeStatic { index },
        Meaning::New => Act::New { index },
        Meaning::NewReferenceArray => Act::NewReferenceArray { index },
        Meaning::CheckCast => Act::CheckCast { index },
        Meaning::InstanceOf => Act::InstanceOf { index },
        _ => return None,
    })
}

/// The act of this meaning with a local variable alone as operand, or with what is added to it; none where no such
/// instruction has this meaning, or it is unsupported.
#[inline(always)]
pub(crate) fn act_of_local<'a>(meaning: Meaning, local: u16) -> Option<Act<'a>>
    ensures { IsActBy local_of meaning local result }
{
    Some(match meaning {
        Meaning::Load(kind) => Act::Load { kind, local },
        Meaning::LoadReference => Act::LoadReference { local },
        Meaning::Store(kind) => Act::Store { kind, local },
        Meaning::StoreReference => Act::StoreReference { local },
        Meaning::Increment => Act::Increment { local },
        _ => return None,
    })
}

/// The act of this meaning with an offset alone as operand; none where no such instruction has this meaning, or it is
/// unsupported.
#[inline(always)]
pub(crate) fn act_of_offset<'a>(meaning: Meaning, offset: i32) -> Option<Act<'a>>
    ensures { IsActBy offset_of meaning offset result }
{
    Some(match meaning {
        Meaning::IfInt => Act::IfInt { offset },
        Meaning::IfInts => Act::IfInts { offset },
        Meaning::IfReferences => Act::IfReferences { offset },
        Meaning::IfNull => Act::IfNull { offset },
        Meaning::Goto => Act::Goto { offset },
        _ => return None,
    })
}

/// The act of this meaning with an index and a count as operands; none where no such instruction has this meaning.
#[inline(always)]
pub(crate) fn act_of_count<'a>(meaning: Meaning, index: u16, count: u8) -> Option<Act<'a>>
    ensures { IsActBy index_and_byte meaning (index, count) result }
{
    match meaning {
        Meaning::InvokeInterface => Some(Act::InvokeInterface { index, count }),
        _ => None,
    }
}

/// The act of this meaning with a number alone as operand; none where no such instruction has this meaning.
#[inline(always)]
pub(crate) fn act_of_number<'a>(meaning: Meaning) -> Option<Act<'a>>
    ensures { IsActAlways meaning result }
{
    match meaning {
        Meaning::Constant(kind) => Some(Act::Constant(kind)),
        _ => None,
    }
}

/// The act of this meaning with operands of these parts.
fn act_of<'a>(meaning: Meaning, parts: &Parts<'a>) -> Act<'a>
    ensures { IsActOf meaning parts.now (act_view result) }
{
    let (local, index, byte, offset) = (parts.local, parts.index, parts.byte, parts.offset);
    match meaning {
        Meaning::Nothing => Act::Nothing,
        Meaning::Constant(kind) => Act::Constant(kind),
        Meaning::ConstantNull => Act::ConstantNull,
        Meaning::LoadConstant => Act::LoadConstant { index },
        Meaning::LoadWideConstant => Act::LoadWideConstant { index },
        Meaning::Load(kind) => Act::Load { kind, local },
        Meaning::LoadFrom(kind, local) => Act::Load { kind, local },
        Meaning::LoadReference => Act::LoadReference { local },
        Meaning::LoadReferenceFrom(local) => Act::LoadReference { local },
        Meaning::Store(kind) => Act::Store { kind, local },
        Meaning::StoreTo(kind, local) => Act::Store { kind, local },
        Meaning::StoreReference => Act::StoreReference { local },
        Meaning::StoreReferenceTo(local) => Act::StoreReference { local },
        Meaning::Increment => Act::Increment { local },
        Meaning::Numeric(operator) => Act::Numeric(operator),
        Meaning::Stack(operator) => Act::Stack(operator),
        Meaning::IfInt => Act::IfInt { offset },
        Meaning::IfInts => Act::IfInts { offset },
        Meaning::IfReferences => Act::IfReferences { offset },
        Meaning::IfNull => Act::IfNull { offset },
        Meaning::Goto => Act::Goto { offset },
        Meaning::Switch => Act::Switch {
            default: offset,
            targets: parts.targets,
        },
        Meaning::Return(kind) => Act::Return(kind),
        Meaning::ReturnReference => Act::ReturnReference,
        Meaning::ReturnVoid => Act::ReturnVoid,
        Meaning::GetStatic => Act::GetStatic { index },
        Meaning::PutStatic => Act::PutStatic { index },
        Meaning::GetField => Act::GetField { index },
        Meaning::PutField => Act::PutField { index },
        Meaning::InvokeVirtual => Act::InvokeVirtual { index },
        Meaning::InvokeSpecial => Act::InvokeSpecial { index },
        Meaning::InvokeStatic => Act::InvokeStatic { index },
        Meaning::InvokeInterface => Act::InvokeInterface { index, count: byte },
        Meaning::InvokeDynamic => Act::InvokeDynamic { index },
        Meaning::New => Act::New { index },
        Meaning::LoadElement(element) => Act::LoadElement(element),
        Meaning::StoreElement(element) => Act::StoreElement(element),
        Meaning::LoadReferenceElement => Act::LoadReferenceElement,
        Meaning::StoreReferenceElement => Act::StoreReferenceElement,
        Meaning::ArrayLength => Act::ArrayLength,
        Meaning::NewArray => Act::NewArray(element_of(byte)),
        Meaning::NewReferenceArray => Act::NewReferenceArray { index },
        Meaning::NewMultiArray => Act::NewMultiArray {
            index,
            dimensions: byte,
        },
        Meaning::CheckCast => Act::CheckCast { index },
        Meaning::InstanceOf => Act::InstanceOf { index },
        Meaning::Throw => Act::Throw,
        Meaning::Monitor => Act::Monitor,
        Meaning::Unsupported => Act::Unsupported,
    }
}

/// The parts of operands that acts take; a part that an instruction does not have counts as 0.
#[derive(Clone, Copy)]
struct Parts<'a> {
    /// The number of a local variable.
    local: u16,
    /// An index into the constant pool.
    index: u16,
    /// A count, a number of dimensions, or the number of an element type.
    byte: u8,
    /// Where a branch goes, and a switch for other keys.
    offset: i32,
    /// Where a switch goes.
    targets: Targets<'a>,
}

impl<'a> Parts<'a> {
    ghost use Rattle.insn.specs.Instructions as instructions;
    ghost use Rattle.insn.specs.private.OperandParts.{AreParts};

    /// The parts of an instruction without operands.
    fn none() -> Parts<'a>
        ensures { AreParts result instructions.nothing }
    {
        Parts {
            local: 0,
            index: 0,
            byte: 0,
            offset: 0,
            targets: Targets::Offsets(&[]),
        }
    }
}

/// The parts of these operands that acts take.
fn parts_of<'a>(operands: Operands<'a>) -> Parts<'a>
    ensures { AreParts result (operands_view operands.entry) }
{
    let mut parts = Parts::none();
    match operands {
        Operands::Nothing | Operands::Byte(_) | Operands::Short(_) => {}
        Operands::Constant(index) => parts.index = u16::from(index),
        Operands::Index(index) | Operands::InvokeDynamic { index } => parts.index = index,
        Operands::Local(local) | Operands::Increment { local, .. } => {
            parts.local = u16::from(local);
        }
        Operands::WideLocal { local, .. } | Operands::WideIncrement { local, .. } => {
            parts.local = local;
        }
        Operands::Branch(offset) => parts.offset = i32::from(offset),
        Operands::WideBranch(offset) => parts.offset = offset,
        Operands::InvokeInterface { index, count } => {
            parts.index = index;
            parts.byte = count;
        }
        Operands::NewArray(element) => parts.byte = element,
        Operands::MultiNewArray { index, dimensions } => {
            parts.index = index;
            parts.byte = dimensions;
        }
        Operands::TableSwitch(bytes) => {
            let switch = TableSwitch::new(bytes);
            parts.offset = switch.default;
            parts.targets = Targets::Offsets(switch.offsets);
        }
        Operands::LookupSwitch(bytes) => {
            let switch = LookupSwitch::new(bytes);
            parts.offset = switch.default;
            parts.targets = Targets::Pairs(switch.pairs);
        }
    }
    parts
}

/// The type of an array's elements by its number (JVMS 6.5, table 6.5.newarray-A).
fn element_of(number: u8) -> Option<Primitive>
    ensures { result ≡ element_of number }
{
    Some(match number {
        4 => Primitive::Boolean,
        5 => Primitive::Char,
        6 => Primitive::Float,
        7 => Primitive::Double,
        8 => Primitive::Byte,
        9 => Primitive::Short,
        10 => Primitive::Int,
        11 => Primitive::Long,
        _ => return None,
    })
}
