use crate::making::are_written;
use insn::{Insn, Opcode, Operands, decode_code, encode_code};
use layout::{MAX_CODE_BYTES, WriteFault};
use std::alloc::{AllocError, Global};
use std::test::*;

/// The instructions that the code is read as, none if it is at fault.
fn read<'a>(alloc: Global, code: &'a [u8]) -> Result<Vec<Insn<'a>>, AllocError> {
    let mut list = Vec::new(alloc);
    if let Ok(read) = decode_code(alloc, &code[..code.len().min(MAX_CODE_BYTES)]) {
        for (_, insn) in &read {
            list.push(*insn)?;
        }
    }
    Ok(list)
}

/// An instruction of each form that is read by its own rule: operands of all sizes, both switches, and `wide`.
const CODE: [u8; 84] = [
    0x10, 0x80, 0x11, 0xFF, 0x7F, 0x12, 9, 0x13, 1, 2, 0x15, 3, 0x84, 1, 0xFF, 0xA7, 0xFF, 0xF0,
    0xC8, 0xFF, 0xFF, 0xFF, 0xFE, 0xB9, 0, 1, 2, 0, 0xBA, 0, 1, 0, 0, 0xBC, 10, 0xC5, 0, 1, 2,
    0xAB, 0, 0, 0, 12, 0, 0, 0, 1, 0x80, 0, 0, 0, 0, 0, 0, 4, 0xC4, 0x15, 1, 0, 0xC4, 0x84, 0, 2,
    0xFF, 0xFE, 0xAA, 7, 0, 0, 0, 19, 0, 0, 0, 0, 0, 0, 0, 0, 0, 0, 0, 4,
];

#[test]
fn what_is_read_is_written(rt: HostRuntime) -> Result<(), Fail> {
    let list = read(rt.alloc(), &CODE)?;
    assert!(rt; list.len() == 16);
    assert!(rt; are_written(encode_code(rt.alloc(), &list), &CODE, false));
    Ok(())
}

/// Whether the instruction alone is not written, since no bytes spell it.
fn is_unspelled(alloc: Global, opcode: Opcode, operands: Operands<'_>) -> bool {
    let list = [Insn { opcode, operands }];
    matches!(encode_code(alloc, &list), Err(WriteFault::HasNoSpelling))
}

/// Operands that the opcode does not have; of `wide` an increment of another than `iinc`, and an opcode that it does
/// not modify.
const UNSPELLED: [(Opcode, Operands<'static>); 6] = [
    (Opcode::Nop, Operands::Byte(1)),
    (Opcode::Iload, Operands::Nothing),
    (Opcode::Iload, Operands::Constant(1)),
    (
        Opcode::Iload,
        Operands::WideLocal {
            opcode: Opcode::Iload,
            local: 1,
        },
    ),
    (
        Opcode::Wide,
        Operands::WideIncrement {
            opcode: Opcode::Iload,
            local: 1,
            by: 1,
        },
    ),
    (
        Opcode::Wide,
        Operands::WideLocal {
            opcode: Opcode::Nop,
            local: 1,
        },
    ),
];

#[test]
fn what_no_bytes_spell(rt: HostRuntime) {
    for (opcode, operands) in &UNSPELLED {
        assert!(rt; is_unspelled(rt.alloc(), *opcode, *operands));
    }
}

const TABLES: [&[u8]; 5] = [
    // no padding
    &[0; 16],
    // no offsets
    &[0; 15],
    // no numbers
    &[0; 3],
    &[0, 0, 0, 0, 0, 0, 0, 0, 0, 0, 1, 0, 0, 0, 0],
    &[
        0, 0, 0, 0, 0, 0, 0, 0x80, 0, 0, 0, 0x7F, 0xFF, 0xFF, 0xFF, 0, 0, 0, 0,
    ],
];

#[test]
fn tables_that_no_bytes_spell(rt: HostRuntime) {
    for bytes in &TABLES {
        let operands = Operands::TableSwitch(*bytes);
        assert!(rt; is_unspelled(rt.alloc(), Opcode::Tableswitch, operands));
    }
}

const PAIRS: [&[u8]; 8] = [
    // no padding
    &[0; 8],
    // no numbers, or no count
    &[],
    &[0; 3],
    &[0; 7],
    // half a pair that is not counted
    &[0; 15],
    &[0, 0, 0, 0, 0, 0, 0, 0, 0, 0, 1],
    &[0, 0, 0, 0, 0, 0, 0, 0xFF, 0xFF, 0xFF, 0xFF],
    &[
        0, 0, 0, 0, 0, 0, 0, 0, 0, 0, 2, 0, 0, 0, 1, 0, 0, 0, 0, 0, 0, 0, 1, 0, 0, 0, 0,
    ],
];

#[test]
fn pairs_that_no_bytes_spell(rt: HostRuntime) {
    for bytes in &PAIRS {
        let operands = Operands::LookupSwitch(*bytes);
        assert!(rt; is_unspelled(rt.alloc(), Opcode::Lookupswitch, operands));
    }
}

const NOP: Insn<'static> = Insn {
    opcode: Opcode::Nop,
    operands: Operands::Nothing,
};

/// A switch without pairs, as it stands where the padding has three bytes.
const SWITCH: Insn<'static> = Insn {
    opcode: Opcode::Lookupswitch,
    operands: Operands::LookupSwitch(&[0, 0, 0, 0, 0, 0, 12, 0, 0, 0, 0]),
};

/// In how many bytes the instructions are written, or why they are not.
fn length(alloc: Global, list: &[Insn<'_>]) -> Result<usize, WriteFault> {
    let bytes = encode_code(alloc, list)?;
    Ok(bytes.len())
}

#[test]
fn padding_by_the_offset(rt: HostRuntime) {
    assert!(rt; length(rt.alloc(), &[SWITCH]) == Ok(12));
    assert!(rt; length(rt.alloc(), &[NOP, NOP, NOP, NOP, SWITCH]) == Ok(16));
    assert!(rt; length(rt.alloc(), &[NOP, SWITCH]) == Err(WriteFault::HasNoSpelling));
}

/// The lengths of as many instructions as a method may have, and of one more, which no bytes spell.
fn lengths(alloc: Global) -> Result<[Result<usize, WriteFault>; 2], AllocError> {
    let mut list = Vec::new(alloc);
    list.resize(MAX_CODE_BYTES, NOP)?;
    let most = length(alloc, &list);
    list.push(Insn {
        opcode: Opcode::Iload,
        operands: Operands::Nothing,
    })?;
    Ok([most, length(alloc, &list)])
}

#[test]
fn no_more_than_a_method_may_have(rt: HostRuntime) {
    assert!(rt; lengths(rt.alloc()) == Ok([Ok(65_535), Err(WriteFault::DoesNotFit)]));
}

fn is_written_or_memory(alloc: Global) -> bool {
    let list = [Insn {
        opcode: Opcode::Sipush,
        operands: Operands::Short(-2),
    }];
    are_written(encode_code(alloc, &list), &[0x11, 0xFF, 0xFE], true)
}

#[test]
fn want_of_memory_in_writing(rt: HostRuntime) {
    assert!(rt; is_written_or_memory(rt.alloc()));
}
