use insn::{
    Act, CodeFault, Insn, Instructions, Kind, Opcode, act, code_is_one_list, count_instructions,
    decode_code, forms_move_units, found_at, is_start, kinds_and_arrays, list_is_one_code,
    made_index, mnemonic, opcodes_have_numbers, read_insn, read_is_written, results_are_spellings,
    written_is_read,
};
use layout::{Cursor, MAX_CODE_BYTES};
use std::alloc::Global;
use std::fmt::Debug;
use std::test::*;

#[test]
fn laws_are_called() {
    code_is_one_list();
    results_are_spellings();
    opcodes_have_numbers();
    list_is_one_code();
    written_is_read();
    read_is_written();
    kinds_and_arrays();
    forms_move_units();
}

/// Whether the item is a load of local variable 1 at this offset.
fn is_load(item: &(u16, Insn<'_>), at: u16) -> bool {
    item.0 == at
        && matches!(
            act(&item.1),
            Act::Load {
                kind: Kind::Int,
                local: 1
            }
        )
}

/// Whether the list is three loads of local variable 1, and a branch to the first.
fn is_three_loads(list: &[(u16, Insn<'_>)]) -> bool {
    match list {
        [first, second, third, last] => {
            is_load(first, 0)
                && is_load(second, 1)
                && is_load(third, 3)
                && last.0 == 7
                && matches!(act(&last.1), Act::Goto { offset: -7 })
        }
        _ => false,
    }
}

/// Whether the first and third are called by these names; `wide` has that of the instruction that it modifies.
fn are_called(list: &[(u16, Insn<'_>)], first: &str, third: &str) -> bool {
    match list {
        [(_, a), _, (_, b), ..] => mnemonic(a) == first && mnemonic(b) == third,
        _ => false,
    }
}

/// Three loads of local variable 1, and a branch to the first.
const LOADS: [u8; 10] = [0x1B, 0x15, 1, 0xC4, 0x15, 0, 1, 0xA7, 0xFF, 0xF9];

/// Offsets in that code, and whether an instruction begins there.
const STARTS: [(u16, bool); 7] = [
    (0, true),
    (1, true),
    (2, false),
    (3, true),
    (5, false),
    (7, true),
    (10, false),
];

fn are_starts(list: &[(u16, Insn<'_>)], rows: &[(u16, bool)]) -> bool {
    for (at, start) in rows {
        if is_start(list, *at) != *start {
            return false;
        }
    }
    true
}

#[test]
fn three_forms_of_one_act(rt: HostRuntime) -> Result<(), Fail> {
    let list = decode_code(rt.alloc(), &LOADS)?;
    assert!(rt; is_three_loads(&list) && are_called(&list, "iload_1", "iload"));
    assert!(rt; are_starts(&list, &STARTS) && !is_start(&[], 0));
    Ok(())
}

/// Whether the first instruction of a switch that is cut is at fault, and not read.
fn is_cut(code: &[u8]) -> bool {
    let mut cursor = Cursor::new(code);
    matches!(
        read_insn(&mut cursor),
        Err(CodeFault::CutInstruction { at: 0 })
    ) && cursor.at() == 0
}

#[test]
fn faults(rt: HostRuntime) {
    assert!(rt;
        is_cut(&[
            0xAA, 0, 0, 0, 0, 0, 0, 0x13, 0x80, 0, 0, 0, 0x7F, 0xFF, 0xFF, 0xFF,
        ])
    );
    assert!(rt; CodeFault::BadSwitch { at: 7 }.number() == 33);
    assert!(rt;
        matches!(
            decode_code(rt.alloc(), &[0, 0xBA, 0, 1, 1]),
            Err(CodeFault::CutInstruction { at: 1 })
        )
    );
}

/// Whether the instruction at the offset is the next.
fn is_next(reader: &mut Instructions<'_>, at: usize, opcode: Opcode) -> bool {
    matches!(reader.next(), Some(Ok((start, insn))) if start == at && insn.opcode == opcode)
}

/// An instruction, one with an operand, and a byte that is not an opcode.
fn are_next(reader: &mut Instructions<'_>) -> bool {
    is_next(reader, 0, Opcode::Iconst0)
        && is_next(reader, 1, Opcode::Bipush)
        && matches!(reader.next(), Some(Err(CodeFault::BadOpcode { at: 3 })))
        && reader.next().is_none()
}

#[test]
fn instructions_one_by_one(rt: HostRuntime) {
    assert!(rt; are_next(&mut Instructions::new(&[0x03, 0x10, 7, 0xCA, 0xB1])));
    assert!(rt; Instructions::new(&[]).next().is_none());
}

/// The meaning of the first instruction of code, and where the second begins; none where memory runs out, or there is
/// no code.
fn first_act(alloc: Global, code: &[u8]) -> Option<(Act<'_>, usize)> {
    if code.len() > MAX_CODE_BYTES {
        return None;
    }
    let Ok(list) = decode_code(alloc, code) else {
        return None;
    };
    if list.is_empty() {
        return None;
    }
    let mut reader = Instructions::new(code);
    let act = reader.take_act();
    Some((act, reader.at()))
}

#[test]
fn instructions_by_what_they_mean(rt: HostRuntime) {
    assert!(rt;
        matches!(
            first_act(rt.alloc(), &[0x03, 0xB1]),
            Some((Act::Constant(Kind::Int), 1))
        )
    );
    assert!(rt;
        matches!(
            first_act(rt.alloc(), &[0x15, 1]),
            Some((
                Act::Load {
                    kind: Kind::Int,
                    local: 1
                },
                2
            ))
        )
    );
    assert!(rt; first_act(rt.alloc(), &[]).is_none());
}

/// Whether the next instruction begins there, and makes an object of the class at this index, if it is a `new`.
fn starts_at(code: &mut Instructions<'_>, at: usize, made: Option<u16>) -> bool {
    match code.next_start() {
        Some(Ok(start)) => start == (at, made),
        _ => false,
    }
}

/// The code is `iconst_0`, `iload 1`, `new` of constant 2 and a byte that is not an opcode.
fn has_starts(code: &mut Instructions<'_>) -> bool {
    starts_at(code, 0, None)
        && starts_at(code, 1, None)
        && starts_at(code, 3, Some(2))
        && matches!(code.next_start(), Some(Err(CodeFault::BadOpcode { at: 6 })))
        && code.next_start().is_none()
}

#[test]
fn instructions_by_where_they_begin(rt: HostRuntime) {
    assert!(rt; has_starts(&mut Instructions::new(&[0x03, 0x15, 1, 0xBB, 0, 2, 0xCA])));
}

/// Whether the next instruction is skipped, or not, and the reader is then at this offset.
fn skips(code: &mut Instructions<'_>, skipped: bool, at: usize) -> bool {
    code.skip_unconstrained() == skipped && code.at() == at
}

/// The code is `iconst_0`, `iload 1` and `new` of constant 2, and then `sipush` without its second byte.
#[test]
fn plain_instructions_are_skipped(rt: HostRuntime) {
    let mut code = Instructions::new(&[0x03, 0x15, 1, 0xBB, 0, 2]);
    assert!(rt; skips(&mut code, true, 1) && skips(&mut code, true, 3));
    assert!(rt; skips(&mut code, false, 3));
    assert!(rt; !Instructions::new(&[0x11, 0]).skip_unconstrained());
}

/// True where `Debug` writes the value as this text, or memory ran out.
fn is_shown<T: Debug>(alloc: Global, shown: &T, expected: &str) -> bool {
    match format!(in alloc; "{shown:?}") {
        Ok(text) => text.as_str() == expected,
        Err(_) => false,
    }
}

/// Behind `wide` it is the mnemonic of the instruction that is modified.
#[test]
fn instructions_are_shown_as_mnemonics(rt: HostRuntime) -> Result<(), Fail> {
    assert!(rt; is_shown(rt.alloc(), &Opcode::IfIcmplt, "if_icmplt"));
    let list = decode_code(rt.alloc(), &[0xC4, 0x15, 1, 0])?;
    assert!(rt; matches!(list.as_slice(), [(_, insn)] if is_shown(rt.alloc(), insn, "iload")));
    Ok(())
}

fn is_read_or_memory(alloc: Global) -> bool {
    match decode_code(alloc, &[0, 0, 0]) {
        Ok(list) => list.len() == 3,
        Err(fault) => matches!(fault, CodeFault::OutOfMemory),
    }
}

#[test]
fn want_of_memory(rt: HostRuntime) {
    assert!(rt; is_read_or_memory(rt.alloc()));
}

/// Whether the instructions of a `new`, a `dup` and a `goto` back to the first are found where they begin.
fn are_found(alloc: Global, code: &[u8]) -> bool {
    if code.len() > MAX_CODE_BYTES {
        return false;
    }
    let Ok(list) = decode_code(alloc, code) else {
        return false;
    };
    let second = matches!(found_at(&list, 3), Some((Act::Stack(_), Some(4))));
    let last = matches!(found_at(&list, 4), Some((Act::Goto { offset: -4 }, None)));
    second && last && found_at(&list, 1).is_none()
}

/// The class of which the first instruction makes an object.
fn first_made(alloc: Global, code: &[u8]) -> Option<u16> {
    if code.len() > MAX_CODE_BYTES {
        return None;
    }
    let Ok(list) = decode_code(alloc, code) else {
        return None;
    };
    match list.first() {
        Some((_, insn)) => made_index(insn),
        None => None,
    }
}

#[test]
fn instructions_that_are_looked_up(rt: HostRuntime) {
    let code = [0xBB, 0, 5, 0x59, 0xA7, 0xFF, 0xFC];
    assert!(rt; are_found(rt.alloc(), &code));
    assert!(rt; first_made(rt.alloc(), &code) == Some(5));
    assert!(rt; first_made(rt.alloc(), &code[3..]).is_none());
    assert!(rt; matches!(count_instructions(&code), Ok(3)));
    assert!(rt;
        matches!(
            count_instructions(&code[..2]),
            Err(CodeFault::CutInstruction { at: 0 })
        )
    );
}
