use insn::{
    Form, Insn, Kind, LookupSwitch, NumericOperator, Opcode, Operands, Pairs, StackOperator,
    StackPlace, TableSwitch, Targets, computed_as, decode_code, is_rising_start, is_start,
    takes_array,
};
use names::Primitive;
use std::test::*;

/// Three bytes of padding, a default, a low and a high of a `tableswitch`, and two offsets.
const SWITCH: [u8; 23] = [
    9, 8, 7, 0, 0, 0, 19, 0, 0, 0, 1, 0, 0, 0, 2, 0, 0, 0, 3, 0, 0, 0, 4,
];

fn has_table() -> bool {
    let table = TableSwitch::new(&SWITCH);
    table.padding == &SWITCH[..3]
        && table.offsets == &SWITCH[15..]
        && matches!((table.default, table.low, table.high), (19, 1, 2))
}

fn has_pairs() -> bool {
    let pairs = LookupSwitch::new(&SWITCH[1..19]);
    pairs.padding == &SWITCH[1..3]
        && pairs.pairs == &SWITCH[11..19]
        && matches!((pairs.default, pairs.count), (19, 1))
}

/// A number whose bytes are missing counts as -1.
fn has_cut_table() -> bool {
    let cut = TableSwitch::new(&SWITCH[3..11]);
    cut.padding.is_empty()
        && cut.offsets.is_empty()
        && matches!((cut.default, cut.low, cut.high), (19, 1, -1))
}

#[test]
fn parts_of_switches(rt: HostRuntime) {
    assert!(rt; has_table());
    assert!(rt; has_pairs());
    assert!(rt; has_cut_table());
}

/// An offset or a pair of a switch, and another.
const ENTRIES: [u8; 8] = [0, 0, 0, 19, 0xFF, 0xFF, 0xFF, 0xFE];

fn goes_by_offsets() -> bool {
    let mut offsets = Targets::Offsets(&ENTRIES).offsets();
    matches!(
        (offsets.next(), offsets.next(), offsets.next()),
        (Some(19), Some(-2), None)
    )
}

fn goes_by_pairs() -> bool {
    let mut offsets = Targets::Pairs(&ENTRIES).offsets();
    matches!((offsets.next(), offsets.next()), (Some(-2), None))
}

fn has_one_pair() -> bool {
    let mut pairs = Pairs::new(&ENTRIES);
    matches!((pairs.next(), pairs.next()), (Some((19, -2)), None))
}

#[test]
fn where_switches_go(rt: HostRuntime) {
    assert!(rt; goes_by_offsets());
    assert!(rt; goes_by_pairs());
    assert!(rt; has_one_pair());
}

#[test]
fn an_instruction_of_a_list_takes_40_bytes(rt: HostRuntime) {
    assert!(rt; size_of::<Operands<'_>>() == 24);
    assert!(rt; size_of::<(u16, Insn<'_>)>() == 40);
}

fn has_kinds() -> bool {
    Kind::Double.is_wide()
        && !Kind::Float.is_wide()
        && takes_array(Primitive::Byte, Primitive::Boolean)
        && !takes_array(Primitive::Boolean, Primitive::Boolean)
        && computed_as(Primitive::Boolean) == Kind::Int
        && computed_as(Primitive::Double) == Kind::Double
}

/// `dup_x2` has a form over two narrow items, and one over a wide item.
fn has_forms() -> bool {
    match StackOperator::DupX2.forms() {
        [_, form] => {
            matches!(form.takes, [StackPlace::Narrow, StackPlace::Wide])
                && matches!(form.leaves, [0, 1, 0])
        }
        _ => false,
    }
}

fn has_row() -> bool {
    matches!(
        NumericOperator::Lshl.row(),
        ([Kind::Int, Kind::Long], Kind::Long)
    )
}

fn has_opcode() -> bool {
    match Opcode::from_number(0x84) {
        Some(opcode) => {
            opcode.number() == 0x84
                && opcode.mnemonic() == "iinc"
                && opcode.form() == Form::Increment
        }
        None => false,
    }
}

#[test]
fn kinds_and_forms(rt: HostRuntime) {
    assert!(rt; has_kinds());
    assert!(rt; has_forms());
    assert!(rt; has_row());
    assert!(rt; has_opcode());
    assert!(rt; Opcode::from_number(202).is_none());
}

#[test]
fn starts_by_halving(rt: HostRuntime) -> Result<(), Fail> {
    let list = decode_code(rt.alloc(), &[0x03, 0x10, 7, 0x57, 0xB1])?;
    assert!(rt; is_rising_start(&list, 3));
    assert!(rt; !is_rising_start(&list, 2));
    Ok(())
}

#[test]
fn start_behind_a_later_one(rt: HostRuntime) {
    let nop = Insn {
        opcode: Opcode::Nop,
        operands: Operands::Nothing,
    };
    assert!(rt; is_start(&[(3, nop), (0, nop)], 0));
}
