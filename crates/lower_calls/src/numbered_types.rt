use crate::making::{A, ARRAY_OF_A, ARRAY_OF_B, B, DEEPEST, TABLE_OF_INTS, hasher, setting};
use frames::VType;
use hierarchy::{Answer, Classes, Rows};
use layout::{Cursor, Part};
use names::{Base, OBJECT};
use pool::Pool;
use std::alloc::{AllocError, Global};
use std::test::*;
use type_numbers::{ConstantTable, MethodNumbers, NamedConstant, TypeNumbers, laws};

const D: VType<'static> = VType::Class(b"D");

const TABLE_OF_CS: VType<'static> = VType::Array {
    dims: 2,
    base: Base::Class(b"C"),
};

const DEEPEST_OF_DS: VType<'static> = VType::Array {
    dims: 255,
    base: Base::Class(b"D"),
};

#[test]
fn laws_are_called() {
    laws::equal_numbers_are_equal_types();
    laws::types_have_one_number();
    laws::numbers_are_below_absent();
    laws::numbers_are_slots();
    laws::numbers_stay();
    laws::tables_stay();
}

/// Types with the numbers that they get one after the other.
const NUMBERED: [(VType<'static>, u32); 20] = [
    (VType::Top, 0),
    (VType::Int, 0x0100_0000),
    (VType::Float, 0x0200_0000),
    (VType::Double, 0x0300_0000),
    (VType::Long, 0x0400_0000),
    (VType::Null, 0x0500_0000),
    (VType::UninitThis, 0x0600_0000),
    (VType::Class(OBJECT), 0x0700_0000),
    (A, 0x0700_0001),
    (VType::Class(b"C"), 0x0700_0003),
    (ARRAY_OF_A, 0x0701_0001),
    (TABLE_OF_CS, 0x0702_0003),
    (VType::Uninit(65534), 0x0800_FFFE),
    (TABLE_OF_INTS, 0x0902_000A),
    (DEEPEST, 0x09FF_0004),
    (B, 0x0A00_0000),
    (DEEPEST_OF_DS, 0x0AFF_0001),
    (D, 0x0A00_0001),
    (ARRAY_OF_B, 0x0A01_0000),
    (B, 0x0A00_0000),
];

/// Whether a type gets this number, which stands for the type.
fn is_numbered<'n, C: Classes>(
    numbers: &mut TypeNumbers<'_, 'n, C>,
    vtype: &VType<'n>,
    expected: u32,
) -> Result<bool, AllocError> {
    let number = numbers.number(vtype)?;
    Ok(number == expected && numbers.vtype(number) == *vtype)
}

/// Whether a type compared with itself by its number is assignable.
fn is_its_own<'n, C: Classes>(
    numbers: &mut TypeNumbers<'_, 'n, C>,
    vtype: &VType<'n>,
) -> Result<bool, AllocError> {
    let number = numbers.number(vtype)?;
    Ok(numbers.assignable(number, number) == Answer::Yes)
}

/// Whether a class that is absent gets the first number for absent classes after a restart, and one in the hierarchy
/// its own number as before.
fn restarts<'n, C: Classes>(numbers: &mut TypeNumbers<'_, 'n, C>) -> Result<bool, AllocError> {
    numbers.restart();
    Ok(is_numbered(numbers, &D, 0x0A00_0000)? && is_numbered(numbers, &A, 0x0700_0001)?)
}

/// Whether types get these numbers, each of which stands for its type.
fn are_types_numbered<'n, C: Classes>(
    numbers: &mut TypeNumbers<'_, 'n, C>,
    rows: &[(VType<'n>, u32)],
) -> Result<bool, AllocError> {
    for (vtype, number) in rows {
        if !is_numbered(numbers, vtype, *number)? || !is_its_own(numbers, vtype)? {
            return Ok(false);
        }
    }
    Ok(true)
}

fn agree<C: Classes>(alloc: Global, classes: &C) -> Result<bool, AllocError> {
    let mut numbers = TypeNumbers::new(alloc, classes);
    Ok(are_types_numbered(&mut numbers, &NUMBERED)? && restarts(&mut numbers)?)
}

/// At 2 a Class of A, at 6 a Fieldref of a field f of A that holds a java/lang/String, at 9 a Methodref, at 11 a Class
/// of an array of java/lang/String, at 12 an InterfaceMethodref, at 13 an InvokeDynamic, at 14 a Dynamic, at 15 an
/// Integer, at 16 a String, at 17 a Long, at 19 a MethodType, and at 20 a Class that leads to no text.
const NAMED: [u8; 142] = [
    0, 21, 1, 0, 1, 65, 7, 0, 1, 1, 0, 1, 102, 1, 0, 18, 76, 106, 97, 118, 97, 47, 108, 97, 110,
    103, 47, 83, 116, 114, 105, 110, 103, 59, 12, 0, 3, 0, 4, 9, 0, 2, 0, 5, 1, 0, 22, 40, 76, 106,
    97, 118, 97, 47, 108, 97, 110, 103, 47, 83, 116, 114, 105, 110, 103, 59, 73, 41, 86, 12, 0, 3,
    0, 7, 10, 0, 2, 0, 8, 1, 0, 19, 91, 76, 106, 97, 118, 97, 47, 108, 97, 110, 103, 47, 83, 116,
    114, 105, 110, 103, 59, 7, 0, 10, 11, 0, 2, 0, 8, 18, 0, 0, 0, 8, 17, 0, 0, 0, 5, 3, 0, 0, 0,
    1, 8, 0, 4, 5, 0, 0, 0, 0, 0, 0, 0, 1, 16, 0, 7, 7, 0, 5,
];

/// The types of the descriptor of its methods, which is read once.
const TYPES: MethodNumbers = MethodNumbers {
    start: 0,
    count: 2,
    width: 2,
    result: None,
};

/// The numbers of the types of its parameters.
const ARGUMENTS: [u32; 2] = [0x0A00_0000, 0x0100_0000];

/// The constants of that pool that are something to instructions, with their indices.
const CONSTANTS: [(u16, NamedConstant); 12] = [
    (
        2,
        NamedConstant::Class {
            class: 0x0700_0001,
            loaded: 0x0A00_0001,
        },
    ),
    (
        6,
        NamedConstant::Field {
            class: 0x0700_0001,
            held: 0x0A00_0000,
        },
    ),
    (
        9,
        NamedConstant::Method {
            interface: false,
            init: false,
            class: 0x0700_0001,
            types: TYPES,
        },
    ),
    (
        11,
        NamedConstant::Class {
            class: 0x0A01_0000,
            loaded: 0x0A00_0001,
        },
    ),
    (
        12,
        NamedConstant::Method {
            interface: true,
            init: false,
            class: 0x0700_0001,
            types: TYPES,
        },
    ),
    (
        13,
        NamedConstant::Site {
            special: false,
            types: TYPES,
        },
    ),
    (14, NamedConstant::Dynamic { held: 0x0A00_0000 }),
    (
        15,
        NamedConstant::Loaded {
            loaded: 0x0100_0000,
        },
    ),
    (
        16,
        NamedConstant::Loaded {
            loaded: 0x0A00_0000,
        },
    ),
    (
        17,
        NamedConstant::Loaded {
            loaded: 0x0400_0000,
        },
    ),
    (
        19,
        NamedConstant::Loaded {
            loaded: 0x0A00_0002,
        },
    ),
    (
        20,
        NamedConstant::Loaded {
            loaded: 0x0A00_0001,
        },
    ),
];

/// The other indices of that pool, and one behind it.
const OTHERS: [u16; 10] = [0, 1, 3, 4, 5, 7, 8, 10, 18, 21];

/// Whether a table has these constants.
fn has_constants(table: &ConstantTable, rows: &[(u16, NamedConstant)]) -> bool {
    for (index, constant) in rows {
        if table.get(*index) != *constant {
            return false;
        }
    }
    true
}

/// Whether a table has nothing at these indices.
fn has_none(table: &ConstantTable, indices: &[u16]) -> bool {
    for index in indices {
        if table.get(*index) != NamedConstant::Other {
            return false;
        }
    }
    true
}

/// Whether the table of that pool has these constants, and the numbers of the types of its methods.
fn are_tabled<'n, C: Classes>(
    alloc: Global,
    pool: &Pool<'n>,
    numbers: &mut TypeNumbers<'_, 'n, C>,
) -> Result<bool, AllocError> {
    let table = ConstantTable::new(alloc, pool, numbers)?;
    let NamedConstant::Method { types, .. } = table.get(9) else {
        return Ok(false);
    };
    let has_rows = has_constants(&table, &CONSTANTS) && has_none(&table, &OTHERS);
    Ok(has_rows && table.arguments(types) == ARGUMENTS.as_slice())
}

/// Whether the text at 7 of that pool is the descriptor of a method that takes a java/lang/String and an int, and is
/// read once, however often it is asked.
fn is_method<'n, C: Classes>(
    alloc: Global,
    pool: &Pool<'n>,
    numbers: &mut TypeNumbers<'_, 'n, C>,
) -> Result<bool, AllocError> {
    let mut table = ConstantTable::new(alloc, pool, numbers)?;
    let first = table.method_types(pool, 7, numbers)?;
    let again = table.method_types(pool, 7, numbers)?;
    let Some(types) = again else {
        return Ok(false);
    };
    let fits = table.arguments(types) == ARGUMENTS.as_slice();
    Ok(fits && types.result.is_none() && first == again)
}

/// Whether the text at 4 of that pool is not a descriptor of a method, and no text is at 5.
fn are_no_methods<'n, C: Classes>(
    alloc: Global,
    pool: &Pool<'n>,
    numbers: &mut TypeNumbers<'_, 'n, C>,
) -> Result<bool, AllocError> {
    let mut table = ConstantTable::new(alloc, pool, numbers)?;
    let text = table.method_types(pool, 4, numbers)?;
    let constant = table.method_types(pool, 5, numbers)?;
    Ok(text.is_none() && constant.is_none())
}

/// Whether all that is said of that pool holds.
fn are_pool_numbered<'n, C: Classes>(
    alloc: Global,
    pool: &Pool<'n>,
    numbers: &mut TypeNumbers<'_, 'n, C>,
) -> Result<bool, AllocError> {
    Ok(
        are_tabled(alloc, pool, numbers)?
            && is_method(alloc, pool, numbers)?
            && are_no_methods(alloc, pool, numbers)?,
    )
}

/// Whether all that is said of that pool holds, or the bytes are no pool, where that may be.
fn are_numbered<C: Classes>(
    alloc: Global,
    classes: &C,
    may_fail: bool,
) -> Result<bool, AllocError> {
    match Pool::take(alloc, &mut Cursor::new(&NAMED)) {
        Ok(pool) => {
            let mut numbers = TypeNumbers::new(alloc, classes);
            are_pool_numbered(alloc, &pool, &mut numbers)
        }
        Err(_) => Ok(may_fail),
    }
}

/// Whether all that is said of numbers holds; or memory ran out, where it may.
fn holds(alloc: Global, may_fail: bool) -> bool {
    let list = setting(alloc);
    let Ok(classes) = Rows::new(alloc, &list, hasher()) else {
        return may_fail;
    };
    match (
        agree(alloc, &classes),
        are_numbered(alloc, &classes, may_fail),
    ) {
        (Ok(types), Ok(constants)) => types && constants,
        _ => may_fail,
    }
}

#[test]
fn types_and_constants_by_number(rt: HostRuntime) {
    assert!(rt; holds(rt.alloc(), false));
}

#[test]
fn memory_runs_out_for_numbers(rt: HostRuntime) {
    assert!(rt; holds(rt.alloc(), true));
}
