use crate::making::{are_written, is_put, is_shown};
use layout::{Cursor, Output, Part, ReadFault, WriteFault};
use pool::{
    Constant, Pool, PoolFault, found_where_it_stands, put_pool, read_pool,
    refused_where_nothing_fits,
};
use std::alloc::{AllocError, Global};
use std::test::*;

/// Every kind of constant, the Long at 11 and 12 and the Double at 13 and 14.
const ALL: [u8; 85] = [
    0, 20, 1, 0, 1, 0x41, 7, 0, 1, 1, 0, 1, 0x66, 1, 0, 1, 0x49, 12, 0, 3, 0, 4, 9, 0, 2, 0, 5, 10,
    0, 2, 0, 5, 11, 0, 2, 0, 5, 3, 0, 0, 0, 1, 4, 0x3F, 0x80, 0, 0, 5, 0, 0, 0, 1, 0, 0, 0, 2, 6,
    0x3F, 0xF0, 0, 0, 0, 0, 0, 0, 8, 0, 3, 15, 6, 0, 7, 16, 0, 4, 17, 0, 0, 0, 5, 18, 0, 0, 0, 5,
];

#[test]
fn laws_are_called() {
    found_where_it_stands();
    refused_where_nothing_fits();
}

/// Whether the pool of these constants is written where an output takes it.
fn is_put_out(alloc: Global, constants: Vec<Constant<'_>>) -> bool {
    let mut out = Output::new(alloc);
    let answer = put_pool(&mut out, &Pool::new(constants));
    are_written(out.delivered(answer), &ALL, false)
}

/// Whether the pool is read and written; or memory ran out, where it may, and nothing is read.
fn is_read(alloc: Global, may_fail: bool) -> bool {
    let mut cursor = Cursor::new(&ALL);
    match Pool::take(alloc, &mut cursor) {
        Ok(pool) => {
            cursor.at() == 85
                && pool.constants().len() == 19
                && is_put(alloc, &pool, &ALL, may_fail)
        }
        Err(fault) => may_fail && matches!(fault, ReadFault::OutOfMemory) && cursor.at() == 0,
    }
}

fn is_read_and_put_out(alloc: Global) -> bool {
    match Pool::take(alloc, &mut Cursor::new(&ALL)) {
        Ok(pool) => is_put_out(alloc, pool.into_constants()),
        Err(_) => false,
    }
}

#[test]
fn both_ways(rt: HostRuntime) {
    assert!(rt; is_read(rt.alloc(), false));
    assert!(rt; is_read_and_put_out(rt.alloc()));
}

/// Why no pool stands after eight bytes, as in a class file, if none does; and where the cursor then is.
fn read_fault(alloc: Global, bytes: &[u8]) -> (Option<ReadFault>, usize) {
    let mut cursor = Cursor::starting(8, bytes);
    let fault = Pool::take(alloc, &mut cursor).err();
    (fault, cursor.at())
}

/// Whether a Long of one slot, which no bytes spell, is not written.
fn is_unspelled(alloc: Global) -> bool {
    let mut constants = Vec::new(alloc);
    let mut out = Vec::new(alloc);
    constants.push(Constant::Long { high: 0, low: 0 }).is_ok()
        && out.push(7).is_ok()
        && matches!(
            Pool::new(constants).put(&mut out),
            Err(WriteFault::HasNoSpelling)
        )
        && matches!(out.as_slice(), [7])
}

#[test]
fn refused(rt: HostRuntime) {
    let fault = Some(ReadFault::BadTag { at: 11, tag: 10 });
    assert!(rt; read_fault(rt.alloc(), &[0, 2, 15, 10]) == (fault, 8));
    assert!(rt; is_unspelled(rt.alloc()));
}

fn has_names(pool: &Pool<'_>) -> bool {
    matches!(pool.text(3), Ok(text) if text.bytes() == b"f".as_slice())
        && matches!(pool.class_name(2), Ok(name) if name.bytes() == b"A".as_slice())
}

fn has_name_and_type(pool: &Pool<'_>) -> bool {
    match pool.name_and_type(5) {
        Ok(named) => {
            named.name.bytes() == b"f".as_slice() && named.descriptor.bytes() == b"I".as_slice()
        }
        Err(_) => false,
    }
}

fn has_references(pool: &Pool<'_>) -> bool {
    matches!(pool.field_ref(6), Ok(field) if field.class.bytes() == b"A".as_slice())
        && matches!(pool.method_ref(7), Ok(method) if !method.interface)
        && matches!(pool.method_ref(8), Ok(method) if method.interface)
}

/// That no constant stands at the index.
fn is_bad(pool: &Pool<'_>, index: u16) -> bool {
    matches!(pool.get(index), Err(PoolFault::BadIndex { index: at }) if at == index)
}

fn has_faults(pool: &Pool<'_>) -> bool {
    is_bad(pool, 0)
        && is_bad(pool, 12)
        && is_bad(pool, 20)
        && matches!(pool.class_name(1), Err(PoolFault::WrongKind { index: 1 }))
        && matches!(pool.field_ref(7), Err(PoolFault::WrongKind { index: 7 }))
}

fn looks_up(alloc: Global) -> bool {
    match Pool::take(alloc, &mut Cursor::new(&ALL)) {
        Ok(pool) => {
            matches!(pool.get(11), Ok(Constant::Long { high: 1, low: 2 }))
                && has_names(&pool)
                && has_name_and_type(&pool)
                && has_references(&pool)
                && has_faults(&pool)
        }
        Err(_) => false,
    }
}

#[test]
fn look_ups(rt: HostRuntime) {
    assert!(rt; looks_up(rt.alloc()));
}

/// A field and a name and type that name no such constants.
fn broken(alloc: Global) -> Result<Vec<Constant<'static>>, AllocError> {
    let constants = [
        Constant::Class { name: 9 },
        Constant::Fieldref {
            class: 1,
            name_and_type: 1,
        },
        Constant::NameAndType {
            name: 1,
            descriptor: 0,
        },
    ];
    constants.to_vec(alloc)
}

/// The refusal names the first index at fault.
fn are_broken(alloc: Global) -> bool {
    match broken(alloc) {
        Ok(constants) => {
            let pool = Pool::new(constants);
            matches!(pool.field_ref(2), Err(PoolFault::BadIndex { index: 9 }))
                && matches!(
                    pool.name_and_type(3),
                    Err(PoolFault::WrongKind { index: 1 })
                )
        }
        Err(_) => false,
    }
}

#[test]
fn nested_faults(rt: HostRuntime) {
    assert!(rt; are_broken(rt.alloc()));
    let fault = PoolFault::WrongKind { index: 1 };
    assert!(rt; fault.number() == 9 && is_shown(rt.alloc(), &fault, "refused 9 index 1"));
}

#[test]
fn want_of_memory(rt: HostRuntime) {
    assert!(rt; is_read(rt.alloc(), true));
}

fn is_read_in_place(alloc: Global) -> bool {
    let mut cursor = Cursor::new(&ALL);
    match read_pool(alloc, &mut cursor) {
        Ok(pool) => cursor.at() == 85 && pool.constants().len() == 19,
        Err(_) => false,
    }
}

#[test]
fn a_pool_in_place(rt: HostRuntime) {
    assert!(rt; is_read_in_place(rt.alloc()));
}
