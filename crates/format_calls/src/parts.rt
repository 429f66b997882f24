use crate::making::{are_written, is_put, is_shown};
use layout::{Cursor, Output, Part, ReadFault, StreamFault, WriteFault, many, whole};
use std::alloc::Global;
use std::test::*;

/// The numbers that are read of the first seven of nine bytes.
fn reads_start(cursor: &mut Cursor<'_>) -> bool {
    matches!(
        (cursor.u1(), cursor.u2(), cursor.u4()),
        (Ok(1), Ok(0x0203), Ok(0x0405_0607))
    )
}

/// The number that a cursor of its own reads of the last two of nine bytes.
fn reads_fork(cursor: &Cursor<'_>) -> bool {
    let mut other = cursor.fork();
    matches!(other.part(2), Ok([8, 9]))
        && other.at() == 9
        && matches!(other.u1(), Err(ReadFault::EndsEarly { at: 9 }))
}

/// That two bytes are too few for what is longer, and are not read.
fn is_short(cursor: &mut Cursor<'_>) -> bool {
    matches!(
        (cursor.part(3), cursor.u4()),
        (
            Err(ReadFault::EndsEarly { at: 7 }),
            Err(ReadFault::EndsEarly { at: 7 })
        )
    )
}

/// The number that is read of the last two of nine bytes.
fn reads_end(cursor: &mut Cursor<'_>) -> bool {
    matches!(cursor.u1(), Ok(8))
        && matches!(cursor.u2(), Err(ReadFault::EndsEarly { at: 8 }))
        && matches!(cursor.rest(), [9])
}

#[test]
fn cursor(rt: HostRuntime) {
    let bytes = [1u8, 2, 3, 4, 5, 6, 7, 8, 9];
    let mut cursor = Cursor::new(&bytes);
    assert!(rt; reads_start(&mut cursor));
    assert!(rt; reads_fork(&cursor));
    assert!(rt; is_short(&mut cursor));
    assert!(rt; reads_end(&mut cursor));
    assert!(rt; Cursor::starting(40, &bytes).at() == 40);
}

/// Whether two numbers are read of five bytes; or memory ran out, where it may.
fn are_read(alloc: Global, may_fail: bool) -> bool {
    match many::<u16>(alloc, &mut Cursor::new(&[1, 2, 3, 4, 5]), 2) {
        Ok(numbers) => matches!(numbers.as_slice(), [0x0102, 0x0304]),
        Err(fault) => may_fail && matches!(fault, ReadFault::OutOfMemory),
    }
}

#[test]
fn parts(rt: HostRuntime) {
    assert!(rt; are_read(rt.alloc(), false));
    assert!(rt; is_put(rt.alloc(), &0x0304u16, &[3, 4], false));
    let mut cursor = Cursor::starting(4, &[5]);
    assert!(rt;
        matches!(
            u16::take(rt.alloc(), &mut cursor),
            Err(ReadFault::EndsEarly { at: 4 })
        )
    );
}

/// The attribute at 4, whose body is one byte, or its refusal.
fn is_whole(inner: &mut Cursor<'_>) -> bool {
    let early = whole(4, inner, Ok::<u8, ReadFault>(0));
    let cut = inner.u2();
    let cut = whole(4, inner, cut);
    let read = inner.u1();
    let read = whole(4, inner, read);
    matches!(
        (early, cut, read),
        (
            Err(ReadFault::AttributeLength { at: 4 }),
            Err(ReadFault::AttributeLength { at: 4 }),
            Ok(1)
        )
    )
}

#[test]
fn body(rt: HostRuntime) {
    assert!(rt; is_whole(&mut Cursor::starting(10, &[1])));
}

fn put_numbers(out: &mut Output) -> Result<(), WriteFault> {
    out.put_u1(9)?;
    out.put_u4(1)?;
    out.put_count(3)
}

fn put_held(out: &mut Output, bytes: &[u8]) -> Result<(), WriteFault> {
    let mark = out.begin()?;
    out.put_bytes(bytes)?;
    out.end(mark)
}

fn delivers_numbers(alloc: Global, may_fail: bool) -> bool {
    let mut out = Output::new(alloc);
    let answer = put_numbers(&mut out);
    are_written(out.delivered(answer), &[9, 0, 0, 0, 1, 0, 3], may_fail)
}

fn delivers_held(alloc: Global) -> bool {
    let mut out = Output::new(alloc);
    let answer = put_held(&mut out, b"ab");
    are_written(out.delivered(answer), &[0, 0, 0, 2, 0x61, 0x62], false)
}

/// 17 goes before 18.
fn is_refused(alloc: Global, count: usize) -> Option<WriteFault> {
    let mut out = Output::new(alloc);
    out.put_nothing();
    let answer = out.put_count(count);
    out.delivered(answer).err()
}

#[test]
fn output(rt: HostRuntime) {
    assert!(rt; delivers_numbers(rt.alloc(), false));
    assert!(rt; delivers_held(rt.alloc()));
    assert!(rt; matches!(is_refused(rt.alloc(), 65_536), Some(WriteFault::DoesNotFit)));
    assert!(rt; matches!(is_refused(rt.alloc(), 1), Some(WriteFault::HasNoSpelling)));
}

#[test]
fn numbers_and_texts(rt: HostRuntime) {
    let why = ReadFault::BadVersion {
        major: 50,
        minor: 0,
    };
    assert!(rt; why.number() == 11 && WriteFault::HasNoSpelling.number() == 18);
    let stopped = StreamFault { taken: 8, why };
    assert!(rt; is_shown(rt.alloc(), &stopped, "refused 11 50.0"));
    let tag = ReadFault::BadTag { at: 10, tag: 2 };
    assert!(rt; is_shown(rt.alloc(), &tag, "refused 7 at 10 tag 2"));
}

#[test]
fn want_of_memory(rt: HostRuntime) {
    assert!(rt; are_read(rt.alloc(), true));
    assert!(rt; is_put(rt.alloc(), &7u16, &[0, 7], true));
    assert!(rt; delivers_numbers(rt.alloc(), true));
}
