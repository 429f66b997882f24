//! Reading from readers that hand their bytes out in pieces, end early or fail.
ghost use Rattle.std.specs.Prelude.{◌≤◌, ◌<◌, length};

use crate::making::K;
use classfile::{
    CutShort, class_is_outline, one_outline, outline_or_fault, part_is_found, read_class,
};
use layout::{
    ReadFault, Reading, StreamFault, body_is_whole, reading_is_spelling, streams_are_decided,
    whole_is_spelling, writing_is_spelling,
};
use std::alloc::Global;
use std::io::{self, ErrorKind, Read};
use std::test::*;

/// Where the numbers and parts of K begin.
const STARTS: [usize; 36] = [
    0, 4, 6, 8, 10, 11, 13, 14, 16, 17, 18, 20, 21, 23, 39, 40, 42, 43, 44, 46, 49, 50, 52, 56, 58,
    60, 62, 64, 66, 68, 70, 72, 74, 76, 78, 82,
];

/// The sizes of the pieces in which the bytes are handed out.
const PIECES: [usize; 4] = [1, 2, 7, 8_192];

/// Gives its first bytes in pieces of at most so many, and then fails once, as an interrupted read does, where it is
/// to; then it gives the others, and ends.
#[derive(Drop)]
struct Pieces<'a> {
    first: &'a [u8],
    fails: bool,
    others: &'a [u8],
    piece: usize,
}

impl<'a> Read for Pieces<'a> {
    fn read(&mut self, buf: &mut [u8]) -> io::Result<usize> {
        if self.first.is_empty() {
            if self.fails {
                self.fails = false;
                return Err(io::Error::from(ErrorKind::Interrupted));
            }
            self.first = self.others;
            self.others = &[];
        }
        let n = buf.len().min(self.piece).min(self.first.len());
        let (front, rest) = self.first.split_at(n);
        let (room, _) = buf.split_at_mut(n);
        room.copy_from_slice(front);
        self.first = rest;
        Ok(n)
    }
}

/// The bytes, cut after the first `n`: then the reader fails, or ends.
fn cut(bytes: &[u8], n: usize, fails: bool, piece: usize) -> Pieces<'_>
    requires { n ≤ length bytes.now }
{
    let (first, others) = bytes.split_at(n);
    Pieces {
        first,
        fails,
        others: if fails { others } else { &[] },
        piece,
    }
}

/// The answer on K, cut after the first `n` bytes.
fn of_cut(alloc: Global, n: usize, fails: bool, piece: usize) -> Result<Vec<u8>, CutShort>
    requires { n ≤ 97 }
{
    read_class(alloc, &mut cut(&K, n, fails, piece))
}

/// The place of the number or part that is not whole where K is cut after its first `n` bytes.
fn place_of(n: usize) -> usize {
    let mut place = if n < 95 { 0 } else { 95 };
    for start in &STARTS {
        if *start <= n && place < *start {
            place = *start;
        }
    }
    place
}

/// That a class was cut short after these bytes, for this reason.
fn is_cut_at(answer: &Result<Vec<u8>, CutShort>, bytes: &[u8], why: ReadFault) -> bool {
    matches!(answer, Err(cut) if cut.bytes.as_slice() == bytes && cut.why == why)
}

/// That a failing reader is refused 15 where it failed, and one that ends 2 at the part that is not whole.
fn is_cut(alloc: Global, n: usize, piece: usize) -> bool
    requires { n ≤ 97 }
{
    let (front, _) = K.split_at(n);
    let failed = ReadFault::ReadFailed { at: n };
    let ended = ReadFault::EndsEarly { at: place_of(n) };
    is_cut_at(&of_cut(alloc, n, true, piece), front, failed)
        && is_cut_at(&of_cut(alloc, n, false, piece), front, ended)
}

#[test]
fn each_cut(rt: HostRuntime) {
    for piece in &PIECES {
        for n in 0..97 {
            assert!(rt; is_cut(rt.alloc(), n, *piece));
        }
    }
}

/// Whether K is read of K and three bytes more, which stay; or memory ran out, where it may.
fn leaves_three(alloc: Global, piece: usize, may_fail: bool) -> bool {
    let mut reader = Pieces {
        first: &K,
        fails: false,
        others: &[1, 2, 3],
        piece,
    };
    match read_class(alloc, &mut reader) {
        Ok(class) => class.as_slice() == K.as_slice()
            && reader.first.is_empty()
            && reader.others.len() == 3,
        Err(fault) => may_fail && matches!(fault.why, ReadFault::OutOfMemory),
    }
}

#[test]
fn stops_behind_the_class(rt: HostRuntime) {
    for piece in &PIECES {
        assert!(rt; leaves_three(rt.alloc(), *piece, false));
    }
}

#[test]
fn memory_for_a_class(rt: HostRuntime) {
    assert!(rt; leaves_three(rt.alloc(), 7, true));
}

/// Whether K with one byte changed is cut short after so many bytes, for this reason.
fn is_changed(alloc: Global, place: usize, byte: u8, taken: usize, why: ReadFault) -> bool
    requires place { place < 97 }
    requires taken { taken ≤ 97 }
{
    let mut bytes = K;
    bytes[place] = byte;
    let answer = read_class(alloc, &mut cut(&bytes, 97, false, 7));
    let (front, _) = bytes.split_at(taken);
    is_cut_at(&answer, front, why)
}

#[test]
fn faults(rt: HostRuntime) {
    let alloc = rt.alloc();
    assert!(rt; is_changed(alloc, 0, 0, 4, ReadFault::BadMagic));
    assert!(rt; is_changed(alloc, 10, 2, 11, ReadFault::BadTag { at: 10, tag: 2 }));
    assert!(rt; is_changed(alloc, 78, 0xFF, 82, ReadFault::TooLong { at: 82 }));
    assert!(rt; is_changed(alloc, 79, 1, 97, ReadFault::EndsEarly { at: 82 }));
}

#[test]
fn versions_are_not_looked_at(rt: HostRuntime) {
    let mut bytes = K;
    bytes[7] = 0xFF;
    assert!(rt; read_class(rt.alloc(), &mut cut(&bytes, 97, false, 7)).is_ok());
}

/// The front of a class file whose pool has no count, and of one whose last constant takes two indices.
const UNCOUNTED: [u8; 11] = [0xCA, 0xFE, 0xBA, 0xBE, 0, 0, 0, 0x34, 0, 0, 9];

const TOO_WIDE: [u8; 13] = [0xCA, 0xFE, 0xBA, 0xBE, 0, 0, 0, 0x34, 0, 2, 5, 0, 0];

fn is_uncounted(alloc: Global) -> bool {
    let answer = read_class(alloc, &mut cut(&UNCOUNTED, 11, false, 2));
    let (front, _) = UNCOUNTED.split_at(10);
    is_cut_at(&answer, front, ReadFault::BadPoolCount { at: 8 })
}

fn is_too_wide(alloc: Global) -> bool {
    let answer = read_class(alloc, &mut cut(&TOO_WIDE, 13, false, 2));
    let (front, _) = TOO_WIDE.split_at(11);
    is_cut_at(&answer, front, ReadFault::BadTag { at: 10, tag: 5 })
}

#[test]
fn a_pool_without_a_count(rt: HostRuntime) {
    assert!(rt; is_uncounted(rt.alloc()));
    assert!(rt; is_too_wide(rt.alloc()));
}

/// The bytes that are gathered of eight: a number of each size, one byte more, and then the reader fails.
fn gathers(alloc: Global) -> Result<Vec<u8>, StreamFault> {
    let bytes = [1, 2, 3, 4, 5, 6, 7, 8];
    let mut reader = cut(&bytes, 8, true, 3);
    let mut reading = Reading::new(alloc);
    reading.u1(&mut reader)?;
    reading.u2(&mut reader)?;
    reading.u4(&mut reader)?;
    match reading.more(&mut reader, 5) {
        Err(
            StreamFault {
                taken: 8,
                why: ReadFault::ReadFailed { at: 8 },
            },
        ) => Ok(reading.into_bytes()),
        Err(fault) => Err(fault),
        Ok(_) => Ok(Vec::new(alloc)),
    }
}

#[test]
fn memory_for_what_is_gathered(rt: HostRuntime) {
    match gathers(rt.alloc()) {
        Ok(bytes) => assert!(rt; bytes.as_slice() == [1u8, 2, 3, 4, 5, 6, 7, 8].as_slice()),
        Err(fault) => assert!(rt; matches!(fault.why, ReadFault::OutOfMemory)),
    }
}

#[test]
fn numbers_of_a_stream(rt: HostRuntime) {
    let mut reader = cut(&[1, 2, 3, 4, 5, 6, 7], 7, false, 2);
    let mut reading = Reading::new(rt.alloc());
    assert!(rt; matches!(reading.u1(&mut reader), Ok(1)));
    assert!(rt; matches!(reading.u2(&mut reader), Ok(0x0203)));
    assert!(rt; matches!(reading.more(&mut reader, 2), Ok(2)));
    let taken = 7;
    let why = ReadFault::EndsEarly { at: 5 };
    assert!(rt; reading.part(&mut reader, 3) == Err(StreamFault { taken, why }));
    assert!(rt; reading.bytes().len() == 7);
}

#[test]
fn laws_are_called() {
    streams_are_decided::<u8>();
    reading_is_spelling::<u8>();
    body_is_whole::<u8, u8>();
    whole_is_spelling::<u8>();
    writing_is_spelling::<u8>();
    class_is_outline();
    one_outline();
    outline_or_fault();
    part_is_found();
}
