//! The replies to messages, and where a conversation stops.
use answers::Form;
use classfile::{CutShort, Profile};
use format_calls::making::{K, O};
use serving::{KnownFault, Peer, ServeFault, Setting, Stop, complaint, serve};
use std::alloc::{AllocError, Global};
use std::io::{self, Read, Write};
use std::random::RandomSource;
use std::test::*;

/// Gives one byte at each read, and fails at the read that its number says.
#[derive(Drop)]
struct Failing<'a> {
    left: usize,
    bytes: &'a [u8],
}

impl<'a> Read for Failing<'a> {
    fn read(&mut self, buf: &mut [u8]) -> io::Result<usize> {
        if self.left == 0 {
            return Err(io::Error::from(io::ErrorKind::BrokenPipe));
        }
        self.left -= 1;
        match (self.bytes, buf) {
            ([byte, others @ ..], [place, ..]) => {
                *place = *byte;
                self.bytes = others;
                Ok(1)
            }
            _ => Ok(0),
        }
    }
}

/// Takes so many bytes, one at each write, and then fails.
#[derive(Drop)]
struct Full {
    left: usize,
    taken: Vec<u8>,
}

impl Write for Full {
    fn write(&mut self, buf: &[u8]) -> io::Result<usize> {
        match buf {
            [byte, ..] if self.left > 0 => {
                self.left -= 1;
                self.taken.push(*byte)?;
                Ok(1)
            }
            _ => Ok(0),
        }
    }

    fn flush(&mut self) -> io::Result<()> {
        Ok(())
    }
}

const WORDS: Setting = Setting {
    form: Form::Plain,
    profile: Profile::Default,
};

/// Messages or replies, one after the other: a byte, the length, and the bytes.
fn framed(alloc: Global, parts: &[(u8, &[u8])]) -> Result<Vec<u8>, AllocError> {
    let mut all = Vec::new(alloc);
    for (head, bytes) in parts {
        all.push(*head)?;
        let count = u32::try_from(bytes.len()).unwrap_or(u32::MAX);
        all.extend_from_slice(&count.to_be_bytes())?;
        all.extend_from_slice(*bytes)?;
    }
    Ok(all)
}

/// A class known twice, one judged, defined and judged again, all forgotten, a class without its superclass, the two known
/// in that order, the class defined, an empty file, and one that is cut.
const ASKED: [(u8, &[u8]); 12] = [
    (b'k', &O),
    (b'k', &O),
    (b'v', &K),
    (b'd', &K),
    (b'v', &K),
    (b'f', b""),
    (b'x', &K),
    (b'k', &K),
    (b'k', &O),
    (b'd', &K),
    (b'v', b""),
    (b'k', b"\xCA\xFE\xBA\xBE\0\0\0\x2D"),
];

const TOLD: [(u8, &[u8]); 12] = [
    (0, b"known java/lang/Object super none\n"),
    (1, b"known refused 40\n"),
    (0, b"method f ()V verified\n"),
    (0, b"method f ()V verified\n"),
    (0, b"method f ()V verified\n"),
    (0, b""),
    (1, MISSING),
    (0, b"known K super java/lang/Object\n"),
    (0, b"known java/lang/Object super none\n"),
    (0, b"method f ()V verified\n"),
    (1, b"class refused 2 at 0\n"),
    (1, b"known refused 2 at 8\n"),
];

const MISSING: &[u8] =
    b"hierarchy refused 42 K\n  42 SuperMissing: the superclass of the class is not among the files\n";

/// How a conversation ended, and what was written, without known files.
fn talk<R: Read + Drop, Q: RandomSource>(
    alloc: Global,
    source: &Q,
    input: R,
) -> (Result<(), ServeFault>, Vec<u8>) {
    let mut peer = Peer::new(input, Vec::new(alloc));
    let ended = serve(alloc, WORDS, Vec::new(alloc), source, &mut peer);
    (ended, peer.output)
}

#[test]
fn messages_are_answered(rt: HostRuntime) -> Result<(), Fail> {
    let asked = framed(rt.alloc(), &ASKED)?;
    let (ended, told) = talk(rt.alloc(), &rt, asked.as_slice());
    assert!(rt; ended.is_ok() && told == framed(rt.alloc(), &TOLD)?);
    Ok(())
}

/// Whether a conversation that begins with a message and goes on with these bytes stops so, behind the reply.
fn stops<Q: RandomSource>(
    alloc: Global,
    source: &Q,
    behind: &[u8],
    expected: Stop,
) -> Result<bool, AllocError> {
    let mut asked = framed(alloc, &ASKED[..1])?;
    asked.extend_from_slice(behind)?;
    let (ended, told) = talk(alloc, source, asked.as_slice());
    let stopped = matches!(ended, Err(ServeFault::Stopped(stop)) if stop == expected);
    Ok(stopped && told == framed(alloc, &TOLD[..1])?)
}

#[test]
fn messages_that_do_not_come_whole(rt: HostRuntime) -> Result<(), Fail> {
    assert!(rt; stops(rt.alloc(), &rt, b"q", Stop::NoKind)?);
    assert!(rt; stops(rt.alloc(), &rt, b"v", Stop::Cut)?);
    assert!(rt; stops(rt.alloc(), &rt, b"v\0\0\0", Stop::Cut)?);
    assert!(rt; stops(rt.alloc(), &rt, b"v\0\0\0\x02\xCA", Stop::Cut)?);
    assert!(rt; stops(rt.alloc(), &rt, b"f\x01\0\0\0", Stop::Cut)?);
    assert!(rt; stops(rt.alloc(), &rt, b"f\x01\0\0\x01", Stop::TooLong)?);
    Ok(())
}

#[test]
fn a_reader_that_fails(rt: HostRuntime) -> Result<(), Fail> {
    let asked = framed(rt.alloc(), &ASKED[..1])?;
    for left in 0..asked.len() {
        let bytes = asked.as_slice();
        let (ended, told) = talk(rt.alloc(), &rt, Failing { left, bytes });
        assert!(rt; matches!(ended, Err(ServeFault::Stopped(Stop::ReadFailed))) && told.is_empty());
    }
    Ok(())
}

#[test]
fn a_writer_that_fails(rt: HostRuntime) -> Result<(), Fail> {
    let (asked, told) = (framed(rt.alloc(), &ASKED)?, framed(rt.alloc(), &TOLD)?);
    for left in 0..told.len() {
        let taken = Vec::new(rt.alloc());
        let mut peer = Peer::new(asked.as_slice(), Full { left, taken });
        let ended = serve(rt.alloc(), WORDS, Vec::new(rt.alloc()), &rt, &mut peer);
        assert!(rt; matches!(ended, Err(ServeFault::Stopped(Stop::NotWritten))));
        assert!(rt; peer.output.taken.as_slice() == &told[..left]);
    }
    Ok(())
}

/// Known files: Object once or twice.
fn objects(alloc: Global, count: usize) -> Result<Vec<Result<Vec<u8>, CutShort>>, AllocError> {
    let mut reads = Vec::new(alloc);
    for _ in 0..count {
        reads.push(Ok(O.to_vec(alloc)?))?;
    }
    Ok(reads)
}

#[test]
fn files_that_are_known(rt: HostRuntime) -> Result<(), Fail> {
    let asked = framed(rt.alloc(), &ASKED[2..3])?;
    let mut peer = Peer::new(asked.as_slice(), Vec::new(rt.alloc()));
    assert!(rt; serve(rt.alloc(), WORDS, objects(rt.alloc(), 1)?, &rt, &mut peer).is_ok());
    assert!(rt; peer.output == framed(rt.alloc(), &TOLD[2..3])?);
    let mut peer = Peer::new(asked.as_slice(), Vec::new(rt.alloc()));
    let ended = serve(rt.alloc(), WORDS, objects(rt.alloc(), 2)?, &rt, &mut peer);
    let expected = matches!(
        ended,
        Err(ServeFault::NotKnown {
            number: 2,
            fault: KnownFault::Twice
        })
    );
    assert!(rt; expected && peer.output.is_empty());
    Ok(())
}

/// Each line on standard error.
const ENDS: [ServeFault; 8] = [
    ServeFault::NotKnown {
        number: 2,
        fault: KnownFault::Twice,
    },
    ServeFault::Stopped(Stop::OutOfMemory),
    ServeFault::Stopped(Stop::NoRandom),
    ServeFault::Stopped(Stop::Cut),
    ServeFault::Stopped(Stop::NoKind),
    ServeFault::Stopped(Stop::TooLong),
    ServeFault::Stopped(Stop::ReadFailed),
    ServeFault::Stopped(Stop::NotWritten),
];

#[test]
fn ends_of_conversations(rt: HostRuntime) {
    let mut out: Vec<u8> = Vec::new(rt.alloc());
    for fault in &ENDS {
        assert!(rt; complaint(fault, &mut out).is_ok());
    }
    assert!(rt;
        out.as_slice()
            == b"known 2 refused 40\nrefused 1\nno random words\na message is cut\na message has no kind\na message is too long\nthe messages cannot be read\nrefused 19\n".as_slice()
    );
}

/// Where memory runs out whole replies were written, and otherwise all.
fn is_whole_or_memory<Q: RandomSource>(alloc: Global, source: &Q) -> Result<bool, AllocError> {
    let (asked, all) = (framed(alloc, &ASKED)?, framed(alloc, &TOLD)?);
    Ok(match talk(alloc, source, asked.as_slice()) {
        (Ok(()), told) => told == all,
        (Err(ServeFault::Stopped(Stop::OutOfMemory | Stop::NotWritten)), told) => {
            all.starts_with(&told)
        }
        _ => false,
    })
}

#[test]
fn memory_runs_out_for_a_conversation(rt: HostRuntime) {
    assert!(rt; is_whole_or_memory(rt.alloc(), &rt).unwrap_or(true));
}
