//! Verdicts on the classes that files are: alone, among known classes, and in play together.
use classfile::Versions;
use format_calls::making::{K, O, OUT_OF_MEMORY};
use layout::ReadFault;
use lower_calls::making::hasher;
use std::alloc::Global;
use std::test::*;
use verify::{
    AmongFault, FileFault, FileRead, TogetherFault, class_file, verify_among, verify_together,
};

/// How many methods or classes there is an answer on; or which file is refused, 0 where none is told, and the number.
type Told = Result<usize, (usize, u8)>;

/// A file that could not be read after its first three bytes.
pub const UNREAD: FileRead<'static> = FileRead::Unread(ReadFault::ReadFailed { at: 3 });

/// A file with these bytes, whose class may be one of Java SE 7 to 17.
pub fn file<'a>(bytes: &'a [u8]) -> FileRead<'a> {
    FileRead::Bytes {
        bytes,
        versions: Versions::Java7To17,
    }
}

/// The class file of K, with these two bytes as the flags of the class, and this byte as the code of its method.
macro_rules! class_k {
    ($high:expr, $low:expr, $code:expr) => {
        [
            0xCA, 0xFE, 0xBA, 0xBE, 0, 0, 0, 0x34, 0, 8, 7, 0, 2, 1, 0, 1, 0x4B, 7, 0, 4, 1, 0, 0x10,
            0x6A, 0x61, 0x76, 0x61, 0x2F, 0x6C, 0x61, 0x6E, 0x67, 0x2F, 0x4F, 0x62, 0x6A, 0x65, 0x63,
            0x74, 1, 0, 1, 0x66, 1, 0, 3, 0x28, 0x29, 0x56, 1, 0, 4, 0x43, 0x6F, 0x64, 0x65, $high,
            $low, 0, 1, 0, 3, 0, 0, 0, 0, 0, 1, 0, 9, 0, 5, 0, 6, 0, 1, 0, 7, 0, 0, 0, 0x0D, 0, 0,
            0, 0, 0, 0, 0, 1, $code, 0, 0, 0, 0, 0, 0,
        ]
    };
}

/// K as a class that is final and abstract.
const MALFORMED: [u8; 97] = class_k!(0x04, 0x31, 0xB1);

/// K with `nop` in place of the `return` of its method, so that code runs off its end.
const FALLING: [u8; 97] = class_k!(0, 0x21, 0x00);

/// A final `java/lang/Object`.
const FINAL_OBJECT: [u8; 46] = [
    0xCA, 0xFE, 0xBA, 0xBE, 0, 0, 0, 0x34, 0, 3, 7, 0, 2, 1, 0, 0x10, 0x6A, 0x61, 0x76, 0x61, 0x2F,
    0x6C, 0x61, 0x6E, 0x67, 0x2F, 0x4F, 0x62, 0x6A, 0x65, 0x63, 0x74, 0, 0x31, 0, 1, 0, 0, 0, 0, 0,
    0, 0, 0, 0, 0,
];

pub const CLASS: FileRead<'static> = FileRead::Bytes {
    bytes: &K,
    versions: Versions::Java7To17,
};

pub const OBJECT: FileRead<'static> = FileRead::Bytes {
    bytes: &O,
    versions: Versions::Java7To17,
};

pub const BAD: FileRead<'static> = FileRead::Bytes {
    bytes: &MALFORMED,
    versions: Versions::Java7To17,
};

pub const FALLS: FileRead<'static> = FileRead::Bytes {
    bytes: &FALLING,
    versions: Versions::Java7To17,
};

pub const LAST: FileRead<'static> = FileRead::Bytes {
    bytes: &FINAL_OBJECT,
    versions: Versions::Java7To17,
};

/// The number by which a file is refused.
pub fn number_of(fault: &FileFault) -> u8 {
    match fault {
        FileFault::OutOfMemory => OUT_OF_MEMORY,
        FileFault::Unread(fault) | FileFault::NoClass(fault) => fault.number(),
        FileFault::Malformed { rule, .. } => rule.number(),
    }
}

/// How many methods the class has that a file is.
fn alone(alloc: Global, file: FileRead<'_>) -> Told {
    match class_file(alloc, file) {
        Ok(class) => Ok(class.methods.len()),
        Err(fault) => Err((0, number_of(&fault))),
    }
}

/// Files alone, and what is told of them.
const ALONE: [(FileRead<'static>, Told); 4] = [
    (CLASS, Ok(1)),
    (OBJECT, Ok(0)),
    (UNREAD, Err((0, 15))),
    (BAD, Err((0, 24))),
];

#[test]
fn classes_of_files(rt: HostRuntime) {
    for (file, told) in &ALONE {
        assert!(rt; alone(rt.alloc(), *file) == *told);
    }
    assert!(rt; alone(rt.alloc(), file(&K[..96])) == Err((0, 2)));
}

fn of_among(fault: &AmongFault<'_>) -> (usize, u8) {
    match fault {
        AmongFault::OutOfMemory => (0, OUT_OF_MEMORY),
        AmongFault::Refused(fault) => (0, number_of(fault)),
        AmongFault::KnownRefused { number, fault } => (*number, number_of(fault)),
        AmongFault::NoHierarchy(fault) => (0, fault.number()),
        AmongFault::Final(rule) => (0, rule.number()),
    }
}

/// How many verdicts there are on a class among known ones.
fn among(alloc: Global, class: FileRead<'_>, known: &[FileRead<'_>]) -> Told {
    match verify_among(alloc, class, known, hasher()) {
        Ok(report) => Ok(report.methods.len()),
        Err(fault) => Err(of_among(&fault)),
    }
}

/// A file, known ones, and what is told of the file among them.
const AMONG: [(FileRead<'static>, &[FileRead<'static>], Told); 6] = [
    (CLASS, &[OBJECT], Ok(1)),
    (FALLS, &[OBJECT], Ok(1)),
    (UNREAD, &[OBJECT], Err((0, 15))),
    (CLASS, &[OBJECT, UNREAD], Err((2, 15))),
    (CLASS, &[], Err((0, 42))),
    (CLASS, &[LAST], Err((0, 81))),
];

#[test]
fn classes_among_known_ones(rt: HostRuntime) {
    for (class, known, told) in &AMONG {
        assert!(rt; among(rt.alloc(), *class, *known) == *told);
    }
}

fn of_together(fault: &TogetherFault<'_>) -> (usize, u8) {
    match fault {
        TogetherFault::OutOfMemory => (0, OUT_OF_MEMORY),
        TogetherFault::Refused { number, fault } => (*number, number_of(fault)),
        TogetherFault::NoHierarchy(fault) => (0, fault.number()),
        TogetherFault::Broken { number, rule } => (*number, rule.number()),
        TogetherFault::NotVerified { number, .. } => (*number, 84),
    }
}

/// How many reports there are on classes in play together.
fn together(alloc: Global, files: &[FileRead<'_>]) -> Told {
    match verify_together(alloc, files, hasher()) {
        Ok(reports) => Ok(reports.len()),
        Err(fault) => Err(of_together(&fault)),
    }
}

/// Files, and what is told of them in play together.
const TOGETHER: [(&[FileRead<'static>], Told); 9] = [
    (&[CLASS, OBJECT], Ok(2)),
    (&[OBJECT], Ok(1)),
    (&[], Err((0, 43))),
    (&[CLASS], Err((0, 42))),
    (&[CLASS, OBJECT, CLASS], Err((0, 40))),
    (&[OBJECT, UNREAD], Err((2, 15))),
    (&[OBJECT, BAD], Err((2, 24))),
    (&[LAST, CLASS], Err((2, 81))),
    (&[OBJECT, FALLS], Err((2, 84))),
];

#[test]
fn files_in_play(rt: HostRuntime) {
    for (files, told) in &TOGETHER {
        assert!(rt; together(rt.alloc(), *files) == *told);
    }
}

/// Where memory runs out each returns 1, and otherwise as ever.
#[test]
fn memory_runs_out_for_a_file(rt: HostRuntime) {
    let told = alone(rt.alloc(), CLASS);
    assert!(rt; told == Ok(1) || told == Err((0, OUT_OF_MEMORY)));
}

#[test]
fn memory_runs_out_for_a_class_among_others(rt: HostRuntime) {
    let told = among(rt.alloc(), CLASS, &[OBJECT]);
    assert!(rt; told == Ok(1) || told == Err((0, OUT_OF_MEMORY)));
}

#[test]
fn memory_runs_out_for_files_in_play(rt: HostRuntime) {
    let told = together(rt.alloc(), &[CLASS, OBJECT]);
    assert!(rt; told == Ok(2) || told == Err((0, OUT_OF_MEMORY)));
}
