//! Versions of class files, and classes that are judged as a release of Java SE does.
use answers::{Command, Form, answer};
use classfile::{
    ClassFile, CutShort, FormFault, Profile, Versions, decode_under, encode_under, form_check,
};
use format_calls::making::{K, O, OUT_OF_MEMORY};
use layout::{ReadFault, WriteFault};
use lower_calls::making::hasher;
use names::MetNames;
use std::alloc::{AllocError, Global};
use std::test::*;
use verify::{AmongFault, FileFault, FileRead, verify_among_under};

/// The releases with the greatest major version that each takes.
const RELEASES: [(u8, u16); 5] = [(7, 51), (17, 61), (21, 65), (25, 69), (27, 71)];

#[test]
fn versions_of_releases(rt: HostRuntime) {
    for (number, greatest) in &RELEASES {
        let profile = Profile::Release(*number);
        assert!(rt; profile.judges_dynamic());
        let (judged, known) = (profile.judged_versions(), profile.known_versions());
        assert!(rt; judged.take(0, *greatest) && !judged.take(0, *greatest + 1));
        assert!(rt; known.take(0, *greatest) && !known.take(0, *greatest + 1));
        assert!(rt; judged.take(0, 50) && !judged.take(0, 49));
        assert!(rt; known.take(3, 45) && !known.take(0, 44));
    }
}

#[test]
fn releases_are_told(rt: HostRuntime) {
    let profile = Profile::Release(17);
    assert!(rt; profile.judged_versions().is_release() && profile.known_versions().is_release());
    assert!(rt; !Versions::Java7To17.is_release());
}

#[test]
fn names_are_met(rt: HostRuntime) -> Result<(), Fail> {
    let mut met = MetNames::new(rt.alloc());
    assert!(rt; !met.meet(b"K".as_slice(), 0)?);
    assert!(rt; !met.meet(b"L".as_slice(), 1)?);
    assert!(rt; met.meet(b"K".as_slice(), 2)?);
    Ok(())
}

#[test]
fn versions_without_a_release(rt: HostRuntime) {
    assert!(rt; Profile::Default.judged_versions() == Versions::Java7To17);
    assert!(rt; Profile::Dynamic.known_versions() == Versions::Java7To17);
    assert!(rt; Versions::Java7To17.take(9, 55) && !Versions::Java7To17.take(9, 56));
    assert!(rt; Versions::Java7To17.take(0, 51) && !Versions::Java7To17.take(0, 50));
    assert!(rt; Versions::Java7To17.take(0, 61) && !Versions::Java7To17.take(0, 62));
}

/// The class file of K, of this major version.
fn class_k(major: u8) -> [u8; 97] {
    let mut bytes = K;
    bytes[7] = major;
    bytes
}

/// The class file of `java/lang/Object`, of this major version.
fn object(major: u8) -> [u8; 46] {
    let mut bytes = O;
    bytes[7] = major;
    bytes
}

/// Whether a class is well formed, as far as memory goes.
fn is_formed(alloc: Global, class: &ClassFile<'_>) -> bool {
    match form_check(alloc, class) {
        Ok(_) => true,
        Err(fault) => matches!(fault, FormFault::OutOfMemory),
    }
}

/// Whether bytes are read as a class of these versions, and written as they were; or the version that is refused.
fn is_read_and_written(alloc: Global, versions: Versions, bytes: &[u8]) -> Result<bool, u16> {
    match decode_under(alloc, versions, bytes) {
        Ok(class) => match encode_under(alloc, versions, &class) {
            Ok(written) => Ok(written.as_slice() == bytes && is_formed(alloc, &class)),
            Err(fault) => Ok(matches!(fault, WriteFault::OutOfMemory)),
        },
        Err(ReadFault::BadVersion { major, .. }) => Err(major),
        Err(fault) => Ok(matches!(fault, ReadFault::OutOfMemory)),
    }
}

#[test]
fn classes_of_a_release(rt: HostRuntime) {
    let versions = Profile::Release(25).judged_versions();
    assert!(rt; is_read_and_written(rt.alloc(), versions, &class_k(69)) == Ok(true));
    assert!(rt; is_read_and_written(rt.alloc(), versions, &class_k(50)) == Ok(true));
    assert!(rt; is_read_and_written(rt.alloc(), versions, &class_k(70)) == Err(70));
    assert!(rt; is_read_and_written(rt.alloc(), Versions::Java7To17, &class_k(69)) == Err(69));
}

#[test]
fn memory_runs_out_for_a_class_of_a_release(rt: HostRuntime) {
    let versions = Profile::Release(25).judged_versions();
    assert!(rt; is_read_and_written(rt.alloc(), versions, &class_k(69)) == Ok(true));
}

/// A class file with what the rules of a release take memory for: interfaces, bootstrap methods, and more rows of local
/// variables than are few.
const ROWS: [u8; 415] = [
    0xca, 0xfe, 0xba, 0xbe, 0x00, 0x00, 0x00, 0x45, 0x00, 0x15, 0x01, 0x00, 0x01, 0x4b, 0x07, 0x00,
    0x01, 0x01, 0x00, 0x10, 0x6a, 0x61, 0x76, 0x61, 0x2f, 0x6c, 0x61, 0x6e, 0x67, 0x2f, 0x4f, 0x62,
    0x6a, 0x65, 0x63, 0x74, 0x07, 0x00, 0x03, 0x01, 0x00, 0x01, 0x66, 0x01, 0x00, 0x03, 0x28, 0x29,
    0x56, 0x01, 0x00, 0x04, 0x43, 0x6f, 0x64, 0x65, 0x01, 0x00, 0x12, 0x4c, 0x6f, 0x63, 0x61, 0x6c,
    0x56, 0x61, 0x72, 0x69, 0x61, 0x62, 0x6c, 0x65, 0x54, 0x61, 0x62, 0x6c, 0x65, 0x01, 0x00, 0x01,
    0x49, 0x01, 0x00, 0x01, 0x41, 0x07, 0x00, 0x0a, 0x01, 0x00, 0x01, 0x42, 0x07, 0x00, 0x0c, 0x01,
    0x00, 0x10, 0x42, 0x6f, 0x6f, 0x74, 0x73, 0x74, 0x72, 0x61, 0x70, 0x4d, 0x65, 0x74, 0x68, 0x6f,
    0x64, 0x73, 0x01, 0x00, 0x01, 0x67, 0x0c, 0x00, 0x0f, 0x00, 0x06, 0x0a, 0x00, 0x02, 0x00, 0x10,
    0x0f, 0x06, 0x00, 0x11, 0x12, 0x00, 0x00, 0x00, 0x10, 0x01, 0x00, 0x16, 0x4c, 0x6f, 0x63, 0x61,
    0x6c, 0x56, 0x61, 0x72, 0x69, 0x61, 0x62, 0x6c, 0x65, 0x54, 0x79, 0x70, 0x65, 0x54, 0x61, 0x62,
    0x6c, 0x65, 0x00, 0x21, 0x00, 0x02, 0x00, 0x04, 0x00, 0x02, 0x00, 0x0b, 0x00, 0x0d, 0x00, 0x00,
    0x00, 0x01, 0x00, 0x09, 0x00, 0x05, 0x00, 0x06, 0x00, 0x01, 0x00, 0x07, 0x00, 0x00, 0x00, 0xd1,
    0x00, 0x00, 0x00, 0x11, 0x00, 0x00, 0x00, 0x01, 0xb1, 0x00, 0x00, 0x00, 0x02, 0x00, 0x08, 0x00,
    0x00, 0x00, 0xac, 0x00, 0x11, 0x00, 0x00, 0x00, 0x01, 0x00, 0x05, 0x00, 0x09, 0x00, 0x00, 0x00,
    0x00, 0x00, 0x01, 0x00, 0x05, 0x00, 0x09, 0x00, 0x01, 0x00, 0x00, 0x00, 0x01, 0x00, 0x05, 0x00,
    0x09, 0x00, 0x02, 0x00, 0x00, 0x00, 0x01, 0x00, 0x05, 0x00, 0x09, 0x00, 0x03, 0x00, 0x00, 0x00,
    0x01, 0x00, 0x05, 0x00, 0x09, 0x00, 0x04, 0x00, 0x00, 0x00, 0x01, 0x00, 0x05, 0x00, 0x09, 0x00,
    0x05, 0x00, 0x00, 0x00, 0x01, 0x00, 0x05, 0x00, 0x09, 0x00, 0x06, 0x00, 0x00, 0x00, 0x01, 0x00,
    0x05, 0x00, 0x09, 0x00, 0x07, 0x00, 0x00, 0x00, 0x01, 0x00, 0x05, 0x00, 0x09, 0x00, 0x08, 0x00,
    0x00, 0x00, 0x01, 0x00, 0x05, 0x00, 0x09, 0x00, 0x09, 0x00, 0x00, 0x00, 0x01, 0x00, 0x05, 0x00,
    0x09, 0x00, 0x0a, 0x00, 0x00, 0x00, 0x01, 0x00, 0x05, 0x00, 0x09, 0x00, 0x0b, 0x00, 0x00, 0x00,
    0x01, 0x00, 0x05, 0x00, 0x09, 0x00, 0x0c, 0x00, 0x00, 0x00, 0x01, 0x00, 0x05, 0x00, 0x09, 0x00,
    0x0d, 0x00, 0x00, 0x00, 0x01, 0x00, 0x05, 0x00, 0x09, 0x00, 0x0e, 0x00, 0x00, 0x00, 0x01, 0x00,
    0x05, 0x00, 0x09, 0x00, 0x0f, 0x00, 0x00, 0x00, 0x01, 0x00, 0x05, 0x00, 0x09, 0x00, 0x10, 0x00,
    0x14, 0x00, 0x00, 0x00, 0x0c, 0x00, 0x01, 0x00, 0x00, 0x00, 0x01, 0x00, 0x05, 0x00, 0x09, 0x00,
    0x00, 0x00, 0x01, 0x00, 0x0e, 0x00, 0x00, 0x00, 0x06, 0x00, 0x01, 0x00, 0x12, 0x00, 0x00,
];

/// Whether the class is well formed as Java SE 25 reads it, as far as memory goes.
fn keeps_all_rules(alloc: Global) -> bool {
    let versions = Profile::Release(25).judged_versions();
    match decode_under(alloc, versions, &ROWS) {
        Ok(class) => class.release && is_formed(alloc, &class),
        Err(fault) => matches!(fault, ReadFault::OutOfMemory),
    }
}

#[test]
fn all_rules_of_a_release(rt: HostRuntime) {
    assert!(rt; keeps_all_rules(rt.alloc()));
}

#[test]
fn memory_runs_out_for_the_rules_of_a_release(rt: HostRuntime) {
    assert!(rt; keeps_all_rules(rt.alloc()));
}

/// A class that is not written in versions that it does not have.
fn is_unspelled(alloc: Global) -> Option<bool> {
    let bytes = class_k(69);
    let class = decode_under(alloc, Profile::Release(25).known_versions(), &bytes).ok()?;
    match encode_under(alloc, Profile::Release(21).known_versions(), &class) {
        Ok(_) => Some(false),
        Err(fault) => Some(matches!(fault, WriteFault::HasNoSpelling)),
    }
}

#[test]
fn version_that_is_not_written(rt: HostRuntime) {
    assert!(rt; is_unspelled(rt.alloc()) == Some(true));
}

/// The file with these bytes, of a class that is judged as a release does, or that others refer to.
fn of_versions<'a>(versions: Versions, bytes: &'a [u8]) -> FileRead<'a> {
    FileRead::Bytes { bytes, versions }
}

/// The number of the answer on K among `java/lang/Object`, each of a major version, as Java SE 25: 0 where K is
/// verified, and 1 where memory runs out.
fn number_of_answer(alloc: Global, class: &[u8], known: &[u8]) -> u8 {
    let profile = Profile::Release(25);
    let class = of_versions(profile.judged_versions(), class);
    let known = [of_versions(profile.known_versions(), known)];
    match verify_among_under(alloc, profile, class, &known, hasher()) {
        Ok(report) => u8::from(report.methods.len() != 1) * 99,
        Err(AmongFault::Refused(fault)) | Err(AmongFault::KnownRefused { fault, .. }) => {
            number_of_fault(fault)
        }
        Err(fault) => match fault {
            AmongFault::OutOfMemory => OUT_OF_MEMORY,
            _ => 99,
        },
    }
}

/// The number of a fault of a file that is not of a version that is taken.
fn number_of_fault(fault: FileFault) -> u8 {
    match fault {
        FileFault::NoClass(fault) => fault.number(),
        _ => 99,
    }
}

#[test]
fn verdicts_by_a_release(rt: HostRuntime) {
    assert!(rt; number_of_answer(rt.alloc(), &class_k(69), &object(45)) == 0);
    assert!(rt; number_of_answer(rt.alloc(), &class_k(50), &object(69)) == 0);
    assert!(rt; number_of_answer(rt.alloc(), &class_k(49), &object(69)) == 11);
    assert!(rt; number_of_answer(rt.alloc(), &class_k(52), &object(70)) == 11);
}

/// The text that `check` answers as Java SE of this number.
fn checks(alloc: Global, number: u8, bytes: &[u8]) -> Result<Vec<u8>, AllocError> {
    let mut held = Vec::with_capacity(alloc, bytes.len())?;
    held.extend_from_slice(bytes)?;
    let mut reads: Vec<Result<Vec<u8>, CutShort>> = Vec::new(alloc);
    reads.push(Ok(held))?;
    let mut out = Vec::new(alloc);
    let command = Command::Check(Form::Plain, Profile::Release(number));
    match answer(alloc, command, &reads, hasher(), &mut out) {
        Ok(_) => Ok(out),
        Err(_) => Err(AllocError),
    }
}

#[test]
fn checks_by_a_release(rt: HostRuntime) -> Result<(), Fail> {
    assert!(rt; checks(rt.alloc(), 21, &class_k(65))?.as_slice() == b"ok\n".as_slice());
    assert!(rt;
        checks(rt.alloc(), 21, &class_k(66))?.as_slice() == b"refused 11 66.0\n".as_slice()
    );
    Ok(())
}
