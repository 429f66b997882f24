//! Verdicts on the classes that many files are, each judged among all of them and known ones.
use crate::verified_files::{BAD, CLASS, FALLS, LAST, OBJECT, UNREAD, number_of};
use classfile::Profile;
use format_calls::making::OUT_OF_MEMORY;
use lower_calls::making::hasher;
use std::alloc::Global;
use std::test::*;
use verify::{EachFault, FileRead, Judgement, verify_each};

/// The number by which a file is refused; 0 where there are verdicts on its methods.
fn refusal_of(judgement: &Judgement<'_>) -> u8 {
    match judgement {
        Judgement::Reported { .. } => 0,
        Judgement::Refused(fault) => number_of(fault),
        Judgement::NotInHierarchy { .. } => 80,
        Judgement::Final { rule, .. } => rule.number(),
    }
}

/// Whether the answers are refused by these numbers.
fn have_numbers(judgements: &[Judgement<'_>], numbers: &[u8]) -> bool {
    if judgements.len() != numbers.len() {
        return false;
    }
    for (judgement, number) in judgements.iter().zip(numbers) {
        if refusal_of(judgement) != *number {
            return false;
        }
    }
    true
}

/// Whether the files, judged each among all and the known ones, are refused by these numbers.
fn are_told(alloc: Global, files: &[FileRead<'_>], known: &[FileRead<'_>], numbers: &[u8]) -> bool {
    match verify_each(alloc, Profile::Default, files, known, hasher()) {
        Ok(judgements) => have_numbers(&judgements, numbers),
        Err(_) => false,
    }
}

/// Files, known ones, and the numbers by which the files are refused.
const EACH: [(&[FileRead<'static>], &[FileRead<'static>], &[u8]); 7] = [
    (&[CLASS, OBJECT], &[], &[0, 0]),
    (&[CLASS], &[OBJECT], &[0]),
    (&[], &[OBJECT], &[]),
    (&[UNREAD, CLASS], &[UNREAD, OBJECT], &[15, 0]),
    (&[BAD, CLASS, OBJECT], &[], &[24, 0, 0]),
    (&[FALLS, CLASS], &[OBJECT], &[0, 0]),
    (&[CLASS], &[LAST], &[81]),
];

#[test]
fn each_of_many_files(rt: HostRuntime) {
    for (files, known, numbers) in &EACH {
        assert!(rt; are_told(rt.alloc(), *files, *known, *numbers));
    }
}

/// Whether there are verdicts on a class K of one method.
fn is_of_k(judgement: &Judgement<'_>) -> bool {
    match judgement {
        Judgement::Reported { name, report } => {
            *name == b"K".as_slice() && report.methods.len() == 1
        }
        Judgement::Refused(_) | Judgement::NotInHierarchy { .. } | Judgement::Final { .. } => false,
    }
}

/// Whether there are verdicts on the methods of K by this profile.
fn is_reported(alloc: Global, profile: Profile) -> bool {
    match verify_each(alloc, profile, &[CLASS], &[OBJECT], hasher()) {
        Ok(judgements) => match judgements.as_slice() {
            [judgement] => is_of_k(judgement),
            _ => false,
        },
        Err(_) => false,
    }
}

#[test]
fn a_file_by_each_profile(rt: HostRuntime) {
    assert!(rt; is_reported(rt.alloc(), Profile::Default));
    assert!(rt; is_reported(rt.alloc(), Profile::Dynamic));
}

/// The number by which all files are refused, 0 where there are answers.
fn refusal_of_all(alloc: Global, files: &[FileRead<'_>]) -> u8 {
    match verify_each(alloc, Profile::Default, files, &[], hasher()) {
        Ok(_) => 0,
        Err(EachFault::OutOfMemory) => OUT_OF_MEMORY,
        Err(EachFault::NoHierarchy(fault)) => fault.number(),
    }
}

#[test]
fn files_without_object(rt: HostRuntime) {
    assert!(rt; refusal_of_all(rt.alloc(), &[CLASS]) == 43);
    assert!(rt; refusal_of_all(rt.alloc(), &[UNREAD]) == 43);
    assert!(rt; refusal_of_all(rt.alloc(), &[]) == 43);
}

/// Where memory runs out the answer is 1, and otherwise as ever.
#[test]
fn memory_runs_out_for_many_files(rt: HostRuntime) {
    let told = refusal_of_all(rt.alloc(), &[CLASS, OBJECT]);
    assert!(rt; told == 0 || told == OUT_OF_MEMORY);
}
