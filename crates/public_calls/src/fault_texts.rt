use answers::AnswerFault;
use classfile::{FormFault, FormRule, Place};
use command_line::{LineFault, MainFault};
use format_calls::making::is_shown;
use frames::FrameFault;
use hierarchy::HierarchyFault;
use insn::CodeFault;
use layout::{ReadFault, StreamFault, WriteFault};
use machine::StepFault;
use names::NameFault;
use pool::PoolFault;
use std::alloc::Global;
use std::fmt::Display;
use verify::{
    AmongFault, ClassFault, EachFault, FileFault, FinalRule, PlayFault, PlayRule, TogetherFault,
    VerifyFault, WalkFault,
};

/// Whether each fault is displayed as the text beside it.
fn are_shown<T: Display>(alloc: Global, rows: &[(T, &str)]) -> bool {
    for row in rows {
        if !is_shown(alloc, &row.0, row.1) {
            return false;
        }
    }
    true
}

const FAULTS_OF_READING: [(ReadFault, &str); 8] = [
    (ReadFault::OutOfMemory, "refused 1"),
    (ReadFault::EndsEarly { at: 4 }, "refused 2 at 4"),
    (ReadFault::BadText { at: 5 }, "refused 3 at 5"),
    (
        ReadFault::BadTag { at: 10, tag: 2 },
        "refused 7 at 10 tag 2",
    ),
    (ReadFault::BadMagic, "refused 10"),
    (
        ReadFault::BadVersion {
            major: 50,
            minor: 3,
        },
        "refused 11 50.3",
    ),
    (ReadFault::AttributeLength { at: 6 }, "refused 12 at 6"),
    (ReadFault::BytesAfter { at: 7 }, "refused 13 at 7"),
];

#[test]
fn faults_of_reading(rt: HostRuntime) {
    assert!(rt; are_shown(rt.alloc(), &FAULTS_OF_READING));
}

const FAULTS_OF_READING_BEHIND_A_LIMIT: [(ReadFault, &str); 5] = [
    (ReadFault::TooLong { at: 0 }, "refused 14 at 0"),
    (ReadFault::ReadFailed { at: 8 }, "refused 15 at 8"),
    (ReadFault::BadPoolCount { at: 9 }, "refused 16 at 9"),
    (ReadFault::BadFrameType { at: 11 }, "refused 47 at 11"),
    (ReadFault::BadTypeTag { at: 12 }, "refused 48 at 12"),
];

#[test]
fn faults_of_reading_behind_a_limit(rt: HostRuntime) {
    assert!(rt; are_shown(rt.alloc(), &FAULTS_OF_READING_BEHIND_A_LIMIT));
    let stopped = StreamFault {
        taken: 3,
        why: ReadFault::BadMagic,
    };
    assert!(rt; is_shown(rt.alloc(), &stopped, "refused 10"));
}

const FAULTS_OF_WRITING: [(WriteFault, &str); 3] = [
    (WriteFault::OutOfMemory, "refused 1"),
    (WriteFault::DoesNotFit, "refused 17"),
    (WriteFault::HasNoSpelling, "refused 18"),
];

#[test]
fn faults_of_writing(rt: HostRuntime) {
    assert!(rt; are_shown(rt.alloc(), &FAULTS_OF_WRITING));
}

const FAULTS_OF_NAMES: [(NameFault, &str); 5] = [
    (NameFault::OutOfMemory, "refused 1"),
    (NameFault::BadText { at: 3 }, "refused 3 at 3"),
    (NameFault::BadDescriptor { at: 2 }, "refused 4 at 2"),
    (NameFault::TooManyDimensions, "refused 5"),
    (NameFault::TooWide, "refused 6"),
];

#[test]
fn faults_of_names(rt: HostRuntime) {
    assert!(rt; are_shown(rt.alloc(), &FAULTS_OF_NAMES));
}

const FAULTS_OF_LOOK_UPS: [(PoolFault, &str); 2] = [
    (
        PoolFault::BadIndex { index: 65535 },
        "refused 8 index 65535",
    ),
    (PoolFault::WrongKind { index: 1 }, "refused 9 index 1"),
];

#[test]
fn faults_of_look_ups(rt: HostRuntime) {
    assert!(rt; are_shown(rt.alloc(), &FAULTS_OF_LOOK_UPS));
}

/// That the rule is broken in the class.
macro_rules! broken {
    ($rule:ident) => {
        FormFault::Broken {
            rule: FormRule::$rule,
            place: Place::Class,
        }
    };
}

const FAULTS_OF_FORM: [(FormFault, &str); 6] = [
    (FormFault::OutOfMemory, "refused 1"),
    (broken!(BadIndex), "refused 20"),
    (broken!(WrongKind), "refused 21"),
    (broken!(BadName), "refused 22"),
    (broken!(BadDescriptor), "refused 23"),
    (broken!(BadFlags), "refused 24"),
];

#[test]
fn faults_of_form(rt: HostRuntime) {
    assert!(rt; are_shown(rt.alloc(), &FAULTS_OF_FORM));
}

const FAULTS_OF_MEMBERS_AND_CODE: [(FormFault, &str); 8] = [
    (broken!(Twice), "refused 25"),
    (broken!(CodeMissing), "refused 26"),
    (broken!(CodeNotAllowed), "refused 27"),
    (broken!(BadSuper), "refused 28"),
    (broken!(BadCodeLength), "refused 29"),
    (broken!(AttributeTwice), "refused 30"),
    (broken!(BadDebugTable), "refused 87"),
    (broken!(BadBootstrap), "refused 90"),
];

#[test]
fn faults_of_members_and_code(rt: HostRuntime) {
    assert!(rt; are_shown(rt.alloc(), &FAULTS_OF_MEMBERS_AND_CODE));
}

const FAULTS_OF_CODE: [(CodeFault, &str); 6] = [
    (CodeFault::OutOfMemory, "refused 1"),
    (CodeFault::BadOpcode { at: 1 }, "refused 31 at 1"),
    (CodeFault::CutInstruction { at: 2 }, "refused 32 at 2"),
    (CodeFault::BadSwitch { at: 3 }, "refused 33 at 3"),
    (CodeFault::BadWide { at: 4 }, "refused 34 at 4"),
    (CodeFault::NonZeroByte { at: 5 }, "refused 35 at 5"),
];

#[test]
fn faults_of_code(rt: HostRuntime) {
    assert!(rt; are_shown(rt.alloc(), &FAULTS_OF_CODE));
}

const FAULTS_OF_FRAMES: [(FrameFault, &str); 8] = [
    (FrameFault::OutOfMemory, "refused 1"),
    (FrameFault::BadIndex, "refused 8"),
    (FrameFault::WrongKind, "refused 9"),
    (FrameFault::LocalsOver, "refused 49"),
    (FrameFault::StackOver, "refused 50"),
    (FrameFault::ChopTooMany, "refused 51"),
    (FrameFault::NotAStart, "refused 52"),
    (FrameFault::NotANew, "refused 53"),
];

#[test]
fn faults_of_frames(rt: HostRuntime) {
    assert!(rt; are_shown(rt.alloc(), &FAULTS_OF_FRAMES));
}

const FAULTS_OF_HIERARCHIES: [(HierarchyFault<'static>, &str); 8] = [
    (HierarchyFault::OutOfMemory, "out of memory"),
    (
        HierarchyFault::ClassTwice { name: b"A" },
        "a class stands twice",
    ),
    (
        HierarchyFault::Cycle { name: b"A" },
        "a class is its own superclass",
    ),
    (
        HierarchyFault::SuperMissing { name: b"A" },
        "a superclass is missing",
    ),
    (
        HierarchyFault::NoObject,
        "java/lang/Object is missing or wrong",
    ),
    (
        HierarchyFault::BadArrayInterface { name: b"A" },
        "an interface of arrays is a class",
    ),
    (HierarchyFault::TooManyClasses, "too many classes"),
    (
        HierarchyFault::InterfaceSuper { name: b"A" },
        "an interface has a superclass other than java/lang/Object",
    ),
];

#[test]
fn faults_of_hierarchies(rt: HostRuntime) {
    assert!(rt; are_shown(rt.alloc(), &FAULTS_OF_HIERARCHIES));
}

const FAULTS_OF_VERDICTS: [(VerifyFault, &str); 2] = [
    (VerifyFault::OutOfMemory, "refused 1"),
    (VerifyFault::NotInHierarchy, "refused 80"),
];

const FAULTS_OF_ANSWERS: [(AnswerFault, &str); 2] = [
    (AnswerFault::OutOfMemory, "refused 1"),
    (AnswerFault::WriteFailed, "refused 19"),
];

#[test]
fn faults_of_verdicts_and_answers(rt: HostRuntime) {
    assert!(rt; are_shown(rt.alloc(), &FAULTS_OF_VERDICTS));
    assert!(rt; are_shown(rt.alloc(), &FAULTS_OF_ANSWERS));
}

const FAULTS_OF_STEPS: [(StepFault, &str); 3] = [
    (StepFault::OutOfMemory, "refused 1"),
    (StepFault::NotAChoice, "refused 54"),
    (StepFault::NotInitial, "refused 55"),
];

const FAULTS_OF_WALKS: [(WalkFault, &str); 4] = [
    (WalkFault::OutOfMemory, "refused 1"),
    (WalkFault::NotInitial, "refused 55"),
    (WalkFault::NotVerified, "refused 56"),
    (WalkFault::NotInHierarchy, "refused 80"),
];

#[test]
fn faults_of_steps_and_walks(rt: HostRuntime) {
    assert!(rt; are_shown(rt.alloc(), &FAULTS_OF_STEPS));
    assert!(rt; are_shown(rt.alloc(), &FAULTS_OF_WALKS));
}

/// A file that is cut.
const CUT: FileFault = FileFault::NoClass(ReadFault::EndsEarly { at: 95 });

/// A class that is not well formed.
const MALFORMED: FileFault = FileFault::Malformed {
    rule: FormRule::BadName,
    place: Place::Class,
};

const FAULTS_OF_FILES: [(FileFault, &str); 4] = [
    (FileFault::OutOfMemory, "refused 1"),
    (
        FileFault::Unread(ReadFault::ReadFailed { at: 8 }),
        "refused 15 at 8",
    ),
    (CUT, "refused 2 at 95"),
    (MALFORMED, "refused 22"),
];

#[test]
fn faults_of_files(rt: HostRuntime) {
    assert!(rt; are_shown(rt.alloc(), &FAULTS_OF_FILES));
}

const FAULTS_OF_CLASSES: [(ClassFault, &str); 6] = [
    (ClassFault::OutOfMemory, "refused 1"),
    (ClassFault::NoClass(ReadFault::BadMagic), "refused 10"),
    (
        ClassFault::Malformed {
            rule: FormRule::BadFlags,
            place: Place::Class,
        },
        "refused 24",
    ),
    (ClassFault::NotInHierarchy, "refused 80"),
    (ClassFault::Final(FinalRule::FinalSuper), "refused 81"),
    (
        ClassFault::Final(FinalRule::FinalOverridden { method: 2 }),
        "refused 85",
    ),
];

#[test]
fn faults_of_classes(rt: HostRuntime) {
    assert!(rt; are_shown(rt.alloc(), &FAULTS_OF_CLASSES));
}

const FAULTS_AMONG_CLASSES: [(AmongFault<'static>, &str); 6] = [
    (AmongFault::OutOfMemory, "refused 1"),
    (AmongFault::Refused(CUT), "class refused 2 at 95"),
    (
        AmongFault::KnownRefused {
            number: 2,
            fault: MALFORMED,
        },
        "known 2 refused 22",
    ),
    (
        AmongFault::NoHierarchy(HierarchyFault::NoObject),
        "hierarchy refused 43",
    ),
    (AmongFault::Final(FinalRule::FinalSuper), "class refused 81"),
    (
        AmongFault::Final(FinalRule::FinalOverridden { method: 2 }),
        "class refused 85",
    ),
];

#[test]
fn faults_among_classes(rt: HostRuntime) {
    assert!(rt; are_shown(rt.alloc(), &FAULTS_AMONG_CLASSES));
}

const FAULTS_OF_CLASSES_IN_PLAY: [(PlayFault, &str); 3] = [
    (PlayFault::OutOfMemory, "refused 1"),
    (
        PlayFault::Broken {
            class: 0,
            rule: PlayRule::Final(FinalRule::FinalSuper),
        },
        "refused 81",
    ),
    (
        PlayFault::NotAllVerified {
            class: 1,
            method: 2,
        },
        "refused 84",
    ),
];

#[test]
fn faults_of_classes_in_play(rt: HostRuntime) {
    assert!(rt; are_shown(rt.alloc(), &FAULTS_OF_CLASSES_IN_PLAY));
}

const FAULTS_OF_FILES_IN_PLAY: [(TogetherFault<'static>, &str); 4] = [
    (TogetherFault::OutOfMemory, "refused 1"),
    (
        TogetherFault::Refused {
            number: 2,
            fault: CUT,
        },
        "class 2 refused 2 at 95",
    ),
    (
        TogetherFault::NoHierarchy(HierarchyFault::NoObject),
        "hierarchy refused 43",
    ),
    (
        TogetherFault::Broken {
            number: 1,
            rule: PlayRule::Final(FinalRule::FinalSuper),
        },
        "class 1 refused 81",
    ),
];

#[test]
fn faults_of_files_in_play(rt: HostRuntime) {
    assert!(rt; are_shown(rt.alloc(), &FAULTS_OF_FILES_IN_PLAY));
}

const FAULTS_OF_EACH_FILE: [(EachFault<'static>, &str); 2] = [
    (EachFault::OutOfMemory, "refused 1"),
    (
        EachFault::NoHierarchy(HierarchyFault::TooManyClasses),
        "hierarchy refused 45",
    ),
];

#[test]
fn faults_of_each_file(rt: HostRuntime) {
    assert!(rt; are_shown(rt.alloc(), &FAULTS_OF_EACH_FILE));
}

const FAULTS_OF_THE_PROGRAM: [(MainFault, &str); 4] = [
    (MainFault::NoRandom, "no random words"),
    (MainFault::CannotOpen(2), "file 2 cannot be opened"),
    (MainFault::Memory, "refused 1"),
    (MainFault::NotWritten, "refused 19"),
];

#[test]
fn faults_of_the_program(rt: HostRuntime) {
    assert!(rt; are_shown(rt.alloc(), &FAULTS_OF_THE_PROGRAM));
    assert!(rt; is_shown(rt.alloc(), &LineFault::OutOfMemory, "refused 1"));
}
