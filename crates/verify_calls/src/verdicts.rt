//! Verdicts on methods and classes that no program shows.
use classfile::{ClassFile, Formed, decode, encode, form_check};
use format_calls::making::{K, catching};
use hierarchy::{Rows, summary_of};
use lower_calls::making::{hasher, object};
use std::alloc::{AllocError, Global};
use std::test::*;
use type_numbers::TypeNumbers;
use verify::{
    ClassFault, FinalRule, MethodVerdict, Report, Verdict, VerifyFault, fits_breadth,
    frames_are_judged, map_refused_where, member_words_are_said, methods_are_seen, one_frames,
    one_report, one_verdict, refused_breaks, refused_where, type_safe_is_safe,
    type_safe_is_verified, verified_is_type_safe, verify_by_numbers, verify_class, verify_method,
    verify_methods,
};

#[test]
fn theorem_and_laws_are_called() {
    type_safe_is_safe();
    fits_breadth();
    verified_is_type_safe();
    type_safe_is_verified();
    refused_where();
    refused_breaks();
    map_refused_where();
    one_verdict();
    one_report();
    one_frames();
    frames_are_judged();
    member_words_are_said();
    methods_are_seen();
}

/// The verdict on the class's first method, where there are `java/lang/Object` and the class, as it is or as a final
/// one.
fn verdict<'a>(
    alloc: Global,
    formed: &Formed<'_, 'a>,
    is_final: bool,
) -> Result<Verdict<'a>, VerifyFault> {
    let Ok(mut own) = summary_of(alloc, formed) else {
        return Err(VerifyFault::OutOfMemory);
    };
    own.is_final = is_final;
    let list = [object(alloc), own];
    match Rows::new(alloc, &list, hasher()) {
        Ok(classes) if !formed.class().methods.is_empty() => {
            verify_method(alloc, formed, 0, &classes)
        }
        _ => Err(VerifyFault::OutOfMemory),
    }
}

/// The hierarchy must have the class exactly as it is.
fn is_judged(alloc: Global, class: &ClassFile<'_>) -> bool {
    match form_check(alloc, class) {
        Ok(formed) => {
            matches!(verdict(alloc, &formed, false), Ok(Verdict::Verified))
                && matches!(
                    verdict(alloc, &formed, true),
                    Err(VerifyFault::NotInHierarchy)
                )
        }
        Err(_) => false,
    }
}

fn has_verdict(alloc: Global) -> bool {
    match decode(alloc, &K) {
        Ok(class) => is_judged(alloc, &class),
        Err(_) => false,
    }
}

#[test]
fn a_verdict(rt: HostRuntime) {
    assert!(rt; has_verdict(rt.alloc()));
    assert!(rt; VerifyFault::OutOfMemory.number() == 1);
    assert!(rt; VerifyFault::NotInHierarchy.number() == 80);
}

/// The verdicts on the methods of the class that these bytes are, where there are `java/lang/Object` and this class;
/// none where memory runs out.
fn report_among<'a>(
    alloc: Global,
    bytes: &'a [u8],
    formed: &Formed<'_, '_>,
) -> Result<Report<'a>, AllocError> {
    let list = [object(alloc), summary_of(alloc, formed)?];
    let Ok(classes) = Rows::new(alloc, &list, hasher()) else {
        return Err(AllocError);
    };
    match verify_class(alloc, bytes, &classes) {
        Ok(report) => Ok(report),
        Err(_) => Err(AllocError),
    }
}

/// The report on the class that these bytes are.
fn report<'a>(alloc: Global, bytes: &'a [u8]) -> Result<Report<'a>, AllocError> {
    let Ok(class) = decode(alloc, bytes) else {
        return Err(AllocError);
    };
    match form_check(alloc, &class) {
        Ok(formed) => report_among(alloc, bytes, &formed),
        Err(_) => Err(AllocError),
    }
}

fn is_verdict_of_k(verdict: &MethodVerdict<'_>) -> bool {
    matches!(verdict.verdict, Verdict::Verified)
        && verdict.name.bytes() == b"f".as_slice()
        && verdict.descriptor.bytes() == b"()V".as_slice()
}

/// Whether the report is that of K, or there is none where memory runs out.
fn is_report_or(alloc: Global, or_none: bool) -> bool {
    match report(alloc, &K) {
        Ok(report) => matches!(report.methods.as_slice(), [verdict] if is_verdict_of_k(verdict)),
        Err(_) => or_none,
    }
}

#[test]
fn a_report(rt: HostRuntime) {
    assert!(rt; is_report_or(rt.alloc(), false));
}

fn is_of_k(report: Result<Report<'_>, ClassFault>) -> bool {
    match report {
        Ok(report) => matches!(report.methods.as_slice(), [verdict] if is_verdict_of_k(verdict)),
        Err(_) => false,
    }
}

/// Whether K is reported by numbers of types, and once more by the numbers that served it.
fn is_reported_by_numbers(alloc: Global, formed: &Formed<'_, '_>) -> bool {
    let Ok(own) = summary_of(alloc, formed) else {
        return false;
    };
    match Rows::new(alloc, &[object(alloc), own], hasher()) {
        Ok(classes) => {
            let mut numbers = TypeNumbers::new(alloc, &classes);
            is_of_k(verify_by_numbers(alloc, formed, &mut numbers))
                && is_of_k(verify_by_numbers(alloc, formed, &mut numbers))
        }
        Err(_) => false,
    }
}

fn is_k_reported_by_numbers(alloc: Global) -> bool {
    let Ok(class) = decode(alloc, &K) else {
        return false;
    };
    match form_check(alloc, &class) {
        Ok(formed) => is_reported_by_numbers(alloc, &formed),
        Err(_) => false,
    }
}

#[test]
fn reports_by_numbers(rt: HostRuntime) {
    assert!(rt; is_k_reported_by_numbers(rt.alloc()));
}

/// Where memory runs out there is no report, and otherwise the whole one.
#[test]
fn memory_runs_out_for_a_report(rt: HostRuntime) {
    assert!(rt; is_report_or(rt.alloc(), true));
}

/// The report on these bytes where `java/lang/Object` is the one class.
fn is_unlisted(alloc: Global, bytes: &[u8]) -> bool {
    let list = [object(alloc)];
    match Rows::new(alloc, &list, hasher()) {
        Ok(classes) => matches!(
            verify_class(alloc, bytes, &classes),
            Err(ClassFault::NotInHierarchy)
        ),
        Err(_) => false,
    }
}

/// K without its method: a class without methods is looked up too.
#[test]
fn unlisted_class_without_methods(rt: HostRuntime) {
    let mut bytes = [0; 70];
    bytes[..66].copy_from_slice(&K[..66]);
    assert!(rt; is_unlisted(rt.alloc(), &bytes));
}

/// The report on a class whose superclass is `java/lang/Object`, which is final.
fn is_refused_below_final(alloc: Global, bytes: &[u8], formed: &Formed<'_, '_>) -> bool {
    let Ok(own) = summary_of(alloc, formed) else {
        return false;
    };
    let mut top = object(alloc);
    top.is_final = true;
    match Rows::new(alloc, &[top, own], hasher()) {
        Ok(classes) => {
            matches!(
                verify_class(alloc, bytes, &classes),
                Err(ClassFault::Final(FinalRule::FinalSuper))
            ) && matches!(
                verify_methods(alloc, formed, &classes),
                Err(ClassFault::Final(FinalRule::FinalSuper))
            )
        }
        Err(_) => false,
    }
}

fn is_k_refused_below_final(alloc: Global) -> bool {
    let Ok(class) = decode(alloc, &K) else {
        return false;
    };
    match form_check(alloc, &class) {
        Ok(formed) => is_refused_below_final(alloc, &K, &formed),
        Err(_) => false,
    }
}

#[test]
fn final_superclass(rt: HostRuntime) {
    assert!(rt; is_k_refused_below_final(rt.alloc()));
}

/// Whether the class that these bytes are is written as they are, and reported of; unless memory ran out.
fn is_written_and_reported(alloc: Global, bytes: &[u8]) -> bool {
    let Ok(class) = decode(alloc, bytes) else {
        return false;
    };
    match encode(alloc, &class) {
        Ok(again) => again.as_slice() == bytes && report(alloc, bytes).is_ok(),
        Err(_) => false,
    }
}

const CODES: [u8; 10] = [0x00, 0x03, 0x09, 0x1B, 0x57, 0x5C, 0x79, 0xAC, 0xB1, 0xCA];

/// With memory enough no answer says that it ran out.
#[test]
fn each_class_is_reported(rt: HostRuntime) {
    assert!(rt; is_written_and_reported(rt.alloc(), &catching([0x03, 0xAC])));
    for code in &CODES {
        let mut bytes = K;
        bytes[90] = *code;
        assert!(rt; is_written_and_reported(rt.alloc(), &bytes));
    }
}
