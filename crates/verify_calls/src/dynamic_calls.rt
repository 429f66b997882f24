//! Dynamic calls and constants: looked up, and judged and run where a profile asks for it.
use crate::verified_files::file;
use crate::verified_walks::{RIGHT, walk_in};
use classfile::{Bootstraps, ClassFile, Formed, Profile, decode, form_check};
use format_calls::making::{K, O, OUT_OF_MEMORY};
use hierarchy::{Classes, Rows, summary_of};
use insn::Act;
use lower_calls::making::{hasher, object};
use machine::Value;
use machine_calls::making::{Stop, Walk, answered_first};
use names::{Base, FieldType, Primitive};
use pool::{CallSite, ConstantTypes, Pool};
use rules::Members;
use std::alloc::{AllocError, Global};
use std::test::*;
use verify::{
    MethodVerdict, Verdict, verify_among_under, verify_class_under, verify_together_under,
};

/// The class file of a class K whose static method `f` loads the Dynamic constant of int at 11 and drops it, and then
/// calls the site `g` of the InvokeDynamic at 15: `ldc`, `pop`, `invokedynamic`, `return`. Both are of its one
/// bootstrap method, whose handle and whose argument are the MethodHandle of `f`.
const CALLS: [u8; 190] = [
    0xCA, 0xFE, 0xBA, 0xBE, 0, 0, 0, 0x37, 0, 0x14, 7, 0, 2, 1, 0, 1, 0x4B, 7, 0, 4, 1, 0, 0x10,
    0x6A, 0x61, 0x76, 0x61, 0x2F, 0x6C, 0x61, 0x6E, 0x67, 0x2F, 0x4F, 0x62, 0x6A, 0x65, 0x63, 0x74,
    1, 0, 1, 0x66, 1, 0, 3, 0x28, 0x29, 0x56, 1, 0, 4, 0x43, 0x6F, 0x64, 0x65, 1, 0, 1, 0x64, 1, 0,
    1, 0x49, 0x0C, 0, 8, 0, 9, 0x11, 0, 0, 0, 0x0A, 1, 0, 1, 0x67, 1, 0, 3, 0x28, 0x29, 0x56, 0x0C,
    0, 0x0C, 0, 0x0D, 0x12, 0, 0, 0, 0x0E, 1, 0, 0x10, 0x42, 0x6F, 0x6F, 0x74, 0x73, 0x74, 0x72,
    0x61, 0x70, 0x4D, 0x65, 0x74, 0x68, 0x6F, 0x64, 0x73, 0x0F, 6, 0, 0x12, 0x0A, 0, 1, 0, 0x13,
    0x0C, 0, 5, 0, 6, 0, 0x21, 0, 1, 0, 3, 0, 0, 0, 0, 0, 1, 0, 8, 0, 5, 0, 6, 0, 1, 0, 7, 0, 0, 0,
    0x15, 0, 1, 0, 0, 0, 0, 0, 9, 0x12, 0x0B, 0x57, 0xBA, 0, 0x0F, 0, 0, 0xB1, 0, 0, 0, 0, 0, 1, 0,
    0x10, 0, 0, 0, 8, 0, 1, 0, 0x11, 0, 1, 0, 0x11,
];

#[test]
fn profiles(rt: HostRuntime) {
    assert!(rt; Profile::Dynamic.judges_dynamic() && !Profile::Default.judges_dynamic());
}

// ---- what is looked up

fn has_texts(pool: &Pool<'_>) -> bool {
    let constant = match pool.dynamic(11) {
        Ok(found) => found.name.bytes() == b"d".as_slice()
            && found.descriptor.bytes() == b"I".as_slice(),
        Err(_) => false,
    };
    let site = match pool.invoke_dynamic(15) {
        Ok(found) => found.name.bytes() == b"g".as_slice()
            && found.descriptor.bytes() == b"()V".as_slice(),
        Err(_) => false,
    };
    constant && site && pool.dynamic(15).is_err() && pool.invoke_dynamic(11).is_err()
}

fn is_int(computed: Option<FieldType<'_>>) -> bool {
    matches!(computed, Some(t) if t.dims == 0 && t.base == Base::Primitive(Primitive::Int))
}

fn is_g(site: Option<&CallSite<'_>>) -> bool {
    match site {
        Some(site) => {
            site.name == b"g".as_slice()
                && site.method_type.params.is_empty()
                && site.method_type.result.is_none()
        }
        None => false,
    }
}

fn has_constants(constants: &mut ConstantTypes<'_, '_>) -> Result<bool, AllocError> {
    let computed = is_int(constants.dynamic_type(11)?);
    let site = is_g(constants.call_site(15)?.as_ref());
    let none = constants.dynamic_type(15)?.is_none() && constants.call_site(11)?.is_none();
    Ok(computed && site && none)
}

/// Whether the class has the bootstrap method 0, and no other.
fn has_bootstrap(alloc: Global, class: &ClassFile<'_>) -> Result<bool, AllocError> {
    let mut bootstraps = Bootstraps::new(alloc, class);
    Ok(bootstraps.has(0)? && !bootstraps.has(1)?)
}

/// Whether the instructions of the one method name the constant and the site.
fn are_named<'a, C: Classes>(
    alloc: Global,
    formed: &Formed<'_, 'a>,
    classes: &C,
) -> Result<bool, AllocError> {
    let class = formed.class();
    if class.methods.len() != 1 {
        return Ok(false);
    }
    let Some(method) = formed.under(Profile::Dynamic).method(0) else {
        return Ok(false);
    };
    let mut constants = ConstantTypes::new(alloc, &method.class.constant_pool);
    let mut members = Members::new(alloc, method.class, classes);
    let load = members.named(&mut constants, &method, &Act::LoadConstant { index: 11 })?;
    let call = members.named(&mut constants, &method, &Act::InvokeDynamic { index: 15 })?;
    let found = is_int(load.computed()) && is_g(call.site());
    let bootstrapped = load.is_bootstrapped() && call.is_bootstrapped();
    Ok(found && bootstrapped && load.site().is_none() && call.computed().is_none())
}

fn are_found<'a>(alloc: Global, formed: &Formed<'_, 'a>) -> Result<bool, AllocError> {
    let pool = &formed.class().constant_pool;
    let found = has_texts(pool) && has_constants(&mut ConstantTypes::new(alloc, pool))?;
    let list = [object(alloc), summary_of(alloc, formed)?];
    match Rows::new(alloc, &list, hasher()) {
        Ok(classes) => {
            let named = are_named(alloc, formed, &classes)?;
            Ok(found && named && has_bootstrap(alloc, formed.class())?)
        }
        Err(_) => Err(AllocError),
    }
}

/// Whether all is found in the class that these bytes are; an answer that memory ran out counts as well.
fn is_found_or_memory(alloc: Global, bytes: &[u8]) -> bool {
    let Ok(class) = decode(alloc, bytes) else {
        return true;
    };
    match form_check(alloc, &class) {
        Ok(formed) => are_found(alloc, &formed).unwrap_or(true),
        Err(_) => true,
    }
}

#[test]
fn looked_up(rt: HostRuntime) {
    assert!(rt; is_found_or_memory(rt.alloc(), &CALLS));
    assert!(rt; !is_found_or_memory(rt.alloc(), &K));
}

#[test]
fn memory_runs_out_where_they_are_looked_up(rt: HostRuntime) {
    assert!(rt; is_found_or_memory(rt.alloc(), &CALLS));
}

// ---- verdicts

/// The number by which the one method is refused, or 0 where it is verified.
fn number_of(methods: &[MethodVerdict<'_>]) -> u8 {
    match methods {
        [method] => match method.verdict {
            Verdict::Verified => 0,
            Verdict::NoCode => OUT_OF_MEMORY,
            Verdict::Refused { reason, .. } => reason.number(),
        },
        _ => OUT_OF_MEMORY,
    }
}

/// The answers on the class that these bytes are, by its bytes and by its file; each is a number, 1 where memory ran
/// out.
fn answers(alloc: Global, profile: Profile, bytes: &[u8]) -> (u8, u8) {
    let known = [file(&O)];
    let among = match verify_among_under(alloc, profile, file(bytes), &known, hasher()) {
        Ok(report) => number_of(&report.methods),
        Err(_) => OUT_OF_MEMORY,
    };
    (by_bytes(alloc, profile, bytes), among)
}

fn among<C: Classes>(alloc: Global, profile: Profile, bytes: &[u8], classes: &C) -> u8 {
    match verify_class_under(alloc, bytes, profile, classes) {
        Ok(report) => number_of(&report.methods),
        Err(_) => OUT_OF_MEMORY,
    }
}

fn under<'a>(alloc: Global, profile: Profile, bytes: &'a [u8], class: &ClassFile<'a>) -> u8 {
    let Ok(formed) = form_check(alloc, class) else {
        return OUT_OF_MEMORY;
    };
    let Ok(own) = summary_of(alloc, &formed) else {
        return OUT_OF_MEMORY;
    };
    let list = [object(alloc), own];
    match Rows::new(alloc, &list, hasher()) {
        Ok(classes) => among(alloc, profile, bytes, &classes),
        Err(_) => OUT_OF_MEMORY,
    }
}

fn by_bytes(alloc: Global, profile: Profile, bytes: &[u8]) -> u8 {
    match decode(alloc, bytes) {
        Ok(class) => under(alloc, profile, bytes, &class),
        Err(_) => OUT_OF_MEMORY,
    }
}

#[test]
fn verdicts_by_each_profile(rt: HostRuntime) {
    assert!(rt; answers(rt.alloc(), Profile::Dynamic, &CALLS) == (0, 0));
    assert!(rt; answers(rt.alloc(), Profile::Default, &CALLS) == (60, 60));
    assert!(rt; answers(rt.alloc(), Profile::Default, &K) == (0, 0));
}

/// Whether the class is in play with Object, each method verified.
fn plays(alloc: Global, profile: Profile) -> Option<bool> {
    let files = [file(&CALLS), file(&O)];
    match verify_together_under(alloc, profile, &files, hasher()) {
        Ok(reports) => Some(reports.len() == 2),
        Err(verify::TogetherFault::OutOfMemory) => None,
        Err(_) => Some(false),
    }
}

#[test]
fn in_play_by_each_profile(rt: HostRuntime) {
    assert!(rt; plays(rt.alloc(), Profile::Dynamic) == Some(true));
    assert!(rt; plays(rt.alloc(), Profile::Default) == Some(false));
}

#[test]
fn memory_runs_out_for_dynamic_calls(rt: HostRuntime) {
    let (bytes, among) = answers(rt.alloc(), Profile::Dynamic, &CALLS);
    assert!(rt; (bytes == 0 || bytes == OUT_OF_MEMORY) && (among == 0 || among == OUT_OF_MEMORY));
    assert!(rt; plays(rt.alloc(), Profile::Dynamic) != Some(false));
}

// ---- runs

/// The walk by the choice of a constant that is an int, and three to go on.
fn walk_of_class<'a>(alloc: Global, class: &ClassFile<'a>, profile: Profile) -> Walk {
    let Ok(choices) = answered_first(alloc, Value::Int) else {
        return Err(OUT_OF_MEMORY);
    };
    match form_check(alloc, class) {
        Ok(formed) => walk_in(alloc, &formed.under(profile), RIGHT, &choices),
        Err(fault) => Err(fault.number()),
    }
}

/// The walk of the method by a profile.
fn walks(alloc: Global, profile: Profile) -> Walk {
    match decode(alloc, &CALLS) {
        Ok(class) => walk_of_class(alloc, &class, profile),
        Err(fault) => Err(fault.number()),
    }
}

/// The machine runs the method to its end where it is judged; where it is not, it is not verified (56).
#[test]
fn walks_by_each_profile(rt: HostRuntime) {
    assert!(rt; walks(rt.alloc(), Profile::Dynamic) == Ok((4, Stop::Ended)));
    assert!(rt; walks(rt.alloc(), Profile::Default) == Err(56));
}
