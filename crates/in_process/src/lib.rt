//! The steps of the verifier over many class files in memory, to be called from C: what `bench/in_process` measures.
//!
//! Files stand one after the other in `bytes`; `ends` has for each the offset in bytes after it. A file that is no
//! class file, or not well formed, counts as none. `lines` has what `bench/hierarchy` measures.
#![tactic(auto)]

mod lines;

use classfile::{ClassFile, decode, form_check};
use hierarchy::{Classes, Rows, Summary, summary_of};
use insn::count_instructions;
use std::alloc::Global;
use std::hash::{BuildHasherDefault, FoldHasher};
use type_numbers::TypeNumbers;
use verify::{Report, Verdict, verify_by_numbers};

/// The file of this number, empty where there is none.
fn file<'a>(bytes: &'a [u8], ends: &[u32], number: usize) -> &'a [u8] {
    let end = end(ends, number);
    let start = if number == 0 {
        0
    } else {
        end_before(ends, number)
    };
    bytes.get(start..end).unwrap_or(&[])
}

fn end(ends: &[u32], number: usize) -> usize {
    ends.get(number).map_or(0, |end| *end as usize)
}

fn end_before(ends: &[u32], number: usize) -> usize {
    end(ends, number.saturating_sub(1))
}

/// How many of the files are class files.
#[unsafe(no_mangle)]
pub extern "C" fn in_process_decode(alloc: Global, bytes: &[u8], ends: &[u32]) -> u32 {
    let mut count: u32 = 0;
    for number in 0..ends.len() {
        if decode(alloc, file(bytes, ends, number)).is_ok() {
            count = count.wrapping_add(1);
        }
    }
    count
}

fn is_formed(alloc: Global, bytes: &[u8]) -> bool {
    match decode(alloc, bytes) {
        Ok(class) => form_check(alloc, &class).is_ok(),
        Err(_) => false,
    }
}

/// How many of the files are class files that are well formed.
#[unsafe(no_mangle)]
pub extern "C" fn in_process_form(alloc: Global, bytes: &[u8], ends: &[u32]) -> u32 {
    let mut count: u32 = 0;
    for number in 0..ends.len() {
        if is_formed(alloc, file(bytes, ends, number)) {
            count = count.wrapping_add(1);
        }
    }
    count
}

/// How many instructions the methods of a class have.
fn instructions(class: &ClassFile<'_>) -> u64 {
    let mut count: u64 = 0;
    for method in &class.methods {
        if let Some(code) = method.code() {
            if let Ok(more) = count_instructions(code.code) {
                count = count.wrapping_add(more as u64);
            }
        }
    }
    count
}

/// How many instructions the methods of all class files have.
#[unsafe(no_mangle)]
pub extern "C" fn in_process_code(alloc: Global, bytes: &[u8], ends: &[u32]) -> u64 {
    let mut count: u64 = 0;
    for number in 0..ends.len() {
        if let Ok(class) = decode(alloc, file(bytes, ends, number)) {
            count = count.wrapping_add(instructions(&class));
        }
    }
    count
}

/// The summary of the class that a file is, where it is one that is well formed.
fn summary<'a>(alloc: Global, bytes: &'a [u8]) -> Option<Summary<'a>> {
    let class = decode(alloc, bytes).ok()?;
    let formed = form_check(alloc, &class).ok()?;
    summary_of(alloc, &formed).ok()
}

/// The summaries of the classes that the files are.
fn summaries<'a>(alloc: Global, bytes: &'a [u8], ends: &[u32]) -> Vec<Summary<'a>> {
    let mut list = Vec::new(alloc);
    for number in 0..ends.len() {
        if let Some(summary) = summary(alloc, file(bytes, ends, number)) {
            if list.push(summary).is_err() {
                return list;
            }
        }
    }
    list
}

/// How many classes the hierarchy of all files has; none where they are no hierarchy.
#[unsafe(no_mangle)]
pub extern "C" fn in_process_hierarchy(alloc: Global, bytes: &[u8], ends: &[u32]) -> u32 {
    let list = summaries(alloc, bytes, ends);
    let hasher: BuildHasherDefault<FoldHasher> = BuildHasherDefault::new();
    match Rows::new(alloc, &list, hasher) {
        Ok(_classes) => list.len() as u32,
        Err(_) => 0,
    }
}

/// How the verdicts on methods are spread.
#[repr(C)]
pub struct Verdicts {
    /// Verified.
    pub verified: u64,
    /// Without code.
    pub no_code: u64,
    /// Refused 60.
    pub not_supported: u64,
    /// Refused for another reason.
    pub refused: u64,
}

fn add(report: &Report<'_>, verdicts: &mut Verdicts) {
    for method in &report.methods {
        match method.verdict {
            Verdict::Verified => verdicts.verified = verdicts.verified.wrapping_add(1),
            Verdict::NoCode => verdicts.no_code = verdicts.no_code.wrapping_add(1),
            Verdict::Refused { reason, .. } => if reason.number() == 60 {
                verdicts.not_supported = verdicts.not_supported.wrapping_add(1);
            } else {
                verdicts.refused = verdicts.refused.wrapping_add(1);
            },
        }
    }
}

fn verify_one<'a, C: Classes>(
    alloc: Global,
    bytes: &'a [u8],
    numbers: &mut TypeNumbers<'_, 'a, C>,
    verdicts: &mut Verdicts,
) {
    if let Ok(class) = decode(alloc, bytes) {
        if let Ok(formed) = form_check(alloc, &class) {
            if let Ok(report) = verify_by_numbers(alloc, &formed, numbers) {
                add(&report, verdicts);
            }
        }
    }
}

/// The verdicts on the methods of all class files, under the hierarchy of all of them.
#[unsafe(no_mangle)]
pub extern "C" fn in_process_verify(
    alloc: Global,
    bytes: &[u8],
    ends: &[u32],
    verdicts: &mut Verdicts,
) {
    let list = summaries(alloc, bytes, ends);
    let hasher: BuildHasherDefault<FoldHasher> = BuildHasherDefault::new();
    if let Ok(classes) = Rows::new(alloc, &list, hasher) {
        let mut numbers = TypeNumbers::new(alloc, &classes);
        for number in 0..ends.len() {
            verify_one(alloc, file(bytes, ends, number), &mut numbers, verdicts);
        }
    }
}
