//! The methods of a class and of its damaged copies, and what is counted of them.
use crate::chance::Chance;
use crate::types::types_of;
use crate::walking::{Found, Scene, walk_through};
use classfile::{ClassFile, CodeMethod, Formed, decode, form_check};
use hierarchy::{Classes, Rows, Summary, summary_of};
use insn::decode_code;
use layout::MAX_CODE_BYTES;
use machine::{Method, StepFault};
use std::alloc::{AllocError, AllocFailed, Global};
use std::fmt;
use std::hash::{BuildHasherDefault, FoldHasher};
use thiserror::Error;
use verify::{Verdict, verify_method};

/// How many choices are drawn for a method of the class itself.
const CHOICES: u32 = 10_000;

/// How many choices are drawn for a method of a damaged copy.
const CHOICES_IN_COPIES: u32 = 500;

/// How many damaged copies there are.
const COPIES: u64 = 1000;

/// The things that are counted.
#[derive(Clone, Copy)]
pub struct Counts {
    methods: u64,
    steps: u64,
    faults: u64,
    refused: u64,
    met: u64,
}

impl fmt::Display for Counts {
    fn fmt<W: fmt::Write>(&self, f: &mut fmt::Formatter<W>) -> fmt::Result {
        let Counts {
            methods,
            steps,
            faults,
            refused,
            met,
        } = self;
        write!(
            f,
            "{methods} methods, {steps} steps, {faults} faults; refused: {refused} methods, {met} faults"
        )
    }
}

/// Why there is nothing to be walked through.
#[derive(Clone, Copy, Debug, Error)]
pub enum Trouble {
    /// Memory ran out.
    #[error("no memory")]
    Memory,
    /// There is no first file, or a file is not a well-formed class.
    #[error("no class")]
    NoClass,
    /// The classes are no hierarchy.
    #[error("no hierarchy")]
    NoHierarchy,
}

impl From<AllocError> for Trouble {
    fn from(_error: AllocError) -> Trouble {
        Trouble::Memory
    }
}

impl<T: Drop> From<AllocFailed<T>> for Trouble {
    fn from(_failed: AllocFailed<T>) -> Trouble {
        Trouble::Memory
    }
}

impl From<StepFault> for Trouble {
    fn from(_fault: StepFault) -> Trouble {
        Trouble::Memory
    }
}

impl Counts {
    fn new() -> Counts {
        Counts {
            methods: 0,
            steps: 0,
            faults: 0,
            refused: 0,
            met: 0,
        }
    }

    fn add(&mut self, is_verified: bool, found: Found) {
        if is_verified {
            self.methods = self.methods.saturating_add(1);
            self.steps = self.steps.saturating_add(found.steps);
            self.faults = self.faults.saturating_add(found.faults);
        } else {
            self.refused = self.refused.saturating_add(1);
            self.met = self.met.saturating_add(found.faults.min(1));
        }
    }
}

/// The code of a method.
fn code_of<'a>(method: &CodeMethod<'_, 'a>) -> &'a [u8] {
    method.code.code
}

/// The walks through the method of a number, by so many choices; none where it has no code, or its bytes are not code.
fn walk_method<C: Classes>(
    alloc: Global,
    formed: &Formed<'_, '_>,
    number: usize,
    classes: &C,
    chance: &mut Chance,
    choices: u32,
) -> Result<Option<Found>, Trouble> {
    if number >= formed.class().methods.len() {
        return Ok(None);
    }
    let Some(declared) = formed.method(number) else {
        return Ok(None);
    };
    let code = code_of(&declared);
    if code.len() > MAX_CODE_BYTES {
        return Ok(None);
    }
    let Ok(list) = decode_code(alloc, code) else {
        return Ok(None);
    };
    let Ok(method) = Method::new(alloc, formed, number) else {
        return Ok(None);
    };
    let types = types_of(alloc, formed.class())?;
    let scene = Scene {
        declared: &declared,
        method: &method,
        list: &list,
        types: &types,
        classes,
    };
    Ok(Some(walk_through(alloc, &scene, chance, choices)?))
}

/// Whether the method of a number has the code that it has in another class.
fn has_code_of(class: &ClassFile<'_>, other: &ClassFile<'_>, number: usize) -> bool {
    match (class.methods.get(number), other.methods.get(number)) {
        (Some(method), Some(another)) => match (method.code(), another.code()) {
            (Some(code), Some(more)) => code.code == more.code,
            _ => false,
        },
        _ => false,
    }
}

/// Whether the method of a number is verified; none where it has no code, or the classes have another in place of
/// its class.
fn is_verified<C: Classes>(
    alloc: Global,
    formed: &Formed<'_, '_>,
    number: usize,
    classes: &C,
) -> Option<bool> {
    if number >= formed.class().methods.len() {
        return None;
    }
    match verify_method(alloc, formed, number, classes) {
        Ok(Verdict::Verified) => Some(true),
        Ok(Verdict::Refused { .. }) => Some(false),
        Ok(Verdict::NoCode) | Err(_) => None,
    }
}

/// Walks through the methods of a class.
fn explore_class<C: Classes>(
    alloc: Global,
    formed: &Formed<'_, '_>,
    classes: &C,
    chance: &mut Chance,
    counts: &mut Counts,
) -> Result<(), Trouble> {
    for number in 0..formed.class().methods.len() {
        if let Some(verified) = is_verified(alloc, formed, number, classes) {
            if let Some(found) = walk_method(alloc, formed, number, classes, chance, CHOICES)? {
                counts.add(verified, found);
            }
        }
    }
    Ok(())
}

/// Walks through the methods of a damaged copy of a class: those that are refused, and those that have other code.
fn explore_copy<C: Classes>(
    alloc: Global,
    formed: &Formed<'_, '_>,
    whole: &ClassFile<'_>,
    classes: &C,
    chance: &mut Chance,
    counts: &mut Counts,
) -> Result<(), Trouble> {
    for number in 0..formed.class().methods.len() {
        let is_same = has_code_of(formed.class(), whole, number);
        match is_verified(alloc, formed, number, classes) {
            Some(verified) if !verified || !is_same => {
                let walked = walk_method(
                    alloc,
                    formed,
                    number,
                    classes,
                    chance,
                    CHOICES_IN_COPIES,
                )?;
                if let Some(found) = walked {
                    counts.add(verified, found);
                }
            }
            _ => {}
        }
    }
    Ok(())
}

/// The bytes with one of them changed.
fn damaged(alloc: Global, bytes: &[u8], chance: &mut Chance) -> Result<Vec<u8>, AllocError> {
    let mut copy = bytes.to_vec(alloc)?;
    let place = chance.below(bytes.len());
    let byte = u8::try_from(chance.below(256)).unwrap_or(0);
    if let Some(at) = copy.get_mut(place) {
        *at = byte;
    }
    Ok(copy)
}

/// Walks through the methods of a damaged copy, where its bytes are a class that is well formed.
fn explore_bytes<C: Classes>(
    alloc: Global,
    bytes: &[u8],
    whole: &ClassFile<'_>,
    classes: &C,
    chance: &mut Chance,
    counts: &mut Counts,
) -> Result<(), Trouble> {
    let Ok(class) = decode(alloc, bytes) else {
        return Ok(());
    };
    match form_check(alloc, &class) {
        Ok(formed) => explore_copy(alloc, &formed, whole, classes, chance, counts),
        Err(_) => Ok(()),
    }
}

/// Walks through the methods of a class and of its damaged copies.
fn explore_among<C: Classes>(
    alloc: Global,
    bytes: &[u8],
    class: &ClassFile<'_>,
    classes: &C,
) -> Result<Counts, Trouble> {
    let Ok(formed) = form_check(alloc, class) else {
        return Err(Trouble::NoClass);
    };
    let (mut chance, mut counts) = (Chance::new(1), Counts::new());
    explore_class(alloc, &formed, classes, &mut chance, &mut counts)?;
    for _ in 0..COPIES {
        let copy = damaged(alloc, bytes, &mut chance)?;
        explore_bytes(alloc, &copy, class, classes, &mut chance, &mut counts)?;
    }
    Ok(counts)
}

/// The summary of the class that bytes are.
fn summary<'a>(alloc: Global, bytes: &'a [u8]) -> Result<Summary<'a>, Trouble> {
    let Ok(class) = decode(alloc, bytes) else {
        return Err(Trouble::NoClass);
    };
    match form_check(alloc, &class) {
        Ok(formed) => Ok(summary_of(alloc, &formed)?),
        Err(_) => Err(Trouble::NoClass),
    }
}

/// Walks through the methods of the class that the first file is, among the classes that all files are.
pub fn explore(alloc: Global, files: &[Vec<u8>]) -> Result<Counts, Trouble> {
    let Some(first) = files.first() else {
        return Err(Trouble::NoClass);
    };
    let mut list = Vec::new(alloc);
    for bytes in files {
        list.push(summary(alloc, bytes)?)?;
    }
    let hasher: BuildHasherDefault<FoldHasher> = BuildHasherDefault::new();
    let Ok(class) = decode(alloc, first) else {
        return Err(Trouble::NoClass);
    };
    match Rows::new(alloc, &list, hasher) {
        Ok(classes) => explore_among(alloc, first, &class, &classes),
        Err(_) => Err(Trouble::NoHierarchy),
    }
}
