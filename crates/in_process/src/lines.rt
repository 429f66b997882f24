//! Lines of classes, each below the one before, and flat lists, kept in rows of ancestors or asked by a walk along
//! their superclasses, for `bench/hierarchy` to measure.
use hierarchy::{Answer, Chains, Classes, Rows, Summary};
use names::OBJECT;
use std::alloc::{AllocError, Global};
use std::hash::{BuildHasherDefault, FoldHasher};

/// The names of as many classes: numbers of two bytes.
fn numbers(alloc: Global, count: u16) -> Result<Vec<[u8; 2]>, AllocError> {
    (0..count).map(|number| number.to_be_bytes()).collect(alloc)
}

fn summary<'a>(alloc: Global, name: &'a [u8], superclass: Option<&'a [u8]>) -> Summary<'a> {
    Summary {
        name,
        superclass,
        interface: false,
        is_final: false,
        texts: Vec::new(alloc),
        members: Vec::new(alloc),
    }
}

/// The classes of these names and `java/lang/Object`: each below the one after it, and the last below Object; or all
/// below Object.
fn list_of<'a>(
    alloc: Global,
    names: &'a [[u8; 2]],
    in_line: bool,
) -> Result<Vec<Summary<'a>>, AllocError> {
    let mut list = Vec::with_capacity(alloc, names.len().saturating_add(1))?;
    for (place, name) in names.iter().enumerate() {
        let above: &'a [u8] = match names.get(place.saturating_add(1)) {
            Some(next) if in_line => next,
            _ => OBJECT,
        };
        list.push(summary(alloc, name, Some(above)))?;
    }
    list.push(summary(alloc, OBJECT, None))?;
    Ok(list)
}

/// Asks for 12,345 bytes, as nothing else does, and gives them back, so that whoever counts memory sees the moment.
fn mark(alloc: Global) {
    let _marks: Result<Vec<u8>, AllocError> = Vec::with_capacity(alloc, 12345);
}

/// How often a class of the first four is below `java/lang/Object`, asked so often in turn.
fn count_below<C: Classes>(classes: &C, names: &[[u8; 2]], rounds: u32) -> u32 {
    let mut count: u32 = 0;
    let few = names.len().min(4).max(1);
    for round in 0..rounds {
        if let Some(name) = names.get(round as usize % few) {
            if classes.is_subclass(name, OBJECT) == Answer::Yes {
                count = count.wrapping_add(1);
            }
        }
    }
    count
}

/// Rows of so many classes and Object, with a mark before they are made and one after, and their answers.
fn rows_of(alloc: Global, count: u16, in_line: bool, rounds: u32) -> Option<u32> {
    let hasher: BuildHasherDefault<FoldHasher> = BuildHasherDefault::new();
    let names = numbers(alloc, count).ok()?;
    let list = list_of(alloc, &names, in_line).ok()?;
    mark(alloc);
    let rows = Rows::new(alloc, &list, hasher).ok()?;
    mark(alloc);
    Some(count_below(&rows, &names, rounds))
}

/// The answers of a line of so many classes that is kept in rows; 0 where memory runs out.
#[unsafe(no_mangle)]
pub extern "C" fn in_process_rows(alloc: Global, depth: u16, rounds: u32) -> u32 {
    rows_of(alloc, depth, true, rounds).unwrap_or(0)
}

/// The answers of so many classes that are all below Object, kept in rows; 0 where memory runs out.
#[unsafe(no_mangle)]
pub extern "C" fn in_process_flat(alloc: Global, count: u16, rounds: u32) -> u32 {
    rows_of(alloc, count, false, rounds).unwrap_or(0)
}

/// The answers of a line of so many classes by a walk along the superclasses.
#[unsafe(no_mangle)]
pub extern "C" fn in_process_chains(alloc: Global, depth: u16, rounds: u32) -> u32 {
    let hasher: BuildHasherDefault<FoldHasher> = BuildHasherDefault::new();
    let Ok(names) = numbers(alloc, depth) else {
        return 0;
    };
    let Ok(list) = list_of(alloc, &names, true) else {
        return 0;
    };
    match Chains::new(alloc, &list, hasher) {
        Ok(chains) => count_below(&chains, &names, rounds),
        Err(_) => 0,
    }
}
