//! Walks through a method.
use crate::beginnings::begin;
use crate::chance::Chance;
use crate::choices::choice;
use classfile::CodeMethod;
use hierarchy::Classes;
use insn::Insn;
use machine::{Method, Outcome, RunType, State, StepFault, step};
use std::alloc::Global;

/// How many choices may come to nothing in a state before another beginning is looked for.
const PATIENCE: usize = 100;

/// The surroundings of a walk: the method as the class has it and as the machine takes it, its instructions, and the
/// types of which objects are made.
#[derive(Drop)]
pub struct Scene<'e, 'c, 'a, C: Classes> {
    pub declared: &'e CodeMethod<'c, 'a>,
    pub method: &'e Method<'c, 'a>,
    pub list: &'e [(u16, Insn<'a>)],
    pub types: &'e [RunType<'a>],
    pub classes: &'e C,
}

/// How many steps were taken, and how many faults were met.
#[derive(Clone, Copy)]
pub struct Found {
    pub steps: u64,
    pub faults: u64,
}

/// A walk on its way: the state, and how many choices came to nothing there.
#[derive(Drop)]
struct Walk<'a> {
    state: State<'a>,
    misses: usize,
}

/// The walk after a choice in its state, if it goes on.
fn walk_on<'a, C: Classes>(
    alloc: Global,
    scene: &Scene<'_, '_, 'a, C>,
    walk: Walk<'a>,
    chance: &mut Chance,
    found: &mut Found,
) -> Result<Option<Walk<'a>>, StepFault> {
    let Walk { state, misses } = walk;
    let chosen = choice(alloc, scene, &state, chance)?;
    match step(alloc, scene.method, scene.classes, &state, &chosen) {
        Ok(Outcome::Next(next)) => {
            found.steps = found.steps.saturating_add(1);
            Ok(Some(Walk {
                state: next,
                misses: 0,
            }))
        }
        Ok(Outcome::Ended) => {
            found.steps = found.steps.saturating_add(1);
            Ok(None)
        }
        Ok(Outcome::Fault) => {
            found.faults = found.faults.saturating_add(1);
            Ok(None)
        }
        Err(StepFault::NotAChoice) if misses < PATIENCE => Ok(Some(Walk {
            state,
            misses: misses + 1,
        })),
        Err(StepFault::OutOfMemory) => Err(StepFault::OutOfMemory),
        Err(_) => Ok(None),
    }
}

/// The walk from a state in which the method begins, if what was drawn is one.
fn set_out<'a, C: Classes>(
    alloc: Global,
    scene: &Scene<'_, '_, 'a, C>,
    chance: &mut Chance,
) -> Result<Option<Walk<'a>>, StepFault> {
    match begin(alloc, scene, chance)? {
        Some(state) => Ok(Some(Walk { state, misses: 0 })),
        None => Ok(None),
    }
}

/// Walks through a method by so many choices, from a new beginning where a walk has ended.
pub fn walk_through<'a, C: Classes>(
    alloc: Global,
    scene: &Scene<'_, '_, 'a, C>,
    chance: &mut Chance,
    choices: u32,
) -> Result<Found, StepFault> {
    let mut found = Found {
        steps: 0,
        faults: 0,
    };
    let mut walk = None;
    for _ in 0..choices {
        walk = match walk {
            None => set_out(alloc, scene, chance)?,
            Some(walk) => walk_on(alloc, scene, walk, chance, &mut found)?,
        };
    }
    Ok(found)
}
