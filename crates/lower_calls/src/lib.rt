//! The tests of the public calls of the libraries above the formats and below the verifier, and of `printing`.
//! `format_calls` has those of the libraries below; `machine_calls`, `verify_calls` and `public_calls` have those of the
//! libraries above.
//!
//! | File | What it tests |
//! |---|---|
//! | `superclasses` | `hierarchy`: lists of classes, and summaries of class files |
//! | `ancestor_rows` | `hierarchy`: rows of ancestors |
//! | `summaries` | `hierarchy`: summaries compared, and texts of a pool kept once |
//! | `guarded_members` | `hierarchy`: references to protected members of other packages |
//! | `overridden_methods` | `hierarchy`: methods that override a final one |
//! | `assignability` | `frames`: one type or frame where another is wanted |
//! | `differences` | `frames`: the first difference of two frames, and the first class that is missing |
//! | `packed_frames` | `frames`: types as slots, and frames compared by them |
//! | `numbered_types` | `type_numbers`: types as numbers, and tables of constants by them |
//! | `numbered_frames` | `method_frames`: frames by numbers, changed, declared, found, taken on and compared |
//! | `stack_maps`, `declared_frames` | `frames`: stack maps both ways, their frames, and entries at fault |
//! | `shared_rows` | `blocks`: rows of numbers, changed, declared, taken on and compared |
//! | `expected_types` | `rules`: what instructions name, their ways, what a frame lacks, and reasons together |
//! | `printed_text` | `printing`: texts of class files, names and faults |
//! | `declaring` | classes with members, for three of them |
//! | `making` | what several of them, and of those in the crates of tests above, stand on |
//!
//! A test with `memory` in its name passes also where any one allocation fails; `tests/run/allocations` runs those so.
#![tactic(auto)]

#[cfg(test)]
mod ancestor_rows;
#[cfg(test)]
mod assignability;
#[cfg(test)]
mod declared_frames;
#[cfg(test)]
mod declaring;
#[cfg(test)]
mod differences;
#[cfg(test)]
mod expected_types;
#[cfg(test)]
mod guarded_members;
pub mod making;
#[cfg(test)]
mod numbered_frames;
#[cfg(test)]
mod numbered_types;
#[cfg(test)]
mod overridden_methods;
#[cfg(test)]
mod packed_frames;
#[cfg(test)]
mod printed_text;
#[cfg(test)]
mod shared_rows;
#[cfg(test)]
mod stack_maps;
#[cfg(test)]
mod summaries;
#[cfg(test)]
mod superclasses;
