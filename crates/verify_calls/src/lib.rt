//! The tests of the public calls of `verify`, in a crate of their own, so that they wait for nothing above it.
//!
//! | File | What it tests |
//! |---|---|
//! | `instruction_rules` | single instructions by their rules |
//! | `verdicts` | verdicts and reports |
//! | `verified_files` | verdicts on the classes that files are, alone, among known ones and in play |
//! | `judged_files` | verdicts on the classes that many files are, each among all of them |
//! | `classes_in_play` | reports on classes that run together |
//! | `dynamic_calls` | dynamic calls and constants, looked up (`pool`, `rules`), judged and run |
//! | `verified_walks` | walks of the machine through methods that are verified |
//!
//! A test with `memory` in its name passes also where any one allocation fails; `tests/run/allocations` runs those so.
#![tactic(auto)]

#[cfg(test)]
mod classes_in_play;
#[cfg(test)]
mod dynamic_calls;
#[cfg(test)]
mod instruction_rules;
#[cfg(test)]
mod judged_files;
#[cfg(test)]
mod verdicts;
#[cfg(test)]
mod verified_files;
#[cfg(test)]
mod verified_walks;
