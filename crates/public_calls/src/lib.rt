//! The tests of the public calls of `answers`, `serving` and `command_line`, and of the faults of all libraries. They stand in a
//! crate of their own, above them all, so that each library is proved once and not a second time with its tests;
//! `verify_calls`, `machine_calls`, `lower_calls` and `format_calls` have those of the other libraries.
//!
//! | File | What it tests |
//! |---|---|
//! | `releases` | `classfile`, `verify`, `answers`: versions of class files, and classes as a release judges them |
//! | `release_calls` | `verify`, `rules`: interfaces whose methods are called, as a release judges it |
//! | `file_answers` | `answers`: what each command answers of files, read or not |
//! | `command_lines` | `command_line`: what a line asks for, and what the program complains of |
//! | `conversations` | `serving`: the replies to messages, and where a conversation stops |
//! | `fault_texts` | how each fault is displayed |
//!
//! A test with `memory` in its name passes also where any one allocation fails; `tests/run/allocations` runs those so.
#![tactic(auto)]

#[cfg(test)]
mod command_lines;
#[cfg(test)]
mod conversations;
#[cfg(test)]
mod fault_texts;
#[cfg(test)]
mod file_answers;
#[cfg(test)]
mod release_calls;
#[cfg(test)]
mod releases;
