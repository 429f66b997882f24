//! The tests of the public calls of `layout`, `names`, `pool`, `classfile` and `insn`. They stand in a crate of their
//! own, so that each library is proved once and not a second time with its tests; `lower_calls`, `machine_calls`, `verify_calls` and `public_calls` have
//! those of the libraries above, so that the three can be proved beside each other.
//!
//! | File | What it tests |
//! |---|---|
//! | `parts` | `layout`: numbers, lists, and what is written part by part |
//! | `streams` | `layout` and `classfile`: readers that hand their bytes out in pieces, end early or fail |
//! | `texts` | `names`: texts, names and descriptors |
//! | `text_blocks` | `names`: texts of lengths around those that lanes take, with each wrong part at each place |
//! | `constant_pools` | `pool`: pools, and look-ups in them |
//! | `named_constants` | `pool`: what instructions name, read once |
//! | `class_files`, `class_forms` | `classfile`: class files both ways, and which are well formed |
//! | `attribute_numbers` | `classfile`: attributes of numbers, read by row and column, and written |
//! | `code_reading`, `code_writing` | `insn`: code both ways |
//! | `code_forms` | `insn`: the form of each instruction |
//! | `making` | what several of them, and of those in the other crates of tests, stand on |
//!
//! A test with `memory` in its name passes also where any one allocation fails; `tests/run/allocations` runs those so.
#![tactic(auto)]

#[cfg(test)]
mod attribute_numbers;
#[cfg(test)]
mod class_files;
#[cfg(test)]
mod class_forms;
#[cfg(test)]
mod code_forms;
#[cfg(test)]
mod code_reading;
#[cfg(test)]
mod code_writing;
#[cfg(test)]
mod constant_pools;
pub mod making;
#[cfg(test)]
mod named_constants;
#[cfg(test)]
mod parts;
#[cfg(test)]
mod streams;
#[cfg(test)]
mod text_blocks;
#[cfg(test)]
mod texts;
