//! The tests of the public calls of `machine`, in a crate of their own, so that nothing of them waits for the verifier.
//!
//! | File | What it tests |
//! |---|---|
//! | `machine_steps`, `object_steps` | single steps |
//! | `machine_faults` | each kind of fault; `fault_setting` has what its rows stand on |
//! | `walks`, `walk_choices` | steps by a list of choices, from where a method begins |
//! | `making` | what several of them, and of those in `verify_calls`, stand on |
//!
//! A test with `memory` in its name passes also where any one allocation fails; `tests/run/allocations` runs those so.
#![tactic(auto)]

#[cfg(test)]
mod fault_setting;
#[cfg(test)]
mod machine_faults;
#[cfg(test)]
mod machine_steps;
pub mod making;
#[cfg(test)]
mod object_steps;
#[cfg(test)]
mod walk_choices;
#[cfg(test)]
mod walks;
