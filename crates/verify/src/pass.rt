//! The pass over a method's code, on frames whose types are numbers: [`judge_body`], proved against the verdict in
//! specs/Verdict.antt.
//!
//! - `declared`: the frames that are declared, by their offsets.
//! - `entering`: the frame that comes to an instruction, and the one that is declared there.
//! - `targets`: where an instruction branches to.
//! - `exceptions`: the exception table, judged and made ready for the pass.
//! - `handlers`: the exception handlers during the pass.
//! - `representatives`: frames at handlers that stand for others.
//! - `watching`: the numbers that these frames want of a local variable.
//! - `members`: the member that an instruction uses on an object, and whether it calls a constructor on the own object.
//! - `judging`: one instruction, and how much of it is judged.
//! - `passing`: one pass over the code, which carries one frame.
//! - `method`: a method, by its stack map, its exception table and then its code.
//! - `class_types`: the numbers that the types of a class get before the code of its methods is judged.
//! - `class_numbers`: of these, what the rules of the instructions of all methods ask for.

mod class_numbers;
mod class_types;
pub mod declared;
mod entering;
pub mod exceptions;
mod handlers;
mod judging;
pub mod members;
pub mod method;
mod passing;
mod representatives;
mod targets;
mod watching;

pub use class_types::ClassTypes;
pub use method::judge_body;
