//! The frames of one method, with types by their numbers: the running frame, which instructions change, and the
//! declared frames, which stay as they are.
//!
//! - `declaring`: the frames that the entries of a stack map declare.
//! - `entry_buffers`: memory for the types of an entry of a stack map, kept from method to method.
//! - `entry_locals`: the locals of the frame that the entries of a stack map have declared so far: the next entry adds
//!   to them or chops some.
//! - `holders`: the places at which the running frame holds objects that are not initialized.
//! - `items`: the items of an operand stack.
//! - `laws`: what the numbers of objects mean; its functions do nothing.
//! - `method_frames`: the frames of a method, put together of the others.
//! - `objects`: objects that are not initialized, by their numbers.
//! - `rearranging`: how instructions such as `dup` and `swap` move items of an operand stack.
//! - `stack_rows`: operand stacks of the running frame and of the declared frames, and whether one is assignable to
//!   another.
//! - `type_rows`: rows of types of the running frame and of the declared frames, and whether one is assignable to
//!   another.
//! - `widths`: how many units types take.
//!
//! `docs/DEFINITIONS.md` says in a sentence what each file of `specs/` holds.
#![tactic(auto)]

mod declaring;
mod entry_buffers;
mod entry_locals;
mod holders;
mod items;
pub mod laws;
mod method_frames;
mod objects;
mod rearranging;
mod stack_rows;
mod type_rows;
mod widths;

pub use declaring::declare;
pub use method_frames::MethodFrames;
pub use objects::{OWN_OBJECT, is_uninitialized, made_object};
pub use widths::is_wide;
