//! Verification types and frames, and when one may stand where another is wanted; stack maps. Proved against the
//! answers in specs/Assignable.antt and specs/FrameAssignable.antt (JVMS 4.10.1.2 and 4.10.1.4), and the formats in
//! specs/StackMaps.antt (4.7.4). The calls to know are [`frame_assignable`] and [`read_map`].
//!
//! - `code_starts`: where the instructions of a method's code begin, byte by byte.
//! - `assignability`: one type to another.
//! - `frame_assignability`: one frame to another.
//! - `constants`: the classes that entries name by the constant pool.
//! - `declaring`: the frames that a stack map declares.
//! - `difference`: what differs first of two frames, and where a class is missing first.
//! - `entry_faults`: the entry that bytes do not spell.
//! - `frame`: frames.
//! - `frame_fault`: why an entry is refused.
//! - `laws`: what the answers mean, by chains of superclasses and place by place.
//! - `map_reading`, `map_writing`: the two directions of a stack map.
//! - `naming`: the types of what descriptors and Class constants name.
//! - `objects`: the own object that is not initialized.
//! - `packed_frame`: frames with their slots, compared by lanes.
//! - `packing`: types as slots of four bytes.
//! - `refusing`: an entry judged.
//! - `stack_map`: stack maps, and `read_map`.
//! - `starts`: where instructions begin.
//! - `slot_comparison`: where equal slots do not decide.
//! - `vtype`: verification types.
#![tactic(auto)]

mod assignability;
mod code_starts;
mod constants;
mod declaring;
mod difference;
mod entry_faults;
mod frame;
mod frame_assignability;
mod frame_fault;
pub mod laws;
mod map_reading;
mod map_writing;
mod naming;
mod objects;
mod packed_frame;
mod packing;
mod refusing;
mod slot_comparison;
mod stack_map;
mod starts;
mod vtype;

pub use assignability::assignable;
pub use code_starts::CodeStarts;
pub use declaring::{RefusedEntry, declared};
pub use difference::{Difference, Mismatch, Sought, first_difference, first_missing, is_sought};
pub use entry_faults::faulty_entry;
pub use frame::Frame;
pub use frame_assignability::{both, frame_assignable, width};
pub use frame_fault::FrameFault;
pub use naming::{array_of, held_by, number_type, reference_to};
pub use objects::is_own;
pub use packed_frame::{Packed, packed_assignable};
pub use packing::pack;
pub use refusing::{Limits, Sizes, judge_entry};
pub use slot_comparison::{ABSENT, first_undecided};
pub use stack_map::{MapEntry, StackMap, TypeInfo, read_map};
pub use starts::Starts;
pub use vtype::VType;
