//! The constant pool of a class file: read, written and looked up.
//!
//! Proved against the pool's format and its look-ups over a list of entries (JVMS 4.1, 4.4;
//! `specs/Entries.antt`, `specs/Lookups.antt`). The one type to know is [`Pool`]: as a
//! [`Part`](layout::Part) it is read and written, and [`Pool::get`] and its kin look up in it.
//!
//! - `class_types`: the type that a Class constant names
//! - `constant`: what stands at an index
//! - `constant_pool`: the pool as one value, and as a part
//! - `constant_types`: the types of a class, a field, a method, a computed constant or a call site, for instructions
//! - `fault`: why a look-up fails
//! - `kind`: the kinds of a method handle's reference
//! - `laws`: what the look-ups find, by what stands where; its functions do nothing
//! - `lookups`: what stands at an index, and to which texts it leads
//! - `reading`: bytes to constants
//! - `reference`: what a NameAndType, a Fieldref, a method's reference and an InvokeDynamic lead to
//! - `writing`: constants to bytes
#![tactic(auto)]

mod class_types;
mod constant;
mod constant_pool;
mod constant_types;
mod fault;
mod kind;
mod laws;
mod lookups;
mod reading;
mod reference;
mod writing;

pub use constant::Constant;
pub use constant_pool::Pool;
pub use constant_types::ConstantTypes;
pub use fault::PoolFault;
pub use kind::ReferenceKind;
pub use laws::{found_where_it_stands, refused_where_nothing_fits};
pub use reading::read_pool;
pub use reference::{CallSite, FieldConstant, FieldRef, MethodConstant, MethodRef, NameAndType};
pub use writing::put_pool;
