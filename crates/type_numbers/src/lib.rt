//! Verification types as numbers of four bytes, for one class at hand: equal types are equal numbers, absent classes
//! included. Proved against the numbers in specs/Numbers.antt. The calls to know are [`TypeNumbers::number`] and
//! [`TypeNumbers::assignable`].
//!
//! - `absent_names`: the names of classes that the hierarchy has not.
//! - `constant_table`: what the constants of a class are to its instructions.
//! - `deciding`: comparisons of types by the parts of their numbers.
//! - `laws`: what holds of numbers and tables.
//! - `loaded_numbers`: the types that constants load by their kinds.
//! - `method_numbers`: the types that descriptors of methods name, each text read once.
//! - `named_constant`: what a constant is to the instructions that name it.
//! - `parts`: the parts of a number.
//! - `recent_places`: the places of classes whose names were asked for a short while ago.
//! - `spelled_types`: the types that a descriptor spells, one after the other.
//! - `tags`: the tags of numbers.
//! - `text_numbers`: the types that texts name, each text read once.
//! - `texts`: the constants that lead to texts.
//! - `type_numbers`: the numbers that the types of one class have.
#![tactic(auto)]

mod absent_names;
mod constant_table;
mod deciding;
pub mod laws;
mod loaded_numbers;
mod method_numbers;
mod named_constant;
mod parts;
mod recent_places;
mod spelled_types;
pub mod tags;
mod text_numbers;
mod texts;
mod type_numbers;

pub use constant_table::ConstantTable;
pub use method_numbers::MethodNumbers;
pub use named_constant::NamedConstant;
pub use parts::{Parts, element_at, uninit_number};
pub use type_numbers::TypeNumbers;
