//! The classes that a class is verified against, their superclasses, and what is asked of them. Proved against the
//! finite chains of superclasses in specs/World.antt (JVMS 4.10.1.2). The call to know is [`Rows::new`], which makes
//! a list of summaries answer as [`Classes`]; [`Chains::new`] makes one that answers the same by a walk.
//!
//! - `summary`: the summary of a class.
//! - `texts`: texts of a constant pool, each kept once.
//! - `class_summary`: the summary of a class file.
//! - `answer`: yes, no, or a class that would be needed and is absent.
//! - `classes`: the questions, whatever keeps the classes.
//! - `fault`: why a list of classes is refused.
//! - `name_key`: the names of classes as keys of a hash table.
//! - `index`: a list of classes, each found by its name.
//! - `places`: places in a list of classes.
//! - `rules`: the rules that a single class may break, and the first class that does.
//! - `cycles`: the first class that stands on the chain of its own superclasses.
//! - `checked_classes`: a list of classes that keeps the rules.
//! - `chains`: classes by a walk along their superclasses.
//! - `same_summaries`: whether two summaries are the same.
//! - `skips`: skips up the chain of superclasses, by doubled steps.
//! - `row_table`: rows of ancestors, one after the other.
//! - `rows`: classes by rows of ancestors.
//! - `member_references`: references to members that are protected and of another package.
//! - `superclasses`: the classes above a class.
//! - `spot`: members by numbers of their texts, at a class above.
//! - `text_numbers`: numbers of texts, of which each is looked up once.
//! - `starts`: where references begin to look for declarations.
//! - `flags`: declarations of the classes above, and the first from a class upward.
//! - `ancestry`: classes with all that stand above them, each after its superclass.
//! - `versions`: arrays of numbers whose versions share what is equal.
//! - `member_key`: members by numbers of their texts.
//! - `member_numbers`: numbers of members, by kind, name and descriptor.
//! - `numbered_members`: which members get numbers.
//! - `sketches`: sketches of names, by which most names need no look-up.
//! - `inheritance`: what classes inherit, found for many at once.
//! - `final_methods`: the final methods that classes have and inherit, found for many at once.
//! - `overriding_parts`: the parts that methods take in overriding.
//! - `overriding`: the first method of a class that overrides a final one.
//! - `prepared_classes`: classes with what some of them inherit.
//! - `package`: packages of classes.
//! - `laws`: what holds of faults, chains and worlds.
#![tactic(auto)]

mod ancestry;
mod answer;
mod chains;
mod checked_classes;
mod class_summary;
mod classes;
mod cycles;
mod fault;
mod final_methods;
mod flags;
mod index;
mod inheritance;
pub mod laws;
mod member_key;
mod member_numbers;
mod member_references;
mod name_key;
mod numbered_members;
mod overriding;
mod overriding_parts;
mod package;
mod places;
mod prepared_classes;
mod row_table;
mod rows;
mod rules;
mod same_summaries;
mod sketches;
mod skips;
mod spot;
mod starts;
mod summary;
mod superclasses;
mod text_numbers;
mod texts;
mod versions;

pub use answer::Answer;
pub use chains::Chains;
pub use class_summary::{name_of, summary_of};
pub use classes::Classes;
pub use cycles::twice_as_far;
pub use fault::HierarchyFault;
pub use member_references::{MemberRef, References, guarded};
pub use overriding::overriding_method;
pub use prepared_classes::Prepared;
pub use rows::Rows;
pub use same_summaries::same_summary;
pub use summary::{Kind, MemberPlaces, MemberSummary, Overriding, Summary};
pub use texts::Texts;
