//! The rules by which an instruction is verified (JVMS 4.10.1.9): which conditions refuse it, in specs/Rules.antt, and
//! the frame after it, in specs/After.antt; and what both rest on: the constants of a class, the ways of an
//! instruction, and the expected types of all that it takes. The crate `numbered_rules` runs instructions by these
//! rules.
//!
//! - `reason`: why an instruction is refused; `merging`: the reasons of two judgements taken together.
//! - `ways`: where an instruction goes, and whether it is plain.
//! - `expected_types`: the expected types of all that an instruction takes; `expected`: those of operands; `results`:
//!   the results of methods; `stacks`: how many units an instruction takes that moves items of the stack.
//! - `unmet_expectations`: the first expected type that a frame does not meet, and the first of which that is not
//!   known; `operands`: whether a type meets one; `constructing`: on which objects a constructor may be called.
//! - `calls`: which methods instructions may call.
//!
//! The constants that instructions name:
//!
//! - `naming`: the constant that an instruction names, looked up.
//! - `class_constants`: the constants of a class, with the types and members that its instructions name by them.
//! - `members`: the members among these.
//! - `guards`: which constants name guarded members.
//! - `direct_classes`: the classes whose methods `invokespecial` may call by an InterfaceMethodref.
//! - `protected_members`: on which objects guarded members may be used.
//! - `declaring_class`: the class that declares the method (the current class), and its superclass.
//!
//! Definitions:
//!
//! - `specs/TypingRules.antt`: what rules ask and do, family by family.
//! - `specs/Table.antt`: the typing rule of each instruction; `specs/Constants.antt`: of each that names a constant.
//! - `specs/Naming.antt`: which constant an instruction names.
//! - `specs/Rules.antt`: the conditions that refuse an instruction; `specs/Protected.antt`: the conditions on protected
//!   members; `specs/Interfaces.antt`: the one on the interface whose method `invokespecial` calls.
//! - `specs/ReasonNumbers.antt`: the numbers of refusals by their names; `specs/Reasons.antt`: those of the code's
//!   `Reason`.
//! - `specs/After.antt`: the frame after; `specs/Replacing.antt`: an object whose type is replaced in it.
//! - `specs/Ways.antt`: where instructions go; `specs/WayLaws.antt`: that their acts alone decide it.
//! - `specs/ExpectedTypes.antt`: the expected types of all that an instruction takes; `specs/Unmet.antt`: the first of
//!   them that a frame does not meet; `specs/UnmetLaws.antt`: that it is found.
//! - `specs/Outcomes.antt`: the answers of calls that judge an instruction.
//! - `specs/Views.antt`, `specs/Bodies.antt`: the meaning of the code's values, and of a method.
//! - `specs/Guards.antt`: words of the contracts of `guards` and `members`.
#![tactic(auto)]

mod calls;
mod class_constants;
mod constructing;
mod declaring_class;
mod direct_classes;
mod expected;
mod expected_types;
mod guards;
mod members;
mod merging;
mod naming;
mod operands;
mod protected_members;
mod reason;
mod results;
mod stacks;
mod unmet_expectations;
mod ways;

pub use calls::{is_constructor, special_index};
pub use class_constants::ClassConstants;
pub use declaring_class::{class_name, own_class, superclass_name};
pub use expected::ExpectedType;
pub use expected_types::{ExpectedLocal, ExpectedTypes};
pub use members::Members;
pub use merging::{first_reason, together};
pub use naming::Named;
pub use protected_members::{Use, check_object, used_by};
pub use reason::Reason;
pub use results::number_of_result;
pub use stacks::units_taken;
pub use unmet_expectations::{Unmet, UnmetOperand, first_unknown, first_unmet, unmet_is_found};
pub use ways::{branches, branches_by, falls, goes_on, is_plain, typing_rules_go_as_acts};
