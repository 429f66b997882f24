//! The rules by which an instruction is verified (JVMS 4.10.1.9), on the running frame of a `MethodFrames`, whose types
//! are numbers. Proved against the conditions and the frame after of the crate `rules` (specs/Rules.antt and
//! specs/After.antt there), for the types that the numbers stand for. Each call changes the running frame in place, and
//! nothing else of the frames. The calls are [`run`], for an instruction of any kind; [`run_plain`], for a plain one
//! (`rules::is_plain`); and [`push`], with [`pushed_at_once`], for one that only pushes.
//!
//! - `arguments`: how the arguments and the receiver of a call are taken off the stack.
//! - `arrays`: instructions that make arrays of primitive types, and read and write elements of arrays.
//! - `body`: the code of a method, with what the rules of its instructions ask for.
//! - `calls`: instructions that call methods, but for `invokespecial`.
//! - `class_operands`: instructions whose operand is a class: `checkcast`, `instanceof`, and those that make arrays of
//!   references and of arrays.
//! - `constant_loads`: instructions that load constants of the pool: `ldc` and its like.
//! - `constant_lookups`: the constants that instructions name, looked up in the table of a class's constants.
//! - `constructor_calls`: calls of constructors, by `invokespecial`.
//! - `expected`: the expected types of operands and local variables, and whether a type meets one.
//! - `fields`: instructions that read and write fields.
//! - `fixed_numbers`: the numbers that top, `int`, `float`, `double`, `long` and null have in every method.
//! - `invoke_special`: `invokespecial`, of constructors and of other methods.
//! - `local_rules`: the rules of loads, stores and increments of local variables.
//! - `local_writes`: how a type is written to a local variable, with the halves of a long or double beside it.
//! - `object_creation`: `new`.
//! - `operands`: how operands are taken off the stack.
//! - `pops_and_pushes`: the rules that most instructions share: operands are popped, a result is pushed, and the frame
//!   after is judged.
//! - `pushing`: instructions that leave all operands and push one type, where the numbers of types tell at once that
//!   they may.
//! - `returning`: returns.
//! - `rule_numbers`: the numbers of the types that the rules of a method's instructions ask for.
//! - `running`: the rule of an instruction by its act: it leads to the others.
//! - `simple_rules`: one function each for the instructions that compute, branch, throw, and load and store locals, by
//!   `pops_and_pushes` and `local_rules`.
//! - `stacks`: instructions that move items of the stack, such as `dup` and `swap`.
//!
//! Definitions: `specs/Expected.antt` has the expected types by numbers, and which expected types of `rules` they stand
//! for; `specs/RunningFrame.antt` the frame that the running frame stands for; `specs/RuleNumbers.antt` the numbers
//! that [`run`] is given; `specs/Pushing.antt` the act and the numbers that [`push`] is given.
//!
//! `docs/DEFINITIONS.md` says in a sentence what each file of `specs/` holds.
#![tactic(auto)]

mod arguments;
mod arrays;
mod body;
mod calls;
mod class_operands;
mod constant_loads;
mod constant_lookups;
mod constructor_calls;
mod expected;
mod fields;
mod fixed_numbers;
mod invoke_special;
mod local_rules;
mod local_writes;
mod object_creation;
mod operands;
mod pops_and_pushes;
mod pushing;
mod returning;
mod rule_numbers;
mod running;
mod simple_rules;
mod stacks;

pub use body::Body;
pub use fixed_numbers::TOP;
pub use pushing::{push, pushed_at_once};
pub use rule_numbers::{NamedFacts, RuleNumbers};
pub use running::{run, run_plain};
