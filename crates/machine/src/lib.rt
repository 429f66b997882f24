//! An abstract machine of the JVM for one method (JVMS 2.6, 2.10, 2.11, 6.5): tagged values, objects by their
//! addresses, and no frames. Proved against its definitions in specs. The calls to know are [`Method::new`],
//! [`initial`], [`step`] and [`walk`].
//!
//! - `items`, `objects`, `snapshot`: values, objects and states.
//! - `choosing`: what a step leaves open, and what comes of it.
//! - `body`, `making`: the method that runs, and how it is made of a class.
//! - `starts`: the instruction at an offset.
//! - `constants`, `own_class`: what constants name, and what the class file says of the method's class.
//! - `effect`, `effects`, `fields`, `calls`, `creations`: what an instruction does.
//! - `fitting`, `operands`, `demands`: which values fit which types, and when a state is not a fault.
//! - `stacking`, `storing`, `execution`, `completion`: what comes of an instruction.
//! - `subtypes`, `heaps`, `raising`: run-time types, objects by their addresses, and what is raised.
//! - `stepping`: a step.
//! - `beginnings`, `held_values`: states in which a method may begin, and values read back from local variables.
//! - `walks`: steps by a list of choices.
//! - `laws`: laws that guard the definitions, in the words of `specs/ByAct.antt` and `specs/ByType.antt`.
//!
//! Definitions:
//!
//! - `specs/Values.antt`: values, local variables and stacks.
//! - `specs/Heap.antt`: objects, and which values fit which types.
//! - `specs/Effects.antt`: what each instruction takes, gives and does.
//! - `specs/Demands.antt`: when a state is not a fault.
//! - `specs/Steps.antt`: what comes of an instruction and a choice.
//! - `specs/Runs.antt`: initial states and runs.
//! - `specs/Walks.antt`: walks by a list of choices.
//! - `specs/Breadth.antt`, `specs/Pushes.antt`: laws of steps: nothing is left out, nothing else happens, and what
//!   stands on the stack after them.
//! - `specs/Uses.antt`: a law of the objects that an instruction uses.
//! - `specs/OperandTypes.antt`, `specs/NamedConstants.antt`, `specs/Stores.antt`: laws of what an instruction takes, of the
//!   constant that it names, and of what a store leaves.
//! - `specs/Below.antt`: a law of which types are below which.
//! - `specs/SharedWords.antt`: laws of the words that rules and machine share.
//! - `specs/RunBreadth.antt`: laws of initial states and runs.
//! - `specs/ByAct.antt`, `specs/ByType.antt`: the words in which laws speak.
//! - `specs/Views.antt`, `specs/Bodies.antt`: what the program's values stand for.
//! - `specs/Stepped.antt`: what `step` returns.
//! - `specs/private/`: words of the code's own steps; nothing that a reader must believe rests on them.
#![tactic(auto)]

mod beginnings;
mod body;
mod calls;
mod choosing;
mod completion;
mod constants;
mod creations;
mod demands;
mod effect;
mod effects;
mod execution;
mod fields;
mod fitting;
mod heaps;
mod held_values;
mod items;
pub mod laws;
mod making;
mod objects;
mod operands;
mod own_class;
mod raising;
mod snapshot;
mod stacking;
mod starts;
mod stepping;
mod storing;
mod subtypes;
mod walks;

pub use beginnings::{initial, is_initial};
pub use body::{ExceptionEntry, Method};
pub use choosing::{Choice, Outcome, StepFault};
pub use items::{Slot, Value};
pub use objects::{Object, RunType, Status};
pub use snapshot::State;
pub use stepping::step;
pub use walks::{Last, Walked, walk};
