//! The local variables of the frames of one method, as rows of numbers that share what they have in common.
//!
//! A row has one number for each local variable, which stands for its verification type; 0 is Top. An [`Arena`] holds
//! the row of the running frame, which instructions change, and the rows of the declared frames, which stay as they
//! are. It is there for a verifier that compares the running frame with many declared ones, however many local
//! variables a method has: a call takes time for what changed or differs, and not for the length of a row.
//!
//! Rows stand in blocks of 16 numbers below trees of at most four levels. Rows share blocks and trees, and a block that
//! is shared is copied before the running row changes it. Two rows are compared from the top down: one node on both
//! sides is equal to itself, a node that was said to fit another need not be compared with it again, and blocks are
//! compared by lanes. Numbers that this leaves open are for the caller to judge, by what the types are:
//!
//! ```text
//! let mut from = 0;
//! while let Some(slot) = arena.first_undecided(row, from) {
//!     // judge arena.get(slot) where arena.get_declared(row, slot) is wanted
//!     from = slot + 1;
//! }
//! arena.note_fit(row);
//! ```
//!
//! The arena knows nothing of types. `specs/Rows.antt` says what its calls do, in terms of lists of numbers and of the
//! pairs of numbers that the caller said to fit; by the laws in `laws`, all of these pairs fit by the caller's own
//! judgement, as long as it says so of rows that do.
//!
//! - `arena`: the rows of a method, and every call on them; replacements may be pending
//! - `block`: blocks of 16 numbers, compared by lanes
//! - `compacting`: copies of the nodes that rows have, without all others
//! - `comparison`: two trees compared slot by slot, as far as numbers and earlier fits decide
//! - `fitting`: nodes that are said to fit others
//! - `lanes`: eight numbers compared at a time; the kernel of `frames` too
//! - `laws`: what the pairs that were said to fit mean; its functions do nothing
//! - `node`: a node of a tree
//! - `pending`: replacements that are pending
//! - `remembering`: nodes that were said to fit others, beside the last one
//! - `replacing`: a number put in place of another, in trees that share what comes of it
//! - `row_trees`: the rows of a method, as trees of nodes that they share
//! - `tree`: what a slot holds, and how a number is put where no other row sees it
#![tactic(auto)]

mod arena;
mod block;
mod compacting;
mod comparison;
mod fitting;
pub mod lanes;
pub mod laws;
mod node;
mod pending;
mod remembering;
mod replacing;
mod row_trees;
mod tree;

pub use arena::Arena;
pub use row_trees::Row;
