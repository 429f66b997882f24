//! States.
ghost use Rattle.std.specs.Prelude.{◌≡◌, ◌⊎◌, IfOk, MatchResult};
ghost use Rattle.machine.specs.declared.choosing.StepFault.TheVariants.{OutOfMemory, NotAChoice};
ghost use Rattle.machine.specs.Heap.{IsFresh, with_fresh};
ghost use Rattle.machine.specs.Steps.{moved_with};
ghost use Rattle.machine.specs.Views.{fresh_view, state_view};

use crate::choosing::StepFault;
use crate::heaps::{add_fresh, copy_of};
use crate::items::{Slot, Value};
use crate::objects::{Object, RunType};
use std::alloc::{AllocError, Global};
use std::collections::BTreeMap;

/// The state before an instruction (JVMS 2.5, 2.6).
#[derive(Drop)]
pub struct State<'a> {
    /// The offset in the code, in bytes, where the instruction begins.
    pub at: u16,
    /// The operand stack, its top last.
    pub stack: Vec<Value>,
    /// The local variables.
    pub locals: Vec<Slot>,
    /// The objects by their addresses.
    pub heap: BTreeMap<u32, Object<'a>>,
}

impl State<'_> {
    /// The offset in the code, in bytes, where its instruction begins.
    pub(crate) fn offset(&self) -> u16
        ensures { result ≡ (state_view self.now).at }
    {
        self.at
    }
}

/// The state once more.
pub(crate) fn copy_of_state<'a>(alloc: Global, state: &State<'a>) -> Result<State<'a>, AllocError>
    ensures { IfOk result (λ s. state_view s ≡ state_view state.now) }
{
    let mut stack = Vec::new(alloc);
    stack.extend_from_slice(&state.stack)?;
    let mut locals = Vec::new(alloc);
    locals.extend_from_slice(&state.locals)?;
    Ok(State {
        at: state.at,
        stack,
        locals,
        heap: copy_of(&state.heap)?,
    })
}

/// The state with these new objects, which are ready; 54 where an address is in use.
pub(crate) fn with_fresh<'a>(
    state: State<'a>,
    fresh: &[(u32, RunType<'a>)],
) -> Result<State<'a>, StepFault>
    ensures { let s = state_view state.entry in let new = fresh_view fresh.now in
        MatchResult result
        (λ t. IsFresh s.heap new × (state_view t ≡ moved_with s s.at s.stack (with_fresh s.heap new)))
        (λ e. (e ≡ OutOfMemory) ⊎ ((e ≡ NotAChoice) × (IsFresh s.heap new → ⊥))) }
{
    let mut with = state;
    add_fresh(&mut with.heap, fresh)?;
    Ok(with)
}
