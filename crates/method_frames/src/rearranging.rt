//! The items of an operand stack in place, by the numbers of their types.
ghost use Rattle.std.specs.Prelude.{◌≡◌, ◌≤◌, ◌-◌, length, take, reverse, OnOk};
ghost use Rattle.insn.specs.OperandStacks.{rearranged};
ghost use Rattle.insn.specs.Views.{stack_form_view};
ghost use Rattle.method_frames.specs.private.Moves.{Pushes};

use insn::StackForm;
use std::alloc::AllocError;

/// Pushes the items of these places, the first one last. The top has place 0; a place that no item has is passed over.
fn push_chosen(places: &[usize], stack: &mut Vec<u32>) -> Result<(), AllocError>
    ensures { OnOk result (Pushes places.now stack.old.items stack.new.items) }
{
    let height = stack.len();
    match places {
        [] => Ok(()),
        [place, places @ ..] => {
            push_chosen(places, stack)?;
            if *place < height {
                let item = stack[height - 1 - *place];
                stack.push(item)?;
            }
            Ok(())
        }
    }
}

/// Takes the items of a form off, and pushes what it leaves (JVMS 2.11.6). Nothing is said of the items where memory
/// ran out.
pub fn rearrange(form: StackForm, stack: &mut Vec<u32>) -> Result<(), AllocError>
    requires { length form.takes.now ≤ length stack.old.items }
    ensures all { OnOk result (reverse stack.new.items
        ≡ rearranged (stack_form_view form) (reverse stack.old.items)) }
    ensures kept { OnOk result (take (length stack.old.items - length form.takes.now) stack.new.items
        ≡ take (length stack.old.items - length form.takes.now) stack.old.items) }
    ensures above { OnOk result (length stack.old.items - length form.takes.now ≤ length stack.new.items) }
{
    let height = stack.len();
    let below = height - form.takes.len();
    push_chosen(form.leaves, stack)?;
    for _ in below..height {
        stack.remove(below);
    }
    Ok(())
}
