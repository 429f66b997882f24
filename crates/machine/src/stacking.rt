//! The operand stack, of which the last item is the top.
ghost use Rattle.std.specs.Prelude.{◌≡◌, ◌++◌, IfOk, OnOk, drop, slice_get, option_map};
ghost use Rattle.insn.specs.OperandStacks.{beneath, chosen, rearranged};
ghost use Rattle.insn.specs.Views.{stack_form_view};
ghost use Rattle.machine.specs.private.EffectViews.{demands_view};
ghost use Rattle.machine.specs.Views.{value_view, stack_of};

use crate::effect::Demand;
use crate::items::Value;
use insn::StackForm;
use std::alloc::{AllocError, Global};

// The stack beneath so many items.
fn beneath_so_many(count: usize, stack: &[Value]) -> &[Value]
    ensures { stack_of result.now ≡ drop count (stack_of stack.now) }
{
    &stack[..stack.len().saturating_sub(count)]
}

/// The stack beneath as many operands.
pub fn beneath<'s>(demands: &[Demand<'_>], stack: &'s [Value]) -> &'s [Value]
    ensures { stack_of result.now ≡ beneath (demands_view demands.now) (stack_of stack.now) }
{
    beneath_so_many(demands.len(), stack)
}

/// Takes so many items from the stack.
pub fn drop_items(count: usize, stack: &mut Vec<Value>)
    ensures { stack_of stack.new.items ≡ drop count (stack_of stack.old.items) }
{
    stack.truncate(stack.len().saturating_sub(count));
}

/// Takes as many operands from the stack.
pub fn take_operands(demands: &[Demand<'_>], stack: &mut Vec<Value>)
    ensures { stack_of stack.new.items ≡ beneath (demands_view demands.now) (stack_of stack.old.items) }
{
    drop_items(demands.len(), stack);
}

/// The item of a number. The top has number 0.
pub fn item(number: usize, stack: &[Value]) -> Option<Value>
    ensures { option_map value_view result ≡ slice_get (stack_of stack.now) number }
{
    if number < stack.len() {
        Some(stack[stack.len() - 1 - number])
    } else {
        None
    }
}

// Pushes the items of these numbers, the first one last. A number that no item has is passed over.
fn push_chosen(numbers: &[usize], stack: &[Value], after: &mut Vec<Value>) -> Result<(), AllocError>
    ensures { OnOk result (stack_of after.new.items ≡ chosen (stack_of stack.now) numbers.now
        ++ stack_of after.old.items) }
{
    match numbers {
        [] => Ok(()),
        [number, numbers @ ..] => {
            push_chosen(numbers, stack, after)?;
            if *number < stack.len() {
                after.push(stack[stack.len() - 1 - *number])?;
            }
            Ok(())
        }
    }
}

// A stack of these items.
fn copy_of(alloc: Global, stack: &[Value]) -> Result<Vec<Value>, AllocError>
    ensures { IfOk result (λ v. v.items ≡ stack.now) }
{
    let mut copy = Vec::new(alloc);
    copy.extend_from_slice(stack)?;
    Ok(copy)
}

/// The stack after a form: what it leaves, on what it did not take.
pub fn rearranged(alloc: Global, form: StackForm, stack: &[Value]) -> Result<Vec<Value>, AllocError>
    ensures { IfOk result (λ v. stack_of v.items ≡ rearranged (stack_form_view form) (stack_of stack.now)) }
{
    let mut after = copy_of(alloc, beneath_so_many(form.takes.len(), stack))?;
    push_chosen(form.leaves, stack, &mut after)?;
    Ok(after)
}
