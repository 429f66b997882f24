//! `new`
ghost use Rattle.std.specs.Prelude.{◌≡◌, ℕ, List};
ghost use Rattle.pool.specs.ConstantMeanings.{class_at};
ghost use Rattle.type_numbers.specs.Constants.{IsTable};
ghost use Rattle.rules.specs.TypingRules.{makes};
ghost use Rattle.rules.specs.Constants.{new_object};
ghost use Rattle.rules.specs.After.{after};
ghost use Rattle.rules.specs.Rules.{conditions};
ghost use Rattle.rules.specs.Bodies.{method_view};
ghost use Rattle.rules.specs.Outcomes.{Done};
ghost use Rattle.numbered_rules.specs.RunningFrame.{held, IsRunning};

use crate::constant_lookups::class_named;
use crate::pops_and_pushes::push_result;
use classfile::CodeMethod;
use hierarchy::{Answer, Classes};
use method_frames::{MethodFrames, made_object};
use rules::Reason;
use type_numbers::ConstantTable;

/// Makes an object of a class at an offset. An object that was made there before is forgotten in the locals, and must
/// not be on the stack.
fn makes<'n, C: Classes>(
    method: &CodeMethod<'_, '_>,
    at: u16,
    frames: &mut MethodFrames<'_, '_, 'n, C>,
) -> Result<(), Reason<'n>>
    ensures done { (name : List ℕ) → let m = method_view method.now in let f = held frames.old in let p = makes name in
        Done (conditions frames.old.types.classes m at p f) (after m at p f) (held frames.new) result }
    ensures rest { IsRunning frames.old frames.new }
{
    if frames.has_made(at) {
        return Err(Reason::WrongOperand);
    }
    frames.forget(at)?;
    push_result(method, Answer::Yes, made_object(at), frames)
}

/// `new` at an offset. Its refusals are 66 where it names no class, 62 where the object that was made there before is
/// on the stack, 65, and 1 where memory runs out.
pub fn new_object<'n, C: Classes>(
    method: &CodeMethod<'_, '_>,
    at: u16,
    index: u16,
    table: &ConstantTable,
    frames: &mut MethodFrames<'_, '_, 'n, C>,
) -> Result<(), Reason<'n>>
    requires { IsTable frames.old.types (method_view method.now).constant_pool table.now }
    ensures done { let m = method_view method.now in let f = held frames.old in
        let p = new_object (class_at m.constant_pool index) in
        Done (conditions frames.old.types.classes m at p f) (after m at p f) (held frames.new) result }
    ensures rest { IsRunning frames.old frames.new }
{
    match class_named(table, index) {
        None => Err(Reason::WrongConstant),
        Some(_) => makes(method, at, frames),
    }
}
