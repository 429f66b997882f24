//! The verdict on a method.
ghost use Rattle.std.specs.Prelude.{◌≡◌, ◌<◌, List, length, Some, Ok};
ghost use Rattle.classfile.specs.MethodParts.{code_at};
ghost use Rattle.classfile.specs.CodeMethods.{judged_class, class_of};
ghost use Rattle.classfile.specs.Views.{class_view, code_view};
ghost use Rattle.classfile.specs.WellFormed.{WellFormed};
ghost use Rattle.verify.specs.Verdict.{verdict};
ghost use Rattle.verify.specs.Listed.{IsListed};
ghost use Rattle.verify.specs.private.pass.ClassTypes.{AreClassTypes};
ghost use Rattle.verify.specs.Answers.{AnswersCode, Answers, VerifiesTypeSafe, VerifiedIsSafe};

use crate::listing::is_listed;
use crate::pass::{ClassTypes, judge_body};
use crate::refusal::refuse_code;
use crate::verdict::{Verdict, VerifyFault};
use classfile::{CodeMethod, Formed};
use frames::CodeStarts;
use hierarchy::Classes;
use method_frames::MethodFrames;
use numbered_rules::Body;
use rules::ClassConstants;
use std::alloc::Global;
use type_numbers::TypeNumbers;

/// The verdict on a method with code. The types and the constants are those of its class.
fn verify_code<'a, C: Classes>(
    alloc: Global,
    method: CodeMethod<'_, 'a>,
    types: &ClassTypes,
    constants: &mut ClassConstants<'_, '_, 'a, C>,
    frames: &mut MethodFrames<'_, '_, 'a, C>,
) -> Result<Verdict<'a>, VerifyFault>
    requires constants { constants.old.members
        ≡ record { class = method.class.now; classes = frames.old.types.classes } }
    requires types { AreClassTypes frames.old.types (class_view method.class.now) types.now }
    requires formed { WellFormed (class_view method.class.now) }
    requires coded { code_at (class_view method.class.now) method.number ≡ Some (code_view method.code.now) }
    ensures same { constants.new.members ≡ constants.old.members }
    ensures types { frames.new.types ≡ frames.old.types }
    ensures answered { AnswersCode frames.old.types.classes (class_of method.entry) method.entry.number result }
{
    let starts = match CodeStarts::new(alloc, method.code.code) {
        Ok(starts) => starts,
        Err(fault) => return refuse_code(fault),
    };
    let initial = types.initial(alloc, &method)?;
    let body = Body {
        method: &method,
        starts: &starts,
        numbers: types.rule_numbers(&method),
    };
    judge_body(alloc, &body, &initial, constants, frames)
}

/// The verdict on a method of a class that the hierarchy has as it is; the types and the constants are those of the
/// class.
pub fn verify_listed<'a, C: Classes>(
    alloc: Global,
    formed: &Formed<'_, 'a>,
    number: usize,
    types: &ClassTypes,
    constants: &mut ClassConstants<'_, '_, 'a, C>,
    frames: &mut MethodFrames<'_, '_, 'a, C>,
) -> Result<Verdict<'a>, VerifyFault>
    requires constants { constants.old.members
        ≡ record { class = formed.now.class.now; classes = frames.old.types.classes } }
    requires types { AreClassTypes frames.old.types (class_view formed.now.class.now) types.now }
    requires within { number < length formed.now.class.now.methods.items }
    requires listed { IsListed frames.old.types.classes (class_view formed.now.class.now) }
    ensures same { constants.new.members ≡ constants.old.members }
    ensures types { frames.new.types ≡ frames.old.types }
    ensures answered { Answers frames.old.types.classes (judged_class formed.now) number result }
{
    formed.class();
    match formed.method(number) {
        None => Ok(Verdict::NoCode),
        Some(method) => verify_code(alloc, method, types, constants, frames),
    }
}

/// The verdict on the method of this number, which counts from 0, of a class in a hierarchy (JVMS 4.10.1).
///
/// It is judged by the profile of its class (see [`Formed::under`]). A method without a Code attribute has none. The
/// first of these steps that refuses says why and where:
///
/// - 79 where the first instruction at fault begins, with the number of its fault (31 to 35);
/// - 64 at 0: the receiver and the parameters do not fit into max_locals;
/// - 78 at 0, with the number of its fault: the stack map is refused, by its bytes (2, 12, 47, 48) or by an entry (8,
///   9, 49 to 53);
/// - 72 or 77 at 0: an entry of the exception table is refused, the first that is, by the declared frames and by the
///   type that it catches;
/// - at the first instruction that is refused: 69 or 77 where the frame that comes in is not assignable to the one that
///   is declared there, 70 where none comes and none is declared; then the least number that holds of those of its rule
///   (60 to 66, 74, 76, 77, 90), 67, 68 and 77 for its targets, 77 and 82 for the protected member that it uses, 73 and
///   77 for the handlers of the entries that cover it, 75 where such an entry covers its call of a constructor on the
///   own object, and 71 where the last instruction goes on.
///
/// Before all that, 80 where the hierarchy has no class with exactly this class's summary; and 1 where memory ran out.
pub fn verify_method<'a, C: Classes>(
    alloc: Global,
    formed: &Formed<'_, 'a>,
    number: usize,
    classes: &C,
) -> Result<Verdict<'a>, VerifyFault>
    requires { number < length formed.now.class.now.methods.items }
    // Each answer exactly where it holds, unless memory runs out.
    ensures exactly { Answers (C.content classes.now) (judged_class formed.now) number result }
    // Type-safe methods are verified.
    ensures only { VerifiesTypeSafe (C.content classes.now) (judged_class formed.now) number result }
    // No run of a method that is verified meets a fault: operands, stack, control, objects and own object are right
    // throughout.
    ensures safe { VerifiedIsSafe (C.content classes.now) (judged_class formed.now) number result }
{
    if !is_listed(alloc, formed, classes)? {
        return Err(VerifyFault::NotInHierarchy);
    }
    let class = formed.class();
    let mut numbers = TypeNumbers::new(alloc, classes);
    let types = ClassTypes::new(alloc, class, &mut numbers)?;
    let mut constants = ClassConstants::new(alloc, class, classes);
    let mut frames = MethodFrames::new(alloc, &numbers, 0, 0, false)?;
    verify_listed(alloc, formed, number, &types, &mut constants, &mut frames)
}
