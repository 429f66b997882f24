//! The verdicts on the methods of a class, with the frames at the instructions at which they are refused.
ghost use Rattle.std.specs.Prelude.{◌≡◌, ◌<◌, ℕ, List, length, IfOk, IfErr, MatchOption};
ghost use Rattle.classfile.specs.CodeMethods.{judged_class};
ghost use Rattle.classfile.specs.Methods.{JudgedClass};
ghost use Rattle.classfile.specs.Views.{class_view};
ghost use Rattle.verify.specs.declared.verdict.VerifyFault.TheVariants.{OutOfMemory};
ghost use Rattle.hierarchy.specs.Class.{ClassFact};
ghost use Rattle.hierarchy.specs.Rules.{IsHierarchy};
ghost use Rattle.rules.specs.Reasons.{reason_number};
ghost use Rattle.verify.specs.Listed.{IsListed};
ghost use Rattle.verify.specs.Coming.{FramesFact, no_frames, AreFramesOf, IsFramedIf, frames_view};
ghost use Rattle.verify.specs.Explaining.{IsExplained};
ghost use Rattle.verify.specs.private.pass.ClassTypes.{AreClassTypes};

use crate::frames_at::{FramesAt, MOST_KEPT, Refusal, frames_of};
use crate::pass::ClassTypes;
use crate::report::{Report, report_on};
use crate::verdict::{Verdict, VerifyFault};
use classfile::Formed;
use hierarchy::Classes;
use method_frames::MethodFrames;
use rules::ClassConstants;
use std::alloc::Global;
use type_numbers::TypeNumbers;

/// The verdicts on the methods of a class, and the frames at the instructions at which they are refused.
#[derive(Debug, Drop)]
pub struct Explained<'a> {
    /// The verdicts.
    pub report: Report<'a>,
    /// The frames of each method, in the order of the file. A method that is not refused has none, and neither has one
    /// after frames of 65,536 types.
    pub frames: Vec<FramesAt<'a>>,
}

/// Where a method is refused, by the verdict on it, if its frames are told.
fn refusal_by<'a>(verdict: &Verdict<'a>, told: bool) -> Option<Refusal<'a>>
    ensures { (classes : List ClassFact) (c : JudgedClass) (number : ℕ) (x : FramesFact)
        → MatchOption result (x ≡ no_frames → IsFramedIf told classes c number verdict.now x)
        (λ r. AreFramesOf classes c number (reason_number r.reason) r.at x
        → IsFramedIf told classes c number verdict.now x) }
{
    if !told {
        return None;
    }
    match *verdict {
        Verdict::Verified | Verdict::NoCode => None,
        Verdict::Refused { at, reason } => Some(Refusal { at, reason }),
    }
}

/// The frames of the method of a number, where it is refused so; none where it is not. The types and the constants are
/// those of the class.
fn frames_at<'a, C: Classes>(
    alloc: Global,
    formed: &Formed<'_, 'a>,
    number: usize,
    refusal: Option<Refusal<'a>>,
    types: &ClassTypes,
    constants: &mut ClassConstants<'_, '_, 'a, C>,
    frames: &mut MethodFrames<'_, '_, 'a, C>,
) -> Result<FramesAt<'a>, VerifyFault>
    requires constants { constants.old.members
        ≡ record { class = formed.now.class.now; classes = frames.old.types.classes } }
    requires types { AreClassTypes frames.old.types (class_view formed.now.class.now) types.now }
    requires within { number < length formed.now.class.now.methods.items }
    ensures same { constants.new.members ≡ constants.old.members }
    ensures types { frames.new.types ≡ frames.old.types }
    ensures found { IfOk result (λ x. MatchOption refusal.entry (frames_view x ≡ no_frames)
        (λ r. AreFramesOf frames.old.types.classes (judged_class formed.now) number (reason_number r.reason) r.at
        (frames_view x))) }
    ensures memory { IfErr result (λ e. e ≡ OutOfMemory) }
{
    formed.class();
    let Some(refusal) = refusal else {
        return Ok(FramesAt::none());
    };
    match formed.method(number) {
        None => Ok(FramesAt::none()),
        Some(method) => frames_of(alloc, method, refusal, types, constants, frames),
    }
}

/// The verdicts on the methods of a class that the hierarchy has as it is, and where they are asked for, the frames of
/// each method, as long as those in front have fewer types than [`MOST_KEPT`]. The types are those of the class. One
/// table of constants serves all methods.
fn explain_methods<'a, C: Classes>(
    alloc: Global,
    formed: &Formed<'_, 'a>,
    framed: bool,
    types: &ClassTypes,
    frames: &mut MethodFrames<'_, '_, 'a, C>,
) -> Result<Explained<'a>, VerifyFault>
    requires hierarchy { IsHierarchy frames.old.types.classes }
    requires listed { IsListed frames.old.types.classes (class_view formed.now.class.now) }
    requires types { AreClassTypes frames.old.types (class_view formed.now.class.now) types.now }
    ensures found { IfOk result (IsExplained framed frames.old.types.classes (judged_class formed.now)) }
    ensures memory { IfErr result (λ e. e ≡ OutOfMemory) }
{
    let class = formed.class();
    let mut constants = ClassConstants::new(alloc, class, frames.types().classes());
    let mut methods = Vec::new(alloc);
    let mut all = Vec::new(alloc);
    let mut left = MOST_KEPT;
    for number in 0..class.methods.len() {
        let verdict = report_on(alloc, formed, number, types, &mut constants, frames)?;
        if framed {
            let refusal = refusal_by(&verdict.verdict, left > 0);
            let met = frames_at(
                alloc,
                formed,
                number,
                refusal,
                types,
                &mut constants,
                frames,
            )?;
            left = met.taken_off(left);
            all.push(met)?;
        }
        methods.push(verdict)?;
    }
    let report = Report { methods };
    Ok(Explained {
        report,
        frames: all,
    })
}

/// The verdicts on the methods of a class that the hierarchy has as it is, and where they are asked for, the frames of
/// each method that is refused. The numbers of the class's types and the frames serve all methods; the places of the
/// hierarchy's classes that have numbers serve the classes that are judged next.
pub fn explain_listed<'a, C: Classes>(
    alloc: Global,
    formed: &Formed<'_, 'a>,
    framed: bool,
    numbers: &mut TypeNumbers<'_, 'a, C>,
) -> Result<Explained<'a>, VerifyFault>
    requires hierarchy { IsHierarchy numbers.old.classes }
    requires listed { IsListed numbers.old.classes (class_view formed.now.class.now) }
    ensures same { numbers.new.classes ≡ numbers.old.classes }
    ensures found { IfOk result (IsExplained framed numbers.old.classes (judged_class formed.now)) }
    ensures memory { IfErr result (λ e. e ≡ OutOfMemory) }
{
    let class = formed.class();
    numbers.restart();
    let types = ClassTypes::new(alloc, class, numbers)?;
    let mut frames = MethodFrames::new(alloc, numbers, 0, 0, false)?;
    explain_methods(alloc, formed, framed, &types, &mut frames)
}
