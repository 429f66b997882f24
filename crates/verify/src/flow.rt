//! Reasons that an answer and the end of a method's code give.
ghost use Rattle.std.specs.Prelude.{◌≡◌, ◌&&◌, [], ◌∷◌};
ghost use Rattle.hierarchy.specs.Answer.{outcome_of};
ghost use Rattle.frames.specs.Conditions.{reason};
ghost use Rattle.rules.specs.Reasons.{reason_number, reason_view};
ghost use Rattle.rules.specs.Outcomes.{Judges};
ghost use Rattle.verify.specs.Verdict.{answer_conditions};

use hierarchy::Answer;
use rules::Reason;

/// This reason where a comparison answers no, and 77 where it needs a class that is missing.
pub fn check_answer<'a>(answer: Answer<'a>, against: Reason<'a>) -> Result<(), Reason<'a>>
    requires { reason_view against ≡ reason (reason_number against) }
    ensures { Judges (answer_conditions (reason_number against.entry) (outcome_of answer.entry)) result }
{
    match answer {
        Answer::Yes => Ok(()),
        Answer::No => Err(against),
        Answer::Missing(name) => Err(Reason::ClassMissing(name)),
    }
}

/// 71 where the last instruction falls through, and 75 where an entry covers a constructor's call on the own object.
pub fn check_end<'a>(falls: bool, last: bool, covered: bool) -> Result<(), Reason<'a>>
    ensures { Judges ((reason 71, falls && last) ∷ (reason 75, covered) ∷ []) result }
{
    if falls && last {
        return Err(Reason::FallsOff);
    }
    if covered {
        return Err(Reason::ConstructorCovered);
    }
    Ok(())
}
