//! The reasons of two judgements taken together.
ghost use Rattle.std.specs.Prelude.{◌++◌, OnOk, IsOk, Err};
ghost use Rattle.frames.specs.Conditions.{Conditions};
ghost use Rattle.rules.specs.Outcomes.{Judges};

use crate::reason::Reason;

/// The lesser of a reason and of another one, if there is another.
pub fn first_reason<'a>(one: Reason<'a>, other: Result<(), Reason<'a>>) -> Reason<'a>
    ensures { (cs ds : Conditions) → Judges cs (Err one.entry) → Judges ds other.entry
        → Judges (cs ++ ds) (Err result) }
{
    match other {
        Ok(()) => one,
        Err(another) => if another.number() < one.number() {
            another
        } else {
            one
        },
    }
}

/// The judgement of two lists of conditions taken together.
pub fn together<'a>(
    one: Result<(), Reason<'a>>,
    other: Result<(), Reason<'a>>,
) -> Result<(), Reason<'a>>
    ensures judged { (cs ds : Conditions) → Judges cs one.entry → Judges ds other.entry → Judges (cs ++ ds) result }
    ensures both { OnOk result (IsOk one.entry × IsOk other.entry) }
{
    match one {
        Ok(()) => other,
        Err(reason) => Err(first_reason(reason, other)),
    }
}
