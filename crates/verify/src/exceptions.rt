//! The entries of an exception table that are at fault (JVMS 4.7.3, 4.10.1.6).
ghost use Rattle.std.specs.Prelude.{◌≡◌, ◌≢◌, Some, List, IfOk};
ghost use Rattle.classfile.specs.Methods.{ExceptionEntry};
ghost use Rattle.type_numbers.specs.Numbers.{Numbering};
ghost use Rattle.method_frames.specs.MapFrames.{frames_by};
ghost use Rattle.numbered_rules.specs.RuleNumbers.{AreRuleNumbers};
ghost use Rattle.rules.specs.Bodies.{method_view};
ghost use Rattle.rules.specs.declared.reason.Reason.TheVariants.{OutOfMemory};
ghost use Rattle.verify.specs.DifferencesAt.{first_refused, first_covering};
ghost use Rattle.verify.specs.private.pass.Exceptions.{AreEntriesBy};

use crate::pass::exceptions::{Entry, judge_entry};
use hierarchy::Classes;
use method_frames::MethodFrames;
use numbered_rules::Body;
use rules::Reason;
use std::alloc::AllocError;

/// The place of an entry that was refused for this reason; memory may have run out.
fn refused_at(place: usize, reason: Reason<'_>) -> Result<Option<usize>, AllocError>
    ensures { IfOk result (λ o. (o ≡ Some place) × (reason.entry ≢ OutOfMemory)) }
{
    match reason {
        Reason::OutOfMemory => Err(AllocError),
        _ => Ok(Some(place)),
    }
}

/// The place in the table of the first of all its entries that is refused, if one is: 72, or 77. The only refusal is 1.
pub fn first_refused<C: Classes>(
    entries: &[Entry],
    body: &Body<'_, '_>,
    frames: &MethodFrames<'_, '_, '_, C>,
) -> Result<Option<usize>, AllocError>
    requires numbers { AreRuleNumbers frames.now.types (method_view body.now.method.now) body.now.numbers }
    requires entries { (es : List ExceptionEntry) × AreEntriesBy frames.now.types es entries.now }
    ensures { let x = frames.now in (es : List ExceptionEntry) → AreEntriesBy x.types es entries.now
        → IfOk result (λ o. o ≡ first_refused x.types.classes (method_view body.now.method.now)
        (frames_by x.types x.declared) 0 es) }
{
    for place in 0..entries.len() {
        if let Err(reason) = judge_entry(&entries[place], body, frames) {
            return refused_at(place, reason);
        }
    }
    Ok(None)
}

/// The place in the table of the first of all its entries that covers the instruction at an offset, if one does.
pub fn first_covering(entries: &[Entry], at: u16) -> Option<usize>
    ensures { (s : Numbering) (es : List ExceptionEntry) → AreEntriesBy s es entries.now
        → result ≡ first_covering at 0 es }
{
    for place in 0..entries.len() {
        let entry = entries[place];
        if entry.from <= at && at < entry.to {
            return Some(place);
        }
    }
    None
}
