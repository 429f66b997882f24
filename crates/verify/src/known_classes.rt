//! A class among its known classes.
ghost use Rattle.std.specs.Prelude.{◌≡◌, ℕ, Bool, ◌+◌, List, Err, map};
ghost use Rattle.classfile.specs.CodeMethods.{judged_class};
ghost use Rattle.classfile.specs.declared.profile.Profile.{Profile as ProfileFact};
ghost use Rattle.classfile.specs.declared.profile.Profile.TheVariants.{Default};
ghost use Rattle.hierarchy.specs.Class.{ClassFact};
ghost use Rattle.hierarchy.specs.Summary.{facts_of};
ghost use Rattle.verify.specs.Files.{Read, read_of, OrMemory, IsRefused, IsFirstRefused};
ghost use Rattle.verify.specs.Among.{AnswersAmong, ReportsAmong, ExplainsAmong};
ghost use Rattle.verify.specs.Explaining.{IsExplained};
ghost use Rattle.verify.specs.private.AmongSteps.{Adds, BeginWith, ExplainsSummaries, ExplainsFormed};
ghost use Rattle.verify.specs.declared.known_classes.AmongFault.TheVariants.{OutOfMemory};

use crate::explanation::{Explained, explain_listed};
use crate::files::{FileFault, FileRead, class_in, formed, summary_in};
use crate::final_rules::{FinalRule, final_rule};
use crate::report::Report;
use classfile::{Formed, Profile};
use hierarchy::{HierarchyFault, Rows, Summary, summary_of};
use std::alloc::{AllocError, AllocFailed, Global};
use std::hash::BuildHasher;
use thiserror::Error;
use type_numbers::TypeNumbers;

/// Why there are no verdicts on the methods of a class among its known classes.
#[derive(Clone, Copy, Debug, Error)]
pub enum AmongFault<'a> {
    /// 1: memory ran out.
    #[error("refused 1")]
    OutOfMemory,
    /// The file is not a well-formed class.
    #[error("class {0}")]
    Refused(FileFault),
    /// The known file of this number, which counts from 1, is not a well-formed class; the known files before it
    /// are.
    #[error("known {number} {fault}")]
    KnownRefused { number: usize, fault: FileFault },
    /// The class and the known ones are no hierarchy: 40 to 46.
    #[error("hierarchy refused {}", .0.number())]
    NoHierarchy(HierarchyFault<'a>),
    /// 81 or 85: the class breaks a rule on final classes and methods.
    #[error("class refused {}", .0.number())]
    Final(FinalRule),
}

/// The fault of a known class of this number that is refused.
fn known_refused<'a>(number: usize, fault: FileFault) -> AmongFault<'a>
    ensures { (known : List Read) (read : Read) (i : ℕ) (old new : List ClassFact)
        → number ≡ i + 1 → OrMemory read fault → (IsRefused read fault → IsFirstRefused known i fault)
        → Adds known old new (Err result) }
{
    match fault {
        FileFault::OutOfMemory => AmongFault::OutOfMemory,
        FileFault::Unread(_) | FileFault::NoClass(_) | FileFault::Malformed { .. } => {
            AmongFault::KnownRefused { number, fault }
        }
    }
}

/// Puts the summaries of the classes in these files after the summaries that are there; or returns the first file that
/// is refused.
fn add_known<'a>(
    alloc: Global,
    known: &[FileRead<'a>],
    summaries: &mut Vec<Summary<'a>>,
) -> Result<(), AmongFault<'a>>
    ensures { Adds (map read_of known.now) (facts_of summaries.old.items) (facts_of summaries.new.items) result }
{
    for (i, read) in known.iter().enumerate() {
        match summary_in(alloc, *read) {
            Ok(summary) => summaries.push(summary)?,
            Err(fault) => return Err(known_refused(i + 1, fault)),
        }
    }
    Ok(())
}

/// The verdicts on the methods of the class whose summary is the first of these, and the frames where they are asked
/// for; or why the classes are no hierarchy; or 81 or 85.
pub fn explain_in<'a, S: BuildHasher + Drop>(
    alloc: Global,
    formed: &Formed<'_, 'a>,
    summaries: &[Summary<'a>],
    framed: bool,
    hasher: S,
) -> Result<Explained<'a>, AmongFault<'a>>
    requires { BeginWith (facts_of summaries.now) (judged_class formed.now) }
    ensures { ExplainsSummaries framed (facts_of summaries.now) (judged_class formed.now) result }
{
    let classes = match Rows::new(alloc, summaries, hasher) {
        Ok(classes) => classes,
        Err(HierarchyFault::OutOfMemory) => return Err(AmongFault::OutOfMemory),
        Err(fault) => return Err(AmongFault::NoHierarchy(fault)),
    };
    if let Some(rule) = final_rule(alloc, &summaries[0], &classes)? {
        return Err(AmongFault::Final(rule));
    }
    let mut numbers = TypeNumbers::new(alloc, &classes);
    match explain_listed(alloc, formed, framed, &mut numbers) {
        Ok(explained) => Ok(explained),
        Err(_) => Err(AmongFault::OutOfMemory),
    }
}

/// The verdicts on the methods of a class that is well formed, among the classes in the known files; and the frames
/// where they are asked for.
fn explain_formed<'a, S: BuildHasher + Drop>(
    alloc: Global,
    formed: &Formed<'_, 'a>,
    known: &[FileRead<'a>],
    framed: bool,
    hasher: S,
) -> Result<Explained<'a>, AmongFault<'a>>
    ensures { ExplainsFormed framed (judged_class formed.now) (map read_of known.now) result }
{
    let mut summaries = Vec::with_capacity(alloc, known.len())?;
    summaries.push(summary_of(alloc, formed)?)?;
    add_known(alloc, known, &mut summaries)?;
    explain_in(alloc, formed, &summaries, framed, hasher)
}

/// The verdicts on the methods of a class, in the order of the file (JVMS 4.10.1), under the hierarchy of this class
/// and the known ones. A file that could not be read is refused like one that is not a class.
///
/// The first of these refusals that holds is returned: the class is refused by its reading, by
/// [`decode_under`](classfile::decode_under) or by [`form_check`](classfile::form_check); one of the known files is refused in this
/// way, the first that is; [`Rows::new`] refuses their summaries, of which the class's own is the first (40 to 46); the
/// superclass of the class is final (81); a method of it overrides a final one (85). 1 where memory ran out.
pub fn verify_among<'a, S: BuildHasher + Drop>(
    alloc: Global,
    class: FileRead<'a>,
    known: &[FileRead<'a>],
    hasher: S,
) -> Result<Report<'a>, AmongFault<'a>>
    ensures { ReportsAmong Default (read_of class.entry) (map read_of known.now) result }
{
    verify_among_under(alloc, Profile::Default, class, known, hasher)
}

/// The verdicts on the methods of a class, by a profile, and the frames where they are asked for.
fn explain_if<'a, S: BuildHasher + Drop>(
    alloc: Global,
    profile: Profile,
    class: FileRead<'a>,
    known: &[FileRead<'a>],
    framed: bool,
    hasher: S,
) -> Result<Explained<'a>, AmongFault<'a>>
    ensures { AnswersAmong (IsExplained framed) profile (read_of class.entry) (map read_of known.now) result }
{
    let class = match class_in(alloc, class) {
        Ok(class) => class,
        Err(fault) => return Err(refused(fault)),
    };
    match formed(alloc, &class) {
        Ok(formed) => explain_formed(alloc, &formed.under(profile), known, framed, hasher),
        Err(fault) => Err(refused(fault)),
    }
}

/// The verdicts on the methods of a class, by a profile, as [`verify_among`] gives them.
pub fn verify_among_under<'a, S: BuildHasher + Drop>(
    alloc: Global,
    profile: Profile,
    class: FileRead<'a>,
    known: &[FileRead<'a>],
    hasher: S,
) -> Result<Report<'a>, AmongFault<'a>>
    ensures { ReportsAmong profile (read_of class.entry) (map read_of known.now) result }
{
    match explain_if(alloc, profile, class, known, false, hasher) {
        Ok(Explained { report, .. }) => Ok(report),
        Err(fault) => Err(fault),
    }
}

/// The verdicts on the methods of a class, by a profile, as [`verify_among_under`] gives them; and, for each method
/// that is refused, the frames at the instruction at which it is (JVMS 4.10.1.6): the frame that comes to it, and the
/// declared frame there. There is no frame where the refusal is at no instruction: where the receiver and the
/// parameters do not fit, where the stack map is refused, or where the bytes are no code. The code of each method that
/// is refused is walked over once more.
pub fn explain_among_under<'a, S: BuildHasher + Drop>(
    alloc: Global,
    profile: Profile,
    class: FileRead<'a>,
    known: &[FileRead<'a>],
    hasher: S,
) -> Result<Explained<'a>, AmongFault<'a>>
    ensures { ExplainsAmong profile (read_of class.entry) (map read_of known.now) result }
{
    explain_if(alloc, profile, class, known, true, hasher)
}

/// The fault of the class itself where it is refused.
pub fn refused<'a>(fault: FileFault) -> AmongFault<'a>
    ensures { (framed : Bool) (profile : ProfileFact) (read : Read) (known : List Read) → OrMemory read fault
        → AnswersAmong (IsExplained framed) profile read known (Err result) }
{
    match fault {
        FileFault::OutOfMemory => AmongFault::OutOfMemory,
        FileFault::Unread(_) | FileFault::NoClass(_) | FileFault::Malformed { .. } => {
            AmongFault::Refused(fault)
        }
    }
}

impl<'a> From<AllocError> for AmongFault<'a> {
    ghost use Rattle.verify.specs.declared.known_classes.AmongFault.TheVariants.{OutOfMemory};

    ghost from_gives = { λ _ e. e ≡ OutOfMemory };

    fn from(_error: AllocError) -> AmongFault<'a> {
        AmongFault::OutOfMemory
    }
}

impl<'a, T: Drop> From<AllocFailed<T>> for AmongFault<'a> {
    ghost use Rattle.verify.specs.declared.known_classes.AmongFault.TheVariants.{OutOfMemory};

    ghost from_gives = { λ _ e. e ≡ OutOfMemory };

    fn from(_failed: AllocFailed<T>) -> AmongFault<'a> {
        AmongFault::OutOfMemory
    }
}
