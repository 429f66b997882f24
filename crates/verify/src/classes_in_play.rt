//! The classes in files, in play together.
ghost use Rattle.std.specs.Prelude.{◌≡◌, ℕ, ◌+◌, ◌<◌, List, length, map, take, IfOk, IfErr, MatchResult};
ghost use Rattle.classfile.specs.CodeMethods.{judged, judged_class};
ghost use Rattle.classfile.specs.Methods.{JudgedClass};
ghost use Rattle.classfile.specs.declared.profile.Profile.{Profile as ProfileFact};
ghost use Rattle.classfile.specs.declared.profile.Profile.TheVariants.{Default};
ghost use Rattle.hierarchy.specs.Rules.{IsHierarchy};
ghost use Rattle.hierarchy.specs.Summary.{facts_of};
ghost use Rattle.verify.specs.Files.{Read, read_of, OrMemory, IsRefused, IsFirstRefused};
ghost use Rattle.verify.specs.Plays.{IsStopped};
ghost use Rattle.verify.specs.Together.{facts_in, HaveReports, HaveNone, ReportsTogether, NotTogether, ArePlayableFiles};
ghost use Rattle.verify.specs.private.TogetherSteps.{AreDecoded, AreWellFormed, DecodesAll, views, IsWithin};
ghost use Rattle.verify.specs.ClassRunSafety.{ArePlayable};

use crate::files::{FileFault, FileRead, class_in, formed};
use crate::play::{PlayRule, PlayStop, reports_in_play};
use crate::report::{MethodVerdict, Report};
use classfile::{ClassFile, Formed, Profile};
use hierarchy::{Classes, HierarchyFault, Rows, Summary, summary_of};
use std::alloc::{AllocError, AllocFailed, Global};
use std::hash::BuildHasher;
use thiserror::Error;

/// Why there are no reports on the classes in files. Classes count from 1.
#[derive(Clone, Copy, Debug, Error)]
pub enum TogetherFault<'a> {
    /// 1: memory ran out.
    #[error("refused 1")]
    OutOfMemory,
    /// The file of this number is not a well-formed class; those before it are.
    #[error("class {number} {fault}")]
    Refused {
        number: usize,
        fault: FileFault,
    },
    /// The classes are no hierarchy: 40 to 46.
    #[error("hierarchy refused {}", .0.number())]
    NoHierarchy(HierarchyFault<'a>),
    /// The class of this number is the first that breaks a rule, and it breaks this one: 81 or 85.
    #[error("class {number} refused {}", rule.number())]
    Broken {
        number: usize,
        rule: PlayRule,
    },
    /// The class of this number is the first that breaks a rule, and this is its first method that is refused.
    #[error("class {number} refused 84")]
    NotVerified {
        number: usize,
        method: MethodVerdict<'a>,
    },
}

impl<'a> From<AllocError> for TogetherFault<'a> {
    ghost use Rattle.verify.specs.declared.classes_in_play.TogetherFault.TheVariants.{OutOfMemory};

    ghost from_gives = { λ _ e. e ≡ OutOfMemory };

    fn from(_error: AllocError) -> TogetherFault<'a> {
        TogetherFault::OutOfMemory
    }
}

impl<'a, T: Drop> From<AllocFailed<T>> for TogetherFault<'a> {
    ghost use Rattle.verify.specs.declared.classes_in_play.TogetherFault.TheVariants.{OutOfMemory};

    ghost from_gives = { λ _ e. e ≡ OutOfMemory };

    fn from(_failed: AllocFailed<T>) -> TogetherFault<'a> {
        TogetherFault::OutOfMemory
    }
}

/// The fault of the file of this number, which is refused.
fn refused<'a>(number: usize, fault: FileFault) -> TogetherFault<'a>
    ensures { (reads : List Read) (read : Read) (i : ℕ) → number ≡ i + 1 → OrMemory read fault
        → (IsRefused read fault → IsFirstRefused reads i fault) → (profile : ProfileFact)
        → NotTogether profile reads result }
{
    match fault {
        FileFault::OutOfMemory => TogetherFault::OutOfMemory,
        FileFault::Unread(_) | FileFault::NoClass(_) | FileFault::Malformed { .. } => {
            TogetherFault::Refused { number, fault }
        }
    }
}

/// The classes that files are, up to the first that is none, and its fault.
#[derive(Drop)]
struct Decoded<'a> {
    classes: Vec<ClassFile<'a>>,
    fault: Option<TogetherFault<'a>>,
}

/// Decodes the files in turn, up to the first that is not a class.
fn decode_all<'a>(alloc: Global, files: &[FileRead<'a>]) -> Result<Decoded<'a>, AllocError>
    ensures { IfOk result (λ d. DecodesAll (map read_of files.now) (views d.classes.items) d.fault) }
{
    let mut classes = Vec::with_capacity(alloc, files.len())?;
    for (i, file) in files.iter().enumerate() {
        match class_in(alloc, *file) {
            Ok(class) => classes.push(class)?,
            Err(fault) => {
                let fault = Some(refused(i + 1, fault));
                return Ok(Decoded { classes, fault });
            }
        }
    }
    Ok(Decoded {
        classes,
        fault: None,
    })
}

/// The classes as well-formed ones, which are judged by a profile; or the first that breaks a rule.
fn form_all<'c, 'a>(
    alloc: Global,
    profile: Profile,
    classes: &'c [ClassFile<'a>],
) -> Result<Vec<Formed<'c, 'a>>, TogetherFault<'a>>
    ensures formed { IfOk result (λ v. (map judged_class v.items ≡ map (judged profile) (views classes.now))
        × AreWellFormed (views classes.now)) }
    ensures refused { IfErr result
        (λ e. (reads : List Read) → AreDecoded (take (length (views classes.now)) reads) (views classes.now)
        → (profile : ProfileFact) → NotTogether profile reads e) }
{
    let mut all = Vec::with_capacity(alloc, classes.len())?;
    for i in 0..classes.len() {
        match formed(alloc, &classes[i]) {
            Ok(class) => all.push(class.under(profile))?,
            Err(fault) => return Err(refused(i + 1, fault)),
        }
    }
    Ok(all)
}

/// The summaries of classes.
fn summaries_of<'a>(alloc: Global, play: &[Formed<'_, 'a>]) -> Result<Vec<Summary<'a>>, AllocError>
    ensures { IfOk result (λ v. facts_of v.items ≡ facts_in (map judged_class play.now)) }
{
    let mut summaries = Vec::with_capacity(alloc, play.len())?;
    for class in play {
        summaries.push(summary_of(alloc, class)?)?;
    }
    Ok(summaries)
}

/// Why the classes in play, of which there are so many, have no reports.
fn stopped<'a>(stop: PlayStop<'a>, many: usize) -> TogetherFault<'a>
    requires { IsWithin many stop }
    ensures { (cs : List JudgedClass) → IsHierarchy (facts_in cs) → IsStopped (facts_in cs) cs stop.entry
        → HaveNone cs result }
{
    match stop {
        PlayStop::OutOfMemory => TogetherFault::OutOfMemory,
        PlayStop::Broken { class, rule } => TogetherFault::Broken {
            number: class + 1,
            rule,
        },
        PlayStop::Refused { class, method, .. } => TogetherFault::NotVerified {
            number: class + 1,
            method,
        },
    }
}

/// The reports on classes in play, of whose summaries the hierarchy is made.
fn reports_under<'a, C: Classes>(
    alloc: Global,
    play: &[Formed<'_, 'a>],
    classes: &C,
) -> Result<Vec<Report<'a>>, TogetherFault<'a>>
    requires content { C.content classes.now ≡ facts_in (map judged_class play.now) }
    requires hierarchy { IsHierarchy (C.content classes.now) }
    ensures exactly { let cs = map judged_class play.now in
        MatchResult result (λ rs. HaveReports cs rs.items) (HaveNone cs) }
    ensures safe { let cs = map judged_class play.now in IfOk result (λ _. ArePlayable (facts_in cs) cs) }
{
    match reports_in_play(alloc, play, classes) {
        Ok(reports) => Ok(reports),
        Err(stop) => Err(stopped(stop, play.len())),
    }
}

/// The reports on classes in play, whose summaries these are; or why they are no hierarchy.
fn reports_among<'a, S: BuildHasher + Drop>(
    alloc: Global,
    play: &[Formed<'_, 'a>],
    summaries: &[Summary<'a>],
    hasher: S,
) -> Result<Vec<Report<'a>>, TogetherFault<'a>>
    requires { facts_of summaries.now ≡ facts_in (map judged_class play.now) }
    ensures exactly { let cs = map judged_class play.now in
        MatchResult result (λ rs. HaveReports cs rs.items) (HaveNone cs) }
    ensures safe { let cs = map judged_class play.now in IfOk result (λ _. ArePlayable (facts_in cs) cs) }
{
    match Rows::new(alloc, summaries, hasher) {
        Ok(classes) => reports_under(alloc, play, &classes),
        Err(HierarchyFault::OutOfMemory) => Err(TogetherFault::OutOfMemory),
        Err(fault) => Err(TogetherFault::NoHierarchy(fault)),
    }
}

/// The reports on classes in play, under the hierarchy that they are.
fn reports_on<'a, S: BuildHasher + Drop>(
    alloc: Global,
    play: &[Formed<'_, 'a>],
    hasher: S,
) -> Result<Vec<Report<'a>>, TogetherFault<'a>>
    ensures exactly { let cs = map judged_class play.now in
        MatchResult result (λ rs. HaveReports cs rs.items) (HaveNone cs) }
    ensures safe { let cs = map judged_class play.now in IfOk result (λ _. ArePlayable (facts_in cs) cs) }
{
    let summaries = summaries_of(alloc, play)?;
    reports_among(alloc, play, &summaries, hasher)
}

/// The reports on the classes of files, which were decoded, by a profile.
fn reports_decoded<'a, S: BuildHasher + Drop>(
    alloc: Global,
    profile: Profile,
    classes: &[ClassFile<'a>],
    fault: Option<TogetherFault<'a>>,
    hasher: S,
) -> Result<Vec<Report<'a>>, TogetherFault<'a>>
    ensures exactly { (reads : List Read) → DecodesAll reads (views classes.now) fault.entry
        → MatchResult result (λ rs. ReportsTogether profile reads rs.items) (NotTogether profile reads) }
    ensures safe { (reads : List Read) → DecodesAll reads (views classes.now) fault.entry
        → IfOk result (λ _. ArePlayableFiles profile reads) }
{
    let play = match form_all(alloc, profile, classes) {
        Ok(play) => play,
        Err(broken) => return Err(broken),
    };
    match fault {
        Some(fault) => Err(fault),
        None => reports_on(alloc, &play, hasher),
    }
}

/// The reports on the classes in these files, in the order of the files, where all of them are in play together: under
/// the hierarchy of these classes, as [`verify_play`](crate::verify_play) answers. A file that could not be read is
/// refused like one that is not a class.
///
/// The first of these refusals that holds is returned: a file is refused by its reading, by
/// [`decode_under`](classfile::decode_under) or by [`form_check`](classfile::form_check), the first that is; [`Rows::new`] refuses
/// the summaries (40 to 46); a class breaks a rule on final classes and methods (81, 85) or one of its methods is refused, the first such
/// class, with the verdict on its first such method. 1 where memory ran out.
pub fn verify_together<'a, S: BuildHasher + Drop>(
    alloc: Global,
    files: &[FileRead<'a>],
    hasher: S,
) -> Result<Vec<Report<'a>>, TogetherFault<'a>>
    ensures exactly { MatchResult result (λ rs. ReportsTogether Default (map read_of files.now) rs.items)
        (NotTogether Default (map read_of files.now)) }
    ensures safe { IfOk result (λ _. ArePlayableFiles Default (map read_of files.now)) }
{
    verify_together_under(alloc, Profile::Default, files, hasher)
}

/// The reports on the classes in these files, by a profile, as [`verify_together`] gives them.
pub fn verify_together_under<'a, S: BuildHasher + Drop>(
    alloc: Global,
    profile: Profile,
    files: &[FileRead<'a>],
    hasher: S,
) -> Result<Vec<Report<'a>>, TogetherFault<'a>>
    ensures exactly { MatchResult result (λ rs. ReportsTogether profile (map read_of files.now) rs.items)
        (NotTogether profile (map read_of files.now)) }
    ensures safe { IfOk result (λ _. ArePlayableFiles profile (map read_of files.now)) }
{
    let decoded = decode_all(alloc, files)?;
    reports_decoded(alloc, profile, &decoded.classes, decoded.fault, hasher)
}
