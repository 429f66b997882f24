//! The classes of many files, each judged among all of them.
ghost use Rattle.std.specs.Prelude.{◌≡◌, List, map, IfOk, IfErr, MatchResult};
ghost use Rattle.classfile.specs.declared.profile.Profile.{Profile as ProfileFact};
ghost use Rattle.hierarchy.specs.Summary.{facts_of};
ghost use Rattle.hierarchy.specs.Class.{ClassFact};
ghost use Rattle.hierarchy.specs.Rules.{IsHierarchy};
ghost use Rattle.verify.specs.Files.{Read, read_of, OrMemory};
ghost use Rattle.verify.specs.Standing.{standing};
ghost use Rattle.verify.specs.Each.{IsJudged, AreJudged, JudgesEach, JudgesNone};
ghost use Rattle.verify.specs.private.EachSteps.{IsNone};
ghost use Rattle.verify.specs.private.OpeningSteps.{AreOpened, IsOpened};
ghost use Rattle.verify.specs.declared.judgements.EachFault.TheVariants.{OutOfMemory};

use crate::files::{FileFault, FileRead};
use crate::final_rules::FinalRule;
use crate::gathering::Gathered;
use crate::opening::{Opened, decode_each, open_each};
use crate::report::{ClassFault, Report, verify_by_numbers};
use crate::standing::standing;
use classfile::Profile;
use hierarchy::{Classes, HierarchyFault, Prepared, Rows, Summary, name_of};
use std::alloc::{AllocError, AllocFailed, Global};
use std::hash::BuildHasher;
use thiserror::Error;
use type_numbers::TypeNumbers;

/// The answer about a file that is to be a class.
#[derive(Debug, Drop)]
pub enum Judgement<'a> {
    /// The verdicts on the methods of the class of this name.
    Reported { name: &'a [u8], report: Report<'a> },
    /// It is not a well-formed class.
    Refused(FileFault),
    /// 80: the hierarchy has no class with exactly the summary of this one.
    NotInHierarchy { name: &'a [u8] },
    /// 81 or 85: the class breaks a rule on final classes and methods.
    Final { name: &'a [u8], rule: FinalRule },
}

/// Why nothing is returned.
#[derive(Clone, Copy, Debug, Error)]
pub enum EachFault<'a> {
    /// 1: memory ran out.
    #[error("refused 1")]
    OutOfMemory,
    /// The classes that stand are no hierarchy: 43, where Object is none of them, or 45, where they are too many.
    #[error("hierarchy refused {}", .0.number())]
    NoHierarchy(HierarchyFault<'a>),
}

impl<'a> From<AllocError> for EachFault<'a> {
    ghost use Rattle.verify.specs.declared.judgements.EachFault.TheVariants.{OutOfMemory};

    ghost from_gives = { λ _ e. e ≡ OutOfMemory };

    fn from(_error: AllocError) -> EachFault<'a> {
        EachFault::OutOfMemory
    }
}

impl<'a, T: Drop> From<AllocFailed<T>> for EachFault<'a> {
    ghost use Rattle.verify.specs.declared.judgements.EachFault.TheVariants.{OutOfMemory};

    ghost from_gives = { λ _ e. e ≡ OutOfMemory };

    fn from(_failed: AllocFailed<T>) -> EachFault<'a> {
        EachFault::OutOfMemory
    }
}

/// The answer about a file that is refused.
fn refused<'a>(fault: FileFault) -> Result<Judgement<'a>, EachFault<'a>>
    ensures judged { (profile : ProfileFact) (classes : List ClassFact) (read : Read) → OrMemory read fault
        → IfOk result (IsJudged profile classes read) }
    ensures memory { IfErr result (λ e. e ≡ OutOfMemory) }
{
    match fault {
        FileFault::OutOfMemory => Err(EachFault::OutOfMemory),
        FileFault::Unread(_) | FileFault::NoClass(_) | FileFault::Malformed { .. } => {
            Ok(Judgement::Refused(fault))
        }
    }
}

/// The answer about a file by a profile, in a hierarchy.
fn judge<'a, C: Classes>(
    alloc: Global,
    profile: Profile,
    file: &Opened<'_, 'a>,
    numbers: &mut TypeNumbers<'_, 'a, C>,
) -> Result<Judgement<'a>, EachFault<'a>>
    ensures same { numbers.new.classes ≡ numbers.old.classes }
    ensures judged { IfOk result (λ j. (read : Read) → IsOpened read file.now
        → IsJudged profile numbers.old.classes read j) }
    ensures memory { IfErr result (λ e. e ≡ OutOfMemory) }
{
    let formed = match file {
        Ok(formed) => formed,
        Err(fault) => return refused(*fault),
    };
    let name = name_of(formed);
    match verify_by_numbers(alloc, &formed.under(profile), numbers) {
        Ok(report) => Ok(Judgement::Reported { name, report }),
        Err(ClassFault::NotInHierarchy) => Ok(Judgement::NotInHierarchy { name }),
        Err(ClassFault::Final(rule)) => Ok(Judgement::Final { name, rule }),
        Err(ClassFault::OutOfMemory) => Err(EachFault::OutOfMemory),
        Err(ClassFault::NoClass(_) | ClassFault::Malformed { .. }) => unreachable!(),
    }
}

/// The answers about these files by a profile, in a hierarchy. The places of the hierarchy's classes that one of them
/// names are kept for those after it.
fn judge_all<'a, C: Classes>(
    alloc: Global,
    profile: Profile,
    files: &[Opened<'_, 'a>],
    classes: &C,
) -> Result<Vec<Judgement<'a>>, EachFault<'a>>
    ensures judged { IfOk result (λ js. (reads : List Read) → AreOpened reads files.now
        → AreJudged profile (C.content classes.now) reads js.items) }
    ensures memory { IfErr result (λ e. e ≡ OutOfMemory) }
{
    let mut judgements = Vec::with_capacity(alloc, files.len())?;
    let mut numbers = TypeNumbers::new(alloc, classes);
    for file in files {
        judgements.push(judge(alloc, profile, file, &mut numbers)?)?;
    }
    Ok(judgements)
}

/// The answers about these files by a profile, in the hierarchy of these classes. The members that the classes of these
/// names inherit are found first.
fn judge_among<'a, S: BuildHasher + Drop>(
    alloc: Global,
    profile: Profile,
    files: &[Opened<'_, 'a>],
    names: &[&[u8]],
    classes: &[Summary<'a>],
    hasher: S,
) -> Result<Vec<Judgement<'a>>, EachFault<'a>>
    ensures { MatchResult result (λ js. IsHierarchy (facts_of classes.now) × ((reads : List Read)
        → AreOpened reads files.now → AreJudged profile (facts_of classes.now) reads js.items))
        (IsNone (facts_of classes.now)) }
{
    let rows = match Rows::new(alloc, classes, hasher) {
        Ok(rows) => rows,
        Err(HierarchyFault::OutOfMemory) => return Err(EachFault::OutOfMemory),
        Err(fault) => return Err(EachFault::NoHierarchy(fault)),
    };
    let prepared = Prepared::new(alloc, &rows, names)?;
    judge_all(alloc, profile, files, &prepared)
}

/// The names of classes.
fn names_of<'a>(alloc: Global, classes: &[Summary<'a>]) -> Result<Vec<&'a [u8]>, AllocError> {
    classes.iter().map(|class| class.name).collect(alloc)
}

/// The answers about these files by a profile, in their order: for each the verdicts on the methods of its class (JVMS
/// 4.10.1), or why there are none. The hierarchy is made once. It has the classes of all files, these and the known
/// ones; of classes with one name it has the first. A file that is refused is left out, and so is each class that does
/// not stand: it, or a class above it, breaks a rule of hierarchies (40 to 46), or has a superclass that is not there.
///
/// It is refused where [`Rows::new`] refuses the classes that stand (43, 45). 1 where memory ran out.
pub fn verify_each<'a, S: BuildHasher + Drop>(
    alloc: Global,
    profile: Profile,
    files: &[FileRead<'a>],
    known: &[FileRead<'a>],
    hasher: S,
) -> Result<Vec<Judgement<'a>>, EachFault<'a>>
    ensures { MatchResult result (λ js. JudgesEach profile (map read_of files.now) (map read_of known.now) js.items)
        (JudgesNone (map read_of files.now) (map read_of known.now)) }
{
    let decoded = decode_each(alloc, files)?;
    let opened = open_each(alloc, &decoded)?;
    let mut gathered = Gathered::new(alloc);
    gathered.add_opened(alloc, &opened)?;
    let names = names_of(alloc, &gathered.classes)?;
    gathered.add_files(alloc, known)?;
    let classes = standing(alloc, gathered)?;
    judge_among(alloc, profile, &opened, &names, &classes, hasher)
}
