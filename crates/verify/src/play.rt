//! Classes in play: the reports on classes whose methods may call each other.
ghost use Rattle.std.specs.Prelude.{◌≡◌, ◌↔◌, ◌<◌, IsTrue, List, map, length, slice_get, Some, IfOk, MatchOption, MatchResult};
ghost use Rattle.classfile.specs.CodeMethods.{judged_class};
ghost use Rattle.classfile.specs.Methods.{JudgedClass};
ghost use Rattle.hierarchy.specs.Class.{ClassFact};
ghost use Rattle.hierarchy.specs.Rules.{IsHierarchy};
ghost use Rattle.verify.specs.Plays.{IsFineVerdict, IsFirstRefused, AreFineBelow, ArePlayed, IsNotPlayed, IsStopped, rule_number, play_fault_number};
ghost use Rattle.verify.specs.private.PlaySteps.{AreMet, Judges};
ghost use Rattle.verify.specs.ClassRunSafety.{ArePlayable};

use crate::final_rules::{FinalRule, final_rule};
use crate::listing::has_summary;
use crate::report::{MethodVerdict, Report, report_listed};
use crate::verdict::Verdict;
use classfile::Formed;
use hierarchy::{Classes, Prepared, name_of, summary_of};
use names::MetNames;
use std::alloc::{AllocError, AllocFailed, Global};
use thiserror::Error;
use type_numbers::TypeNumbers;

/// A rule that a class in play breaks.
#[derive(Clone, Copy, Debug, PartialEq, Eq)]
pub enum PlayRule {
    /// 80: the hierarchy has no class with exactly the summary of this one.
    NotInHierarchy,
    /// 81 or 85: the class breaks a rule on final classes and methods.
    Final(FinalRule),
    /// 83: an earlier class in play has this name.
    ClassInPlayTwice,
}

/// Why there are no reports on classes in play.
#[derive(Clone, Copy, Debug, PartialEq, Eq, Error)]
pub enum PlayFault {
    /// 1: memory ran out.
    #[error("refused 1")]
    OutOfMemory,
    /// 80, 81, 83 or 85: the class of this number is the first with a fault, and this is the first rule that it breaks.
    /// Classes count from 0.
    #[error("refused {}", rule.number())]
    Broken { class: usize, rule: PlayRule },
    /// 84: the class of this number is the first with a fault, and the method of this number the first of its methods
    /// that is refused. Classes and methods count from 0.
    #[error("refused 84")]
    NotAllVerified { class: usize, method: usize },
}

/// Why there are no reports on classes in play, with the verdict on the method that is refused.
#[derive(Clone, Copy)]
pub enum PlayStop<'a> {
    /// Memory ran out.
    OutOfMemory,
    /// The class of this number breaks this rule.
    Broken {
        class: usize,
        rule: PlayRule,
    },
    /// The first method of the class that is refused has this number.
    Refused {
        class: usize,
        number: usize,
        method: MethodVerdict<'a>,
    },
}

impl PlayRule {
    /// The number of this rule.
    pub fn number(&self) -> u8
        ensures { result ≡ rule_number self.now }
    {
        match self {
            PlayRule::NotInHierarchy => 80,
            PlayRule::Final(rule) => rule.number(),
            PlayRule::ClassInPlayTwice => 83,
        }
    }
}

impl PlayFault {
    /// The number of this fault.
    pub fn number(&self) -> u8
        ensures { result ≡ play_fault_number self.now }
    {
        match self {
            PlayFault::OutOfMemory => 1,
            PlayFault::Broken { rule, .. } => rule.number(),
            PlayFault::NotAllVerified { .. } => 84,
        }
    }
}

impl<'a> From<AllocError> for PlayStop<'a> {
    ghost use Rattle.verify.specs.declared.play.PlayStop.TheVariants.{OutOfMemory};

    ghost from_gives = { λ _ e. e ≡ OutOfMemory };

    fn from(_error: AllocError) -> PlayStop<'a> {
        PlayStop::OutOfMemory
    }
}

impl<'a, T: Drop> From<AllocFailed<T>> for PlayStop<'a> {
    ghost use Rattle.verify.specs.declared.play.PlayStop.TheVariants.{OutOfMemory};

    ghost from_gives = { λ _ e. e ≡ OutOfMemory };

    fn from(_failed: AllocFailed<T>) -> PlayStop<'a> {
        PlayStop::OutOfMemory
    }
}

/// Whether a verdict does not refuse.
fn is_fine(verdict: &Verdict<'_>) -> bool
    ensures { IsTrue result ↔ IsFineVerdict verdict.now }
{
    match verdict {
        Verdict::Verified | Verdict::NoCode => true,
        Verdict::Refused { .. } => false,
    }
}

/// The first method that is refused, if one is.
fn first_refused<'a>(methods: &[MethodVerdict<'a>]) -> Option<(usize, MethodVerdict<'a>)>
    ensures { MatchOption result (AreFineBelow methods.now (length methods.now))
        (λ r. IsFirstRefused methods.now r.0 r.1) }
{
    for i in 0..methods.len() {
        let method = &methods[i];
        if !is_fine(&method.verdict) {
            return Some((i, *method));
        }
    }
    None
}

/// The report on the class at a place; or the first rule that it breaks. The names of the classes before it were met.
fn judge<'a, C: Classes>(
    alloc: Global,
    formed: &Formed<'_, 'a>,
    class: usize,
    names: &mut MetNames<'a>,
    numbers: &mut TypeNumbers<'_, 'a, C>,
) -> Result<Report<'a>, PlayStop<'a>>
    ensures same { numbers.new.classes ≡ numbers.old.classes }
    ensures judged { (play : List JudgedClass) → slice_get play class ≡ Some (judged_class formed.now)
        → AreMet play class names.old
        → Judges numbers.old.classes play class (judged_class formed.now) names.new result }
{
    let classes = numbers.classes();
    let summary = summary_of(alloc, formed)?;
    if !has_summary(alloc, &summary, classes)? {
        let rule = PlayRule::NotInHierarchy;
        return Err(PlayStop::Broken { class, rule });
    }
    if let Some(rule) = final_rule(alloc, &summary, classes)? {
        let rule = PlayRule::Final(rule);
        return Err(PlayStop::Broken { class, rule });
    }
    if names.meet(summary.name, class)? {
        let rule = PlayRule::ClassInPlayTwice;
        return Err(PlayStop::Broken { class, rule });
    }
    let Ok(report) = report_listed(alloc, formed, numbers) else {
        return Err(PlayStop::OutOfMemory);
    };
    match first_refused(&report.methods) {
        None => Ok(report),
        Some((number, method)) => Err(PlayStop::Refused {
            class,
            number,
            method,
        }),
    }
}

/// The reports on classes in play, judged in turn; or why there are none, with the verdict on a method that is refused.
/// The places of the hierarchy's classes that one of them names are kept for those after it.
fn reports_in_turn<'a, C: Classes>(
    alloc: Global,
    play: &[Formed<'_, 'a>],
    classes: &C,
) -> Result<Vec<Report<'a>>, PlayStop<'a>>
    ensures exactly { let cs = map judged_class play.now in
        MatchResult result (λ rs. ArePlayed (C.content classes.now) cs rs.items)
        (IsStopped (C.content classes.now) cs) }
    ensures hierarchy { IfOk result (λ rs. 0 < length rs.items → IsHierarchy (C.content classes.now)) }
{
    let mut reports = Vec::with_capacity(alloc, play.len())?;
    let mut names = MetNames::new(alloc);
    let mut numbers = TypeNumbers::new(alloc, classes);
    for class in 0..play.len() {
        match judge(alloc, &play[class], class, &mut names, &mut numbers) {
            Ok(report) => reports.push(report)?,
            Err(stop) => return Err(stop),
        }
    }
    Ok(reports)
}

/// The names of classes.
fn names_of<'a>(alloc: Global, play: &[Formed<'_, 'a>]) -> Result<Vec<&'a [u8]>, AllocError> {
    play.iter().map(|formed| name_of(formed)).collect(alloc)
}

/// The reports on classes in play; or why there are none, with the verdict on a method that is refused. What the
/// classes inherit is found for all of them before any is judged, so that none walks along its superclasses.
pub fn reports_in_play<'a, C: Classes>(
    alloc: Global,
    play: &[Formed<'_, 'a>],
    classes: &C,
) -> Result<Vec<Report<'a>>, PlayStop<'a>>
    ensures exactly { let cs = map judged_class play.now in
        MatchResult result (λ rs. ArePlayed (C.content classes.now) cs rs.items)
        (IsStopped (C.content classes.now) cs) }
    ensures hierarchy { IfOk result (λ rs. 0 < length rs.items → IsHierarchy (C.content classes.now)) }
{
    let names = names_of(alloc, play)?;
    let prepared = Prepared::new(alloc, classes, &names)?;
    reports_in_turn(alloc, play, &prepared)
}

/// The fault of classes in play that have no reports.
fn fault_of(stop: PlayStop<'_>) -> PlayFault
    ensures { (classes : List ClassFact) (cs : List JudgedClass) → IsStopped classes cs stop.entry
        → IsNotPlayed classes cs result }
{
    match stop {
        PlayStop::OutOfMemory => PlayFault::OutOfMemory,
        PlayStop::Broken { class, rule } => PlayFault::Broken { class, rule },
        PlayStop::Refused { class, number, .. } => PlayFault::NotAllVerified {
            class,
            method: number,
        },
    }
}

/// The reports on classes that are in play together: any method of theirs may be entered where another calls it. They
/// are in the order of the list, and each method that has code is verified, by the profile of its class (see
/// [`Formed::under`]).
///
/// The first class that breaks a rule is refused, by the first of these: 80, 81 and 85 as by
/// [`verify_methods`](crate::verify_methods), 83 where an earlier class has its name, 84 where one of its methods is
/// refused. 1 where memory ran out.
///
/// Where there are reports, no run through the methods of these classes meets a fault (JVMS 2.6, 2.10, 2.11.8): in no
/// activation, in no world that extends the hierarchy.
pub fn verify_play<'a, C: Classes>(
    alloc: Global,
    play: &[Formed<'_, 'a>],
    classes: &C,
) -> Result<Vec<Report<'a>>, PlayFault>
    ensures exactly { let cs = map judged_class play.now in
        MatchResult result (λ rs. ArePlayed (C.content classes.now) cs rs.items)
        (IsNotPlayed (C.content classes.now) cs) }
    ensures safe { IfOk result (λ _. ArePlayable (C.content classes.now) (map judged_class play.now)) }
{
    match reports_in_play(alloc, play, classes) {
        Ok(reports) => Ok(reports),
        Err(stop) => Err(fault_of(stop)),
    }
}
