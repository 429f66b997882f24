//! Known classes by their summaries, and a class beside those of them that stand with it.
ghost use Rattle.std.specs.Prelude.{◌≡◌, ◌∷◌, List, [], is_some, IfOk, IfErr};
ghost use Rattle.classfile.specs.CodeMethods.{judged_class};
ghost use Rattle.classfile.specs.Values.{Class};
ghost use Rattle.hierarchy.specs.Class.{ClassFact, class_of};
ghost use Rattle.hierarchy.specs.ClassSummary.{summary_of};
ghost use Rattle.hierarchy.specs.Summary.{fact_of, facts_of};
ghost use Rattle.verify.specs.Files.{Read, read_of};
ghost use Rattle.verify.specs.Beside.{HaveSummaries, others, standing_beside, AreBeside, AnswersBeside, IsOfNoKnown};
ghost use Rattle.verify.specs.Each.{with_class};
ghost use Rattle.verify.specs.Explaining.{IsExplained};
ghost use Rattle.verify.specs.private.AmongSteps.{ExplainsFormed};
ghost use Rattle.verify.specs.private.EachSteps.{ArePlaced, HavePlaces};

use crate::explanation::Explained;
use crate::files::{FileRead, class_in, formed};
use crate::gathering::Gathered;
use crate::known_classes::{AmongFault, explain_in, refused};
use crate::standing::flags;
use classfile::{Formed, Profile};
use hierarchy::{Summary, summary_of};
use std::alloc::{AllocError, Global};
use std::hash::BuildHasher;
use std::marker::Model;

/// The summaries of known classes, in the order in which they came, one for each name.
#[derive(Drop)]
pub struct KnownSummaries<'a> {
    gathered: Gathered<'a>,
    /// Whether all of them stand, once that was asked for.
    all_stand: Option<bool>,
}

impl<'a> Model for KnownSummaries<'a> {
    ghost use Rattle.std.specs.Prelude.{◌≡◌, List, IfSome};
    ghost use Rattle.std.specs.List.{list_all};
    ghost use Rattle.hierarchy.specs.Class.{ClassFact};
    ghost use Rattle.hierarchy.specs.Summary.{facts_of};
    ghost use Rattle.verify.specs.Standing.{stands};
    ghost use Rattle.verify.specs.private.EachSteps.{ArePlaced};

    ghost Value = { List ClassFact };

    ghost view = { λ k. facts_of k.gathered.classes.items };

    ghost invariant = { λ k. ArePlaced (facts_of k.gathered.classes.items) k.gathered.places
        × IfSome k.all_stand (λ all. all
        ≡ list_all (stands (facts_of k.gathered.classes.items)) (facts_of k.gathered.classes.items)) };
}

impl<'k> KnownSummaries<'k> {
    /// No class.
    pub fn new(alloc: Global) -> KnownSummaries<'k>
        ensures { result ≡ [] }
    {
        KnownSummaries {
            gathered: Gathered::new(alloc),
            all_stand: None,
        }
    }

    /// Whether there is a class of this name.
    pub fn has(&self, name: &[u8]) -> bool
        ensures { result ≡ is_some (class_of self.now name.now) }
    {
        self.gathered.places.get(name).is_some()
    }

    /// One class more, after the others, unless one has its name.
    pub fn with(self, class: Summary<'k>) -> Result<KnownSummaries<'k>, AllocError>
        ensures { IfOk result (λ k. k ≡ with_class self.entry (fact_of class.entry)) }
    {
        let mut gathered = self.gathered;
        gathered.add(class)?;
        Ok(KnownSummaries {
            gathered,
            all_stand: None,
        })
    }

    /// The classes of other names, in their order.
    pub fn without(self, alloc: Global, name: &[u8]) -> Result<KnownSummaries<'k>, AllocError>
        ensures { IfOk result (λ k. k ≡ others name.now self.entry) }
    {
        let gathered = others_of(alloc, &self.gathered.classes, name)?;
        Ok(KnownSummaries {
            gathered,
            all_stand: None,
        })
    }

    /// The classes, of which it is known whether all stand.
    pub fn settled(self, alloc: Global) -> Result<KnownSummaries<'k>, AllocError>
        ensures { IfOk result (λ k. k ≡ self.entry) }
    {
        if self.all_stand.is_some() {
            return Ok(self);
        }
        let stand = flags(alloc, &self.gathered)?;
        let all_stand = Some(stand.iter().all(|stands| *stands));
        Ok(KnownSummaries {
            gathered: self.gathered,
            all_stand,
        })
    }

    /// The class, and behind it the known ones beside which it is judged. Where all stand and none has its name, all of
    /// them stand behind it as well.
    fn beside<'a>(&self, alloc: Global, class: Summary<'a>) -> Result<Vec<Summary<'a>>, AllocError>
    where
        'k: 'a,
        ensures { IfOk result (λ summaries. facts_of summaries.items
            ≡ fact_of class.entry ∷ standing_beside (fact_of class.entry) self.now) }
    {
        let all_stand = self.all_stand.unwrap_or(false);
        if all_stand && !self.has(class.name) {
            behind(alloc, class, &self.gathered.classes)
        } else {
            standing_behind(alloc, class, &self.gathered.classes)
        }
    }
}

/// The summary of a class once more, of the parts that it has.
fn copy_of<'a, 'k: 'a>(alloc: Global, class: &Summary<'k>) -> Result<Summary<'a>, AllocError>
    ensures { IfOk result (λ s. fact_of s ≡ fact_of class.now) }
{
    let mut texts: Vec<&'a [u8]> = Vec::with_capacity(alloc, class.texts.len())?;
    texts.extend_from_slice(&class.texts)?;
    let mut members = Vec::with_capacity(alloc, class.members.len())?;
    members.extend_from_slice(&class.members)?;
    Ok(Summary {
        name: class.name,
        superclass: class.superclass,
        interface: class.interface,
        is_final: class.is_final,
        texts,
        members,
    })
}

/// The classes of other names, in their order.
fn others_of<'a>(
    alloc: Global,
    classes: &[Summary<'a>],
    name: &[u8],
) -> Result<Gathered<'a>, AllocError>
    requires { HavePlaces (facts_of classes.now) }
    ensures others { IfOk result (λ g. facts_of g.classes.items ≡ others name.now (facts_of classes.now)) }
    ensures placed { IfOk result (λ g. ArePlaced (facts_of g.classes.items) g.places) }
{
    let mut others = Gathered::new(alloc);
    for class in classes {
        if name != class.name {
            others.add(copy_of(alloc, class)?)?;
        }
    }
    Ok(others)
}

/// The class, and behind it all of these.
fn behind<'a, 'k: 'a>(
    alloc: Global,
    class: Summary<'a>,
    classes: &[Summary<'k>],
) -> Result<Vec<Summary<'a>>, AllocError>
    ensures { IfOk result (λ summaries. facts_of summaries.items ≡ fact_of class.entry ∷ facts_of classes.now) }
{
    let mut summaries = Vec::new(alloc);
    summaries.push(class)?;
    for other in classes {
        summaries.push(copy_of(alloc, other)?)?;
    }
    Ok(summaries)
}

/// The class, and behind it those of other names, with the place of each.
fn others_behind<'a, 'k: 'a>(
    alloc: Global,
    class: Summary<'a>,
    classes: &[Summary<'k>],
) -> Result<Gathered<'a>, AllocError>
    requires { HavePlaces (facts_of classes.now) }
    ensures others { IfOk result (λ g. facts_of g.classes.items
        ≡ fact_of class.entry ∷ others (fact_of class.entry).name (facts_of classes.now)) }
    ensures placed { IfOk result (λ g. ArePlaced (facts_of g.classes.items) g.places) }
{
    let mut gathered = Gathered::new(alloc);
    gathered.add(class)?;
    for other in classes {
        gathered.add(copy_of(alloc, other)?)?;
    }
    Ok(gathered)
}

/// The class, and behind it those of other names that stand where it is in front of them.
fn standing_behind<'a, 'k: 'a>(
    alloc: Global,
    class: Summary<'a>,
    classes: &[Summary<'k>],
) -> Result<Vec<Summary<'a>>, AllocError>
    requires { HavePlaces (facts_of classes.now) }
    ensures { IfOk result (λ summaries. facts_of summaries.items
        ≡ fact_of class.entry ∷ standing_beside (fact_of class.entry) (facts_of classes.now)) }
{
    let gathered = others_behind(alloc, class, classes)?;
    let stand = flags(alloc, &gathered)?;
    let mut summaries = Vec::new(alloc);
    for (i, class) in gathered.classes.iter().enumerate() {
        if i == 0 || stand[i] {
            summaries.push(copy_of(alloc, class)?)?;
        }
    }
    Ok(summaries)
}

/// The verdicts on the methods of a class that is well formed, beside the known classes that stand with it; and the
/// frames where they are asked for.
fn explain_formed<'a, 'k: 'a, S: BuildHasher + Drop>(
    alloc: Global,
    formed: &Formed<'_, 'a>,
    known: &KnownSummaries<'k>,
    framed: bool,
    hasher: S,
) -> Result<Explained<'a>, AmongFault<'a>>
    ensures answer { (reads : List Read)
        → HaveSummaries reads (standing_beside (summary_of (judged_class formed.now).file) known.now)
        → ExplainsFormed framed (judged_class formed.now) reads result }
    ensures none { IfErr result IsOfNoKnown }
{
    let class = summary_of(alloc, formed)?;
    let summaries = known.beside(alloc, class)?;
    explain_in(alloc, formed, &summaries, framed, hasher)
}

/// The verdicts on the methods of a class, by a profile, and the frames where they are asked for: the answer of
/// [`explain_among_under`](crate::explain_among_under) about the class among the files of the known classes of other
/// names that stand where it is in front of them (each of whose superclasses is known or the class itself, up to Object,
/// and which break no rule on the way). No known class is refused.
pub fn explain_beside<'a, 'k: 'a, S: BuildHasher + Drop>(
    alloc: Global,
    profile: Profile,
    class: FileRead<'a>,
    known: &KnownSummaries<'k>,
    framed: bool,
    hasher: S,
) -> Result<Explained<'a>, AmongFault<'a>>
    ensures answer { (beside : Class → List Read) → AreBeside beside known.now
        → AnswersBeside (IsExplained framed) profile (read_of class.entry) beside result }
    ensures none { IfErr result IsOfNoKnown }
{
    let class = match class_in(alloc, class) {
        Ok(class) => class,
        Err(fault) => return Err(refused(fault)),
    };
    match formed(alloc, &class) {
        Ok(formed) => explain_formed(alloc, &formed.under(profile), known, framed, hasher),
        Err(fault) => Err(refused(fault)),
    }
}
