//! Numbers of members, by kind, name and descriptor.
ghost use Rattle.std.specs.Borrow.{Bor};
ghost use Rattle.std.specs.Prelude.{◌≡◌, ℕ, List, None, IfOk, OnOk};
ghost use Rattle.hierarchy.specs.declared.member_numbers.MemberNumbers.{MemberNumbers};
ghost use Rattle.hierarchy.specs.declared.summary.Kind.{Kind};
ghost use Rattle.hierarchy.specs.private.MemberNumbers.{AddsMember, AreLookups, AreMemberNumbers, member_number};
ghost use Rattle.hierarchy.specs.Summary.{text_among};
ghost use Rattle.hierarchy.specs.private.TextNumbers.{AreGiven};

use crate::member_key::MemberKey;
use crate::summary::MemberPlaces;
use crate::text_numbers::{Lookups, Numbering};
use std::alloc::{AllocError, Global};
use std::collections::BTreeMap;

/// Members by kind, name and descriptor, each with a number of its own, from 0.
#[derive(Drop)]
pub struct MemberNumbers<'a> {
    texts: BTreeMap<&'a [u8], usize>,
    members: BTreeMap<MemberKey, usize>,
}

/// Members whose numbers are asked for. Of a list of texts each is looked up once.
#[derive(Drop)]
pub struct MemberLookups<'n, 'k, 't, 'a> {
    numbers: &'n MemberNumbers<'k>,
    texts: Lookups<'n, 'k, 't, 'a>,
}

impl<'n, 'k, 't, 'a> MemberLookups<'n, 'k, 't, 'a> {
    /// No member was asked for.
    pub fn new(
        alloc: Global,
        numbers: &'n MemberNumbers<'k>,
        texts: &'t [&'a [u8]],
    ) -> Result<MemberLookups<'n, 'k, 't, 'a>, AllocError>
        ensures { IfOk result (AreLookups numbers.now texts.now) }
    {
        let texts = Lookups::new(alloc, &numbers.texts, texts)?;
        Ok(MemberLookups { numbers, texts })
    }

    /// The number of a member, by the places of its texts, if it has one.
    pub fn get(&mut self, member: MemberPlaces) -> Option<usize>
        requires { (numbers : MemberNumbers) × (texts : List (Bor (List ℕ))) × AreLookups numbers texts self.old }
        ensures { (numbers : MemberNumbers) (texts : List (Bor (List ℕ))) → AreLookups numbers texts self.old
            → AreLookups numbers texts self.new × (result ≡ member_number numbers member.kind
            (text_among texts member.name) (text_among texts member.descriptor)) }
    {
        let name = self.texts.get(member.name)?;
        let descriptor = self.texts.get(member.descriptor)?;
        let key = MemberKey {
            name,
            descriptor,
            kind: member.kind,
        };
        self.numbers.members.get(&key).copied()
    }
}

impl<'a> MemberNumbers<'a> {
    /// No member has a number.
    pub fn new(alloc: Global) -> MemberNumbers<'a>
        ensures good { AreMemberNumbers result }
        ensures none { (k : Kind) (a d : List ℕ) → member_number result k a d ≡ None }
    {
        MemberNumbers {
            texts: BTreeMap::new(alloc),
            members: BTreeMap::new(alloc),
        }
    }

    /// Gives a member, by the places of its texts, the next number, where it has none.
    pub fn add(
        &mut self,
        numbering: &mut Numbering<'_, 'a>,
        member: MemberPlaces,
    ) -> Result<(), AllocError>
        requires good { AreMemberNumbers self.old }
        requires given { AreGiven self.old.texts numbering.old }
        ensures added { OnOk result (AddsMember self.old self.new member.kind
            (text_among numbering.old.texts.now member.name)
            (text_among numbering.old.texts.now member.descriptor)) }
        ensures given { OnOk result (AreGiven self.new.texts numbering.new) }
        ensures same { OnOk result (numbering.new.texts.now ≡ numbering.old.texts.now) }
    {
        let name = numbering.number(&mut self.texts, member.name)?;
        let descriptor = numbering.number(&mut self.texts, member.descriptor)?;
        let key = MemberKey {
            name,
            descriptor,
            kind: member.kind,
        };
        if self.members.contains_key(&key) {
            return Ok(());
        }
        let number = self.members.len();
        self.members.insert(key, number)?;
        Ok(())
    }
}
