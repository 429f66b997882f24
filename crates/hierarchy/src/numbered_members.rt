//! Which members of classes get numbers, and the numbers of these.
ghost use Rattle.std.specs.Borrow.{Bor};
ghost use Rattle.std.specs.Prelude.{◌≡◌, ℕ, List, IfOk, OnOk};
ghost use Rattle.hierarchy.specs.private.Ancestry.{facts_at};
ghost use Rattle.hierarchy.specs.private.MemberNumbers.{AreMemberNumbers};
ghost use Rattle.hierarchy.specs.private.NumberedMembers.{HaveNumbers, KeepMembers, NumberAll, is_numbered};
ghost use Rattle.hierarchy.specs.Summary.{fact_of, member_of};

use crate::ancestry::Ancestry;
use crate::member_numbers::MemberNumbers;
use crate::overriding_parts::is_final;
use crate::summary::{MemberSummary, Summary};
use crate::text_numbers::Numbering;
use std::alloc::{AllocError, Global};

/// Which members of a class get numbers.
#[derive(Clone, Copy)]
pub enum Numbered {
    /// The protected ones.
    Protected,
    /// The methods that some classes may not override.
    Final,
}

impl Numbered {
    /// Whether a member is one of these.
    pub fn has(self, member: &MemberSummary) -> bool
        ensures { (texts : List (Bor (List ℕ))) → result ≡ is_numbered self (member_of texts member.now) }
    {
        match self {
            Numbered::Protected => member.is_protected,
            Numbered::Final => is_final(member.overriding),
        }
    }
}

/// Gives numbers to some of the members of a class.
fn number_members<'k>(
    alloc: Global,
    which: Numbered,
    numbers: &mut MemberNumbers<'k>,
    class: &Summary<'k>,
) -> Result<(), AllocError>
    requires { AreMemberNumbers numbers.old }
    ensures good { OnOk result (AreMemberNumbers numbers.new) }
    ensures numbered { OnOk result (HaveNumbers which numbers.new (fact_of class.now).members) }
    ensures kept { OnOk result (KeepMembers numbers.old numbers.new) }
{
    let mut numbering = Numbering::new(alloc, &class.texts)?;
    for member in &class.members {
        if which.has(member) {
            numbers.add(&mut numbering, member.places)?;
        }
    }
    Ok(())
}

/// The numbers of some of the members of classes.
pub fn numbers_of<'k>(
    alloc: Global,
    which: Numbered,
    ancestry: &Ancestry<'k>,
) -> Result<MemberNumbers<'k>, AllocError>
    ensures good { IfOk result AreMemberNumbers }
    ensures numbered { IfOk result (λ numbers. NumberAll which numbers (facts_at ancestry.now.classes.items)) }
{
    let mut numbers = MemberNumbers::new(alloc);
    for place in 0..ancestry.classes.len() {
        number_members(alloc, which, &mut numbers, ancestry.classes[place])?;
    }
    Ok(numbers)
}
