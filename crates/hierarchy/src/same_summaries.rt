//! Whether two summaries are the same.
ghost use Rattle.std.specs.Borrow.{Bor};
ghost use Rattle.std.specs.Prelude.{◌≡◌, ◌↔◌, ℕ, List, IsTrue, true, option_map, IfOk};
ghost use Rattle.std.specs.Str.{bytes_eq};
ghost use Rattle.hierarchy.specs.Summary.{fact_of, member_of, text_among};
ghost use Rattle.hierarchy.specs.private.SameSummaries.{AreCompared, Compares, same_flags, same_head, same_kind, same_member, same_members, same_name};

use crate::overriding_parts::same_overriding;
use crate::summary::{Kind, MemberSummary, Summary};
use crate::text_numbers::Numbering;
use std::alloc::{AllocError, Global};
use std::collections::BTreeMap;

/// The texts of two summaries, numbered together: equal texts have one number. Each is looked up at most once.
#[derive(Drop)]
struct Comparison<'t, 'a> {
    // That both have the same texts at the same places, as they have where both came of one class file.
    is_copy: bool,
    numbers: BTreeMap<&'a [u8], usize>,
    ones: Numbering<'t, 'a>,
    others: Numbering<'t, 'a>,
}

/// Whether two lists have the same texts at the same places.
fn same_texts(ones: &[&[u8]], others: &[&[u8]]) -> bool
    ensures { result ≡ true → (place : ℕ) → text_among ones.now place ≡ text_among others.now place }
{
    if ones.len() != others.len() {
        return false;
    }
    for i in 0..ones.len() {
        if ones[i] != others[i] {
            return false;
        }
    }
    true
}

fn same_kind(one: Kind, other: Kind) -> bool
    ensures { result ≡ same_kind one other }
{
    match (one, other) {
        (Kind::Field, Kind::Field) | (Kind::Method, Kind::Method) => true,
        (Kind::Field, Kind::Method) | (Kind::Method, Kind::Field) => false,
    }
}

/// Whether two members are of one kind, have the same flags, and take the same part in overriding.
fn same_flags(one: &MemberSummary, other: &MemberSummary) -> bool
    ensures { (ones others : List (Bor (List ℕ)))
        → result ≡ same_flags (member_of ones one.now) (member_of others other.now) }
{
    same_kind(one.places.kind, other.places.kind)
        && one.is_static == other.is_static
        && one.is_protected == other.is_protected
        && same_overriding(one.overriding, other.overriding)
}

impl<'t, 'a> Comparison<'t, 'a> {
    /// The texts of two summaries, of which none was asked for.
    fn new(
        alloc: Global,
        ones: &'t [&'a [u8]],
        others: &'t [&'a [u8]],
    ) -> Result<Comparison<'t, 'a>, AllocError>
        ensures { IfOk result (AreCompared ones.now others.now) }
    {
        Ok(Comparison {
            is_copy: same_texts(ones, others),
            numbers: BTreeMap::new(alloc),
            ones: Numbering::new(alloc, ones)?,
            others: Numbering::new(alloc, others)?,
        })
    }

    /// Whether the texts at these places are equal.
    fn same_text(&mut self, one: usize, other: usize) -> Result<bool, AllocError>
        requires { (ones others : List (Bor (List ℕ))) × AreCompared ones others self.old }
        ensures { (ones others : List (Bor (List ℕ))) → AreCompared ones others self.old
            → IfOk result (Compares ones others self.new (bytes_eq (text_among ones one) (text_among others other))) }
    {
        if self.is_copy && one == other {
            return Ok(true);
        }
        let one = self.ones.number(&mut self.numbers, one)?;
        let other = self.others.number(&mut self.numbers, other)?;
        Ok(one == other)
    }

    /// Whether two members are the same.
    fn same_member(
        &mut self,
        one: &MemberSummary,
        other: &MemberSummary,
    ) -> Result<bool, AllocError>
        requires { (ones others : List (Bor (List ℕ))) × AreCompared ones others self.old }
        ensures { (ones others : List (Bor (List ℕ))) → AreCompared ones others self.old
            → IfOk result (Compares ones others self.new
            (same_member (member_of ones one.now) (member_of others other.now))) }
    {
        if !same_flags(one, other) {
            return Ok(false);
        }
        if !self.same_text(one.places.name, other.places.name)? {
            return Ok(false);
        }
        self.same_text(one.places.descriptor, other.places.descriptor)
    }
}

/// Whether two summaries have the same members.
fn same_members(alloc: Global, one: &Summary<'_>, other: &Summary<'_>) -> Result<bool, AllocError>
    ensures { IfOk result (λ b. b ≡ same_members (fact_of one.now).members (fact_of other.now).members) }
{
    if one.members.len() != other.members.len() {
        return Ok(false);
    }
    let mut comparison = Comparison::new(alloc, &one.texts, &other.texts)?;
    for i in 0..one.members.len() {
        if !comparison.same_member(&one.members[i], &other.members[i])? {
            return Ok(false);
        }
    }
    Ok(true)
}

fn same_name(one: Option<&[u8]>, other: Option<&[u8]>) -> bool
    ensures { result ≡ same_name (option_map (λ n. n.now) one.entry) (option_map (λ n. n.now) other.entry) }
{
    match (one, other) {
        (None, None) => true,
        (Some(one), Some(other)) => one == other,
        (None, Some(_)) | (Some(_), None) => false,
    }
}

/// Whether two summaries are the same but for the members.
fn same_head(one: &Summary<'_>, other: &Summary<'_>) -> bool
    ensures { result ≡ same_head (fact_of one.now) (fact_of other.now) }
{
    one.name == other.name
        && same_name(one.superclass, other.superclass)
        && one.interface == other.interface
        && one.is_final == other.is_final
}

/// Whether two summaries are the same. Each text of theirs is looked up at most once, however many members have it. It
/// fails only if memory runs out.
pub fn same_summary(
    alloc: Global,
    one: &Summary<'_>,
    other: &Summary<'_>,
) -> Result<bool, AllocError>
    ensures { IfOk result (λ b. IsTrue b ↔ (fact_of one.now ≡ fact_of other.now)) }
{
    if !same_head(one, other) {
        return Ok(false);
    }
    same_members(alloc, one, other)
}
