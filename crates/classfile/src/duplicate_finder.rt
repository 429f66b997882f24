//! Whether a member has the name and the descriptor of an earlier one (JVMS 4.5, 4.6).
ghost use Rattle.std.specs.Prelude.{◌≡◌, true, [], map, option_map, IfOk};
ghost use Rattle.std.specs.Str.{bytes_eq};
ghost use Rattle.classfile.specs.private.DuplicateFinder.{WereMet, MeetsNext, MeetsMarked, AreMarked, byte_at, mark};
ghost use Rattle.classfile.specs.Indices.{on_text};
ghost use Rattle.classfile.specs.MemberForm.{are_same, on_member, is_among};
ghost use Rattle.classfile.specs.Views.{member_view};
ghost use Rattle.pool.specs.Lookups.{named};
ghost use Rattle.pool.specs.ConstantMeanings.{found};
ghost use Rattle.pool.specs.Views.{name_and_type_view};

use crate::member::Member;
use crate::member_keys::MemberKeys;
use names::Text;
use pool::{NameAndType, Pool};
use std::alloc::{AllocError, Global};

/// So many members are compared one with the other, where their marks are the same: that takes less time than a set of
/// their names and descriptors.
const FEW: usize = 96;

/// The members before one, as they are kept.
#[derive(Drop)]
pub enum DuplicateFinder<'a> {
    /// The marks that one of them has, since they are few.
    Few([bool; 256]),
    /// Their names and descriptors as a set.
    Many(MemberKeys<'a>),
}

impl<'a> DuplicateFinder<'a> {
    /// None yet, of so many members.
    pub fn new(
        alloc: Global,
        pool: &Pool<'_>,
        members: usize,
    ) -> Result<DuplicateFinder<'a>, AllocError>
        ensures { IfOk result (WereMet pool.now []) }
    {
        if members <= FEW {
            return Ok(DuplicateFinder::Few([false; 256]));
        }
        Ok(DuplicateFinder::Many(MemberKeys::new(alloc, pool)?))
    }

    /// Whether one of the earlier members has the name and the descriptor of this one, which then is met.
    pub fn meet(
        &mut self,
        pool: &Pool<'a>,
        earlier: &[Member<'_>],
        member: &Member<'_>,
    ) -> Result<bool, AllocError>
        requires { WereMet pool.now (map member_view earlier.now) self.now }
        ensures { IfOk result (MeetsNext pool.now (map member_view earlier.now) (member_view member.now) self.new) }
    {
        match self {
            DuplicateFinder::Few(marks) => Ok(meet_marked(marks, pool, earlier, member)),
            DuplicateFinder::Many(keys) => keys.meet_member(pool, member),
        }
    }
}

/// The byte at a place of a text, or 0 after its end.
fn byte_at(bytes: &[u8], place: usize) -> usize
    ensures { result ≡ byte_at bytes.now place }
{
    match bytes.get(place) {
        Some(byte) => usize::from(*byte),
        None => 0,
    }
}

/// The mark of a name and a descriptor, below 256. Most of the members of a class differ in it.
fn mark(texts: NameAndType<'_>) -> usize
    ensures { result ≡ mark (name_and_type_view texts.entry) }
{
    let name = texts.name.bytes();
    let lengths = 17 * (name.len() % 256) + 71 * (texts.descriptor.bytes().len() % 256);
    let last = byte_at(name, name.len().saturating_sub(1));
    let middle = byte_at(name, name.len() / 2);
    (lengths + 5 * last + 29 * middle) % 256
}

/// Whether the text at an index is this one.
fn is_text(pool: &Pool<'_>, index: u16, text: Text<'_>) -> bool
    ensures { result ≡ on_text pool.now index (bytes_eq text.entry.bytes.now) }
{
    match pool.text(index) {
        Ok(own) => text.bytes() == own.bytes(),
        Err(_) => false,
    }
}

/// Whether a member has this name and descriptor. Its descriptor is looked up only where it has the name.
fn has_texts(pool: &Pool<'_>, member: &Member<'_>, texts: NameAndType<'_>) -> bool
    ensures { result ≡ on_member pool.now (member_view member.now) (are_same (name_and_type_view texts.entry)) }
{
    is_text(pool, member.name, texts.name) && is_text(pool, member.descriptor, texts.descriptor)
}

/// Whether one of the members has this name and descriptor.
#[inline(never)]
#[tactic(auto, unfolding(crate::specs::MemberForm::is_among))]
fn is_among(pool: &Pool<'_>, members: &[Member<'_>], texts: NameAndType<'_>) -> bool
    ensures { result ≡ is_among pool.now (map member_view members.now) (name_and_type_view texts.entry) }
{
    members.iter().any(|member| has_texts(pool, member, texts))
}

/// The name and the descriptor of a member, if both are there.
#[tactic(auto, unfolding(pool::specs::Lookups::named))]
fn texts_of<'a>(pool: &Pool<'a>, member: &Member<'_>) -> Option<NameAndType<'a>>
    ensures { option_map name_and_type_view result ≡ found (named pool.now member.now.name member.now.descriptor) }
{
    let Ok(name) = pool.text(member.name) else {
        return None;
    };
    let Ok(descriptor) = pool.text(member.descriptor) else {
        return None;
    };
    Some(NameAndType { name, descriptor })
}

/// Whether one of few earlier members has the name and the descriptor of this one, whose mark then is set. Where no
/// earlier one has the mark, none is looked at.
fn meet_marked(
    marks: &mut [bool; 256],
    pool: &Pool<'_>,
    earlier: &[Member<'_>],
    member: &Member<'_>,
) -> bool
    requires { AreMarked pool.now (map member_view earlier.now) marks.now }
    ensures { MeetsMarked pool.now (map member_view earlier.now) (member_view member.now) marks.new result }
{
    let Some(texts) = texts_of(pool, member) else {
        return false;
    };
    let mark = mark(texts);
    if marks[mark] {
        return is_among(pool, earlier, texts);
    }
    marks[mark] = true;
    false
}
