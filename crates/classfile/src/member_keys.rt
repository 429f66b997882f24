//! Names and descriptors of members that were met, to find those that stand twice (JVMS 4.5, 4.6).
ghost use Rattle.std.specs.Prelude.{IfOk, List, []};
ghost use Rattle.classfile.specs.Seen.{AreSeen, FindsMember, MeetsMember};
ghost use Rattle.classfile.specs.TextNumbers.{AreNumbers};
ghost use Rattle.classfile.specs.Views.{member_view};

use crate::member::Member;
use crate::text_numbers::TextNumbers;
use pool::Pool;
use std::alloc::{AllocError, Global};
use std::collections::BTreeSet;

/// The names and descriptors of the members that were met, as the numbers of their texts.
#[derive(Drop)]
pub struct MemberKeys<'a> {
    pub numbers: TextNumbers<'a>,
    seen: BTreeSet<(u16, u16)>,
}

impl<'a> MemberKeys<'a> {
    /// None yet.
    pub fn new(alloc: Global, pool: &Pool<'_>) -> Result<MemberKeys<'a>, AllocError>
        ensures { IfOk result (AreSeen pool.now []) }
    {
        Ok(MemberKeys {
            numbers: TextNumbers::new(alloc, pool)?,
            seen: BTreeSet::new(alloc),
        })
    }

    /// Whether one of this name and descriptor was met already; then this one is met.
    pub fn meet_member(&mut self, pool: &Pool<'a>, member: &Member<'_>) -> Result<bool, AllocError>
        requires { AreNumbers pool.now self.now.numbers }
        ensures { IfOk result (MeetsMember pool.now self.old self.new (member_view member.now)) }
    {
        let Ok(name) = pool.text(member.name) else {
            return Ok(false);
        };
        let Ok(descriptor) = pool.text(member.descriptor) else {
            return Ok(false);
        };
        let name = self.numbers.of(pool, member.name, name)?;
        let descriptor = self.numbers.of(pool, member.descriptor, descriptor)?;
        let is_new = self.seen.insert((name, descriptor))?;
        Ok(!is_new)
    }

    /// Whether one of the name and the descriptor at these indices was met.
    pub fn has_met(
        &mut self,
        pool: &Pool<'a>,
        name: u16,
        descriptor: u16,
    ) -> Result<bool, AllocError>
        requires { AreNumbers pool.now self.now.numbers }
        ensures { IfOk result (FindsMember pool.now self.old self.new name descriptor) }
    {
        let Ok(name_text) = pool.text(name) else {
            return Ok(false);
        };
        let Ok(descriptor_text) = pool.text(descriptor) else {
            return Ok(false);
        };
        let name = self.numbers.of(pool, name, name_text)?;
        let descriptor = self.numbers.of(pool, descriptor, descriptor_text)?;
        Ok(self.seen.contains(&(name, descriptor)))
    }
}
