//! Where an instruction branches to.
use crate::switch::{Offsets, Targets};

/// Where an instruction branches to, by offsets in bytes from its own start.
#[derive(Clone, Copy, Debug)]
pub enum Branches<'a> {
    /// It does not branch.
    Nowhere,
    /// By this offset.
    One(i32),
    /// By that of a key, or by the default.
    Switch { default: i32, targets: Targets<'a> },
}

/// The targets of an instruction one by one, the default of a switch first: each the offset in bytes of where it leads
/// in the code, which is negative or after the code where the instruction leads out of it.
#[derive(Clone, Copy, Debug)]
pub struct BranchTargets<'a> {
    at: u16,
    first: Option<i32>,
    others: Offsets<'a>,
}

impl<'a> BranchTargets<'a> {
    ghost use Rattle.std.specs.Prelude.{◌≡◌, pos, ◌+ℤ◌};
    ghost use Rattle.insn.specs.Offsets.{led_to};
    ghost use Rattle.insn.specs.Branching.{branches_view, targets_of};

    /// The targets of an instruction at this offset that branches so.
    pub fn new(at: u16, branches: Branches<'a>) -> BranchTargets<'a>
        ensures { targets_of result ≡ led_to at (branches_view branches.entry) }
    {
        let (first, targets) = match branches {
            Branches::Nowhere => (None, Targets::Offsets(&[])),
            Branches::One(offset) => (Some(offset), Targets::Offsets(&[])),
            Branches::Switch { default, targets } => (Some(default), targets),
        };
        BranchTargets {
            at,
            first,
            others: targets.offsets(),
        }
    }

    fn led_by(&self, offset: i32) -> i64
        ensures { result ≡ pos self.now.at +ℤ offset }
    {
        i64::from(self.at) + i64::from(offset)
    }
}

impl<'a> Iterator for BranchTargets<'a> {
    ghost use Rattle.std.specs.Iterator.{YieldsFirst, item_count};
    ghost use Rattle.insn.specs.Branching.{targets_of};

    type Item = i64;

    ghost next_gives = { YieldsFirst targets_of };

    ghost remaining = { item_count targets_of };

    fn next(&mut self) -> Option<i64> {
        if let Some(offset) = self.first {
            self.first = None;
            return Some(self.led_by(offset));
        }
        let offset = self.others.next()?;
        Some(self.led_by(offset))
    }
}
