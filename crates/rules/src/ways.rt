//! Where an instruction goes, and whether it leaves the locals as they are.
ghost use Rattle.std.specs.Prelude.{◌≡◌};
ghost use Rattle.insn.specs.Meanings.{act};
ghost use Rattle.insn.specs.Views.{view, act_view};
ghost use Rattle.rules.specs.WayLaws.{TypingRulesGoAsActs};
ghost use Rattle.rules.specs.Ways.{goes_on, branch_offsets, is_plain};
ghost use Rattle.insn.specs.Branching.{branches_view};

use insn::{Act, Branches, Insn, act};

/// Whether an instruction goes on to the next one, where it is not refused (JVMS 4.10.1.6): all but those that always
/// jump, return or throw. Takes no memory.
pub fn falls(insn: &Insn<'_>) -> bool
    ensures { result ≡ goes_on (act (view insn.now)) }
{
    goes_on(&act(insn))
}

/// Whether an instruction with this act goes on to the next one, as [`falls`] says it of an instruction.
pub fn goes_on(act: &Act<'_>) -> bool
    ensures { result ≡ goes_on (act_view act.now) }
{
    !matches!(
        act,
        Act::Goto { .. }
            | Act::Switch { .. }
            | Act::Return(_)
            | Act::ReturnReference
            | Act::ReturnVoid
            | Act::Throw
    )
}

/// Whether an instruction with this act is plain: it goes on to the next one and nowhere else, is not a `new`, and
/// names no constant of the pool.
pub fn is_plain(act: &Act<'_>) -> bool
    ensures { result ≡ is_plain (act_view act.now) }
{
    matches!(
        act,
        Act::Nothing
            | Act::Constant(_)
            | Act::ConstantNull
            | Act::Load { .. }
            | Act::LoadReference { .. }
            | Act::Store { .. }
            | Act::StoreReference { .. }
            | Act::Increment { .. }
            | Act::Numeric(_)
            | Act::Stack(_)
            | Act::LoadElement(_)
            | Act::StoreElement(_)
            | Act::LoadReferenceElement
            | Act::StoreReferenceElement
            | Act::ArrayLength
            | Act::NewArray(_)
            | Act::Monitor
            | Act::Unsupported
    )
}

/// Where an instruction branches to. Takes no memory.
pub fn branches<'a>(insn: &Insn<'a>) -> Branches<'a>
    ensures { branches_view result ≡ branch_offsets (act (view insn.now)) }
{
    branches_by(&act(insn))
}

/// Where an instruction with this act branches to.
pub fn branches_by<'a>(act: &Act<'a>) -> Branches<'a>
    ensures { branches_view result ≡ branch_offsets (act_view act.now) }
{
    match *act {
        Act::IfInt { offset }
        | Act::IfInts { offset }
        | Act::IfReferences { offset }
        | Act::IfNull { offset }
        | Act::Goto { offset } => Branches::One(offset),
        Act::Switch { default, targets } => Branches::Switch { default, targets },
        _ => Branches::Nowhere,
    }
}

/// A law: where an instruction goes depends on its act alone. Its typing rule goes on and branches as the act does, in
/// each method and whatever constant it names.
pub fn typing_rules_go_as_acts()
    ensures { TypingRulesGoAsActs }
{}
