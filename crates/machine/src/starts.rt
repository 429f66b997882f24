//! Where instructions begin.
ghost use Rattle.std.specs.Prelude.{◌≡◌, map};
ghost use Rattle.classfile.specs.Methods.{covers};
ghost use Rattle.insn.specs.Offsets.{StartsRise, has_offset};
ghost use Rattle.insn.specs.Branching.{targets_of};
ghost use Rattle.insn.specs.Views.{views};
ghost use Rattle.machine.specs.Bodies.{code_of, entry_view};
ghost use Rattle.machine.specs.private.Demanded.{begins, all_begin, leads, all_lead};

use crate::body::ExceptionEntry;
use insn::{BranchTargets, Insn, is_rising_start};

fn has_offset(list: &[(u16, Insn<'_>)], at: u16) -> bool
    requires { StartsRise 0 (views list.now) }
    ensures { result ≡ has_offset (code_of list.now) at }
{
    is_rising_start(list, at)
}

/// Whether the entry covers the instruction at an offset.
pub fn covers(entry: &ExceptionEntry<'_>, at: u16) -> bool
    ensures { result ≡ covers (entry_view entry.now) at }
{
    entry.from <= at && at < entry.to
}

fn leads(entry: &ExceptionEntry<'_>, at: u16, list: &[(u16, Insn<'_>)]) -> bool
    requires { StartsRise 0 (views list.now) }
    ensures { result ≡ leads (code_of list.now) at (entry_view entry.now) }
{
    !covers(entry, at) || has_offset(list, entry.handler)
}

// Whether an instruction begins where a branch leads.
fn begins(list: &[(u16, Insn<'_>)], target: i64) -> bool
    requires { StartsRise 0 (views list.now) }
    ensures { result ≡ begins (code_of list.now) target }
{
    if target < 0 {
        return false;
    }
    let Some((last, _)) = list.last() else {
        return false;
    };
    if i64::from(*last) < target {
        return false;
    }
    has_offset(list, target as u16)
}

/// Whether an instruction begins at each of these targets.
pub fn all_begin(targets: BranchTargets<'_>, list: &[(u16, Insn<'_>)]) -> bool
    requires { StartsRise 0 (views list.now) }
    ensures { result ≡ all_begin (code_of list.now) (targets_of targets.entry) }
{
    for target in targets {
        if !begins(list, target) {
            return false;
        }
    }
    true
}

/// Whether an instruction begins at the handler of each entry that covers the one at an offset.
pub fn all_lead(entries: &[ExceptionEntry<'_>], at: u16, list: &[(u16, Insn<'_>)]) -> bool
    requires { StartsRise 0 (views list.now) }
    ensures { result ≡ all_lead (code_of list.now) at (map entry_view entries.now) }
{
    for entry in entries {
        if !leads(entry, at, list) {
            return false;
        }
    }
    true
}
