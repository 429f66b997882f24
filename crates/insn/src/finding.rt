//! The instruction at an offset of a list whose offsets rise.
ghost use Rattle.std.specs.Prelude.{◌≡◌, Some, None, option_map, slice_get, MatchOption};
ghost use Rattle.insn.specs.Offsets.{StartsRise, acts, at_offset, next_offset};
ghost use Rattle.insn.specs.Views.{views, act_view};

use crate::acts::Act;
use crate::instruction::Insn;
use crate::instruction_acts::act;

// Where the instruction of this number begins, if there is one.
fn start_at(list: &[(u16, Insn<'_>)], number: usize) -> Option<u16>
    ensures { result ≡ option_map (λ x. x.0) (slice_get list.now number) }
{
    match list.get(number) {
        None => None,
        Some((start, _)) => Some(*start),
    }
}

/// The meaning of the instruction at an offset, and where the next one begins, if one begins after it: `None` where
/// none begins at that offset. Takes no memory. The offsets of [`decode_code`](crate::decode_code)'s list rise, so it
/// is found by binary search.
pub fn found_at<'a>(list: &[(u16, Insn<'a>)], at: u16) -> Option<(Act<'a>, Option<u16>)>
    requires { StartsRise 0 (views list.now) }
    ensures { MatchOption result (at_offset (acts (views list.now)) at ≡ None)
        (λ x. (at_offset (acts (views list.now)) at ≡ Some (act_view x.0))
        × (next_offset (acts (views list.now)) at ≡ x.1)) }
{
    match list.binary_search_by_key(&at, |(start, _)| *start) {
        Err(_) => None,
        Ok(place) => {
            let next = start_at(list, place + 1);
            Some((act(&list[place].1), next))
        }
    }
}
