//! How many units an instruction takes that moves items of the stack.
ghost use Rattle.std.specs.Prelude.{◌≡◌, ◌≤◌, map};
ghost use Rattle.insn.specs.OperandStacks.{units_of_places, units_taken};
ghost use Rattle.insn.specs.Views.{stack_form_view};

use insn::{StackForm, StackPlace};

/// How many units these places take.
fn units_of_places(places: &[StackPlace]) -> usize
    requires { units_of_places places.now ≤ 6 }
    ensures { result ≡ units_of_places places.now }
{
    match places {
        [] => 0,
        [StackPlace::Narrow, places @ ..] => 1 + units_of_places(places),
        [StackPlace::Wide, places @ ..] => 2 + units_of_places(places),
    }
}

/// How many units all forms of an instruction take.
pub fn units_taken(forms: &[StackForm]) -> usize
    requires { units_taken (map stack_form_view forms.now) ≤ 6 }
    ensures { result ≡ units_taken (map stack_form_view forms.now) }
{
    match forms {
        [] => 0,
        [form, ..] => units_of_places(form.takes),
    }
}
