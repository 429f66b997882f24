//! The results of methods.
ghost use Rattle.std.specs.Prelude.{◌≡◌, option_map};
ghost use Rattle.std.specs.Option.{option_and_then};
ghost use Rattle.names.specs.References.{reference_view, referred_by};
ghost use Rattle.names.specs.Types.{type_of};
ghost use Rattle.rules.specs.TypingRules.{number};
ghost use Rattle.rules.specs.Outcomes.{result_kind};

use insn::{Kind, computed_as};
use names::{Base, FieldType, RefType};

/// The reference type that is the result of a method, if its result is one.
pub fn reference_of_result<'a>(result_type: Option<FieldType<'a>>) -> Option<RefType<'a>>
    ensures { option_map reference_view result ≡ option_and_then referred_by (option_map type_of result_type.entry) }
{
    match result_type {
        None => None,
        Some(t) => t.reference(),
    }
}

/// The kind of number that is the result of a method, if its result is a number.
pub fn number_of_result(result_type: Option<FieldType<'_>>) -> Option<Kind>
    ensures { result ≡ result_kind (option_map type_of result_type.entry) }
{
    match result_type {
        None => None,
        Some(t) => match t.dims {
            0 => match t.base {
                Base::Primitive(primitive) => Some(computed_as(primitive)),
                Base::Class(_) => None,
            },
            _ => None,
        },
    }
}
