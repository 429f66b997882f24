//! The numbers of the types that have one number in every method.
ghost use Rattle.std.specs.Prelude.{◌≡◌};
ghost use Rattle.frames.specs.Slots.{number_type};
ghost use Rattle.type_numbers.specs.Numbers.{Numbering, IsNumber};
ghost use Rattle.numbered_rules.specs.Expected.{kind_number};

use insn::Kind;

/// The number of top.
pub const TOP: u32 = 0;
/// The number of the type `int`.
pub const INT: u32 = 0x0100_0000;
/// The number of the type `float`.
pub const FLOAT: u32 = 0x0200_0000;
/// The number of the type `double`.
pub const DOUBLE: u32 = 0x0300_0000;
/// The number of the type `long`.
pub const LONG: u32 = 0x0400_0000;
/// The number of the type of `null`.
pub const NULL: u32 = 0x0500_0000;

/// The number of the type of a kind.
#[inline(always)]
pub fn number_of(kind: Kind) -> u32
    ensures is { result ≡ kind_number kind }
    ensures given { (s : Numbering) → IsNumber s result (number_type kind) }
{
    match kind {
        Kind::Int => INT,
        Kind::Long => LONG,
        Kind::Float => FLOAT,
        Kind::Double => DOUBLE,
    }
}
