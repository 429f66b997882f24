//! The expected types of operands and local variables, by the numbers of types.
ghost use Rattle.std.specs.Prelude.{◌≡◌, ◌||◌, nat_eq, nat_lt, true};
ghost use Rattle.hierarchy.specs.Answer.{outcome_of, yes};
ghost use Rattle.type_numbers.specs.Numbers.{Numbering, IsGiven};
ghost use Rattle.type_numbers.specs.Decoding.{type_by};
ghost use Rattle.rules.specs.TypingRules.{number};
ghost use Rattle.numbered_rules.specs.declared.expected.Expected.{Expected};
ghost use Rattle.numbered_rules.specs.Expected.{accepts_by, number_asked, IsExpected, StandsFor};
ghost use Rattle.numbered_rules.specs.private.TypeParts.{holds_references_by, is_array_by, is_array_for_by, is_own_by, is_reference_by};

use crate::fixed_numbers::number_of;
use hierarchy::{Answer, Classes};
use insn::{Kind, takes_array};
use method_frames::is_uninitialized;
use names::Primitive;
use type_numbers::{Parts, TypeNumbers, element_at, tags};

/// The expected type of an operand or a local variable (JVMS 4.10.1.9). A number of some kind is a type that is
/// assignable to the type of this kind.
#[derive(Clone, Copy, Debug)]
pub enum Expected {
    /// A type that is assignable to the one of this number.
    Assignable(u32),
    /// Null, a class, an array or an object that is not initialized.
    Reference,
    /// Null or an array.
    Array,
    /// Null, or an array whose elements an instruction for this type takes.
    ArrayFor(Primitive),
    /// The own object that is not initialized, or a type that is assignable to the one of this number.
    OwnOr(u32),
    /// A type that is assignable to the class `Object`, which has this number: null, a class or an array.
    Object(u32),
    /// A type that is assignable to that of arrays of the class `Object`, which has this number: null, or an array of
    /// references.
    ObjectArray(u32),
}

/// A type whose values stand for expected types.
pub trait Asked: Copy {
    ghost asked: { Self → Expected };

    /// The expected type that it stands for.
    fn expected(&self) -> Expected
        ensures { result ≡ asked self.now };
}

impl Asked for Expected {
    ghost asked = { λ e. e };

    fn expected(&self) -> Expected {
        *self
    }
}

/// A kind stands for a number of this kind.
impl Asked for Kind {
    ghost asked = { number_asked };

    fn expected(&self) -> Expected {
        Expected::number(*self)
    }
}

/// Whether a type is that of a reference, initialized or not, by the parts of its number.
#[inline(always)]
pub fn is_reference(parts: Parts) -> bool
    ensures { result ≡ is_reference_by parts.tag }
{
    parts.tag > tags::LONG
}

/// Whether a type is that of a class or of arrays of one, by the parts of its number.
#[inline(always)]
fn is_class(parts: Parts) -> bool
    ensures { result ≡ (nat_eq parts.tag 7 || nat_lt 9 parts.tag) }
{
    parts.tag == tags::CLASS || parts.tag > tags::PRIMITIVE_ARRAY
}

/// Whether a type is that of an array, or null, by the parts of its number.
fn is_array(parts: Parts) -> bool
    ensures { result ≡ is_array_by parts.tag parts.dims }
{
    parts.tag == tags::NULL
        || parts.tag == tags::PRIMITIVE_ARRAY
        || is_class(parts) && parts.dims > 0
}

/// Whether a type is null, or that of an array whose elements an instruction for the primitive type takes, by the parts
/// of its number.
fn is_array_for(primitive: Primitive, parts: Parts) -> bool
    ensures { result ≡ is_array_for_by primitive parts.tag parts.dims parts.rest }
{
    parts.tag == tags::NULL
        || parts.tag == tags::PRIMITIVE_ARRAY
            && parts.dims < 2
            && takes_array(primitive, element_at(parts.rest))
}

/// Whether a type is that of an array of references, by the parts of its number.
#[inline(always)]
pub fn holds_references(parts: Parts) -> bool
    ensures { result ≡ holds_references_by parts.tag parts.dims }
{
    parts.tag == tags::PRIMITIVE_ARRAY && parts.dims > 1 || is_class(parts) && parts.dims > 0
}

/// Whether a type is that of the own object that is not initialized, by the parts of its number.
fn is_own(parts: Parts) -> bool
    ensures { result ≡ is_own_by parts.tag }
{
    parts.tag == tags::UNINIT_THIS
}

impl Expected {
    /// A number of a kind.
    #[inline(always)]
    pub fn number(kind: Kind) -> Expected
        ensures is { result ≡ number_asked kind }
        ensures stands { (s : Numbering) → StandsFor s result (number kind) }
        ensures given { (s : Numbering) → IsExpected s result }
    {
        Expected::Assignable(number_of(kind))
    }

    /// Whether the type of a number meets it (JVMS 4.10.1.2). Takes no memory.
    #[inline(always)]
    pub fn meets<'n, C: Classes>(self, number: u32, types: &TypeNumbers<'_, 'n, C>) -> Answer<'n>
        requires expected { IsExpected types.now self }
        requires given { IsGiven types.now number }
        ensures { outcome_of result ≡ accepts_by types.now self (type_by types.now number) }
    {
        if self.is_met_at_once(number) {
            return Answer::Yes;
        }
        self.judge(number, types)
    }

    /// Whether the number of a type tells at once that the type meets it, with no question about classes.
    #[inline(always)]
    pub fn is_met_at_once(self, number: u32) -> bool
        ensures { (s : Numbering) → IsGiven s number → IsExpected s self → result ≡ true
            → accepts_by s self (type_by s number) ≡ yes }
    {
        match self {
            Expected::Assignable(to) => number == to,
            Expected::Reference => is_reference(Parts::of(number)),
            Expected::Array => is_array(Parts::of(number)),
            Expected::ArrayFor(primitive) => is_array_for(primitive, Parts::of(number)),
            Expected::OwnOr(to) => number == to,
            Expected::Object(_) => is_reference(Parts::of(number)) && !is_uninitialized(number),
            Expected::ObjectArray(_) => holds_references(Parts::of(number)),
        }
    }

    /// Whether the type of a number meets it, by the parts of the number and by the classes.
    #[inline(never)]
    fn judge<'n, C: Classes>(self, number: u32, types: &TypeNumbers<'_, 'n, C>) -> Answer<'n>
        requires expected { IsExpected types.now self }
        requires given { IsGiven types.now number }
        ensures { outcome_of result ≡ accepts_by types.now self (type_by types.now number) }
    {
        match self {
            Expected::Assignable(to) => types.assignable(number, to),
            Expected::Object(to) => types.assignable(number, to),
            Expected::ObjectArray(to) => types.assignable(number, to),
            Expected::Reference => Answer::yes_if(is_reference(Parts::of(number))),
            Expected::Array => Answer::yes_if(is_array(Parts::of(number))),
            Expected::ArrayFor(primitive) => Answer::yes_if(is_array_for(
                primitive,
                Parts::of(number),
            )),
            Expected::OwnOr(to) => if is_own(Parts::of(number)) {
                Answer::Yes
            } else {
                types.assignable(number, to)
            },
        }
    }
}
