//! The line of the expected type of an instruction that the frame before it does not meet, and its JSON fields.
ghost use Rattle.std.specs.Prelude.{option_map};
ghost use Rattle.frames.specs.VerificationType.{type_of};
ghost use Rattle.rules.specs.Unmet.{unmet_of};
ghost use Rattle.rules.specs.Views.{expected_view};
ghost use Rattle.printing.specs.Json.{fields_then};
ghost use Rattle.answers.specs.Unmet.{array_for_text, expected_text, uninitialized_text, found_text, expected_found, operand_line, unmet_line, found_fields, operand_fields, unmet_fields};

use frames::{VType, number_type, reference_to};
use names::{Base, Primitive};
use printing::{Enclosed, More, Number, Print, Quoted, Then, TypeText, Within, Word, WriteFailed};
use rules::{ExpectedType, Unmet};
use std::io::Write;

/// An array whose elements an instruction for a type takes.
#[derive(Clone, Copy)]
struct ArrayForText(Within, Primitive);

impl Print for ArrayForText {
    ghost text = { λ t. array_for_text t.0 t.1 };

    fn put<W: Write>(&self, out: &mut W) -> Result<(), WriteFailed> {
        match self.1 {
            Primitive::Byte => Word("Class [B or Class [Z").put(out),
            element => {
                let base = Base::Primitive(element);
                TypeText(self.0, VType::Array { dims: 1, base }).put(out)
            }
        }
    }
}

/// An expected type.
#[derive(Clone, Copy)]
struct ExpectedText<'a>(Within, ExpectedType<'a>);

impl<'a> Print for ExpectedText<'a> {
    ghost text = { λ t. expected_text t.0 (expected_view t.1) };

    fn put<W: Write>(&self, out: &mut W) -> Result<(), WriteFailed> {
        let within = self.0;
        match self.1 {
            ExpectedType::Number(kind) => TypeText(within, number_type(kind)).put(out),
            ExpectedType::Assignable(to) => TypeText(within, reference_to(to)).put(out),
            ExpectedType::Reference => Word("reference").put(out),
            ExpectedType::Array => Word("array").put(out),
            ExpectedType::ArrayFor(element) => ArrayForText(within, element).put(out),
            ExpectedType::OwnOr(name) => {
                let class = TypeText(within, VType::Class(name));
                Then(Word("uninitializedThis or "), class).put(out)
            }
        }
    }
}

/// An object that a constructor of the class may be called on.
#[derive(Clone, Copy)]
struct UninitializedText<'a>(Within, &'a [u8]);

impl<'a> Print for UninitializedText<'a> {
    ghost text = { λ t. uninitialized_text t.0 t.1.now };

    fn put<W: Write>(&self, out: &mut W) -> Result<(), WriteFailed> {
        let class = TypeText(self.0, VType::Class(self.1));
        Then(Word("uninitialized "), class).put(out)
    }
}

/// The type that is found, if there is one.
#[derive(Clone, Copy)]
struct FoundText<'a>(Option<VType<'a>>);

impl<'a> Print for FoundText<'a> {
    ghost text = { λ t. found_text (option_map type_of t.0) };

    fn put<W: Write>(&self, out: &mut W) -> Result<(), WriteFailed> {
        match self.0 {
            None => Word("none").put(out),
            Some(found) => TypeText(Within::Words, found).put(out),
        }
    }
}

/// The expected type and the one that is found, up to the end of the line.
#[derive(Clone, Copy)]
struct ExpectedFound<'a, E> {
    expected: E,
    found: Option<VType<'a>>,
}

impl<'a, E: Print + Copy> Print for ExpectedFound<'a, E> {
    ghost text = { λ t. expected_found (E.text t.expected) (option_map type_of t.found) };

    fn put<W: Write>(&self, out: &mut W) -> Result<(), WriteFailed> {
        let found = Then(FoundText(self.found), Word("\n"));
        Then(
            Word(": expected "),
            Then(self.expected, Then(Word(", found "), found)),
        )
        .put(out)
    }
}

/// The line of an operand.
#[derive(Clone, Copy)]
struct OperandLine<'a, E> {
    place: usize,
    count: usize,
    expected: E,
    found: Option<VType<'a>>,
}

impl<'a, E: Print + Copy> Print for OperandLine<'a, E> {
    ghost text = { λ t. operand_line t.place t.count (E.text t.expected) (option_map type_of t.found) };

    fn put<W: Write>(&self, out: &mut W) -> Result<(), WriteFailed> {
        let types = ExpectedFound {
            expected: self.expected,
            found: self.found,
        };
        let count = Then(Word(" of "), Then(Number(self.count as u64), types));
        Then(Word("  operand "), Then(Number(self.place as u64), count)).put(out)
    }
}

/// The line of an expected type that is not met.
#[derive(Clone, Copy)]
pub struct UnmetLine<'a>(pub Unmet<'a>);

impl<'a> Print for UnmetLine<'a> {
    ghost text = { λ t. unmet_line (unmet_of t.0) };

    fn put<W: Write>(&self, out: &mut W) -> Result<(), WriteFailed> {
        match self.0 {
            Unmet::Operand { wrong, count } => OperandLine {
                place: wrong.place,
                count,
                expected: ExpectedText(Within::Words, wrong.expected),
                found: wrong.found,
            }
            .put(out),
            Unmet::Receiver {
                class,
                found,
                count,
            } => OperandLine {
                place: 1,
                count,
                expected: UninitializedText(Within::Words, class),
                found,
            }
            .put(out),
            Unmet::Local {
                place,
                expected,
                found,
            } => {
                let types = ExpectedFound {
                    expected: ExpectedText(Within::Words, expected),
                    found: Some(found),
                };
                Then(Word("  local "), Then(Number(place), types)).put(out)
            }
            Unmet::Units { taken, there } => {
                let there = Then(Number(there as u64), Word("\n"));
                let units = Then(Number(taken as u64), Then(Word(", found "), there));
                Then(Word("  stack: expected units "), units).put(out)
            }
        }
    }
}

/// The field of the type that is found, if there is one, and then what stands after it.
#[derive(Clone, Copy)]
struct FoundFields<'a, B>(Option<VType<'a>>, B);

impl<'a, B: Print + Copy> Print for FoundFields<'a, B> {
    ghost text = { λ t. fields_then (found_fields (option_map type_of t.0)) (B.text t.1) };

    fn put<W: Write>(&self, out: &mut W) -> Result<(), WriteFailed> {
        match self.0 {
            None => self.1.put(out),
            Some(found) => {
                let text = Enclosed(TypeText(Within::Json, found));
                More("type", text, self.1).put(out)
            }
        }
    }
}

/// The fields of an operand, and then what stands after them.
#[derive(Clone, Copy)]
struct OperandFields<'a, E, B> {
    place: usize,
    count: usize,
    expected: E,
    found: Option<VType<'a>>,
    behind: B,
}

impl<'a, E: Print + Copy, B: Print + Copy> Print for OperandFields<'a, E, B> {
    ghost text = { λ t. fields_then (operand_fields t.place t.count (E.text t.expected) (option_map type_of t.found))
        (B.text t.behind) };

    fn put<W: Write>(&self, out: &mut W) -> Result<(), WriteFailed> {
        let found = FoundFields(self.found, self.behind);
        let types = More("expected_type", Enclosed(self.expected), found);
        let place = Number(self.place as u64);
        let behind = More("count", Number(self.count as u64), types);
        More("differs", Quoted("operand"), More("index", place, behind)).put(out)
    }
}

/// The fields of an expected type that is not met, and then what stands after them.
#[derive(Clone, Copy)]
pub struct UnmetFields<'a, B>(pub Unmet<'a>, pub B);

impl<'a, B: Print + Copy> Print for UnmetFields<'a, B> {
    ghost text = { λ t. fields_then (unmet_fields (unmet_of t.0)) (B.text t.1) };

    fn put<W: Write>(&self, out: &mut W) -> Result<(), WriteFailed> {
        let behind = self.1;
        match self.0 {
            Unmet::Operand { wrong, count } => OperandFields {
                place: wrong.place,
                count,
                expected: ExpectedText(Within::Json, wrong.expected),
                found: wrong.found,
                behind,
            }
            .put(out),
            Unmet::Receiver {
                class,
                found,
                count,
            } => OperandFields {
                place: 1,
                count,
                expected: UninitializedText(Within::Json, class),
                found,
                behind,
            }
            .put(out),
            Unmet::Local {
                place,
                expected,
                found,
            } => {
                let text = Enclosed(TypeText(Within::Json, found));
                let expected = Enclosed(ExpectedText(Within::Json, expected));
                let types = More("expected_type", expected, More("type", text, behind));
                More(
                    "differs",
                    Quoted("local"),
                    More("index", Number(place), types),
                )
                .put(out)
            }
            Unmet::Units { taken, there } => {
                let there = More("units", Number(there as u64), behind);
                let units = More("expected_units", Number(taken as u64), there);
                More("differs", Quoted("stack_units"), units).put(out)
            }
        }
    }
}
