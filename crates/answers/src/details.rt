//! The lines, and the JSON fields, on what is wrong where a method is refused.
ghost use Rattle.std.specs.Prelude.{◌≡◌, option_map};
ghost use Rattle.rules.specs.Reasons.{reason_number};
ghost use Rattle.verify.specs.Details.{detail_of};
ghost use Rattle.verify.specs.DifferencesAt.{difference_at_of};
ghost use Rattle.printing.specs.Json.{fields_then};
ghost use Rattle.answers.specs.Details.{sought_by, is_arriving, entry_of, placed_line, offset_text, detail_line, detail_line_of, placed_fields, offset_fields, detail_fields, detail_fields_of};

use crate::unmet_lines::{UnmetFields, UnmetLine};
use frames::Sought;
use printing::{DifferenceFields, DifferenceLine, More, Number, Print, Then, Word, WriteFailed};
use rules::Reason;
use std::io::Write;
use verify::{Detail, DifferenceAt};

/// The answer of the comparisons that a reason is about.
pub fn sought_by(reason: &Reason<'_>) -> Sought
    ensures { result ≡ sought_by (reason_number reason.now) }
{
    match reason {
        Reason::ClassMissing(_) => Sought::Missing,
        _ => Sought::No,
    }
}

/// Whether the frame that comes to the instruction and the one that is declared there are compared.
pub fn is_arriving(detail: &Option<Detail<'_>>) -> bool
    ensures { result ≡ is_arriving (option_map detail_of detail.now) }
{
    match detail {
        Some(Detail::Arriving(_)) => true,
        _ => false,
    }
}

/// The place of the entry of the exception table at fault, if one is.
pub fn entry_of(detail: &Option<Detail<'_>>) -> Option<usize>
    ensures { result ≡ entry_of (option_map detail_of detail.now) }
{
    match detail {
        Some(Detail::Handler(place, _)) => Some(*place),
        Some(Detail::Entry(place)) => Some(*place),
        _ => None,
    }
}

/// The lines of a comparison at a target or a handler.
#[derive(Clone, Copy)]
struct PlacedLine<'a> {
    sought: Sought,
    /// `target` or `handler`.
    word: &'static str,
    placed: DifferenceAt<'a>,
}

impl<'a> Print for PlacedLine<'a> {
    ghost text = { λ t. placed_line t.sought t.word.now (difference_at_of t.placed) };

    fn put<W: Write>(&self, out: &mut W) -> Result<(), WriteFailed> {
        let line = DifferenceLine {
            sought: self.sought,
            difference: self.placed.difference,
        };
        let line = Then(Number(self.placed.at as u64), Then(Word("\n"), line));
        let place = Then(Word(self.word), Then(Word(" "), line));
        Then(Word("  "), place).put(out)
    }
}

/// The offset of a frame, if there is one, and the end of the line.
#[derive(Clone, Copy)]
struct OffsetText(Option<u32>);

impl Print for OffsetText {
    ghost text = { λ t. offset_text t.0 };

    fn put<W: Write>(&self, out: &mut W) -> Result<(), WriteFailed> {
        match self.0 {
            Some(at) => Then(Word(" at "), Then(Number(at), Word("\n"))).put(out),
            None => Word("\n").put(out),
        }
    }
}

/// The lines on what is wrong.
#[derive(Clone, Copy)]
struct DetailLine<'a> {
    sought: Sought,
    detail: Detail<'a>,
}

impl<'a> Print for DetailLine<'a> {
    ghost text = { λ t. detail_line t.sought (detail_of t.detail) };

    fn put<W: Write>(&self, out: &mut W) -> Result<(), WriteFailed> {
        let sought = self.sought;
        match self.detail {
            Detail::Arriving(difference) => DifferenceLine { sought, difference }.put(out),
            Detail::Taken(unmet) => UnmetLine(unmet).put(out),
            Detail::Target(placed) => {
                let word = "target";
                PlacedLine {
                    sought,
                    word,
                    placed,
                }
                .put(out)
            }
            Detail::Handler(_, placed) => {
                let word = "handler";
                PlacedLine {
                    sought,
                    word,
                    placed,
                }
                .put(out)
            }
            Detail::Entry(_) => Word("").put(out),
            Detail::MapEntry { place, at } => {
                let entry = Then(Number(place as u64), OffsetText(at));
                Then(Word("  entry "), entry).put(out)
            }
        }
    }
}

/// The lines on what is wrong, if something is.
#[derive(Clone, Copy)]
pub struct DetailIf<'a> {
    /// The answer of the comparisons.
    pub sought: Sought,
    /// The comparison or the entry at fault.
    pub detail: Option<Detail<'a>>,
}

impl<'a> Print for DetailIf<'a> {
    ghost text = { λ t. detail_line_of t.sought (option_map detail_of t.detail) };

    fn put<W: Write>(&self, out: &mut W) -> Result<(), WriteFailed> {
        let sought = self.sought;
        match self.detail {
            Some(detail) => DetailLine { sought, detail }.put(out),
            None => Word("").put(out),
        }
    }
}

/// The fields of a comparison at a target or a handler, and then what stands after them.
#[derive(Clone, Copy)]
struct PlacedFields<'a, B> {
    /// `target` or `handler`.
    word: &'static str,
    placed: DifferenceAt<'a>,
    behind: B,
}

impl<'a, B: Print + Copy> Print for PlacedFields<'a, B> {
    ghost text = { λ t. fields_then (placed_fields t.word.now (difference_at_of t.placed)) (B.text t.behind) };

    fn put<W: Write>(&self, out: &mut W) -> Result<(), WriteFailed> {
        let fields = DifferenceFields(self.placed.difference, self.behind);
        More(self.word, Number(self.placed.at as u64), fields).put(out)
    }
}

/// The field of the offset of a frame, if there is one, and then what stands after it.
#[derive(Clone, Copy)]
struct OffsetField<B>(Option<u32>, B);

impl<B: Print + Copy> Print for OffsetField<B> {
    ghost text = { λ t. fields_then (offset_fields t.0) (B.text t.1) };

    fn put<W: Write>(&self, out: &mut W) -> Result<(), WriteFailed> {
        match self.0 {
            Some(at) => More("entry_at", Number(at), self.1).put(out),
            None => self.1.put(out),
        }
    }
}

/// The fields on what is wrong, and then what stands after them.
#[derive(Clone, Copy)]
struct DetailFields<'a, B>(Detail<'a>, B);

impl<'a, B: Print + Copy> Print for DetailFields<'a, B> {
    ghost text = { λ t. fields_then (detail_fields (detail_of t.0)) (B.text t.1) };

    fn put<W: Write>(&self, out: &mut W) -> Result<(), WriteFailed> {
        let behind = self.1;
        match self.0 {
            Detail::Arriving(difference) => DifferenceFields(difference, behind).put(out),
            Detail::Taken(unmet) => UnmetFields(unmet, behind).put(out),
            Detail::Target(placed) => {
                let word = "target";
                PlacedFields {
                    word,
                    placed,
                    behind,
                }
                .put(out)
            }
            Detail::Handler(_, placed) => {
                let word = "handler";
                PlacedFields {
                    word,
                    placed,
                    behind,
                }
                .put(out)
            }
            Detail::Entry(_) => behind.put(out),
            Detail::MapEntry { place, at } => {
                let offset = OffsetField(at, behind);
                More("entry", Number(place as u64), offset).put(out)
            }
        }
    }
}

/// The fields on what is wrong, if something is, and then what stands after them.
#[derive(Clone, Copy)]
pub struct DetailFieldsIf<'a, B>(pub Option<Detail<'a>>, pub B);

impl<'a, B: Print + Copy> Print for DetailFieldsIf<'a, B> {
    ghost text = { λ t. fields_then (detail_fields_of (option_map detail_of t.0)) (B.text t.1) };

    fn put<W: Write>(&self, out: &mut W) -> Result<(), WriteFailed> {
        match self.0 {
            Some(detail) => DetailFields(detail, self.1).put(out),
            None => self.1.put(out),
        }
    }
}
