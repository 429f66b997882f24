//! The manner of an answer: that of `verify`, or that of `explain`.
use crate::command::Form;

/// The manner of an answer about the methods of a class.
#[derive(Clone, Copy, Debug, PartialEq, Eq)]
pub enum Manner {
    /// `verify`: a line for each verdict, in this form.
    Told(Form),
    /// `explain`: each refusal, and after it the sentence on its number, in this form.
    Explained(Form),
}
