//! Frames.
use crate::vtype::VType;

/// The types of the locals and of the items of the operand stack before an instruction (JVMS 4.10.1.4).
#[derive(Debug, Drop)]
pub struct Frame<'a> {
    /// The types of all locals, max_locals of them. A long or double is its type and then `Top`.
    pub locals: Vec<VType<'a>>,
    /// The types of the stack's items from the bottom up. A long or double is one item.
    pub stack: Vec<VType<'a>>,
    /// Whether the own object is uninitialized (flagThisUninit).
    pub flag: bool,
}
