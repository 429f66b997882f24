//! The instructions that move what is on the stack, whatever it is (JVMS 2.11.6).

/// The instructions that move what is on the stack, whatever it is (JVMS 2.11.6), by their
/// mnemonics.
#[derive(Clone, Copy, Debug, PartialEq, Eq)]
pub enum StackOperator {
    /// `pop`
    Pop,
    /// `pop2`
    Pop2,
    /// `dup`
    Dup,
    /// `dup_x1`
    DupX1,
    /// `dup_x2`
    DupX2,
    /// `dup2`
    Dup2,
    /// `dup2_x1`
    Dup2X1,
    /// `dup2_x2`
    Dup2X2,
    /// `swap`
    Swap,
}

/// An item of the stack by how many units it takes (JVMS 2.11.1).
#[derive(Clone, Copy, Debug, PartialEq, Eq)]
pub enum StackPlace {
    /// One unit: computational types of category 1.
    Narrow,
    /// Two units, `long` or `double`: computational types of category 2.
    Wide,
}

/// One way to use an instruction that moves items.
#[derive(Clone, Copy, Debug)]
pub struct StackForm {
    /// The items taken, the top of the stack first.
    pub takes: &'static [StackPlace],
    /// The items that stand then, the top first, each by its number among those taken, from 0.
    pub leaves: &'static [usize],
}
