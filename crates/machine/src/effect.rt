//! The effects of instructions, with what they take and give.
ghost use Rattle.std.specs.Prelude.{◌≡◌, [], None, true};
ghost use Rattle.machine.specs.Effects.{operates};
ghost use Rattle.machine.specs.private.EffectViews.{demands_view, reply_view, effect_view};

use crate::objects::RunType;
use insn::{Branches, Kind, StackOperator};
use names::{FieldType, Primitive};
use std::alloc::Global;

/// The demand of an operand.
#[derive(Clone, Copy, Debug)]
pub enum Demand<'a> {
    /// A number of the kind.
    Number(Kind),
    /// Null, or an initialized object of a type below this one.
    Type(RunType<'a>),
    /// A reference, whatever object it is to, or null.
    Reference,
    /// An array, or null.
    Array,
    /// An array whose elements an instruction for this type takes, or null.
    ArrayFor(Primitive),
    /// The own object that is not initialized yet, or a value of the class of this name.
    OwnOr(&'a [u8]),
}

/// The value that an instruction pushes.
#[derive(Clone, Copy, Debug)]
pub enum Reply<'a> {
    Nothing,
    Number(Kind),
    Null,
    /// A value that is chosen and fits the type.
    Answer(FieldType<'a>),
}

/// Operands are taken, and a reply is given.
#[derive(Drop)]
pub struct Operation<'a> {
    /// The operands that are taken from the stack, the first of them from the top.
    pub demands: Vec<Demand<'a>>,
    /// The place of an operand, counted from the top, that only raises where it is null.
    pub live: Option<usize>,
    pub reply: Reply<'a>,
}

/// The effect of an instruction (JVMS 6.5).
#[derive(Drop)]
pub enum Effect<'a> {
    /// It operates; then it goes to where it branches, or on.
    Operates {
        operation: Operation<'a>,
        branches: Branches<'a>,
        falls: bool,
    },
    /// A value is read from a local variable.
    Reads {
        demand: Demand<'a>,
        local: u16,
    },
    /// A value is written to a local variable.
    Writes {
        demand: Demand<'a>,
        local: u16,
    },
    /// An int in a local variable is changed.
    Increments {
        local: u16,
    },
    /// Items of the stack are moved.
    Moves(StackOperator),
    /// A reference is read from an array.
    TakesElement,
    /// A reference passes where it fits the type.
    Passes(RunType<'a>),
    /// An object of the class is made, which is not initialized yet.
    Creates(&'a [u8]),
    /// An array is made.
    MakesArray {
        demands: Vec<Demand<'a>>,
        made: RunType<'a>,
    },
    /// An object is initialized by an instance initialization method of the class, on these arguments.
    Initializes {
        class: &'a [u8],
        demands: Vec<Demand<'a>>,
    },
    /// A method is called of the class or one above it, with the method's own class as receiver.
    CallsSpecial {
        class: RunType<'a>,
        operation: Operation<'a>,
    },
    /// The method returns a value.
    Leaves(Demand<'a>),
    /// A Throwable is raised.
    Throws,
    /// The method returns without a value.
    Ends,
    /// Nothing: the instruction has no rule, or names what it may not.
    Stuck,
}

/// These are needed, and it goes on.
pub fn operates<'a>(demands: Vec<Demand<'a>>, live: Option<usize>, reply: Reply<'a>) -> Effect<'a>
    ensures { effect_view result ≡ operates (demands_view demands.entry.items) live (reply_view reply.entry) [] true }
{
    Effect::Operates {
        operation: Operation {
            demands,
            live,
            reply,
        },
        branches: Branches::Nowhere,
        falls: true,
    }
}

/// Nothing is needed, and it goes on.
pub fn gives<'a>(alloc: Global, reply: Reply<'a>) -> Effect<'a>
    ensures { effect_view result ≡ operates [] None (reply_view reply.entry) [] true }
{
    operates(Vec::new(alloc), None, reply)
}
