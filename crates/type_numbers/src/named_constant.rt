//! Constants as instructions name them.
use crate::method_numbers::MethodNumbers;

/// A constant as instructions name it, with types by their numbers.
#[derive(Clone, Copy, Debug, PartialEq, Eq)]
pub enum NamedConstant {
    /// None of the others, or its texts are not of their forms.
    Other,
    /// A Class, which names this type (JVMS 4.4.1), and loads an object of that one.
    Class {
        class: u32,
        loaded: u32,
    },
    /// A Fieldref of this class, whose fields hold this type (JVMS 4.4.2).
    Field {
        class: u32,
        held: u32,
    },
    /// A Methodref or an InterfaceMethodref of this class, whose descriptor names these types (JVMS 4.4.2).
    Method {
        interface: bool,
        /// The name is `<init>` (JVMS 2.9.1).
        init: bool,
        class: u32,
        types: MethodNumbers,
    },
    /// A constant that loads a value of this type, whatever it names (JVMS 4.4).
    Loaded {
        loaded: u32,
    },
    /// A Dynamic, whose descriptor names this type (JVMS 4.4.10).
    Dynamic {
        held: u32,
    },
    /// An InvokeDynamic, whose descriptor names these types (JVMS 4.4.10).
    Site {
        /// The name begins with '<', as `<init>` and `<clinit>` do.
        special: bool,
        types: MethodNumbers,
    },
}
