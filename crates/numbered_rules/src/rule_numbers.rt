//! The numbers of the types that the rules of a method's instructions ask for.
use type_numbers::ConstantTable;

/// The constants of a class, and the numbers of the types that the rules of the instructions of one of its methods ask
/// for.
#[derive(Clone, Copy)]
pub struct RuleNumbers<'k> {
    /// The constants of the class.
    pub table: &'k ConstantTable,
    /// The class `Object`.
    pub object: u32,
    /// The type of arrays of the class `Object`.
    pub objects: u32,
    /// The class `Throwable`.
    pub throwable: u32,
    /// The class that declares the method.
    pub class: u32,
    /// The direct superclass of that one; none of the class `Object`.
    pub superclass: Option<u32>,
    /// The type of the method's result, if it has one.
    pub returned: Option<u32>,
}

/// The facts about what an instruction names that its constant alone does not tell.
#[derive(Clone, Copy)]
pub struct NamedFacts {
    /// It is `putfield` of a field of the class itself, in a constructor.
    pub own: bool,
    /// The class has a bootstrap method for the Dynamic or InvokeDynamic that it names, which may be used; or it names
    /// neither of them.
    pub bootstrapped: bool,
}
