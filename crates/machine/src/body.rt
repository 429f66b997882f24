//! The method that runs.
ghost use Rattle.std.specs.Prelude.{◌≡◌};
ghost use Rattle.insn.specs.Offsets.{StartsRise};
ghost use Rattle.insn.specs.Views.{views};
ghost use Rattle.machine.specs.private.Rising.{StartsRise-prop};

use crate::objects::RunType;
use classfile::CodeMethod;
use insn::Insn;
use names::FieldType;
use pool::Pool;

/// An entry of the exception table (JVMS 4.7.3), with the type that it catches.
#[derive(Clone, Copy, Debug)]
pub struct ExceptionEntry<'a> {
    /// The first byte of code that is covered.
    pub from: u16,
    /// The first byte of code after those that are covered.
    pub to: u16,
    /// Where the handler begins.
    pub handler: u16,
    pub caught: RunType<'a>,
}

/// A method with its code, ready to run.
#[derive(Drop)]
pub struct Method<'c, 'a> {
    /// The method as the class file has it.
    pub(crate) declared: CodeMethod<'c, 'a>,
    pub(crate) list: Vec<(u16, Insn<'a>)>,
    pub(crate) exceptions: Vec<ExceptionEntry<'a>>,
    pub ghost rising: { StartsRise 0 (views list.items) } by { StartsRise-prop 0 (views list.items) },
}

impl<'c, 'a> Method<'c, 'a> {
    /// The constant pool of its class.
    pub(crate) fn pool(&self) -> &'c Pool<'a>
        ensures { result.now ≡ self.now.declared.class.now.constant_pool }
    {
        &self.declared.class.constant_pool
    }

    /// The type of its result, if it has one.
    pub(crate) fn result_type(&self) -> Option<FieldType<'a>>
        ensures { result ≡ self.now.declared.result_type }
    {
        self.declared.result_type
    }
}
