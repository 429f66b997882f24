//! The surroundings in which an instruction is judged: the method, its instructions, and the classes around it.
ghost use Rattle.std.specs.Prelude.{◌≡◌, ◌≤◌, Some, Ok, IsSome, length};
ghost use Rattle.layout.specs.declared.limits.TheConstants.{MAX_CODE_BYTES};
ghost use Rattle.classfile.specs.CodeMethods.{judged_class, IsAt};
ghost use Rattle.classfile.specs.Methods.{method_of};
ghost use Rattle.classfile.specs.MethodParts.{code_at};
ghost use Rattle.classfile.specs.Values.{CodeBody};
ghost use Rattle.classfile.specs.Views.{class_view};
ghost use Rattle.insn.specs.Code.{SpellsCode};
ghost use Rattle.insn.specs.Offsets.{acts};
ghost use Rattle.insn.specs.Decoding.{code_result};
ghost use Rattle.insn.specs.Views.{views};
ghost use Rattle.rules.specs.Bodies.{method_view};

use classfile::{CodeMethod, Formed};
use hierarchy::Classes;
use insn::Insn;

/// The environment of a method's instructions (JVMS 4.10.1.6): the method with their list, and the classes that it may
/// name.
#[derive(Drop)]
pub struct Env<'e, 'c, 'a, C: Classes> {
    /// The method, with its Code attribute (JVMS 4.6, 4.7.3).
    pub method: CodeMethod<'c, 'a>,
    /// The instructions of that code, each with the offset in bytes where it begins.
    pub list: &'e [(u16, Insn<'a>)],
    /// The classes.
    pub classes: &'e C,
    ghost read: { code_result method.code.now.code.now ≡ Ok (views list.now) },
    ghost few: { length method.code.now.code.now ≤ MAX_CODE_BYTES },
}

impl<'e, 'c, 'a, C: Classes> Env<'e, 'c, 'a, C> {
    /// The environment of the method of this number, which counts from 0. The method has a Code attribute, and the list
    /// is the answer of [`decode_code`](insn::decode_code) for its code. Takes no memory.
    pub fn new(
        formed: &Formed<'c, 'a>,
        number: usize,
        list: &'e [(u16, Insn<'a>)],
        classes: &'e C,
    ) -> Env<'e, 'c, 'a, C>
        requires coded { IsSome (code_at (class_view formed.now.class.now) number) }
        requires listed { (body : CodeBody) → code_at (class_view formed.now.class.now) number ≡ Some body
            → SpellsCode 0 body.code (views list.now) }
        // Its method is the one of this number in the class file, with the instructions of the list.
        ensures method { method_of (judged_class formed.now) number (acts (views list.now))
            ≡ Some (method_view result.method) }
        // It holds the list and the classes from which it was made.
        ensures here { IsAt formed.now number result.method }
        ensures list { result.list.now ≡ list.now }
        ensures classes { result.classes.now ≡ classes.now }
    {
        formed.class();
        let method = formed.method(number).unwrap();
        Env {
            method,
            list,
            classes,
        }
    }
}
