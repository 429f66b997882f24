//! The method that runs is made.
ghost use Rattle.std.specs.Prelude.{◌≡◌, ℕ, List, None, Some, IfOk, IfErr, IfSome, IsSome, MatchOption, map, option_map};
ghost use Rattle.classfile.specs.CodeMethods.{judged_class};
ghost use Rattle.classfile.specs.MethodParts.{code_at};
ghost use Rattle.classfile.specs.Methods.{IsEntry, caught_type, exception_entries, method_of};
ghost use Rattle.classfile.specs.Views.{class_view, code_view, handler_view};
ghost use Rattle.classfile.specs.Values.{CodeBody};
ghost use Rattle.insn.specs.Instructions.{Instruction};
ghost use Rattle.insn.specs.declared.fault.CodeFault.TheVariants.{OutOfMemory};
ghost use Rattle.insn.specs.Code.{FaultyCode, SpellsCode, UnlessMemory};
ghost use Rattle.insn.specs.Offsets.{StartsRise};
ghost use Rattle.insn.specs.Views.{views};
ghost use Rattle.machine.specs.Bodies.{code_of, entry_view, method_view};
ghost use Rattle.machine.specs.Views.{run_type_view};

use crate::body::{ExceptionEntry, Method};
use crate::constants::class_at;
use crate::objects::RunType;
use classfile::{CodeMethod, ExceptionHandler, Formed};
use insn::{CodeFault, Insn, decode_code};
use names::THROWABLE;
use pool::Pool;
use std::alloc::{AllocError, Global};

/// The method by its parts. The offsets of its instructions rise.
pub(crate) fn assembled<'c, 'a>(
    declared: CodeMethod<'c, 'a>,
    list: Vec<(u16, Insn<'a>)>,
    exceptions: Vec<ExceptionEntry<'a>>,
) -> Method<'c, 'a>
    requires { StartsRise 0 (views list.items) }
    ensures { let m = result in (m.declared ≡ declared.entry) × (m.list ≡ list.entry)
        × (m.exceptions ≡ exceptions.entry) }
{
    Method {
        declared,
        list,
        exceptions,
    }
}

// The type that an entry of the exception table catches: catch type 0 is for all that is raised.
fn caught_type<'a>(pool: &Pool<'a>, index: u16) -> Option<RunType<'a>>
    ensures { option_map run_type_view result ≡ caught_type pool.now index }
{
    if index == 0 {
        return Some(RunType::Class(THROWABLE));
    }
    class_at(pool, index)
}

// An entry of the exception table, with the type that it catches.
fn entry<'a>(pool: &Pool<'a>, handler: &ExceptionHandler) -> Option<ExceptionEntry<'a>>
    ensures { MatchOption result (caught_type pool.now handler.now.catch_type ≡ None)
        (λ e. IsEntry pool.now (handler_view handler.now) (entry_view e)) }
{
    let caught = caught_type(pool, handler.catch_type)?;
    Some(ExceptionEntry {
        from: handler.start_pc,
        to: handler.end_pc,
        handler: handler.handler_pc,
        caught,
    })
}

// The exception table, if each type that it catches is there.
fn entries<'a>(
    alloc: Global,
    pool: &Pool<'a>,
    table: &[ExceptionHandler],
) -> Result<Option<Vec<ExceptionEntry<'a>>>, AllocError>
    ensures { IfOk result (λ o. option_map (λ v. map entry_view v.items) o
        ≡ exception_entries pool.now (map handler_view table.now)) }
{
    let mut entries = Vec::new(alloc);
    for handler in table {
        match entry(pool, handler) {
            None => return Ok(None),
            Some(found) => entries.push(found)?,
        }
    }
    Ok(Some(entries))
}

impl<'c, 'a> Method<'c, 'a> {
    /// The method of this number, which counts from 0, of a well-formed class. It is that of a method with a Code
    /// attribute.
    ///
    /// Refused is the first instruction of its code that is none, 31 to 35; or 1.
    pub fn new(
        alloc: Global,
        formed: &Formed<'c, 'a>,
        number: usize,
    ) -> Result<Method<'c, 'a>, CodeFault>
        requires { IsSome (code_at (class_view formed.now.class.now) number) }
        // It is what the class file says of that method, with the instructions of its code.
        ensures told { IfOk result (λ m. method_of (judged_class formed.now) number (code_of m.list.items)
            ≡ Some (method_view m)) }
        // Its instructions are those of the Code attribute that the class has at this number, and of no other.
        ensures code { IfOk result (λ m. code_at (class_view formed.now.class.now) number
            ≡ Some (code_view m.declared.code.now)) }
        ensures list { IfOk result (λ m. SpellsCode 0 m.declared.code.now.code.now (views m.list.items)) }
        // Where its code is some instructions, it is returned, unless memory runs out.
        ensures only { (body : CodeBody) (xs : List (ℕ × Instruction))
            → code_at (class_view formed.now.class.now) number ≡ Some body → SpellsCode 0 body.code xs
            → IfErr result (λ e. e ≡ OutOfMemory) }
        ensures fault { IfErr result (λ e. IfSome (code_at (class_view formed.now.class.now) number)
            (λ body. UnlessMemory e (FaultyCode body.code e))) }
    {
        let class = formed.class();
        let method = formed.method(number).unwrap();
        let code = method.code;
        let list = decode_code(alloc, code.code)?;
        let pool = &class.constant_pool;
        match entries(alloc, pool, &code.exception_table)? {
            None => unreachable!(),
            Some(exceptions) => Ok(assembled(method, list, exceptions)),
        }
    }
}
