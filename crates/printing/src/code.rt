//! A method's code by lines, or as fields of an object of JSON (JVMS 4.7.3).
ghost use Rattle.std.specs.Prelude.{◌≡◌, ℕ, List, [], Ok, map, option_map};
ghost use Rattle.std.specs.Option.{option_map_or};
ghost use Rattle.std.specs.List.{flat_map};
ghost use Rattle.insn.specs.Instructions.{Instruction};
ghost use Rattle.insn.specs.Offsets.{at_offset};
ghost use Rattle.insn.specs.Decoding.{code_result};
ghost use Rattle.insn.specs.Views.{view};
ghost use Rattle.classfile.specs.Views.{handler_view, code_view};
ghost use Rattle.printing.specs.Writing.{Writes};
ghost use Rattle.printing.specs.CodeLines.{sizes_line, result_lines, line_at, named_at, fault_of, caught_text, range_text, catch_line, catch_string, code_lines, size_fields, instruction_field, instruction_fields, named_fields_at, table_fields};
ghost use Rattle.printing.specs.Json.{fields_then};
ghost use Rattle.printing.specs.InstructionLines.{instruction_line};
ghost use Rattle.printing.specs.Constants.{named_line, named_fields};

use crate::constants::{ConstantFields, ConstantLine, index_in};
use crate::instruction::{InstructionText, Located};
use crate::json::{Enclosed, More, Strings};
use crate::name::ClassName;
use crate::names_in::{ClassNameIn, Within};
use crate::print::{Lines, Number, Print, Then, Word, WriteFailed, put_lines};
use classfile::{CodeAttr, ExceptionHandler};
use insn::{CodeFault, Insn, Instructions};
use pool::Pool;
use std::io::Write;

/// Why the bytes are no code: the fault of the first instruction that is none. Takes no memory.
pub fn code_fault(code: &[u8]) -> Option<CodeFault>
    ensures { result ≡ fault_of (code_result code.now) }
{
    let mut instructions = Instructions::new(code);
    while let Some(step) = instructions.next_start() {
        match step {
            Ok(_) => {}
            Err(fault) => return Some(fault),
        }
    }
    None
}

/// The instructions of code that is not refused, each on its line.
fn put_instructions<W: Write>(out: &mut W, code: &[u8]) -> Result<(), WriteFailed>
    ensures { (xs : List (ℕ × Instruction)) → code_result code.now ≡ Ok xs
        → Writes (W.contents out.old) (W.contents out.new) (flat_map instruction_line xs) result }
{
    for step in Instructions::new(code) {
        match step {
            Ok((at, insn)) => match (Located { at, insn }).put(out) {
                Ok(()) => {}
                Err(failed) => return Err(failed),
            },
            Err(_) => return Ok(()),
        }
    }
    Ok(())
}

/// The instructions of code, or why it is refused and then no instruction.
#[derive(Clone, Copy)]
pub struct Instructed<'a>(pub &'a [u8]);

impl<'a> Print for Instructed<'a> {
    ghost text = { λ t. result_lines (code_result t.0.now) };

    fn put<W: Write>(&self, out: &mut W) -> Result<(), WriteFailed> {
        match code_fault(self.0) {
            Some(fault) => { Then(Word("  code refused "), Then(fault, Word("\n"))).put(out) }
            None => put_instructions(out, self.0),
        }
    }
}

/// The instruction that begins at an offset of code that is not refused. Takes no memory.
fn find_instruction(code: &[u8], at: usize) -> Option<Insn<'_>>
    ensures { (xs : List (ℕ × Instruction)) → code_result code.now ≡ Ok xs → option_map view result ≡ at_offset xs at }
{
    for step in Instructions::new(code) {
        match step {
            Ok((here, insn)) => {
                if here == at {
                    return Some(insn);
                }
            }
            Err(_) => return None,
        }
    }
    None
}

/// Writes the line of an instruction that was found at an offset, if one was.
fn put_found<W: Write>(out: &mut W, at: usize, found: Option<Insn<'_>>) -> Result<(), WriteFailed>
    ensures { Writes (W.contents out.old) (W.contents out.new)
        (option_map_or (λ i. instruction_line (at, view i)) found.entry []) result }
{
    match found {
        Some(insn) => Located { at, insn }.put(out),
        None => Word("").put(out),
    }
}

/// The line of the instruction that begins at an offset of code; nothing where none does, or where the code is refused.
#[derive(Clone, Copy)]
pub struct InstructionAt<'a> {
    pub code: &'a [u8],
    pub at: usize,
}

impl<'a> Print for InstructionAt<'a> {
    ghost text = { λ t. line_at (code_result t.code.now) t.at };

    fn put<W: Write>(&self, out: &mut W) -> Result<(), WriteFailed> {
        match code_fault(self.code) {
            Some(_) => Word("").put(out),
            None => put_found(out, self.at, find_instruction(self.code, self.at)),
        }
    }
}

/// Writes an instruction that was found at an offset as a field, if one was, and then what stands after it.
fn put_found_field<W: Write, B: Print + Copy>(
    out: &mut W,
    at: usize,
    found: Option<Insn<'_>>,
    behind: B,
) -> Result<(), WriteFailed>
    ensures { Writes (W.contents out.old) (W.contents out.new)
        (fields_then (option_map_or (λ i. instruction_field (at, view i)) found.entry []) (B.text behind)) result }
{
    match found {
        Some(insn) => {
            let text = InstructionText(Located { at, insn });
            More("instruction", Enclosed(text), behind).put(out)
        }
        None => behind.put(out),
    }
}

/// The instruction that begins at an offset of code as a field, and then what stands after it; no field where none
/// does, or where the code is refused.
#[derive(Clone, Copy)]
pub struct InstructionFields<'a, B> {
    pub code: &'a [u8],
    pub at: usize,
    pub behind: B,
}

impl<'a, B: Print + Copy> Print for InstructionFields<'a, B> {
    ghost text = { λ t. fields_then (instruction_fields (code_result t.code.now) t.at) (B.text t.behind) };

    fn put<W: Write>(&self, out: &mut W) -> Result<(), WriteFailed> {
        match code_fault(self.code) {
            Some(_) => self.behind.put(out),
            None => {
                let found = find_instruction(self.code, self.at);
                put_found_field(out, self.at, found, self.behind)
            }
        }
    }
}

/// Writes the line of the constant that an instruction names; nothing where it names none.
fn put_constant<W: Write>(out: &mut W, pool: &Pool<'_>, insn: &Insn<'_>) -> Result<(), WriteFailed>
    ensures { Writes (W.contents out.old) (W.contents out.new) (named_line pool.now (view insn.now)) result }
{
    match index_in(&insn.operands) {
        Some(index) => {
            let index = usize::from(index);
            ConstantLine { pool, index }.put(out)
        }
        None => Word("").put(out),
    }
}

/// Writes the line of the constant that an instruction names which was found, if one was.
fn put_named<W: Write>(
    out: &mut W,
    pool: &Pool<'_>,
    found: Option<Insn<'_>>,
) -> Result<(), WriteFailed>
    ensures { Writes (W.contents out.old) (W.contents out.new)
        (option_map_or (λ i. named_line pool.now (view i)) found.entry []) result }
{
    match found {
        Some(insn) => put_constant(out, pool, &insn),
        None => Word("").put(out),
    }
}

/// The line of the constant that is named by the instruction at an offset of code; nothing where it names none, where
/// no instruction begins there, or where the code is refused.
#[derive(Clone, Copy)]
pub struct NamedAt<'p, 'a> {
    pub pool: &'p Pool<'a>,
    pub code: &'a [u8],
    pub at: usize,
}

impl<'p, 'a> Print for NamedAt<'p, 'a> {
    ghost text = { λ t. named_at t.pool.now (code_result t.code.now) t.at };

    fn put<W: Write>(&self, out: &mut W) -> Result<(), WriteFailed> {
        match code_fault(self.code) {
            Some(_) => Word("").put(out),
            None => put_named(out, self.pool, find_instruction(self.code, self.at)),
        }
    }
}

/// Writes the constant that an instruction names as a field, if it names one, and then what stands after it.
fn put_constant_field<W: Write, B: Print + Copy>(
    out: &mut W,
    pool: &Pool<'_>,
    insn: &Insn<'_>,
    behind: B,
) -> Result<(), WriteFailed>
    ensures { Writes (W.contents out.old) (W.contents out.new)
        (fields_then (named_fields pool.now (view insn.now)) (B.text behind)) result }
{
    match index_in(&insn.operands) {
        Some(index) => {
            let index = usize::from(index);
            ConstantFields {
                pool,
                index,
                behind,
            }
            .put(out)
        }
        None => behind.put(out),
    }
}

/// Writes the constant that an instruction names which was found as a field, if one was, and then what stands after
/// it.
fn put_named_field<W: Write, B: Print + Copy>(
    out: &mut W,
    pool: &Pool<'_>,
    found: Option<Insn<'_>>,
    behind: B,
) -> Result<(), WriteFailed>
    ensures { Writes (W.contents out.old) (W.contents out.new)
        (fields_then (option_map_or (λ i. named_fields pool.now (view i)) found.entry []) (B.text behind)) result }
{
    match found {
        Some(insn) => put_constant_field(out, pool, &insn, behind),
        None => behind.put(out),
    }
}

/// The constant that is named by the instruction at an offset of code, as a field, and then what stands after it; no
/// field where it names none, where no instruction begins there, or where the code is refused.
#[derive(Clone, Copy)]
pub struct NamedFields<'p, 'a, B> {
    pub pool: &'p Pool<'a>,
    pub code: &'a [u8],
    pub at: usize,
    pub behind: B,
}

impl<'p, 'a, B: Print + Copy> Print for NamedFields<'p, 'a, B> {
    ghost text = { λ t. fields_then (named_fields_at t.pool.now (code_result t.code.now) t.at) (B.text t.behind) };

    fn put<W: Write>(&self, out: &mut W) -> Result<(), WriteFailed> {
        match code_fault(self.code) {
            Some(_) => self.behind.put(out),
            None => {
                let found = find_instruction(self.code, self.at);
                put_named_field(out, self.pool, found, self.behind)
            }
        }
    }
}

/// The class that an entry of an exception table catches, or `any`.
#[derive(Clone, Copy)]
struct Caught<'p, 'a>(ClassNameIn<'p, 'a>);

impl<'p, 'a> Print for Caught<'p, 'a> {
    ghost text = { λ t. caught_text t.0.0 t.0.1.pool.now t.0.1.index };

    fn put<W: Write>(&self, out: &mut W) -> Result<(), WriteFailed> {
        if self.0.1.index == 0 {
            Word("any").put(out)
        } else {
            self.0.put(out)
        }
    }
}

/// The range that an entry of an exception table covers, and its handler.
#[derive(Clone, Copy)]
struct Range(ExceptionHandler);

impl Print for Range {
    ghost text = { λ t. range_text (handler_view t.0) };

    fn put<W: Write>(&self, out: &mut W) -> Result<(), WriteFailed> {
        Then(
            Number(self.0.start_pc),
            Then(
                Word(" "),
                Then(
                    Number(self.0.end_pc),
                    Then(Word(" "), Number(self.0.handler_pc)),
                ),
            ),
        )
        .put(out)
    }
}

/// An exception table, whose classes are in this pool.
#[derive(Clone, Copy)]
pub struct Handlers<'p, 'a> {
    pub pool: &'p Pool<'a>,
    pub table: &'p [ExceptionHandler],
}

impl<'p, 'a> Lines<ExceptionHandler> for Handlers<'p, 'a> {
    ghost line = { λ t h. catch_line t.pool.now (handler_view h) };

    fn put_line<W: Write>(&self, item: &ExceptionHandler, out: &mut W) -> Result<(), WriteFailed> {
        let class = ClassName {
            pool: self.pool,
            index: item.catch_type,
        };
        let caught = Caught(ClassNameIn(Within::Words, class));
        Then(
            Word("  catch "),
            Then(Range(*item), Then(Word(" "), Then(caught, Word("\n")))),
        )
        .put(out)
    }
}

impl<'p, 'a> Print for Handlers<'p, 'a> {
    ghost text = { λ t. flat_map (catch_line t.pool.now) (map handler_view t.table.now) };

    fn put<W: Write>(&self, out: &mut W) -> Result<(), WriteFailed> {
        put_lines(self, self.table, out)
    }
}

/// The characters of an entry of an exception table in a string, whose class is in this pool.
#[derive(Clone, Copy)]
struct HandlerCharacters<'p, 'a>(&'p Pool<'a>);

impl<'p, 'a> Lines<ExceptionHandler> for HandlerCharacters<'p, 'a> {
    ghost line = { λ t h. catch_string t.0.now (handler_view h) };

    fn put_line<W: Write>(&self, item: &ExceptionHandler, out: &mut W) -> Result<(), WriteFailed> {
        let class = ClassName {
            pool: self.0,
            index: item.catch_type,
        };
        let caught = Caught(ClassNameIn(Within::Json, class));
        Then(Range(*item), Then(Word(" "), caught)).put(out)
    }
}

/// An exception table, whose classes are in this pool, as a field, and then what stands after it.
#[derive(Clone, Copy)]
pub struct HandlersField<'p, 'a, B> {
    pub pool: &'p Pool<'a>,
    pub table: &'p [ExceptionHandler],
    pub behind: B,
}

impl<'p, 'a, B: Print + Copy> Print for HandlersField<'p, 'a, B> {
    ghost text = { λ t. fields_then (table_fields t.pool.now (map handler_view t.table.now)) (B.text t.behind) };

    fn put<W: Write>(&self, out: &mut W) -> Result<(), WriteFailed> {
        let entries = Strings(HandlerCharacters(self.pool), self.table);
        More("exception_table", entries, self.behind).put(out)
    }
}

/// The sizes of the stack and of the local variables of code, as fields, and then what stands after them.
#[derive(Clone, Copy)]
pub struct SizeFields<'p, 'a, B>(pub &'p CodeAttr<'a>, pub B);

impl<'p, 'a, B: Print + Copy> Print for SizeFields<'p, 'a, B> {
    ghost text = { λ t. fields_then (size_fields (code_view t.0.now)) (B.text t.1) };

    fn put<W: Write>(&self, out: &mut W) -> Result<(), WriteFailed> {
        let locals = More("max_locals", Number(self.0.max_locals), self.1);
        More("max_stack", Number(self.0.max_stack), locals).put(out)
    }
}

/// The sizes of the stack and of the local variables of code.
#[derive(Clone, Copy)]
pub struct Sizes<'p, 'a>(pub &'p CodeAttr<'a>);

impl<'p, 'a> Print for Sizes<'p, 'a> {
    ghost text = { λ t. sizes_line (code_view t.0.now) };

    fn put<W: Write>(&self, out: &mut W) -> Result<(), WriteFailed> {
        let locals = Then(Number(self.0.max_locals), Word("\n"));
        let stack = Then(Number(self.0.max_stack), Then(Word(" locals "), locals));
        Then(Word("  stack "), stack).put(out)
    }
}

/// The lines of a method's code, whose classes are in this pool.
#[derive(Clone, Copy)]
pub struct Code<'p, 'a> {
    pub pool: &'p Pool<'a>,
    pub body: &'p CodeAttr<'a>,
}

impl<'p, 'a> Print for Code<'p, 'a> {
    ghost text = { λ t. code_lines t.pool.now (code_view t.body.now) };

    fn put<W: Write>(&self, out: &mut W) -> Result<(), WriteFailed> {
        let handlers = Handlers {
            pool: self.pool,
            table: &self.body.exception_table,
        };
        Then(Sizes(self.body), Then(Instructed(self.body.code), handlers)).put(out)
    }
}
