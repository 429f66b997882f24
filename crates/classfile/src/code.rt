//! The body of a Code attribute (JVMS 4.7.3).
ghost use Rattle.std.specs.Prelude.{◌≡◌, ◌+◌, ◌<◌, ◌^◌, ℕ, List, [], ◌∷◌, ◌++◌, length, map};
ghost use Rattle.layout.specs.Faults.{GoesOn, Settles};
ghost use Rattle.layout.specs.Pieces.{Goes, field, plain, lengthened};
ghost use Rattle.classfile.specs.ClassFile.{sizes, handlers, nested_attributes, code};
ghost use Rattle.classfile.specs.private.Pieces.{code_pieces};
ghost use Rattle.classfile.specs.Views.{handler_view, nested_view, code_view};

use crate::location::Location;
use crate::nested::NestedAttribute;
use crate::table::{Item, put_table, take_table};
use layout::{Cursor, Output, ReadFault, WriteFault, whole};
use pool::Pool;
use std::alloc::Global;

/// An item of the exception table: the range of code that it covers, and where the handler begins.
#[derive(Clone, Copy, Debug, PartialEq, Eq)]
pub struct ExceptionHandler {
    /// The start_pc item: the first byte of code that is covered.
    pub start_pc: u16,
    /// The end_pc item: the first byte of code after those that are covered.
    pub end_pc: u16,
    /// The handler_pc item: the first byte of the handler.
    pub handler_pc: u16,
    /// The catch_type item: the index of the Class that is caught, or 0 for all.
    pub catch_type: u16,
}

/// The body of a Code attribute.
#[derive(Drop)]
pub struct CodeAttr<'a> {
    /// The max_stack item, in units.
    pub max_stack: u16,
    /// The max_locals item, in units.
    pub max_locals: u16,
    /// The code item.
    pub code: &'a [u8],
    /// The exception_table item.
    pub exception_table: Vec<ExceptionHandler>,
    /// The attributes item.
    pub attributes: Vec<NestedAttribute<'a>>,
}

impl<'a> Item<'a> for ExceptionHandler {
    ghost use Rattle.classfile.specs.Values.{Handler};
    ghost use Rattle.classfile.specs.ClassFile.{handler};
    ghost use Rattle.classfile.specs.private.Pieces.{handler_pieces};
    ghost use Rattle.classfile.specs.Views.{handler_view};

    ghost View = { Handler };

    ghost view = { handler_view };

    ghost format = { λ _ _. handler };

    ghost pieces = { λ _ _. handler_pieces };

    #[tactic(auto, unfolding(crate::specs::ClassFile::handler))]
    fn take(
        _alloc: Global,
        _pool: &Pool<'a>,
        _location: Location,
        cursor: &mut Cursor<'a>,
    ) -> Result<Self, ReadFault> {
        let start_pc = cursor.u2()?;
        let end_pc = cursor.u2()?;
        let handler_pc = cursor.u2()?;
        let catch_type = cursor.u2()?;
        Ok(ExceptionHandler {
            start_pc,
            end_pc,
            handler_pc,
            catch_type,
        })
    }

    #[tactic(auto, using(layout::specs::PieceLaws::writes_append))]
    fn put(
        &self,
        _pool: &Pool<'_>,
        _location: Location,
        out: &mut Output,
    ) -> Result<(), WriteFault> {
        out.put_u2(self.start_pc)?;
        out.put_u2(self.end_pc)?;
        out.put_u2(self.handler_pc)?;
        out.put_u2(self.catch_type)
    }
}

#[tactic(auto, unfolding(crate::specs::ClassFile::sizes))]
fn sizes<'a>(cursor: &mut Cursor<'a>) -> Result<(u16, u16, &'a [u8]), ReadFault>
    ensures { GoesOn sizes (λ s. record {
      max_stack = s.0;
      max_locals = s.1;
      code =
          s.2.now;
    }) cursor.old cursor.new result }
{
    let max_stack = cursor.u2()?;
    let max_locals = cursor.u2()?;
    let length = cursor.u4()?;
    let code = cursor.part(length as usize)?;
    Ok((max_stack, max_locals, code))
}

#[tactic(auto, unfolding(crate::specs::ClassFile::handlers))]
fn handlers<'a>(
    alloc: Global,
    pool: &Pool<'a>,
    cursor: &mut Cursor<'a>,
) -> Result<Vec<ExceptionHandler>, ReadFault>
    ensures { GoesOn handlers (λ v. map handler_view v.items) cursor.old cursor.new result }
{
    take_table::<ExceptionHandler>(alloc, pool, Location::Code, cursor)
}

#[tactic(auto, unfolding(crate::specs::ClassFile::nested_attributes))]
fn nested_attributes<'a>(
    alloc: Global,
    pool: &Pool<'a>,
    cursor: &mut Cursor<'a>,
) -> Result<Vec<NestedAttribute<'a>>, ReadFault>
    ensures { GoesOn (nested_attributes pool.now) (λ v. map nested_view v.items) cursor.old cursor.new result }
{
    take_table::<NestedAttribute<'a>>(alloc, pool, Location::Code, cursor)
}

#[tactic(auto, using(crate::proofs::Steps::steps), unfolding(crate::specs::ClassFile::code))]
fn code<'a>(
    alloc: Global,
    pool: &Pool<'a>,
    cursor: &mut Cursor<'a>,
) -> Result<CodeAttr<'a>, ReadFault>
    ensures { GoesOn (code pool.now) code_view cursor.old cursor.new result }
{
    let (max_stack, max_locals, code) = sizes(cursor)?;
    let exception_table = handlers(alloc, pool, cursor)?;
    let attributes = nested_attributes(alloc, pool, cursor)?;
    Ok(CodeAttr {
        max_stack,
        max_locals,
        code,
        exception_table,
        attributes,
    })
}

/// The Code of a body, which is to be all of it. The attribute's name index stands at `name_at`, its body at `start`.
pub fn whole_code<'a>(
    alloc: Global,
    pool: &Pool<'a>,
    name_at: usize,
    start: usize,
    body: &'a [u8],
) -> Result<CodeAttr<'a>, ReadFault>
    requires { start + length body.now < 2 ^ 64 }
    ensures { Settles (code pool.now) code_view name_at start body.now result }
{
    let mut cursor = Cursor::starting(start, body);
    let answer = code(alloc, pool, &mut cursor);
    whole(name_at, &cursor, answer)
}

fn put_held(out: &mut Output, bytes: &[u8]) -> Result<(), WriteFault>
    ensures { Goes (lengthened (plain bytes.now ∷ [])) out.old out.new result }
{
    let mark = out.begin()?;
    out.put_bytes(bytes)?;
    out.end(mark)
}

#[tactic(auto, using(layout::specs::PieceLaws::writes_append))]
fn put_sizes(
    out: &mut Output,
    max_stack: u16,
    max_locals: u16,
    code: &[u8],
) -> Result<(), WriteFault>
    ensures { Goes (field 2 max_stack
        ++ (field 2 max_locals ++ lengthened (plain code.now ∷ []))) out.old out.new result }
{
    out.put_u2(max_stack)?;
    out.put_u2(max_locals)?;
    put_held(out, code)
}

/// Writes the body of a Code attribute.
#[tactic(auto, using(layout::specs::PieceLaws::writes_append))]
pub fn put_code(out: &mut Output, pool: &Pool<'_>, code: &CodeAttr<'_>) -> Result<(), WriteFault>
    ensures { Goes (code_pieces pool.now (code_view code.now)) out.old out.new result }
{
    put_sizes(out, code.max_stack, code.max_locals, code.code)?;
    put_table(out, pool, Location::Code, &code.exception_table)?;
    put_table(out, pool, Location::Code, &code.attributes)
}
