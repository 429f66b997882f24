//! Debug tables of a Code attribute (JVMS 4.7.12 to 4.7.14): line numbers and local variables.
ghost use Rattle.std.specs.Prelude.{◌≡◌, ◌++◌, ◌||◌, map, length, nat_le, option_map, IfOk, IfSome};
ghost use Rattle.std.specs.List.{list_any, flat_map};
ghost use Rattle.classfile.specs.AttributeForm.{on_body};
ghost use Rattle.classfile.specs.declared.release_form.debug_tables.VariableTable.TheVariants as tables;
ghost use Rattle.classfile.specs.private.TableBodies.{has_line_behind, are_misshaped, are_bad_bodies, AreJudged};
ghost use Rattle.classfile.specs.private.TextForms.{AreForms};
ghost use Rattle.classfile.specs.release.DebugTables.{first_start, starts_in, starts_of, first_variable, variables_in, variables_of, body_named, bodies_named, variables_named, has_bad_line, is_misshaped, has_misshaped, lacks_text, passes_code, is_unnamed, is_wide, last_index, is_undescribed, is_bad_row, types_named, has_bad_variables, has_bad_table, have_bad_table};
ghost use Rattle.classfile.specs.Views.{attribute_view, code_view, nested_view};

use crate::attribute::Attribute;
use crate::code::CodeAttr;
use crate::indices::{ConstantKind, lacks};
use crate::layouts::has_count;
use crate::location::{is_named, is_text};
use crate::nested::NestedAttribute;
use crate::numbers::number;
use crate::release_form::few_rows::{self, FEW, Rows};
use crate::release_form::repeated_rows::are_repeated;
use crate::release_form::table_bodies::{TableBodies, only_bodies};
use crate::text_forms::TextForms;
use names::Text;
use pool::Pool;
use std::alloc::{AllocError, Global};

/// A row of a LocalVariableTable or a LocalVariableTypeTable.
#[derive(Clone, Copy)]
pub struct Variable {
    /// The offset from which on the local variable has a value.
    pub start: u16,
    /// For so many bytes of code.
    pub length: u16,
    /// The index of its name.
    pub name: u16,
    /// The index of its descriptor or signature.
    pub descriptor: u16,
    /// Its index among the local variables.
    pub index: u16,
}

/// A table of local variables, or of their types.
#[derive(Clone, Copy)]
pub enum VariableTable {
    /// LocalVariableTable (JVMS 4.7.13).
    Variables,
    /// LocalVariableTypeTable (JVMS 4.7.14).
    Types,
}

/// The start of a line, and the bytes behind its row.
fn first_start(rows: &[u8]) -> Option<(u16, &[u8])>
    ensures { option_map (λ x. (x.0, x.1.now)) result ≡ first_start rows.entry.now }
{
    let [a, b, _, _, behind @ ..] = rows else {
        return None;
    };
    Some((number(*a, *b), behind))
}

/// Whether one of so many lines begins at or behind an offset.
fn begins_behind(end: usize, count: u16, rows: &[u8]) -> bool
    ensures { result ≡ list_any (nat_le end) (starts_in count rows.now) }
{
    let mut rest = rows;
    for _ in 0..count {
        let Some((start, behind)) = first_start(rest) else {
            return false;
        };
        if usize::from(start) >= end {
            return true;
        }
        rest = behind;
    }
    false
}

/// Whether a line in the body of a LineNumberTable begins at or behind an offset.
fn has_line_behind(end: usize, body: &[u8]) -> bool
    ensures { result ≡ list_any (nat_le end) (starts_of body.now) }
{
    let [high, low, rows @ ..] = body else {
        return false;
    };
    begins_behind(end, number(*high, *low), rows)
}

/// The body of an attribute of this name.
fn body_named<'a>(pool: &Pool<'_>, name: &str, attribute: &NestedAttribute<'a>) -> Option<&'a [u8]>
    ensures { option_map (λ b. b.now) result ≡ body_named pool.now name.now (nested_view attribute.now) }
{
    match attribute {
        NestedAttribute::Numbers { numbers, .. }
            if is_text(numbers.layout.name.as_bytes(), name.as_bytes()) => { Some(numbers.body) }
        NestedAttribute::Raw { name: own, body } if is_named(pool, *own, name.as_bytes()) => {
            Some(body)
        }
        _ => None,
    }
}

/// Whether a line begins behind the code.
#[tactic(auto, unfolding(crate::specs::release::DebugTables::has_bad_line))]
fn has_bad_line(pool: &Pool<'_>, code: &CodeAttr<'_>) -> bool
    ensures { result ≡ has_bad_line pool.now (code_view code.now) }
{
    for attribute in &code.attributes {
        if let Some(body) = body_named(pool, "LineNumberTable", attribute) {
            if has_line_behind(code.code.len(), body) {
                return true;
            }
        }
    }
    false
}

/// Whether the body of a LocalVariableTypeTable is not a count and as many rows.
#[tactic(auto, unfolding(crate::specs::release::DebugTables::has_misshaped))]
fn has_misshaped(pool: &Pool<'_>, code: &CodeAttr<'_>) -> bool
    ensures { result ≡ has_misshaped pool.now (code_view code.now) }
{
    for attribute in &code.attributes {
        if let Some(body) = body_named(pool, "LocalVariableTypeTable", attribute) {
            if !has_count(10, body) {
                return true;
            }
        }
    }
    false
}

/// A local variable, and the bytes behind its row.
pub fn first_variable(rows: &[u8]) -> Option<(Variable, &[u8])>
    ensures { option_map (λ x. (x.0, x.1.now)) result ≡ first_variable rows.entry.now }
{
    let [a, b, c, d, e, f, g, h, i, j, behind @ ..] = rows else {
        return None;
    };
    let variable = Variable {
        start: number(*a, *b),
        length: number(*c, *d),
        name: number(*e, *f),
        descriptor: number(*g, *h),
        index: number(*i, *j),
    };
    Some((variable, behind))
}

/// Puts so many rows to the others.
fn push_rows(variables: &mut Vec<Variable>, count: u16, rows: &[u8]) -> Result<(), AllocError>
    ensures { IfOk result (λ _. variables.new.items ≡ variables.old.items ++ variables_in count rows.now) }
{
    let mut rest = rows;
    for _ in 0..count {
        let Some((variable, behind)) = first_variable(rest) else {
            return Ok(());
        };
        variables.push(variable)?;
        rest = behind;
    }
    Ok(())
}

/// Puts the rows in the body of a table to the others.
fn push_table(variables: &mut Vec<Variable>, body: &[u8]) -> Result<(), AllocError>
    ensures { IfOk result (λ _. variables.new.items ≡ variables.old.items ++ variables_of body.now) }
{
    let [high, low, rows @ ..] = body else {
        return Ok(());
    };
    push_rows(variables, number(*high, *low), rows)
}

/// The rows of all tables of this name.
#[tactic(auto, unfolding(crate::specs::release::DebugTables::variables_named))]
fn variables_named(
    alloc: Global,
    pool: &Pool<'_>,
    name: &str,
    code: &CodeAttr<'_>,
) -> Result<Vec<Variable>, AllocError>
    ensures { IfOk result (λ v. v.items ≡ variables_named pool.now name.now (code_view code.now)) }
{
    let mut variables = Vec::new(alloc);
    for attribute in &code.attributes {
        if let Some(body) = body_named(pool, name, attribute) {
            push_table(&mut variables, body)?;
        }
    }
    Ok(variables)
}

/// Whether the local variable does not live within the code.
fn passes_code(code: &CodeAttr<'_>, variable: Variable) -> bool
    ensures { result ≡ passes_code (code_view code.now) variable }
{
    let (start, length) = (usize::from(variable.start), usize::from(variable.length));
    start >= code.code.len() || start + length > code.code.len()
}

/// Whether the local variable has no unqualified name.
#[tactic(auto, unfolding(pool::specs::Lookups::text_at, crate::specs::Indices::is_bad, crate::specs::Indices::is_other))]
fn is_unnamed(pool: &Pool<'_>, forms: &mut TextForms, variable: Variable) -> bool
    requires { AreForms pool.now forms.now }
    ensures told { result ≡ is_unnamed pool.now variable }
    ensures kept { AreForms pool.now forms.new }
{
    match pool.text(variable.name) {
        Ok(name) => !forms.is_unqualified_name(pool, variable.name, name),
        Err(_) => true,
    }
}

fn is_wide(descriptor: Text<'_>) -> bool
    ensures { result ≡ is_wide descriptor.entry.bytes.now }
{
    matches!(descriptor.bytes(), [b'J' | b'D'])
}

/// The index of the last local variable that it takes: a long or double takes two.
fn last_index(pool: &Pool<'_>, variable: Variable) -> usize
    ensures { result ≡ last_index pool.now variable }
{
    let index = usize::from(variable.index);
    match pool.text(variable.descriptor) {
        Ok(descriptor) if is_wide(descriptor) => index + 1,
        Ok(_) | Err(_) => index,
    }
}

/// Whether the last index is not below so many. Of most local variables the descriptor does not matter.
fn passes_locals(pool: &Pool<'_>, max_locals: usize, variable: Variable) -> bool
    ensures { result ≡ nat_le max_locals (last_index pool.now variable) }
{
    usize::from(variable.index) + 1 >= max_locals && last_index(pool, variable) >= max_locals
}

/// Whether the index leads to no descriptor of a field.
#[tactic(auto, unfolding(pool::specs::Lookups::text_at, crate::specs::Indices::is_bad, crate::specs::Indices::is_other))]
fn is_undescribed(pool: &Pool<'_>, forms: &mut TextForms, index: u16) -> bool
    requires { AreForms pool.now forms.now }
    ensures told { result ≡ is_undescribed pool.now index }
    ensures kept { AreForms pool.now forms.new }
{
    match pool.text(index) {
        Ok(descriptor) => !forms.is_field_descriptor(pool, index, descriptor),
        Err(_) => true,
    }
}

/// Whether a row of such a table is bad by itself.
pub fn is_bad_row(
    table: VariableTable,
    pool: &Pool<'_>,
    forms: &mut TextForms,
    code: &CodeAttr<'_>,
    row: Variable,
) -> bool
    requires { AreForms pool.now forms.now }
    ensures told { result ≡ is_bad_row table pool.now (code_view code.now) row }
    ensures kept { AreForms pool.now forms.new }
{
    if passes_code(code, row) || is_unnamed(pool, forms, row) {
        return true;
    }
    let max_locals = usize::from(code.max_locals);
    match table {
        VariableTable::Variables => {
            is_undescribed(pool, forms, row.descriptor) || passes_locals(pool, max_locals, row)
        }
        VariableTable::Types => {
            lacks(pool, ConstantKind::Utf8, row.descriptor) || usize::from(row.index) >= max_locals
        }
    }
}

/// Whether one of the rows is bad by itself.
fn has_bad_row(
    table: VariableTable,
    pool: &Pool<'_>,
    forms: &mut TextForms,
    code: &CodeAttr<'_>,
    rows: &[Variable],
) -> bool
    requires { AreForms pool.now forms.now }
    ensures told { result ≡ list_any (is_bad_row table pool.now (code_view code.now)) rows.now }
    ensures kept { AreForms pool.now forms.new }
{
    for row in rows {
        if is_bad_row(table, pool, forms, code, *row) {
            return true;
        }
    }
    false
}

/// Whether one of the local variables, or one of their types, is bad by itself.
fn have_bad_row(
    pool: &Pool<'_>,
    forms: &mut TextForms,
    code: &CodeAttr<'_>,
    variables: &[Variable],
    types: &[Variable],
) -> bool
    requires { AreForms pool.now forms.now }
    ensures told { result ≡ (list_any (is_bad_row tables.Variables pool.now (code_view code.now)) variables.now
        || list_any (is_bad_row tables.Types pool.now (code_view code.now)) types.now) }
    ensures kept { AreForms pool.now forms.new }
{
    has_bad_row(VariableTable::Variables, pool, forms, code, variables)
        || has_bad_row(VariableTable::Types, pool, forms, code, types)
}

/// The rows of all tables of types, which class files have from major version 49 on.
#[tactic(auto, unfolding(crate::specs::release::DebugTables::types_named))]
fn types_named(
    alloc: Global,
    major: u16,
    pool: &Pool<'_>,
    code: &CodeAttr<'_>,
) -> Result<Vec<Variable>, AllocError>
    ensures { IfOk result (λ v. v.items ≡ types_named major pool.now (code_view code.now)) }
{
    if major < 49 {
        return Ok(Vec::new(alloc));
    }
    variables_named(alloc, pool, "LocalVariableTypeTable", code)
}

/// Whether a row of the tables of local variables, or of those of their types, is bad.
#[tactic(auto, unfolding(crate::specs::release::DebugTables::has_bad_variables))]
fn has_bad_variables(
    alloc: Global,
    major: u16,
    pool: &Pool<'_>,
    forms: &mut TextForms,
    code: &CodeAttr<'_>,
) -> Result<bool, AllocError>
    requires { AreForms pool.now forms.now }
    ensures told { IfOk result (λ r. r ≡ has_bad_variables major pool.now (code_view code.now)) }
    ensures kept { AreForms pool.now forms.new }
{
    let variables = variables_named(alloc, pool, "LocalVariableTable", code)?;
    let types = types_named(alloc, major, pool, code)?;
    if are_repeated(alloc, &variables, &types)? {
        return Ok(true);
    }
    let bad = have_bad_row(pool, forms, code, &variables, &types);
    Ok(bad)
}

/// Whether a debug table of a Code attribute is bad, of which it may have many.
#[tactic(auto, unfolding(crate::specs::release::DebugTables::has_bad_table))]
fn many_are_bad(
    alloc: Global,
    major: u16,
    pool: &Pool<'_>,
    forms: &mut TextForms,
    code: &CodeAttr<'_>,
) -> Result<bool, AllocError>
    requires { AreForms pool.now forms.now }
    ensures told { IfOk result (λ r. r ≡ has_bad_table major pool.now (code_view code.now)) }
    ensures kept { AreForms pool.now forms.new }
{
    if has_bad_line(pool, code) || (major >= 49 && has_misshaped(pool, code)) {
        return Ok(true);
    }
    has_bad_variables(alloc, major, pool, forms, code)
}

/// Whether a line begins at or behind an offset, if there is a LineNumberTable.
fn lines_pass(end: usize, lines: Option<&[u8]>) -> bool
    ensures { result ≡ has_line_behind end lines.entry }
{
    match lines {
        Some(body) => has_line_behind(end, body),
        None => false,
    }
}

/// Whether the body of a LocalVariableTypeTable, if there is one, is not a count and as many rows.
fn are_misshaped(types: Option<&[u8]>) -> bool
    ensures { result ≡ are_misshaped types.entry }
{
    match types {
        Some(body) => !has_count(10, body),
        None => false,
    }
}

/// Whether one of the debug tables with these bodies is bad.
fn few_are_bad(
    pool: &Pool<'_>,
    forms: &mut TextForms,
    code: &CodeAttr<'_>,
    bodies: TableBodies<'_>,
) -> bool
    requires { AreForms pool.now forms.now }
    ensures told { result ≡ are_bad_bodies pool.now (code_view code.now) bodies.entry }
    ensures kept { AreForms pool.now forms.new }
{
    if lines_pass(code.code.len(), bodies.lines) || are_misshaped(bodies.types) {
        return true;
    }
    let (variables, types) = (Rows::of(bodies.variables), Rows::of(bodies.types));
    few_rows::are_bad(pool, forms, code, variables, types)
}

/// The bodies of the debug tables of a Code attribute, if there is at most one of each name, and each has few rows of
/// local variables. Class files have types of local variables from major version 49 on.
fn few_bodies<'a>(major: u16, pool: &Pool<'_>, code: &CodeAttr<'a>) -> Option<TableBodies<'a>>
    ensures { IfSome result (AreJudged major pool.now (code_view code.now)) }
{
    let mut bodies = only_bodies(pool, &code.attributes)?;
    if major < 49 {
        bodies.types = None;
    }
    let (variables, types) = (Rows::of(bodies.variables), Rows::of(bodies.types));
    if variables.count <= FEW && types.count <= FEW {
        Some(bodies)
    } else {
        None
    }
}

/// Whether a debug table of a Code attribute is bad.
fn has_bad_table(
    alloc: Global,
    major: u16,
    pool: &Pool<'_>,
    forms: &mut TextForms,
    code: &CodeAttr<'_>,
) -> Result<bool, AllocError>
    requires { AreForms pool.now forms.now }
    ensures told { IfOk result (λ r. r ≡ has_bad_table major pool.now (code_view code.now)) }
    ensures kept { AreForms pool.now forms.new }
{
    match few_bodies(major, pool, code) {
        Some(bodies) => Ok(few_are_bad(pool, forms, code, bodies)),
        None => many_are_bad(alloc, major, pool, forms, code),
    }
}

/// Whether a debug table of a Code attribute among these is bad, in a class of this major version.
#[tactic(auto, unfolding(crate::specs::release::DebugTables::have_bad_table))]
pub fn have_bad_table(
    alloc: Global,
    major: u16,
    pool: &Pool<'_>,
    forms: &mut TextForms,
    attributes: &[Attribute<'_>],
) -> Result<bool, AllocError>
    requires { AreForms pool.now forms.now }
    ensures told { IfOk result (λ r. r ≡ have_bad_table major pool.now (map attribute_view attributes.now)) }
    ensures kept { AreForms pool.now forms.new }
{
    for attribute in attributes {
        if let Attribute::Code { code, .. } = attribute {
            if has_bad_table(alloc, major, pool, forms, code)? {
                return Ok(true);
            }
        }
    }
    Ok(false)
}
