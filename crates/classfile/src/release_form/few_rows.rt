//! Rows of local variables, as they stand in the body of a table, where there are few (JVMS 4.7.13, 4.7.14).
ghost use Rattle.std.specs.Prelude.{◌≡◌, option_map, slice_get};
ghost use Rattle.std.specs.List.{list_any};
ghost use Rattle.classfile.specs.private.TableBodies.{compared, rows_in, rows_of, are_bad_rows};
ghost use Rattle.classfile.specs.private.TextForms.{AreForms};
ghost use Rattle.classfile.specs.release.DebugTables.{first_variable, variables_in, are_same, is_alone, are_alone, are_bad};
ghost use Rattle.classfile.specs.Views.{code_view};

use crate::code::CodeAttr;
use crate::numbers::number;
use crate::release_form::debug_tables::{Variable, VariableTable, first_variable, is_bad_row};
use crate::release_form::repeated_rows::are_same;
use crate::text_forms::TextForms;
use pool::Pool;

/// So many rows are compared one with the other, which takes less time than a set of them.
pub const FEW: u16 = 32;

/// Rows of a table: so many stand in front of the bytes.
#[derive(Clone, Copy)]
pub struct Rows<'a> {
    /// How many rows there are, unless the bytes end before.
    pub count: u16,
    /// The bytes of the rows, and those behind them.
    pub bytes: &'a [u8],
}

impl<'a> Rows<'a> {
    /// The rows of the table that has this body, if there is one.
    pub fn of(body: Option<&'a [u8]>) -> Rows<'a>
        ensures { rows_in result ≡ rows_of body.entry }
    {
        match body {
            Some([high, low, bytes @ ..]) => Rows {
                count: number(*high, *low),
                bytes,
            },
            Some(_) | None => Rows {
                count: 0,
                bytes: &[],
            },
        }
    }

    /// The first of them.
    fn first(self) -> Option<Variable>
        ensures { result ≡ slice_get (rows_in self.entry) 0 }
    {
        match first_variable(self.bytes) {
            Some((first, _)) if self.count > 0 => Some(first),
            _ => None,
        }
    }
}

/// Whether the first row is this one, and the bytes behind it.
fn first_is(row: Variable, rows: &[u8]) -> Option<(bool, &[u8])>
    ensures { option_map (λ x. (x.0, x.1.now)) result
        ≡ option_map (compared row) (first_variable rows.entry.now) }
{
    let [a, b, c, d, e, f, _, _, i, j, behind @ ..] = rows else {
        return None;
    };
    let place = (row.start == number(*a, *b)) & (row.length == number(*c, *d));
    let same = place & ((row.name == number(*e, *f)) & (row.index == number(*i, *j)));
    Some((same, behind))
}

/// Whether the row stands among so many.
fn is_among(row: Variable, count: u16, rows: &[u8]) -> bool
    ensures { result ≡ list_any (are_same row) (variables_in count rows.now) }
{
    let mut rest = rows;
    for _ in 0..count {
        let Some((same, behind)) = first_is(row, rest) else {
            return false;
        };
        if same {
            return true;
        }
        rest = behind;
    }
    false
}

/// Whether none of so many rows is this one.
fn is_alone(count: u16, rows: &[u8], row: Variable) -> bool
    ensures { result ≡ is_alone (variables_in count rows.now) row }
{
    let mut rest = rows;
    for _ in 0..count {
        let Some((other, behind)) = first_variable(rest) else {
            return true;
        };
        if are_same(other, row) {
            return false;
        }
        rest = behind;
    }
    true
}

/// Whether one of the types has no row among the local variables.
fn one_is_alone(variables: Rows<'_>, types: Rows<'_>) -> bool
    ensures { result ≡ list_any (is_alone (rows_in variables.entry)) (rows_in types.entry) }
{
    let mut rest = types.bytes;
    for _ in 0..types.count {
        let Some((row, behind)) = first_variable(rest) else {
            return false;
        };
        if is_alone(variables.count, variables.bytes, row) {
            return true;
        }
        rest = behind;
    }
    false
}

/// Whether one of the types has no row among the local variables, if there are any.
fn are_alone(variables: Rows<'_>, types: Rows<'_>) -> bool
    ensures { result ≡ are_alone (rows_in variables.entry) (rows_in types.entry) }
{
    match variables.first() {
        Some(_) => one_is_alone(variables, types),
        None => false,
    }
}

/// Whether one of the rows stands twice, or is bad by itself.
fn are_bad_rows(
    table: VariableTable,
    pool: &Pool<'_>,
    forms: &mut TextForms,
    code: &CodeAttr<'_>,
    rows: Rows<'_>,
) -> bool
    requires { AreForms pool.now forms.now }
    ensures told { result ≡ are_bad_rows table pool.now (code_view code.now) (rows_in rows.entry) }
    ensures kept { AreForms pool.now forms.new }
{
    let mut rest = rows.bytes;
    for n in 0..rows.count {
        let Some((row, behind)) = first_variable(rest) else {
            return false;
        };
        if is_bad_row(table, pool, forms, code, row) || is_among(row, rows.count - n - 1, behind) {
            return true;
        }
        rest = behind;
    }
    false
}

/// Whether a row of the local variables or of their types is bad by itself, stands twice, or stands without its row
/// among the local variables.
#[tactic(auto, using(crate::proofs::DebugRows::in_turn))]
pub fn are_bad(
    pool: &Pool<'_>,
    forms: &mut TextForms,
    code: &CodeAttr<'_>,
    variables: Rows<'_>,
    types: Rows<'_>,
) -> bool
    requires { AreForms pool.now forms.now }
    ensures told { result ≡ are_bad pool.now (code_view code.now) (rows_in variables.entry) (rows_in types.entry) }
    ensures kept { AreForms pool.now forms.new }
{
    let bad = are_bad_rows(VariableTable::Variables, pool, forms, code, variables)
        || are_bad_rows(VariableTable::Types, pool, forms, code, types);
    bad || are_alone(variables, types)
}
