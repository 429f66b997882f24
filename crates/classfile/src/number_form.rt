//! The faults that the numbers of an attribute may have (JVMS 4.7): the indices among them, column by column.
ghost use Rattle.std.specs.Prelude.{◌≡◌, ◌≤◌, ◌||◌, if◌then◌else◌, Some, None, length, option_map};
ghost use Rattle.std.specs.List.{list_any};
ghost use Rattle.classfile.specs.LayoutViews.{numbers_view};
ghost use Rattle.classfile.specs.declared.number_form.IndexRule.TheVariants as rules;
ghost use Rattle.classfile.specs.private.IndexColumns.{is_plain, are_plain, variable, are_variable};
ghost use Rattle.classfile.specs.Numbers.{row_in, behind_row, rows_in, counted_rows};
ghost use Rattle.classfile.specs.NumberForm.{is_bad_in, is_other_in, breaks, row_breaks, numbers_break};

use crate::indices::{
    ConstantKind, is_bad, is_bad_unless_zero, is_other, lacks, lacks_unless_zero,
};
use crate::layouts::Column;
use crate::numbers::{Numbers, number};
use pool::Pool;

/// Five numbers, of which the third and the fourth are indices of texts.
static VARIABLE: [Column; 5] = [
    Column::Plain,
    Column::Plain,
    Column::Text,
    Column::Text,
    Column::Plain,
];

/// A rule that indices keep.
#[derive(Clone, Copy, Debug, PartialEq, Eq)]
pub enum IndexRule {
    /// It may be looked up: 20.
    BadIndex,
    /// The entry there is of the kind that is asked: 21.
    WrongKind,
    /// Both of them.
    Both,
}

fn is_bad_in(pool: &Pool<'_>, column: Column, number: u16) -> bool
    ensures { result ≡ is_bad_in pool.now column number }
{
    match column {
        Column::Plain => false,
        Column::Text | Column::Class | Column::Value => is_bad(pool, number),
        Column::TextOrZero | Column::ClassOrZero => is_bad_unless_zero(pool, number),
    }
}

fn is_other_in(pool: &Pool<'_>, column: Column, number: u16) -> bool
    ensures { result ≡ is_other_in pool.now column number }
{
    match column {
        Column::Plain => false,
        Column::Text | Column::TextOrZero => is_other(pool, ConstantKind::Utf8, number),
        Column::Class | Column::ClassOrZero => is_other(pool, ConstantKind::Class, number),
        Column::Value => is_other(pool, ConstantKind::Value, number),
    }
}

/// Whether a number breaks one of both rules, by one look-up.
fn is_unfit_in(pool: &Pool<'_>, column: Column, number: u16) -> bool
    ensures { result ≡ (is_bad_in pool.now column number || is_other_in pool.now column number) }
{
    match column {
        Column::Plain => false,
        Column::Text => lacks(pool, ConstantKind::Utf8, number),
        Column::TextOrZero => lacks_unless_zero(pool, ConstantKind::Utf8, number),
        Column::Class => lacks(pool, ConstantKind::Class, number),
        Column::ClassOrZero => lacks_unless_zero(pool, ConstantKind::Class, number),
        Column::Value => lacks(pool, ConstantKind::Value, number),
    }
}

fn breaks(pool: &Pool<'_>, rule: IndexRule, column: Column, number: u16) -> bool
    ensures { result ≡ breaks pool.now rule column number }
{
    match rule {
        IndexRule::BadIndex => is_bad_in(pool, column, number),
        IndexRule::WrongKind => is_other_in(pool, column, number),
        IndexRule::Both => is_unfit_in(pool, column, number),
    }
}

/// The bytes after a row of numbers, if none of them breaks the rule.
fn sound_row<'b>(
    pool: &Pool<'_>,
    rule: IndexRule,
    columns: &[Column],
    bytes: &'b [u8],
) -> Option<&'b [u8]>
    ensures { option_map (λ b. b.now) result
        ≡ (if row_breaks (breaks pool.now rule) columns.now (row_in columns.now bytes.entry.now) then None
        else Some (behind_row columns.now bytes.entry.now)) }
{
    let mut rest = bytes;
    for column in columns {
        let [high, low, behind @ ..] = rest else {
            return Some(&[]);
        };
        if breaks(pool, rule, *column, number(*high, *low)) {
            return None;
        }
        rest = behind;
    }
    Some(rest)
}

/// Whether a number in one of so many rows breaks the rule.
fn rows_break(
    pool: &Pool<'_>,
    rule: IndexRule,
    columns: &[Column],
    count: u16,
    bytes: &[u8],
) -> bool
    ensures { result ≡ list_any (row_breaks (breaks pool.now rule) columns.now) (rows_in columns.now count bytes.now) }
{
    let mut rest = bytes;
    for _ in 0..count {
        let Some(behind) = sound_row(pool, rule, columns, rest) else {
            return true;
        };
        rest = behind;
    }
    false
}

/// Whether a number in a count's rows breaks the rule.
fn counted_break(pool: &Pool<'_>, rule: IndexRule, columns: &[Column], body: &[u8]) -> bool
    ensures { result ≡ list_any (row_breaks (breaks pool.now rule) columns.now) (counted_rows columns.now body.now) }
{
    let [high, low, bytes @ ..] = body else {
        return false;
    };
    rows_break(pool, rule, columns, number(*high, *low), bytes)
}

fn is_plain(column: Column) -> bool
    ensures { result ≡ is_plain column }
{
    matches!(column, Column::Plain)
}

/// Whether no number of a row is an index.
fn are_plain(columns: &[Column]) -> bool
    ensures { result ≡ are_plain columns.now }
{
    for column in columns {
        if !is_plain(*column) {
            return false;
        }
    }
    true
}

#[tactic(auto, unfolding(crate::specs::NumberForm::numbers_break))]
fn body_breaks(pool: &Pool<'_>, rule: IndexRule, numbers: &Numbers<'_>) -> bool
    ensures { result ≡ numbers_break pool.now rule (numbers_view numbers.now) }
{
    let columns = numbers.layout.columns;
    if numbers.layout.counted {
        counted_break(pool, rule, columns, numbers.body)
    } else {
        sound_row(pool, rule, columns, numbers.body).is_none()
    }
}

/// Whether an index among the numbers breaks the rule. Rows that have no index, as those of line numbers, are not
/// looked at.
pub fn numbers_break(pool: &Pool<'_>, rule: IndexRule, numbers: &Numbers<'_>) -> bool
    ensures { result ≡ numbers_break pool.now rule (numbers_view numbers.now) }
{
    !are_plain(numbers.layout.columns) && body_breaks(pool, rule, numbers)
}

/// Whether the columns are those of a LocalVariableTable (JVMS 4.7.13).
fn are_variable(columns: &[Column]) -> bool
    ensures { result ≡ are_variable columns.now }
{
    columns == VARIABLE.as_slice()
}

/// The columns of a LocalVariableTable.
fn variable() -> &'static [Column]
    ensures { result.now ≡ variable }
{
    &VARIABLE
}

/// The bytes after a local variable, if neither its name nor its descriptor breaks one of the two rules. Of all rows
/// these are the most, so their other numbers are not looked at one by one.
fn sound_variable<'b>(pool: &Pool<'_>, bytes: &'b [u8]) -> Option<&'b [u8]>
    requires { 10 ≤ length bytes.now }
    ensures { option_map (λ b. b.now) result
        ≡ (if row_breaks (breaks pool.now rules.Both) variable (row_in variable bytes.entry.now) then None
        else Some (behind_row variable bytes.entry.now)) }
{
    let [_, _, _, _, a, b, c, d, _, _, behind @ ..] = bytes else {
        return None;
    };
    let (name, descriptor) = (number(*a, *b), number(*c, *d));
    if lacks(pool, ConstantKind::Utf8, name) || lacks(pool, ConstantKind::Utf8, descriptor) {
        return None;
    }
    Some(behind)
}

/// Whether a name or a descriptor of so many local variables breaks one of the two rules.
fn variables_break(pool: &Pool<'_>, count: u16, bytes: &[u8]) -> bool
    ensures { result ≡ list_any (row_breaks (breaks pool.now rules.Both) variable) (rows_in variable count bytes.now) }
{
    let mut rest = bytes;
    for done in 0..count {
        if rest.len() < 10 {
            return rows_break(pool, IndexRule::Both, variable(), count - done, rest);
        }
        let Some(behind) = sound_variable(pool, rest) else {
            return true;
        };
        rest = behind;
    }
    false
}

/// Whether a number in the body of a LocalVariableTable breaks one of the two rules.
fn variables_have_fault(pool: &Pool<'_>, body: &[u8]) -> bool
    ensures { result ≡ list_any (row_breaks (breaks pool.now rules.Both) variable) (counted_rows variable body.now) }
{
    let [high, low, bytes @ ..] = body else {
        return false;
    };
    variables_break(pool, number(*high, *low), bytes)
}

/// Whether an index among the numbers breaks one of the two rules; each is looked up once.
pub fn numbers_have_fault(pool: &Pool<'_>, numbers: &Numbers<'_>) -> bool
    ensures { result ≡ (numbers_break pool.now rules.BadIndex (numbers_view numbers.now)
        || numbers_break pool.now rules.WrongKind (numbers_view numbers.now)) }
{
    if numbers.layout.counted && are_variable(numbers.layout.columns) {
        return variables_have_fault(pool, numbers.body);
    }
    numbers_break(pool, IndexRule::Both, numbers)
}
