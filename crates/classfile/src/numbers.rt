//! The numbers of an attribute, row by row as its layout says (JVMS 4.7).
ghost use Rattle.std.specs.Prelude.{◌≡◌, ◌+◌, ◌*◌, length, drop};
ghost use Rattle.classfile.specs.Layouts.{layout_at};
ghost use Rattle.classfile.specs.LayoutViews.{numbers_view};
ghost use Rattle.classfile.specs.private.IndexColumns.{first_number, behind_count};
ghost use Rattle.classfile.specs.Numbers.{rows_of, number_at, is_laid_out};

use crate::layouts::{AttributeLayout, has_layout, layout_at};
use crate::location::Location;
use pool::Pool;

/// The numbers of an attribute: rows of them, each with one number in every column of the layout. A count of rows that
/// stands before them is none of them. Of a class that was decoded the body has as many bytes as the layout asks for.
#[derive(Clone, Copy, Debug)]
pub struct Numbers<'a> {
    /// The name of such attributes, and the columns of a row.
    pub layout: &'a AttributeLayout<'a>,
    /// The info item of the attribute.
    pub body: &'a [u8],
}

/// A number of two bytes.
pub fn number(high: u8, low: u8) -> u16
    ensures { result ≡ high * 256 + low }
{
    u16::from_be_bytes([high, low])
}

/// The number in front of bytes, if there are two.
fn first_number(bytes: &[u8]) -> Option<u16>
    ensures { result ≡ first_number bytes.now }
{
    match bytes {
        [high, low, ..] => Some(number(*high, *low)),
        _ => None,
    }
}

/// The bytes after so many of this width, or none.
fn behind(bytes: &[u8], count: usize, width: usize) -> &[u8]
    ensures { result.now ≡ drop (count * width) bytes.entry.now }
{
    let start = count.saturating_mul(width).min(bytes.len());
    &bytes[start..]
}

impl<'a> Numbers<'a> {
    /// How many rows there are. An attribute whose layout has no count has one.
    pub fn rows(&self) -> u16
        ensures { result ≡ length (rows_of (numbers_view self.now)) }
    {
        if self.layout.counted {
            first_number(self.body).unwrap_or(0)
        } else {
            1
        }
    }

    /// The bytes of the rows.
    fn behind_count(&self) -> &[u8]
        ensures { result.now ≡ behind_count (numbers_view self.now) }
    {
        if self.layout.counted {
            behind(self.body, 1, 2)
        } else {
            self.body
        }
    }

    /// The number in a row and a column, both counted from 0; nothing past the last row or column.
    pub fn get(&self, row: u16, column: usize) -> Option<u16>
        ensures { result ≡ number_at (numbers_view self.now) row column }
    {
        let columns = self.layout.columns.len();
        if row >= self.rows() || column >= columns {
            return None;
        }
        let rows = behind(self.behind_count(), usize::from(row), 2 * columns);
        first_number(behind(rows, column, 2))
    }
}

/// Whether attributes of this name have such a layout here, and the numbers are laid out so.
pub fn is_laid_out(pool: &Pool<'_>, location: Location, name: u16, numbers: &Numbers<'_>) -> bool
    ensures { result ≡ is_laid_out (layout_at pool.now location name) (numbers_view numbers.now) }
{
    match layout_at(pool, location, name) {
        Some(layout) => layout == numbers.layout && has_layout(layout, numbers.body),
        None => false,
    }
}
