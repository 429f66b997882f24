//! Lists of parts, and the end of an attribute's body.
ghost use Rattle.std.specs.Prelude.{◌≡◌, map};
ghost use Rattle.layout.specs.Faults.{GoesOn, Confines};
ghost use Rattle.layout.specs.Format.{times};

use crate::cursor::Cursor;
use crate::fault::ReadFault;
use crate::part::Part;
use std::alloc::Global;

/// Takes `count` parts, one after the other, or returns the first fault, or 1. After an error the
/// cursor stands somewhere in between.
///
/// Room is asked for as many as there are bytes left, and no more: a count is not believed before bytes are there.
pub fn many<'a, T: Part<'a> + Drop>(
    alloc: Global,
    cursor: &mut Cursor<'a>,
    count: u16,
) -> Result<Vec<T>, ReadFault>
    ensures { GoesOn (times count T.format) (λ v. map T.view v.items) cursor.old cursor.new result }
{
    let most = cursor.rest().len();
    let mut out = Vec::with_capacity(alloc, most.min(count as usize))?;
    for _ in 0..count {
        let one = T::take(alloc, cursor)?;
        out.push(one)?;
    }
    Ok(out)
}

/// The answer for an attribute whose name index stands at `name_at` (JVMS 4.7), once its body
/// was read: 12 `AttributeLength` at the name index where reading passed the body's end or left
/// some of it, and otherwise what reading answered.
pub fn whole<T: Drop>(
    name_at: usize,
    inner: &Cursor<'_>,
    answer: Result<T, ReadFault>,
) -> Result<T, ReadFault>
    ensures { Confines name_at inner.now answer result }
{
    match answer {
        Err(ReadFault::EndsEarly { .. }) => Err(ReadFault::AttributeLength { at: name_at }),
        Ok(_) if !inner.rest().is_empty() => Err(ReadFault::AttributeLength { at: name_at }),
        other => other,
    }
}
