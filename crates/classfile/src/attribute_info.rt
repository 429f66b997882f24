//! The head of an attribute (JVMS 4.7): its name, and the length of its body.
ghost use Rattle.std.specs.Prelude.{◌≡◌};
ghost use Rattle.layout.specs.Faults.{GoesOn};
ghost use Rattle.classfile.specs.ClassFile.{attribute_info};
ghost use Rattle.classfile.specs.private.AttributeInfos.{StandsAt, info_view};

use layout::{Cursor, ReadFault};

/// An attribute_info structure, whose body is not looked at.
#[derive(Clone, Copy)]
pub struct AttributeInfo<'a> {
    /// Where the attribute begins, in bytes from the start of the file.
    pub at: usize,
    /// The attribute_name_index item.
    pub name: u16,
    /// The attribute_length item.
    pub size: u32,
    /// Where the body begins, in bytes from the start of the file.
    pub start: usize,
    /// The info item.
    pub body: &'a [u8],
}

/// A name index, a length, and so many bytes.
#[tactic(auto, unfolding(crate::specs::ClassFile::attribute_info))]
pub fn take_info<'a>(cursor: &mut Cursor<'a>) -> Result<AttributeInfo<'a>, ReadFault>
    ensures reads { GoesOn attribute_info info_view cursor.old cursor.new result }
    ensures stands { StandsAt cursor.old.at cursor.new.at result }
{
    let at = cursor.at();
    let name = cursor.u2()?;
    let size = cursor.u4()?;
    let start = cursor.at();
    let body = cursor.part(size as usize)?;
    Ok(AttributeInfo {
        at,
        name,
        size,
        start,
        body,
    })
}
