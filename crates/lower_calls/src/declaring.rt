//! Summaries of classes with members.
use crate::making::summary;
use hierarchy::{Kind, MemberPlaces, MemberSummary, Overriding, Summary};
use std::alloc::{AllocError, Global};

/// A member by its texts.
#[derive(Clone, Copy)]
pub struct Declared<'a> {
    pub kind: Kind,
    pub name: &'a [u8],
    pub descriptor: &'a [u8],
    pub is_static: bool,
    pub is_protected: bool,
    pub overriding: Overriding,
}

/// The name of a class, that of its superclass, and the members that it declares.
pub type Row<'a> = (&'a [u8], &'a [u8], &'a [Declared<'a>]);

/// The place of a text in a list, where it is put if it is not there.
pub fn place_in<'a>(texts: &mut Vec<&'a [u8]>, text: &'a [u8]) -> Result<usize, AllocError> {
    for place in 0..texts.len() {
        if texts[place] == text {
            return Ok(place);
        }
    }
    texts.push(text)?;
    Ok(texts.len() - 1)
}

/// Declares a member of a class.
fn declare<'a>(class: &mut Summary<'a>, member: &Declared<'a>) -> Result<(), AllocError> {
    let name = place_in(&mut class.texts, member.name)?;
    let descriptor = place_in(&mut class.texts, member.descriptor)?;
    class.members.push(MemberSummary {
        places: MemberPlaces {
            kind: member.kind,
            name,
            descriptor,
        },
        is_static: member.is_static,
        is_protected: member.is_protected,
        overriding: member.overriding,
    })?;
    Ok(())
}

/// A class below another, with members.
pub fn declaring<'a>(alloc: Global, row: &Row<'a>) -> Result<Summary<'a>, AllocError> {
    let (name, superclass, members) = *row;
    let mut class = summary(alloc, name, Some(superclass), false);
    for member in members {
        declare(&mut class, member)?;
    }
    Ok(class)
}
