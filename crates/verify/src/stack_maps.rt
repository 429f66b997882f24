//! Why a stack map is refused, and the entry for which it is.
ghost use Rattle.std.specs.Prelude.{◌≡◌, option_map, IfOk};
ghost use Rattle.rules.specs.Bodies.{method_view};
ghost use Rattle.verify.specs.Details.{faulty_detail, detail_of};
ghost use Rattle.verify.specs.Verdict.{map_fault_number};
ghost use Rattle.verify.specs.private.pass.Maps.{refusal_of, detail_for};

use crate::detail::Detail;
use crate::refusal::stack_map;
use classfile::CodeMethod;
use frames::{RefusedEntry, faulty_entry};
use layout::ReadFault;
use std::alloc::{AllocError, Global};

/// Why a stack map is refused (JVMS 4.7.4).
#[derive(Clone, Copy)]
pub enum MapRefusal {
    /// Its bytes are no entries.
    Unreadable(ReadFault),
    /// An entry declares no frame.
    Undeclared(RefusedEntry),
}

impl MapRefusal {
    /// The number of the fault.
    pub fn number(&self) -> u8
        ensures { result ≡ map_fault_number (refusal_of self.now) }
    {
        match self {
            MapRefusal::Unreadable(fault) => fault.number(),
            MapRefusal::Undeclared(entry) => entry.fault.number(),
        }
    }
}

/// The first entry that bytes do not spell, if there is one.
fn faulty_detail<'a>(alloc: Global, body: &[u8]) -> Result<Option<Detail<'a>>, AllocError>
    ensures { IfOk result (λ o. option_map detail_of o ≡ faulty_detail body.now) }
{
    match faulty_entry(alloc, body)? {
        Some(place) => Ok(Some(Detail::MapEntry { place, at: None })),
        None => Ok(None),
    }
}

/// The entry for which the stack map of a method is refused: the one that declares no frame, or where its bytes are no
/// entries, the first that they do not spell. None where no entry is at fault.
pub fn map_detail<'a>(
    alloc: Global,
    method: &CodeMethod<'_, 'a>,
    refusal: MapRefusal,
) -> Result<Option<Detail<'a>>, AllocError>
    ensures { IfOk result (λ o. option_map detail_of o ≡ detail_for (method_view method.now) refusal) }
{
    if let MapRefusal::Undeclared(entry) = refusal {
        return Ok(Some(Detail::MapEntry {
            place: entry.place,
            at: Some(entry.at),
        }));
    }
    match stack_map(method.code) {
        Some(body) => faulty_detail(alloc, body),
        None => Ok(None),
    }
}
