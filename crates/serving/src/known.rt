//! The classes that are known: which may become so, and where their texts are kept.
ghost use Rattle.std.specs.Prelude.{◌≡◌, ◌++◌, List, IfOk, map, option_map};
ghost use Rattle.hierarchy.specs.Summary.{fact_of};
ghost use Rattle.answers.specs.Files.{input_view, known_file};
ghost use Rattle.verify.specs.Beside.{Summarises};
ghost use Rattle.verify.specs.Files.{read_of};
ghost use Rattle.serving.specs.KnownClasses.{KnownClass, Admits, summaries};

use bumpalo::Bump;
use classfile::{CutShort, Profile};
use hierarchy::Summary;
use std::alloc::{AllocError, Global};
use thiserror::Error;
use verify::{FileFault, FileRead, KnownSummaries, summary_in};

/// Why a class does not become known.
#[derive(Clone, Copy, Debug, Error)]
pub enum KnownFault {
    /// 1: memory ran out.
    #[error("refused 1")]
    OutOfMemory,
    /// The file is not a well-formed class.
    #[error("{0}")]
    Refused(FileFault),
    /// 40: a class of its name is known.
    #[error("refused 40")]
    Twice,
}

/// The bytes that were read of a file, for a class that is read and not judged.
fn known_read<'r>(profile: Profile, read: &'r Result<Vec<u8>, CutShort>) -> FileRead<'r>
    ensures { read_of result ≡ (known_file profile (input_view read.now)).read }
{
    let versions = profile.known_versions();
    match read {
        Ok(bytes) => FileRead::Bytes { bytes, versions },
        Err(cut) => FileRead::Unread(cut.why),
    }
}

/// The summary of the class in a file, by the versions that a known class may have.
pub fn known_summary<'r>(
    alloc: Global,
    profile: Profile,
    read: &'r Result<Vec<u8>, CutShort>,
) -> Result<Summary<'r>, FileFault>
    ensures { Summarises (known_file profile (input_view read.now)).read result }
{
    summary_in(alloc, known_read(profile, read))
}

/// The summary of the class in a file, which may become known; or why it may not.
pub fn admitted<'r>(
    alloc: Global,
    profile: Profile,
    known: &KnownSummaries<'_>,
    read: &'r Result<Vec<u8>, CutShort>,
) -> Result<Summary<'r>, KnownFault>
    ensures { (ks : List KnownClass) → known.now ≡ summaries ks → Admits profile ks (input_view read.now) result }
{
    match known_summary(alloc, profile, read) {
        Ok(summary) => {
            if known.has(summary.name) {
                return Err(KnownFault::Twice);
            }
            Ok(summary)
        }
        Err(FileFault::OutOfMemory) => Err(KnownFault::OutOfMemory),
        Err(fault) => Err(KnownFault::Refused(fault)),
    }
}

/// A text that lives as long as the arena.
fn kept_text<'a>(bump: &'a Bump, text: &[u8]) -> Result<&'a [u8], AllocError>
    ensures { IfOk result (λ t. t.now ≡ text.now) }
{
    let kept: &'a [u8] = bump.try_alloc_slice_copy(text)?;
    Ok(kept)
}

/// The texts, as they live as long as the arena.
fn kept_texts<'a>(
    alloc: Global,
    bump: &'a Bump,
    texts: &[&[u8]],
) -> Result<Vec<&'a [u8]>, AllocError>
    ensures { IfOk result (λ kept. map (λ t. t.now) kept.items ≡ map (λ t. t.now) texts.now) }
{
    let mut kept = Vec::with_capacity(alloc, texts.len())?;
    for text in texts {
        kept.push(kept_text(bump, text)?)?;
    }
    Ok(kept)
}

/// The name of a superclass, as it lives as long as the arena.
fn kept_super<'a>(bump: &'a Bump, superclass: Option<&[u8]>) -> Result<Option<&'a [u8]>, AllocError>
    ensures { IfOk result (λ kept. option_map (λ t. t.now) kept ≡ option_map (λ t. t.now) superclass.entry) }
{
    match superclass {
        None => Ok(None),
        Some(name) => Ok(Some(kept_text(bump, name)?)),
    }
}

/// The summary of a class, whose texts live as long as the arena.
pub fn kept<'a>(
    alloc: Global,
    bump: &'a Bump,
    class: &Summary<'_>,
) -> Result<Summary<'a>, AllocError>
    ensures { IfOk result (λ s. fact_of s ≡ fact_of class.now) }
{
    let mut members = Vec::with_capacity(alloc, class.members.len())?;
    members.extend_from_slice(&class.members)?;
    Ok(Summary {
        name: kept_text(bump, class.name)?,
        superclass: kept_super(bump, class.superclass)?,
        interface: class.interface,
        is_final: class.is_final,
        texts: kept_texts(alloc, bump, &class.texts)?,
        members,
    })
}
