//! Files that are opened once each: as a class that is well formed, or why it is none.
ghost use Rattle.std.specs.Prelude.{◌≡◌, List, map, IfOk};
ghost use Rattle.verify.specs.Files.{Read, read_of};
ghost use Rattle.verify.specs.private.OpeningSteps.{AreDecodedEach, AreOpened, IsDecodedOr, IsOpened};

use crate::files::{FileFault, FileRead, class_in, formed};
use classfile::{ClassFile, Formed};
use std::alloc::{AllocError, Global};

/// The class file in a file, or why there is none.
pub type Decoded<'a> = Result<ClassFile<'a>, FileFault>;

/// The class that a file is, which is well formed; or why it is none.
pub type Opened<'c, 'a> = Result<Formed<'c, 'a>, FileFault>;

/// The class file in each of these files. The only refusal: memory ran out.
pub fn decode_each<'a>(
    alloc: Global,
    files: &[FileRead<'a>],
) -> Result<Vec<Decoded<'a>>, AllocError>
    ensures { IfOk result (λ classes. AreDecodedEach (map read_of files.now) classes.items) }
{
    let mut classes = Vec::with_capacity(alloc, files.len())?;
    for file in files {
        classes.push(class_in(alloc, *file))?;
    }
    Ok(classes)
}

/// A class file as one that is well formed.
fn open<'c, 'a>(alloc: Global, class: &'c Decoded<'a>) -> Opened<'c, 'a>
    ensures { (read : Read) → IsDecodedOr read class.now → IsOpened read result }
{
    match class {
        Ok(class) => formed(alloc, class),
        Err(fault) => Err(*fault),
    }
}

/// Each of these class files as one that is well formed. The only refusal: memory ran out.
pub fn open_each<'c, 'a>(
    alloc: Global,
    classes: &'c [Decoded<'a>],
) -> Result<Vec<Opened<'c, 'a>>, AllocError>
    ensures { IfOk result (λ files. (reads : List Read) → AreDecodedEach reads classes.now
        → AreOpened reads files.items) }
{
    let mut files = Vec::with_capacity(alloc, classes.len())?;
    for class in classes {
        files.push(open(alloc, class))?;
    }
    Ok(files)
}
