//! The classes in files, the first of each name, with the place of each.
ghost use Rattle.std.specs.Prelude.{◌≡◌, List, [], map, OnOk};
ghost use Rattle.hierarchy.specs.Summary.{fact_of, facts_of};
ghost use Rattle.verify.specs.Files.{Read, read_of, OrMemory, IsRefused};
ghost use Rattle.verify.specs.Each.{with_class, AddsFile, AddsFiles};
ghost use Rattle.verify.specs.private.EachSteps.{ArePlaced};
ghost use Rattle.verify.specs.private.OpeningSteps.{AreOpened, IsOpened};

use crate::files::{FileFault, FileRead, summary_in};
use crate::opening::Opened;
use hierarchy::{Summary, summary_of};
use std::alloc::{AllocError, Global};
use std::collections::BTreeMap;

/// Classes of different names, and where each stands by its name.
#[derive(Drop)]
pub struct Gathered<'a> {
    pub classes: Vec<Summary<'a>>,
    pub places: BTreeMap<&'a [u8], usize>,
}

impl<'a> Gathered<'a> {
    /// No class.
    pub fn new(alloc: Global) -> Gathered<'a>
        ensures none { facts_of result.classes.items ≡ [] }
        ensures placed { ArePlaced (facts_of result.classes.items) result.places }
    {
        Gathered {
            classes: Vec::new(alloc),
            places: BTreeMap::new(alloc),
        }
    }

    /// Puts a class after the others, unless one has its name.
    pub fn add(&mut self, class: Summary<'a>) -> Result<(), AllocError>
        requires placed { ArePlaced (facts_of self.old.classes.items) self.old.places }
        ensures added { OnOk result (facts_of self.new.classes.items
            ≡ with_class (facts_of self.old.classes.items) (fact_of class.entry)) }
        ensures placed { OnOk result (ArePlaced (facts_of self.new.classes.items) self.new.places) }
    {
        if self.places.get(class.name).is_some() {
            return Ok(());
        }
        self.places.insert(class.name, self.classes.len())?;
        self.classes.push(class)?;
        Ok(())
    }

    /// Adds the class in a file. A file that is refused is passed over.
    fn add_file(&mut self, alloc: Global, file: FileRead<'a>) -> Result<(), AllocError>
        requires placed { ArePlaced (facts_of self.old.classes.items) self.old.places }
        ensures added { OnOk result (AddsFile (read_of file.entry) (facts_of self.old.classes.items)
            (facts_of self.new.classes.items)) }
        ensures placed { OnOk result (ArePlaced (facts_of self.new.classes.items) self.new.places) }
    {
        match summary_in(alloc, file) {
            Ok(class) => self.add(class),
            Err(fault) => passed_over(fault),
        }
    }

    /// Adds the class that a file is. A file that is refused is passed over.
    fn add_opened_file(&mut self, alloc: Global, file: &Opened<'_, 'a>) -> Result<(), AllocError>
        requires placed { ArePlaced (facts_of self.old.classes.items) self.old.places }
        ensures added { OnOk result ((read : Read) → IsOpened read file.now → AddsFile read
            (facts_of self.old.classes.items) (facts_of self.new.classes.items)) }
        ensures placed { OnOk result (ArePlaced (facts_of self.new.classes.items) self.new.places) }
    {
        match file {
            Ok(formed) => self.add(summary_of(alloc, formed)?),
            Err(fault) => passed_over(*fault),
        }
    }

    /// Adds the classes that these files are, in their order. The only refusal: memory ran out.
    pub fn add_opened(&mut self, alloc: Global, files: &[Opened<'_, 'a>]) -> Result<(), AllocError>
        requires placed { ArePlaced (facts_of self.old.classes.items) self.old.places }
        ensures added { OnOk result ((reads : List Read) → AreOpened reads files.now → AddsFiles reads
            (facts_of self.old.classes.items) (facts_of self.new.classes.items)) }
        ensures placed { OnOk result (ArePlaced (facts_of self.new.classes.items) self.new.places) }
    {
        for file in files {
            self.add_opened_file(alloc, file)?;
        }
        Ok(())
    }

    /// Adds the classes in these files, in their order. The only refusal: memory ran out.
    pub fn add_files(&mut self, alloc: Global, files: &[FileRead<'a>]) -> Result<(), AllocError>
        requires placed { ArePlaced (facts_of self.old.classes.items) self.old.places }
        ensures added { OnOk result (AddsFiles (map read_of files.now) (facts_of self.old.classes.items)
            (facts_of self.new.classes.items)) }
        ensures placed { OnOk result (ArePlaced (facts_of self.new.classes.items) self.new.places) }
    {
        for file in files {
            self.add_file(alloc, *file)?;
        }
        Ok(())
    }
}

/// Passes over a file that is refused, unless memory ran out.
fn passed_over(fault: FileFault) -> Result<(), AllocError>
    ensures { (read : Read) → OrMemory read fault → OnOk result (IsRefused read fault) }
{
    match fault {
        FileFault::OutOfMemory => Err(AllocError),
        FileFault::Unread(_) | FileFault::NoClass(_) | FileFault::Malformed { .. } => Ok(()),
    }
}
