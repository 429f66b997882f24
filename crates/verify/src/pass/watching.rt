//! Which numbers declared frames want of a local variable. They are found once for all frames that have the same local
//! variables, and a type is compared with each of them once.
ghost use Rattle.std.specs.Prelude.{◌≡◌, ◌^◌, ◌/◌, ◌<◌, ℕ, List, length, slice_get, Some, IsTrue, IfOk, OnOk};
ghost use Rattle.method_frames.specs.NumberedFrames.{NumberedFrame};
ghost use Rattle.type_numbers.specs.Numbers.{Numbering, IsGiven};
ghost use Rattle.verify.specs.private.pass.Representatives.{TakesLocal};
ghost use Rattle.verify.specs.private.pass.Watching.{AreDeclared, GoesOn, Has, HasAlike, IsGroup, FitUpTo, AreFitting, IsWanted, IsWatch};

use hierarchy::{Answer, Classes};
use method_frames::MethodFrames;
use std::alloc::{AllocError, Global};
use std::collections::BTreeMap;

/// How many local variables a group has.
const GROUP: usize = 256;

/// So many frames are asked one by one.
pub const FEW_FRAMES: usize = 8;

/// Whether each frame of a list takes a type as a local variable, one after another.
pub fn each_takes<C: Classes>(
    list: &[usize],
    place: usize,
    number: u32,
    frames: &MethodFrames<'_, '_, '_, C>,
) -> bool
    requires given { IsGiven frames.now.types number }
    requires list { AreDeclared frames.now.declared list.now }
    ensures { IsTrue result → (k f : ℕ) → slice_get list.now k ≡ Some f
        → TakesLocal frames.now.types frames.now.declared f place number }
{
    for i in 0..list.len() {
        if !frames.takes(list[i], place, number) {
            return false;
        }
    }
    true
}

/// The numbers that frames want of one local variable.
#[derive(Drop)]
pub struct Wanted {
    // How many frames were gone through.
    seen: usize,
    // The numbers that those want, each once.
    numbers: Vec<u32>,
    // By each of these, its place among them.
    places: BTreeMap<u32, usize>,
    // By the number of a type, with how many of the first ones it was compared: it may stand for these.
    fitting: BTreeMap<u32, usize>,
}

impl Wanted {
    /// No frame was gone through.
    fn new(alloc: Global) -> Wanted
        ensures { (s : Numbering) (ds : List (ℕ × NumberedFrame)) (list : List ℕ) (place : ℕ)
            → IsWanted s ds list place result }
    {
        Wanted {
            seen: 0,
            numbers: Vec::new(alloc),
            places: BTreeMap::new(alloc),
            fitting: BTreeMap::new(alloc),
        }
    }

    /// Whether it is known that a number is wanted.
    fn has(&self, number: u32) -> bool
        ensures { IsTrue result → Has self.now.numbers.items number }
    {
        let Some(place) = self.places.get(&number).copied() else {
            return false;
        };
        place < self.numbers.len() && self.numbers[place] == number
    }

    /// A number is wanted.
    fn want(&mut self, number: u32) -> Result<(), AllocError>
        ensures seen { self.new.seen ≡ self.old.seen }
        ensures fitting { (s : Numbering) → IsGiven s number → AreFitting s self.old
            → OnOk result (AreFitting s self.new) }
        ensures more { OnOk result (GoesOn self.old.numbers.items self.new.numbers.items) }
        ensures wanted { OnOk result (Has self.new.numbers.items number) }
    {
        if self.has(number) {
            return Ok(());
        }
        self.places.insert(number, self.numbers.len())?;
        self.numbers.push(number)?;
        Ok(())
    }

    /// Goes through the frames of a list that are new.
    fn see<C: Classes>(
        &mut self,
        list: &[usize],
        place: usize,
        frames: &MethodFrames<'_, '_, '_, C>,
    ) -> Result<(), AllocError>
        requires list { AreDeclared frames.now.declared list.now }
        requires wanted { IsWanted frames.now.types frames.now.declared list.now place self.old }
        ensures wanted { OnOk result (IsWanted frames.now.types frames.now.declared list.now place self.new) }
        ensures all { OnOk result (self.new.seen ≡ length list.now) }
    {
        while self.seen < list.len() {
            let number = frames.declared_local(list[self.seen], place);
            self.want(number)?;
            self.seen += 1;
        }
        Ok(())
    }

    /// Whether a type may stand for each of the numbers from one on.
    fn fit_from<C: Classes>(
        &self,
        known: usize,
        number: u32,
        frames: &MethodFrames<'_, '_, '_, C>,
    ) -> bool
        requires number { IsGiven frames.now.types number }
        requires fitting { AreFitting frames.now.types self.now }
        requires known { FitUpTo frames.now.types number known self.now.numbers.items }
        ensures { IsTrue result
            → FitUpTo frames.now.types number (length self.now.numbers.items) self.now.numbers.items }
    {
        for i in known..self.numbers.len() {
            let answer = frames.types().assignable(number, self.numbers[i]);
            if !matches!(answer, Answer::Yes) {
                return false;
            }
        }
        true
    }

    /// Whether a type may stand for each of the numbers. It is compared with those with which it was not.
    fn all_fit<C: Classes>(
        &mut self,
        number: u32,
        frames: &MethodFrames<'_, '_, '_, C>,
    ) -> Result<bool, AllocError>
        requires number { IsGiven frames.now.types number }
        requires fitting { AreFitting frames.now.types self.old }
        ensures seen { self.new.seen ≡ self.old.seen }
        ensures numbers { self.new.numbers ≡ self.old.numbers }
        ensures fitting { OnOk result (AreFitting frames.now.types self.new) }
        ensures fit { IfOk result (λ all. IsTrue all
            → FitUpTo frames.now.types number (length self.old.numbers.items) self.old.numbers.items) }
    {
        let count = self.numbers.len();
        let known = self.fitting.get(&number).copied().unwrap_or(0);
        if !self.fit_from(known, number, frames) {
            return Ok(false);
        }
        if known < count {
            self.fitting.insert(number, count)?;
        }
        Ok(true)
    }
}

/// Tells which numbers the frames of a list want of a group of local variables. Of a few frames none are listed.
#[derive(Drop)]
pub struct Group {
    alloc: Global,
    // How many of the list were gone through.
    seen: usize,
    // For each of those, one with its local variables of the group.
    frames: Vec<usize>,
    // By a local variable that was asked about, what these frames want of it.
    locals: BTreeMap<usize, Wanted>,
}

impl Group {
    /// No frame was gone through.
    fn new(alloc: Global) -> Group
        ensures { (s : Numbering) (ds : List (ℕ × NumberedFrame)) (list : List ℕ) (at : ℕ)
            → IsGroup s ds list at result }
    {
        Group {
            alloc,
            seen: 0,
            frames: Vec::new(alloc),
            locals: BTreeMap::new(alloc),
        }
    }

    /// Whether the last frame has the local variables of another in the group of a place.
    fn ends_with<C: Classes>(
        &self,
        frame: usize,
        place: usize,
        frames: &MethodFrames<'_, '_, '_, C>,
    ) -> bool
        requires declared { AreDeclared frames.now.declared self.now.frames.items }
        requires frame { frame < length frames.now.declared }
        requires place { place < 2 ^ 16 }
        ensures { IsTrue result → HasAlike frames.now.declared (place / 256) self.now.frames.items frame }
    {
        let Some(last) = self.frames.last() else {
            return false;
        };
        let from = place / GROUP * GROUP;
        frames.share_locals(frame, *last, from, from + GROUP)
    }

    /// Goes through the frames of a list that are new.
    fn see<C: Classes>(
        &mut self,
        list: &[usize],
        place: usize,
        frames: &MethodFrames<'_, '_, '_, C>,
    ) -> Result<(), AllocError>
        requires list { AreDeclared frames.now.declared list.now }
        requires place { place < 2 ^ 16 }
        requires group { IsGroup frames.now.types frames.now.declared list.now (place / 256) self.old }
        ensures group { OnOk result (IsGroup frames.now.types frames.now.declared list.now (place / 256) self.new) }
        ensures all { OnOk result (self.new.seen ≡ length list.now) }
    {
        while self.seen < list.len() {
            let frame = list[self.seen];
            if !self.ends_with(frame, place, frames) {
                self.frames.push(frame)?;
            }
            self.seen += 1;
        }
        Ok(())
    }

    /// Takes out what is wanted of a local variable.
    fn take_out(&mut self, place: usize) -> Wanted
        ensures wanted { (s : Numbering) (ds : List (ℕ × NumberedFrame)) (list : List ℕ) (at : ℕ)
            → IsGroup s ds list at self.old → IsWanted s ds self.new.frames.items place result }
        ensures group { (s : Numbering) (ds : List (ℕ × NumberedFrame)) (list : List ℕ) (at : ℕ)
            → IsGroup s ds list at self.old → IsGroup s ds list at self.new }
        ensures seen { self.new.seen ≡ self.old.seen }
    {
        match self.locals.remove(&place) {
            Some(wanted) => wanted,
            None => Wanted::new(self.alloc),
        }
    }

    /// Whether the frames that were gone through take a type as a local variable of the group.
    fn all_take<C: Classes>(
        &mut self,
        place: usize,
        number: u32,
        frames: &MethodFrames<'_, '_, '_, C>,
    ) -> Result<bool, AllocError>
        requires number { IsGiven frames.now.types number }
        requires group { (list : List ℕ)
            × IsGroup frames.now.types frames.now.declared list (place / 256) self.old }
        ensures group { let x = frames.now in (list : List ℕ) → IsGroup x.types x.declared list (place / 256) self.old
            → OnOk result (IsGroup x.types x.declared list (place / 256) self.new) }
        ensures taken { let x = frames.now in (list : List ℕ) → IsGroup x.types x.declared list (place / 256) self.old
            → self.old.seen ≡ length list → IfOk result (λ all. IsTrue all → (k f : ℕ) → slice_get list k ≡ Some f
            → TakesLocal x.types x.declared f place number) }
    {
        if self.frames.len() <= FEW_FRAMES {
            return Ok(each_takes(&self.frames, place, number, frames));
        }
        let mut wanted = self.take_out(place);
        wanted.see(&self.frames, place, frames)?;
        let all = wanted.all_fit(number, frames)?;
        self.locals.insert(place, wanted)?;
        Ok(all)
    }
}

/// Which numbers the frames of a list want of their local variables. It has an entry for each group, local variable, and
/// type of one, that was asked about. It is emptied where frames are taken out of the list.
#[derive(Drop)]
pub struct Watch {
    alloc: Global,
    // By a place divided by [`GROUP`].
    groups: BTreeMap<usize, Group>,
}

impl Watch {
    /// Nothing was asked.
    pub fn new(alloc: Global) -> Watch
        ensures { (s : Numbering) (ds : List (ℕ × NumberedFrame)) (list : List ℕ) → IsWatch s ds list result }
    {
        Watch {
            alloc,
            groups: BTreeMap::new(alloc),
        }
    }

    /// Forgets all, for another list.
    pub fn clear(&mut self)
        ensures { (s : Numbering) (ds : List (ℕ × NumberedFrame)) (list : List ℕ) → IsWatch s ds list self.new }
    {
        self.groups.clear();
    }

    /// Takes out what is wanted of a group.
    fn take_out(&mut self, at: usize) -> Group
        ensures group { (s : Numbering) (ds : List (ℕ × NumberedFrame)) (list : List ℕ) → IsWatch s ds list self.old
            → IsGroup s ds list at result }
        ensures watch { (s : Numbering) (ds : List (ℕ × NumberedFrame)) (list : List ℕ) → IsWatch s ds list self.old
            → IsWatch s ds list self.new }
    {
        match self.groups.remove(&at) {
            Some(group) => group,
            None => Group::new(self.alloc),
        }
    }

    /// Whether all frames of a list take a type as a local variable.
    pub fn all_take<C: Classes>(
        &mut self,
        list: &[usize],
        place: usize,
        number: u32,
        frames: &MethodFrames<'_, '_, '_, C>,
    ) -> Result<bool, AllocError>
        requires list { AreDeclared frames.now.declared list.now }
        requires place { place < 2 ^ 16 }
        requires number { IsGiven frames.now.types number }
        requires watch { IsWatch frames.now.types frames.now.declared list.now self.old }
        ensures watch { OnOk result (IsWatch frames.now.types frames.now.declared list.now self.new) }
        ensures taken { IfOk result (λ all. IsTrue all → (k f : ℕ) → slice_get list.now k ≡ Some f
            → TakesLocal frames.now.types frames.now.declared f place number) }
    {
        let at = place / GROUP;
        let mut group = self.take_out(at);
        group.see(list, place, frames)?;
        let all = group.all_take(place, number, frames)?;
        self.groups.insert(at, group)?;
        Ok(all)
    }
}
