//! Declared frames that stand for others, since they have the same locals (JVMS 4.10.1.6).
ghost use Rattle.std.specs.Prelude.{◌≡◌, ◌≢◌, ◌≤◌, ◌<◌, ◌++◌, ◌∷◌, ◌^◌, ℕ, [], List, length, slice_get, slice_index, Some, IsTrue, IfOk, IfSome, OnOk};
ghost use Rattle.method_frames.specs.NumberedFrames.{NumberedFrame};
ghost use Rattle.type_numbers.specs.Numbers.{Numbering, IsGiven};
ghost use Rattle.verify.specs.private.pass.Representatives.{TakesLocal, TakesChanges};
ghost use Rattle.verify.specs.private.pass.Buckets.{IsBucket, AreBuckets, IsIn, IsNamed, AreRepresentatives, IsPut, IsSorted};

use crate::pass::watching::{FEW_FRAMES, Watch, each_takes};
use hierarchy::Classes;
use method_frames::MethodFrames;
use std::alloc::{AllocError, Global};

/// Where more local variables changed than these, and one more for every 16 frames, each frame is compared as a whole.
const FEW_CHANGES: usize = 4;

/// Makes room for so many declared frames.
fn reach(count: usize, until: &mut Vec<u16>) -> Result<(), AllocError>
    ensures same { (f : ℕ) → slice_index until.new.items f ≡ slice_index until.old.items f }
    ensures longer { length until.old.items ≤ length until.new.items }
    ensures room { OnOk result (count ≤ length until.new.items) }
{
    if until.len() < count {
        until.resize(count, 0)?;
    }
    Ok(())
}

/// Frames that stand for others for some time, in the order in which they came.
#[derive(Drop)]
pub struct Bucket {
    list: Vec<usize>,
    // None of them stops before this offset, in bytes.
    lasts: u16,
    // Tells which numbers they want of local variables.
    watch: Watch,
}

impl Bucket {
    /// No frame is in it.
    fn new(alloc: Global) -> Bucket
        ensures { (s : Numbering) (ds : List (ℕ × NumberedFrame)) (room : ℕ) → IsBucket s ds room result }
    {
        Bucket {
            list: Vec::new(alloc),
            lasts: 0,
            watch: Watch::new(alloc),
        }
    }

    /// Puts a frame after the others, which all last up to an offset, in bytes, if it is the first one.
    fn put(&mut self, frame: usize, lasts: u16) -> Result<(), AllocError>
        ensures list { OnOk result (self.new.list.items ≡ self.old.list.items ++ frame ∷ []) }
        ensures watch { self.new.watch ≡ self.old.watch }
    {
        if self.list.is_empty() {
            self.lasts = lasts;
        }
        self.list.push(frame)?;
        Ok(())
    }

    /// Whether each frame takes a type as this local variable.
    fn all_take<C: Classes>(
        &mut self,
        place: usize,
        number: u32,
        frames: &MethodFrames<'_, '_, '_, C>,
    ) -> Result<bool, AllocError>
        requires place { place < 2 ^ 16 }
        requires given { IsGiven frames.now.types number }
        requires bucket { (room : ℕ) × IsBucket frames.now.types frames.now.declared room self.old }
        ensures bucket { (room : ℕ) → IsBucket frames.now.types frames.now.declared room self.old
            → OnOk result (IsBucket frames.now.types frames.now.declared room self.new) }
        ensures list { self.new.list ≡ self.old.list }
        ensures taken { IfOk result (λ all. IsTrue all → (k f : ℕ) → slice_get self.old.list.items k ≡ Some f
            → TakesLocal frames.now.types frames.now.declared f place number) }
    {
        if self.list.len() <= FEW_FRAMES {
            return Ok(each_takes(&self.list, place, number, frames));
        }
        self.watch.all_take(&self.list, place, number, frames)
    }

    /// Whether each frame takes all local variables of the running frame.
    fn all_take_frame<C: Classes>(&self, frames: &mut MethodFrames<'_, '_, '_, C>) -> bool
        requires bucket { (room : ℕ) × IsBucket frames.old.types frames.old.declared room self.now }
        ensures same { frames.new ≡ frames.old }
        ensures taken { let x = frames.old in IsTrue result → (k f : ℕ) → slice_get self.now.list.items k ≡ Some f
            → TakesChanges x f (length x.running.locals) }
    {
        for i in 0..self.list.len() {
            if !frames.takes_locals(self.list[i]) {
                return false;
            }
        }
        true
    }

    /// Takes all frames out, and puts them after those of a list.
    fn empty(&mut self, list: &mut Vec<usize>) -> Result<(), AllocError>
        ensures bucket { (s : Numbering) (ds : List (ℕ × NumberedFrame)) (room : ℕ)
            → OnOk result (IsBucket s ds room self.new) }
        ensures list { OnOk result (list.new.items ≡ list.old.items ++ self.old.list.items) }
    {
        list.append(&mut self.list)?;
        self.watch.clear();
        Ok(())
    }

    /// Whether a frame may stop at an offset, in bytes, or before it.
    fn may_stop(&self, at: u16) -> bool {
        at >= self.lasts
    }
}

/// Frames that stand for those of exception handlers, as long as an entry with such a handler may cover an instruction.
///
/// The first few are in the first bucket. Each other one is in the bucket for the power of two below the time for which it
/// was to last, in bytes, when it was put there. So a frame is moved to another bucket at most some twice for each power of
/// two, and no frame that has stopped is asked for long.
#[derive(Drop)]
pub struct Representatives {
    alloc: Global,
    buckets: Vec<Bucket>,
    // By the place of a declared frame, the offset after the last instruction for which it is in a bucket, in bytes; 0
    // where it is in none.
    until: Vec<u16>,
    // Room for a list while it is gone through.
    moved: Vec<usize>,
}

impl Representatives {
    /// None yet.
    pub fn new(alloc: Global) -> Representatives
        ensures are { (s : Numbering) (ds : List (ℕ × NumberedFrame)) → AreRepresentatives s ds result }
        ensures none { result.until.items ≡ [] }
    {
        Representatives {
            alloc,
            buckets: Vec::new(alloc),
            until: Vec::new(alloc),
            moved: Vec::new(alloc),
        }
    }

    /// Whether there is none.
    pub fn is_empty(&self) -> bool
        ensures { IsTrue result → self.now.buckets.items ≡ [] }
    {
        self.buckets.is_empty()
    }

    /// The place of the bucket for a frame that is to last so long, in bytes.
    fn bucket_for(&self, time: u16) -> usize {
        match self.buckets.first() {
            Some(first) if first.list.len() >= FEW_FRAMES => {
                (u16::BITS - time.leading_zeros()) as usize
            }
            _ => 0,
        }
    }

    /// Makes the buckets up to this place.
    fn grow(&mut self, place: usize) -> Result<(), AllocError>
        ensures buckets { (s : Numbering) (ds : List (ℕ × NumberedFrame)) (room : ℕ)
            → AreBuckets s ds room self.old.buckets.items → OnOk result (AreBuckets s ds room self.new.buckets.items) }
        ensures kept { OnOk result ((i f : ℕ) → IsIn self.old.buckets.items i f → IsIn self.new.buckets.items i f) }
        ensures until { self.new.until ≡ self.old.until }
        ensures moved { self.new.moved ≡ self.old.moved }
        ensures more { OnOk result (length self.old.buckets.items ≤ length self.new.buckets.items) }
        ensures room { OnOk result (place < length self.new.buckets.items) }
    {
        while self.buckets.len() <= place {
            self.buckets.push(Bucket::new(self.alloc))?;
        }
        Ok(())
    }

    /// Puts a frame into a bucket, for the time from an offset up to another, in bytes.
    fn put(&mut self, frame: usize, at: u16, until: u16) -> Result<(), AllocError>
        ensures put { OnOk result (IsPut self.old frame self.new) }
    {
        let time = until.saturating_sub(at);
        let place = self.bucket_for(time);
        self.grow(place)?;
        self.buckets[place].put(frame, at.saturating_add(time / 2))?;
        Ok(())
    }

    /// A frame stands for those with its locals from an offset up to another, in bytes.
    pub fn add<C: Classes>(
        &mut self,
        frame: usize,
        at: u16,
        to: u16,
        frames: &MethodFrames<'_, '_, '_, C>,
    ) -> Result<(), AllocError>
        requires frame { frame < length frames.now.declared }
        requires representatives { AreRepresentatives frames.now.types frames.now.declared self.old }
        ensures representatives { OnOk result (AreRepresentatives frames.now.types frames.now.declared self.new) }
        ensures added { OnOk result (to ≤ slice_index self.new.until.items frame) }
        ensures more { OnOk result ((f : ℕ)
            → slice_index self.old.until.items f ≤ slice_index self.new.until.items f) }
        ensures others { OnOk result ((f : ℕ) → f ≢ frame
            → slice_index self.new.until.items f ≡ slice_index self.old.until.items f) }
    {
        reach(frames.count(), &mut self.until)?;
        let until = self.until[frame];
        if until == 0 {
            self.put(frame, at, to)?;
        }
        self.until[frame] = until.max(to);
        Ok(())
    }

    /// Whether a declared frame stands for others.
    pub fn stands(&self, frame: usize) -> bool
        ensures { IsTrue result → 0 < slice_index self.now.until.items frame }
    {
        let until = self.until.get(frame).copied().unwrap_or(0);
        until > 0
    }

    /// Whether the frame of each takes a type as this local variable.
    fn all_take<C: Classes>(
        &mut self,
        place: usize,
        number: u32,
        frames: &MethodFrames<'_, '_, '_, C>,
    ) -> Result<bool, AllocError>
        requires place { place < 2 ^ 16 }
        requires given { IsGiven frames.now.types number }
        requires representatives { AreRepresentatives frames.now.types frames.now.declared self.old }
        ensures representatives { OnOk result (AreRepresentatives frames.now.types frames.now.declared self.new) }
        ensures until { self.new.until ≡ self.old.until }
        ensures taken { IfOk result (λ all. IsTrue all → (f : ℕ) → 0 < slice_index self.old.until.items f
            → TakesLocal frames.now.types frames.now.declared f place number) }
    {
        for i in 0..self.buckets.len() {
            if !self.buckets[i].all_take(place, number, frames)? {
                return Ok(false);
            }
        }
        Ok(true)
    }

    /// Whether the frame of each takes all local variables of the running frame.
    fn all_take_frame<C: Classes>(&self, frames: &mut MethodFrames<'_, '_, '_, C>) -> bool
        requires representatives { AreRepresentatives frames.old.types frames.old.declared self.now }
        ensures same { frames.new ≡ frames.old }
        ensures taken { let x = frames.old in IsTrue result → (f : ℕ) → 0 < slice_index self.now.until.items f
            → TakesChanges x f (length x.running.locals) }
    {
        for i in 0..self.buckets.len() {
            if !self.buckets[i].all_take_frame(frames) {
                return false;
            }
        }
        true
    }

    /// So many changes are looked at one by one.
    fn few_changes(&self) -> usize {
        let mut count = 0usize;
        for bucket in &self.buckets {
            count = count.saturating_add(bucket.list.len());
        }
        FEW_CHANGES.saturating_add(count / 16)
    }

    /// Whether each local variable of the running frame that is not as it was kept may stand for that of the frame of
    /// each; none where too many are not.
    fn take_few<C: Classes>(
        &mut self,
        frames: &MethodFrames<'_, '_, '_, C>,
    ) -> Result<Option<bool>, AllocError>
        requires representatives { AreRepresentatives frames.now.types frames.now.declared self.old }
        ensures representatives { OnOk result (AreRepresentatives frames.now.types frames.now.declared self.new) }
        ensures until { self.new.until ≡ self.old.until }
        ensures taken { let x = frames.now in IfOk result (λ few. IfSome few (λ all. IsTrue all → (f : ℕ)
            → 0 < slice_index self.old.until.items f → TakesChanges x f (length x.running.locals))) }
        ensures even { length frames.now.kept ≡ length frames.now.running.locals }
    {
        let (mut from, mut left) = (0, self.few_changes());
        while let Some(place) = frames.first_changed(from) {
            if left == 0 {
                return Ok(None);
            }
            if !self.all_take(place, frames.local(place), frames)? {
                return Ok(Some(false));
            }
            from = place + 1;
            left -= 1;
        }
        Ok(Some(true))
    }

    /// Whether each local variable of the running frame that is not as it was kept may stand for that of the frame of
    /// each. Where many changed, the frames are compared as a whole, which takes time for blocks of local variables and
    /// not for each of them.
    pub fn take_changes<C: Classes>(
        &mut self,
        frames: &mut MethodFrames<'_, '_, '_, C>,
    ) -> Result<bool, AllocError>
        requires representatives { AreRepresentatives frames.old.types frames.old.declared self.old }
        ensures representatives { OnOk result (AreRepresentatives frames.old.types frames.old.declared self.new) }
        ensures until { self.new.until ≡ self.old.until }
        ensures same { frames.new ≡ frames.old }
        ensures taken { let x = frames.old in IfOk result (λ all. IsTrue all → (f : ℕ)
            → 0 < slice_index self.old.until.items f → TakesChanges x f (length x.running.locals)) }
        ensures even { length frames.old.kept ≡ length frames.old.running.locals }
    {
        match self.take_few(frames)? {
            Some(taken) => Ok(taken),
            None => Ok(self.all_take_frame(frames)),
        }
    }

    /// Puts the frames of a bucket into those where they belong now, but those that stand for others up to an offset, in
    /// bytes, or less far.
    fn sort(&mut self, place: usize, at: u16) -> Result<(), AllocError>
        requires place { place < length self.old.buckets.items }
        requires representatives { (s : Numbering) × (ds : List (ℕ × NumberedFrame)) × AreRepresentatives s ds self.old }
        ensures sorted { (s : Numbering) (ds : List (ℕ × NumberedFrame)) → AreRepresentatives s ds self.old
            → OnOk result (IsSorted s ds at self.old self.new) }
        ensures more { OnOk result (length self.old.buckets.items ≤ length self.new.buckets.items) }
    {
        self.moved.clear();
        self.buckets[place].empty(&mut self.moved)?;
        for i in 0..self.moved.len() {
            let frame = self.moved[i];
            let until = self.until[frame];
            if at < until {
                self.put(frame, at, until)?;
            } else {
                self.until[frame] = 0;
            }
        }
        Ok(())
    }

    /// Takes those out that stand for others up to an offset, in bytes, or less far.
    pub fn drop_ended(&mut self, at: u16) -> Result<(), AllocError>
        requires { (s : Numbering) × (ds : List (ℕ × NumberedFrame)) × AreRepresentatives s ds self.old }
        ensures sorted { (s : Numbering) (ds : List (ℕ × NumberedFrame)) → AreRepresentatives s ds self.old
            → OnOk result (IsSorted s ds at self.old self.new) }
    {
        for i in 0..self.buckets.len() {
            if i == 0 || self.buckets[i].may_stop(at) {
                self.sort(i, at)?;
            }
        }
        Ok(())
    }
}
