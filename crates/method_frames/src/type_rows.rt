//! Rows of types: of the running frame of a method, and of its declared frames.
ghost use Rattle.std.specs.Prelude.{◌≡◌, ℕ, true, false, length, map, slice_index, OnOk};
ghost use Rattle.blocks.specs.Rows.{Rows};
ghost use Rattle.method_frames.specs.Objects.{is_uninitialized, replaced};
ghost use Rattle.method_frames.specs.private.Holders.{AreListed, Replaces};

use crate::holders::{Holders, place_in};
use blocks::{Arena, Row};
use frames::{VType, both};
use hierarchy::{Answer, Classes};
use std::alloc::{AllocError, Global};
use std::marker::Model;
use type_numbers::TypeNumbers;

/// Rows of at most so many places are compared again each time. To note that one fits would have it copied before its
/// next change, which takes longer than the comparison.
const ONE_BLOCK: usize = 16;

/// A declared row for which a class is missing while the running one stays as it is.
#[derive(Clone, Copy)]
struct Lacking<'n> {
    row: Row,
    /// So many first places give that answer already.
    end: usize,
    /// The first class that is missing.
    name: &'n [u8],
}

/// Rows of types by their numbers, such as the local variables of the frames of one method (JVMS 4.10.1.2): the row of
/// the running frame, those of the declared frames, and one that is kept to tell what changed since.
///
/// Rows share what they have in common ([`Arena`]). A running row of more than [`ONE_BLOCK`] places that was seen to
/// fit a declared one is compared with it again only where it changed, so that a comparison takes time for what changed
/// and not for the length of a row. Where a class is missing for a declared row, others are compared only from the
/// place on at which they differ from that one.
///
/// The places that came to hold an object which is not initialized are listed, so that to replace it takes time for
/// these places alone.
#[derive(Drop)]
pub struct TypeRows<'t, 'c, 'n, C: Classes> {
    types: &'t TypeNumbers<'c, 'n, C>,
    rows: Arena,
    holders: Holders,
    /// The last declared row that lacked a class since the running one changed.
    lacking: Option<Lacking<'n>>,
}

impl<'t, 'c, 'n, C: Classes> Model for TypeRows<'t, 'c, 'n, C> {
    ghost use Rattle.method_frames.specs.NumberedRows.{NumberedRows};
    ghost use Rattle.method_frames.specs.private.TypeRows.{AreTypeRows};

    ghost Value = { NumberedRows };

    ghost view = { λ x. record {
      types = x.types.now;
      running = x.rows.running;
      declared = x.rows.declared;
      kept = x.rows.kept;
    } };

    ghost invariant = { λ x. AreTypeRows (x.types.now) x.rows x.holders x.lacking };
}

/// Puts a number in place of an object's, at the places of the running row that came to hold it.
fn replace_listed(
    object: u32,
    by: u32,
    holders: &Holders,
    rows: &mut Arena,
) -> Result<(), AllocError>
    requires object { is_uninitialized object ≡ true }
    requires listed { AreListed holders.now rows.old.running }
    ensures only { Replaces object by rows.old rows.new }
    ensures all { OnOk result (rows.new.running ≡ map (replaced object by) rows.old.running) }
{
    if holders.are_none() {
        return Ok(());
    }
    for key in holders.of(object) {
        let place = place_in(*key);
        if place < rows.slots() && rows.get(place) == object {
            rows.set(place, by)?;
        }
    }
    Ok(())
}

/// Puts a number in place of an object's throughout the running row: at each of its places, or, where it was listed for
/// many, node by node.
fn replace_object(
    object: u32,
    by: u32,
    holders: &Holders,
    rows: &mut Arena,
) -> Result<(), AllocError>
    requires object { is_uninitialized object ≡ true }
    requires listed { AreListed holders.now rows.old.running }
    ensures only { Replaces object by rows.old rows.new }
    ensures all { OnOk result (rows.new.running ≡ map (replaced object by) rows.old.running) }
{
    if holders.are_few(object) {
        return replace_listed(object, by, holders, rows);
    }
    rows.replace(object, by)
}

impl<'t, 'c, 'n, C: Classes> TypeRows<'t, 'c, 'n, C> {
    ghost use Rattle.std.specs.Prelude.{◌≡◌, ◌≢◌, ◌<◌, ◌^◌, ◌∷◌, ◌++◌, ◌⊎◌, ◌≤◌, ℕ, true, false, [], length, map, take, drop, replicate, slice_index, slice_set, IfOk, OnOk, OnErr, IsTrue, ◌↔◌, List};
    ghost use Rattle.frames.specs.VerificationType.{VerificationType, type_of};
    ghost use Rattle.frames.specs.Objects.{replaced as type_replaced};
    ghost use Rattle.method_frames.specs.ObjectLaws.{IsObjectType};
    ghost use Rattle.method_frames.specs.Objects.{is_uninitialized, replaced};
    ghost use Rattle.hierarchy.specs.Answer.{outcome_of, yes, missing};
    ghost use Rattle.frames.specs.Assignable.{type_answer};
    ghost use Rattle.frames.specs.FrameAssignable.{list_answer};
    ghost use Rattle.type_numbers.specs.Numbers.{IsGiven, IsNumber};
    ghost use Rattle.type_numbers.specs.Decoding.{type_by, types_by};
    ghost use Rattle.method_frames.specs.NumberedRows.{declared_in};
    ghost use Rattle.blocks.specs.Rows.{AreEqualBetween, IsFirstUnequal};
    ghost use Rattle.frames.specs.FrameAssignable.{both};
    ghost use Rattle.frames.specs.PackedFrames.{joined};
    ghost use Rattle.method_frames.specs.private.TypeRows.{row_answers, FitsUpTo, IsUnfit};

    /// Rows with so many places; the running one holds Top throughout.
    pub fn new(
        alloc: Global,
        types: &'t TypeNumbers<'c, 'n, C>,
        count: u16,
    ) -> Result<TypeRows<'t, 'c, 'n, C>, AllocError>
        ensures { IfOk result (λ x. x ≡ record {
          types = types.now;
          running = replicate count 0;
          declared = [];
          kept = replicate count 0;
        }) }
    {
        Ok(TypeRows {
            types,
            rows: Arena::new(alloc, count)?,
            holders: Holders::new(alloc),
            lacking: None,
        })
    }

    /// Begins anew, for another method of the same class: keeps the memory, and takes none.
    pub fn restart(&mut self, count: u16)
        ensures { self.new ≡ record {
          types = self.old.types;
          running = replicate count 0;
          declared = [];
          kept = replicate count 0;
        } }
    {
        self.lacking = None;
        self.rows.restart(count);
        self.holders.clear();
    }

    /// The numbers that types have.
    #[inline(always)]
    pub fn types(&self) -> &'t TypeNumbers<'c, 'n, C>
        ensures { result.now ≡ self.now.types }
    {
        self.types
    }

    /// The number at a place of the running row.
    #[inline(always)]
    pub fn get(&self, place: usize) -> u32
        requires { place < length self.now.running }
        ensures number { result ≡ slice_index self.now.running place }
        ensures given { IsGiven self.now.types result }
    {
        self.rows.get(place)
    }

    /// Puts a type, by its number, at a place of the running row. The only refusal is 1, where memory runs out; a
    /// number that is there already takes none.
    pub fn set(&mut self, place: usize, number: u32) -> Result<(), AllocError>
        requires place { place < length self.old.running }
        requires given { IsGiven self.old.types number }
        ensures ok { OnOk result (self.new ≡ record self.old { running = slice_set self.old.running place number }) }
        ensures err { OnErr result (self.new ≡ self.old) }
    {
        if self.rows.get(place) == number {
            return Ok(());
        }
        self.lacking = None;
        self.holders.list(number, place)?;
        self.rows.set(place, number)
    }

    /// Takes out what no row has any more, where that is very much. The only refusal is 1.
    #[inline(never)]
    fn make_room(&mut self) -> Result<(), AllocError>
        ensures { self.new ≡ self.old }
    {
        self.rows.make_room()
    }

    /// Puts a number in place of an object's, throughout the running row. The only refusal is 1, and then some of the
    /// places may hold that number already.
    pub fn replace(&mut self, object: u32, by: u32) -> Result<(), AllocError>
        requires object { is_uninitialized object ≡ true }
        requires by { is_uninitialized by ≡ false }
        requires given { IsGiven self.old.types by }
        ensures rest { self.new ≡ record self.old { running = self.new.running } }
        ensures size { length self.new.running ≡ length self.old.running }
        ensures ok { OnOk result (self.new.running ≡ map (replaced object by) self.old.running) }
        ensures each { (place : ℕ) → (slice_index self.new.running place ≡ slice_index self.old.running place)
            ⊎ ((slice_index self.old.running place ≡ object) × (slice_index self.new.running place ≡ by)) }
        ensures types { let s = self.old.types in OnOk result ((o t : VerificationType)
            → IsNumber s object o → IsNumber s by t → IsObjectType o
            → types_by s self.new.running ≡ map (type_replaced o t) (types_by s self.old.running)) }
    {
        self.make_room()?;
        self.lacking = None;
        replace_object(object, by, &self.holders, &mut self.rows)
    }

    /// The number at a place of a declared row; 0, which is that of Top, where there is no such place.
    pub fn declared(&self, row: Row, place: usize) -> u32
        requires { row < length self.now.declared }
        ensures number { result ≡ slice_index (declared_in self.now row) place }
        ensures given { IsGiven self.now.types result }
    {
        if place < self.rows.slots() {
            self.rows.get_declared(row, place)
        } else {
            0
        }
    }

    /// The types of the running row. The only refusal is 1.
    pub fn running_types(&self, alloc: Global) -> Result<Vec<VType<'n>>, AllocError>
        ensures { IfOk result (λ v. map type_of v.items ≡ types_by self.now.types self.now.running) }
    {
        let mut types = Vec::with_capacity(alloc, self.rows.slots())?;
        for place in 0..self.rows.slots() {
            types.push(self.types.vtype(self.get(place)))?;
        }
        Ok(types)
    }

    /// The types of so many first places of a declared row. The only refusal is 1.
    pub fn declared_types(
        &self,
        alloc: Global,
        row: Row,
        count: usize,
    ) -> Result<Vec<VType<'n>>, AllocError>
        requires row { row < length self.now.declared }
        requires count { count ≤ length self.now.running }
        ensures { IfOk result (λ v. map type_of v.items
            ≡ types_by self.now.types (take count (declared_in self.now row))) }
    {
        let mut types = Vec::with_capacity(alloc, count)?;
        for place in 0..count {
            types.push(self.types.vtype(self.declared(row, place)))?;
        }
        Ok(types)
    }

    /// Declares a row that holds what the running one does. The only refusal is 1.
    pub fn declare(&mut self) -> Result<Row, AllocError>
        ensures place { IfOk result (λ row. row ≡ length self.old.declared) }
        ensures ok { OnOk result (self.new
            ≡ record self.old { declared = self.old.declared ++ self.old.running ∷ [] }) }
        ensures err { OnErr result (self.new ≡ self.old) }
    {
        self.rows.declare()
    }

    /// The running row becomes a declared one. Takes no memory, and no more time for a long row.
    pub fn take(&mut self, row: Row)
        requires { row < length self.old.declared }
        ensures { self.new ≡ record self.old { running = declared_in self.old row } }
    {
        self.lacking = None;
        self.rows.take(row)
    }

    /// Keeps the running row as it is, in place of what was kept before. The only refusal is 1.
    pub fn keep(&mut self) -> Result<(), AllocError>
        ensures ok { OnOk result (self.new ≡ record self.old { kept = self.old.running }) }
        ensures err { OnErr result (self.new ≡ self.old) }
    {
        self.rows.keep()?;
        Ok(())
    }

    /// The first place from one on at which the running row differs from what was kept. Takes no time where nothing
    /// changed.
    pub fn first_changed(&self, from: usize) -> Option<usize>
        ensures first { IsFirstUnequal self.now.running self.now.kept from result }
        ensures even { length self.now.kept ≡ length self.now.running }
        ensures few { length self.now.running < 2 ^ 16 }
    {
        self.rows.first_changed(from)
    }

    /// The first place at which two declared rows differ.
    pub fn first_unequal(&self, row: Row, other: Row) -> Option<usize>
        requires row { row < length self.now.declared }
        requires other { other < length self.now.declared }
        ensures { IsFirstUnequal (declared_in self.now row) (declared_in self.now other) 0 result }
    {
        self.rows.first_unequal(row, other)
    }

    /// Whether two declared rows have the same types at the places from one up to another.
    pub fn are_equal(&self, row: Row, other: Row, from: usize, to: usize) -> bool
        requires row { row < length self.now.declared }
        requires other { other < length self.now.declared }
        ensures { IsTrue result ↔ AreEqualBetween (declared_in self.now row) (declared_in self.now other) from to }
    {
        self.rows.are_equal(row, other, from, to)
    }

    /// The answer for the types at one place of the running row and of a declared one.
    fn answer_at(&self, row: Row, place: usize) -> Answer<'n>
        requires row { row < length self.now.declared }
        requires place { place < length self.now.running }
        ensures { let s = self.now.types in outcome_of result ≡ type_answer s.classes
            (type_by s (slice_index self.now.running place))
            (type_by s (slice_index (declared_in self.now row) place)) }
    {
        let from = self.rows.get(place);
        let to = self.rows.get_declared(row, place);
        self.types.assignable(from, to)
    }

    /// How many first places two declared rows have in common.
    fn common_places(&self, row: Row, other: Row) -> usize
        requires row { row < length self.now.declared }
        requires other { other < length self.now.declared }
        ensures within { result ≤ length self.now.running }
        ensures same { (place : ℕ) → place < result
            → slice_index (declared_in self.now row) place ≡ slice_index (declared_in self.now other) place }
    {
        match self.rows.first_unequal(row, other) {
            Some(place) => place,
            None => self.rows.slots(),
        }
    }

    /// Where the comparison with a declared row begins: the first place to compare; the answer for the places in front
    /// of it; and, if that is a missing class, how many first places give it. In front of it are the places that the
    /// row has in common with the one for which a class is missing, if there is one: they give the answer of that one,
    /// or all fit.
    fn start(&self, row: Row) -> (usize, Answer<'n>, usize)
        requires row { row < length self.now.declared }
        ensures within { result.0 ≤ length self.now.running }
        ensures so_far { let os = row_answers self.now.types self.now.running (declared_in self.now row) in
            joined os ≡ both (outcome_of result.1) (joined (drop result.0 os)) }
        ensures end { outcome_of result.1 ≢ yes
            → IsUnfit self.now.types self.now.running (declared_in self.now row) result.2 }
        ensures fit { outcome_of result.1 ≡ yes
            → FitsUpTo self.now.types self.now.running (declared_in self.now row) result.0 }
    {
        if let Some(lacking) = &self.lacking {
            let count = self.common_places(lacking.row, row);
            if lacking.end <= count {
                return (count, Answer::Missing(lacking.name), lacking.end);
            }
            return (count, Answer::Yes, 0);
        }
        (0, Answer::Yes, 0)
    }

    /// The answer for the places that are not known to fit, the first ones first; and, if a class is missing, how many
    /// first places tell it.
    fn answer_anew(&self, row: Row) -> (Answer<'n>, usize)
        requires row { row < length self.now.declared }
        ensures told { let s = self.now.types in outcome_of result.0 ≡ list_answer (type_answer s.classes)
            (types_by s self.now.running) (types_by s (declared_in self.now row)) }
        ensures end { (name : List ℕ) → outcome_of result.0 ≡ missing name
            → IsUnfit self.now.types self.now.running (declared_in self.now row) result.1 }
    {
        let (mut from, mut so_far, mut end) = self.start(row);
        while let Some(place) = self.rows.first_undecided(row, from) {
            let answer = self.answer_at(row, place);
            from = place + 1;
            if let Answer::No = answer {
                return (Answer::No, from);
            }
            let with = both(so_far, answer);
            if let Answer::Yes = so_far {
                end = from;
            }
            so_far = with;
        }
        (so_far, end)
    }

    /// Does the replacements that are pending in the running row, so that it is compared without them. Without memory
    /// for that, a comparison takes each place.
    #[inline(always)]
    fn settle(&mut self)
        ensures { self.new ≡ self.old }
    {
        let _settled = self.rows.settle();
    }

    /// Whether the types of the running row may stand where those of a declared one are wanted (JVMS 4.10.1.4): no
    /// before missing, and then the first class that is missing. Takes no memory.
    pub fn answer(&mut self, row: Row) -> Answer<'n>
        requires row { row < length self.old.declared }
        ensures same { self.new ≡ self.old }
        ensures told { let s = self.old.types in outcome_of result ≡ list_answer (type_answer s.classes)
            (types_by s self.old.running) (types_by s (declared_in self.old row)) }
    {
        self.settle();
        let (answer, end) = self.answer_anew(row);
        match answer {
            Answer::Yes => {
                if self.rows.slots() > ONE_BLOCK {
                    self.rows.note_fit(row);
                }
            }
            Answer::No => {}
            Answer::Missing(name) => self.lacking = Some(Lacking { row, end, name }),
        }
        answer
    }
}
