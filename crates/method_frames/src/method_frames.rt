//! The running frame of a method, and its declared frames.
ghost use Rattle.std.specs.Prelude.{◌≡◌, ◌+◌, ◌<◌, ◌^◌, ℕ, length, slice_index, OnOk};

use crate::entry_buffers::EntryBuffers;
use crate::objects::{OWN_OBJECT, made_object};
use crate::stack_rows::StackRows;
use crate::type_rows::TypeRows;
use blocks::Row;
use frames::{Frame, both};
use hierarchy::{Answer, Classes};
use insn::StackForm;
use std::alloc::{AllocError, Global};
use std::marker::Model;
use std::mem;
use type_numbers::TypeNumbers;

/// The room at first, in declared frames.
const FIRST_FRAMES: usize = 16;

/// The room at first in the table of places, in offsets.
const FIRST_PLACES: usize = 120;

/// A declared frame: its offset, and where its parts are.
#[derive(Clone, Copy)]
struct Declared {
    offset: u16,
    locals: Row,
    stack: usize,
    flag: bool,
}

/// The frames of one method (JVMS 4.10.1.4), their types by numbers: the running frame, which instructions change, and
/// the declared frames, which stay.
///
/// A declared frame is found by its offset, and known from then on by its place, in the order in which frames were
/// declared. A comparison of the running frame with it takes time for what changed since the two were compared before.
/// Where memory runs out, which is the only refusal, 1, all frames stay as they were, but for four calls:
/// [`rearrange`](MethodFrames::rearrange) leaves the running frame without its stack, [`forget`](MethodFrames::forget)
/// says nothing of its locals but how many they are, and [`take`](MethodFrames::take) and
/// [`initialize`](MethodFrames::initialize) say nothing of it but how many locals it has.
///
/// To find or replace an object that is not initialized takes time for the places that came to hold it, and not for the
/// length of a frame.
#[derive(Drop)]
pub struct MethodFrames<'t, 'c, 'n, C: Classes> {
    locals: TypeRows<'t, 'c, 'n, C>,
    max_locals: u16,
    stacks: StackRows<'t, 'c, 'n, C>,
    flag: bool,
    declared: Vec<Declared>,
    /// By offsets, the place of the declared frame, counted from 1; 0 where there is none.
    places: Vec<usize>,
    memory: EntryBuffers,
}

impl<'t, 'c, 'n, C: Classes> Model for MethodFrames<'t, 'c, 'n, C> {
    ghost use Rattle.method_frames.specs.NumberedFrames.{NumberedFrames};
    ghost use Rattle.method_frames.specs.private.Frames.{frames_of, AreFrames};

    ghost Value = { NumberedFrames };

    ghost view = { λ x. frames_of x.locals x.stacks x.flag x.declared.items };

    ghost invariant = { λ x. AreFrames x.locals x.stacks x.max_locals x.declared.items x.places.items };
}

/// Makes room for an offset.
fn reach(offset: u16, places: &mut Vec<usize>) -> Result<(), AllocError>
    ensures same { (at : ℕ) → slice_index places.new.items at ≡ slice_index places.old.items at }
    ensures room { OnOk result (offset < length places.new.items) }
{
    let offset = usize::from(offset);
    if places.len() <= offset {
        places.resize(offset + 1, 0)?;
    }
    Ok(())
}

/// The entry of a table for an offset; 0 beyond its end.
fn place_at(offset: usize, places: &[usize]) -> usize
    ensures { result ≡ slice_index places.now offset }
{
    places.get(offset).copied().unwrap_or(0)
}

impl<'t, 'c, 'n, C: Classes> MethodFrames<'t, 'c, 'n, C> {
    ghost use Rattle.std.specs.Prelude.{◌↔◌, ◌≤◌, [], ◌∷◌, ◌++◌, true, false, None, Some, IsTrue, map, replicate, slice_set, slice_get, IfOk, IfSome, IsSomeAnd, MatchOption, OnErr};
    ghost use Rattle.hierarchy.specs.Answer.{outcome_of, yes};
    ghost use Rattle.insn.specs.Offsets.{at_offset};
    ghost use Rattle.insn.specs.OperandStacks.{rearranged};
    ghost use Rattle.insn.specs.Views.{stack_form_view};
    ghost use Rattle.frames.specs.Slots.{units_of};
    ghost use Rattle.frames.specs.Assignable.{type_answer};
    ghost use Rattle.frames.specs.FrameAssignable.{frame_answer};
    ghost use Rattle.frames.specs.FrameFact.{frame_of};
    ghost use Rattle.frames.specs.VerificationType.{VerificationType, top, uninit};
    ghost use Rattle.frames.specs.Objects.{replaced as type_replaced};
    ghost use Rattle.frames.specs.Objects.{has_object};
    ghost use Rattle.type_numbers.specs.Numbers.{IsGiven, IsNumber};
    ghost use Rattle.method_frames.specs.ObjectLaws.{IsObjectType, ObjectBecomes};
    ghost use Rattle.type_numbers.specs.Decoding.{type_by, types_by};
    ghost use Rattle.method_frames.specs.Objects.{is_uninitialized, made_object, holds, replaced, initialized, IsClassNumber};
    ghost use Rattle.method_frames.specs.NumberedFrames.{frame_by, declared_frame};
    ghost use Rattle.blocks.specs.Rows.{AreEqualBetween, IsFirstUnequal};

    /// The running frame has so many locals, all of them top, and nothing on its stack. No frame is declared yet, and
    /// none will have more than so many items on its stack.
    pub fn new(
        alloc: Global,
        types: &'t TypeNumbers<'c, 'n, C>,
        max_locals: u16,
        max_stack: u16,
        flag: bool,
    ) -> Result<MethodFrames<'t, 'c, 'n, C>, AllocError>
        ensures { IfOk result (λ x. x ≡ record {
          types = types.now;
          limit = max_stack;
          running = record { locals = replicate max_locals 0; stack = []; flag = flag };
          declared = [];
          kept = replicate max_locals 0;
        }) }
    {
        Ok(MethodFrames {
            locals: TypeRows::new(alloc, types, max_locals)?,
            max_locals,
            stacks: StackRows::new(alloc, types, max_stack)?,
            flag,
            declared: Vec::with_capacity(alloc, FIRST_FRAMES)?,
            places: Vec::with_capacity(alloc, FIRST_PLACES)?,
            memory: EntryBuffers::new(alloc),
        })
    }

    /// Begins anew, for another method of the same class, as [`new`](MethodFrames::new) does, but in the memory that
    /// there is. It takes time for what was used of that memory.
    pub fn restart(&mut self, max_locals: u16, max_stack: u16, flag: bool)
        ensures { self.new ≡ record {
          types = self.old.types;
          limit = max_stack;
          running = record { locals = replicate max_locals 0; stack = []; flag = flag };
          declared = [];
          kept = replicate max_locals 0;
        } }
    {
        self.locals.restart(max_locals);
        self.max_locals = max_locals;
        self.stacks.restart(max_stack);
        self.flag = flag;
        self.declared.clear();
        self.places.clear();
    }

    /// Lends the memory in which the entries of a stack map are gone through.
    pub(crate) fn lend(&mut self, alloc: Global) -> EntryBuffers
        ensures { self.new ≡ self.old }
    {
        mem::replace(&mut self.memory, EntryBuffers::new(alloc))
    }

    /// Takes the memory back that was lent.
    pub(crate) fn take_back(&mut self, memory: EntryBuffers)
        ensures { self.new ≡ self.old }
    {
        self.memory = memory;
    }

    /// The numbers that types have.
    #[inline(always)]
    pub fn types(&self) -> &'t TypeNumbers<'c, 'n, C>
        ensures { result.now ≡ self.now.types }
    {
        self.locals.types()
    }

    /// How many local variables the frames have.
    #[inline(always)]
    pub fn max_locals(&self) -> u16
        ensures { result ≡ length self.now.running.locals }
    {
        self.max_locals
    }

    /// The number of a local variable of the running frame; 0, which is that of top, where there is no such local.
    #[inline(always)]
    pub fn local(&self, place: usize) -> u32
        ensures number { result ≡ slice_index self.now.running.locals place }
        ensures given { IsGiven self.now.types result }
    {
        if place < usize::from(self.max_locals) {
            self.locals.get(place)
        } else {
            0
        }
    }

    /// Gives a local variable of the running frame a type, and no other one: a long or double that is stored changes
    /// its neighbours by calls of their own. A type that is there already takes no memory.
    pub fn set_local(&mut self, place: usize, number: u32) -> Result<(), AllocError>
        requires place { place < length self.old.running.locals }
        requires given { IsGiven self.old.types number }
        ensures ok { OnOk result (self.new ≡ record self.old {
          running = record self.old.running {
            locals = slice_set self.old.running.locals place number;
          };
        }) }
        ensures err { OnErr result (self.new ≡ self.old) }
    {
        self.locals.set(place, number)
    }

    /// Whether the own object is uninitialized in the running frame.
    pub fn flag(&self) -> bool
        ensures { result ≡ self.now.running.flag }
    {
        self.flag
    }

    /// Says whether the own object is uninitialized in the running frame.
    pub fn set_flag(&mut self, flag: bool)
        ensures { self.new ≡ record self.old { running = record self.old.running { flag = flag } } }
    {
        self.flag = flag;
    }

    /// How many items are on the stack of the running frame.
    #[inline(always)]
    pub fn depth(&self) -> usize
        ensures { result ≡ length self.now.running.stack }
    {
        self.stacks.depth()
    }

    /// Whether the stack of the running frame has at least so many units.
    #[inline(always)]
    pub fn has_units(&self, count: usize) -> bool
        ensures { IsTrue result ↔ (count ≤ units_of (types_by self.now.types self.now.running.stack)) }
    {
        self.stacks.has_units(count)
    }

    /// Pushes a type.
    #[inline(always)]
    pub fn push(&mut self, number: u32) -> Result<(), AllocError>
        requires { IsGiven self.old.types number }
        ensures ok { OnOk result (self.new ≡ record self.old {
          running = record self.old.running {
            stack = number ∷ self.old.running.stack;
          };
        }) }
        ensures err { OnErr result (self.new ≡ self.old) }
    {
        self.stacks.push(number)
    }

    /// Takes the top of the stack off.
    #[inline(always)]
    pub fn pop(&mut self) -> Option<u32>
        ensures taken { MatchOption result ((self.old.running.stack ≡ []) × (self.new ≡ self.old))
            (λ number. self.old ≡ record self.new {
              running = record self.new.running {
                stack = number ∷ self.new.running.stack;
              };
            }) }
        ensures given { IfSome result (IsGiven self.old.types) }
    {
        self.stacks.pop()
    }

    /// The number of the item of the stack that so many stand above.
    #[inline(always)]
    pub fn item(&self, above: usize) -> Option<u32>
        ensures item { result ≡ slice_get self.now.running.stack above }
        ensures given { IfSome result (IsGiven self.now.types) }
    {
        self.stacks.item(above)
    }

    /// Takes the items of a form off the stack, and pushes what it leaves (JVMS 2.11.6). Nothing is left on the stack
    /// where memory runs out.
    pub fn rearrange(&mut self, form: StackForm) -> Result<(), AllocError>
        requires { length form.takes.now ≤ length self.old.running.stack }
        ensures ok { OnOk result (self.new ≡ record self.old {
          running = record self.old.running {
            stack = rearranged (stack_form_view form) self.old.running.stack;
          };
        }) }
        ensures err { OnErr result (self.new
            ≡ record self.old { running = record self.old.running { stack = [] } }) }
    {
        self.stacks.rearrange(form)
    }

    /// Takes all items off the stack.
    pub fn clear_stack(&mut self)
        ensures { self.new ≡ record self.old { running = record self.old.running { stack = [] } } }
    {
        self.stacks.clear();
    }

    /// Whether the object that the `new` at this offset made is on the stack of the running frame.
    pub fn has_made(&self, at: u16) -> bool
        ensures number { result ≡ holds (made_object at) self.now.running.stack }
        ensures types { result ≡ has_object (uninit at) (types_by self.now.types self.now.running.stack) }
    {
        self.stacks.has(made_object(at))
    }

    /// Forgets the object that the `new` at this offset made: the locals of the running frame that hold it become top
    /// (JVMS 4.10.1.9, new).
    pub fn forget(&mut self, at: u16) -> Result<(), AllocError>
        ensures rest { self.new ≡ record self.old {
          running = record self.old.running {
            locals = self.new.running.locals;
          };
        } }
        ensures size { length self.new.running.locals ≡ length self.old.running.locals }
        ensures ok { OnOk result (self.new.running.locals
            ≡ map (replaced (made_object at) 0) self.old.running.locals) }
        ensures types { let s = self.old.types in OnOk result (types_by s self.new.running.locals
            ≡ map (type_replaced (uninit at) top) (types_by s self.old.running.locals)) }
    {
        self.locals.replace(made_object(at), 0)
    }

    /// Makes an object that was not initialized one of a class, by the number of that, wherever it stands in the
    /// running frame; the own object is uninitialized no more (JVMS 4.10.1.9, invokespecial).
    pub fn initialize(&mut self, object: u32, class: u32) -> Result<(), AllocError>
        requires object { is_uninitialized object ≡ true }
        requires class { IsClassNumber self.old.types class }
        ensures rest { self.new ≡ record self.old { running = self.new.running } }
        ensures size { length self.new.running.locals ≡ length self.old.running.locals }
        ensures ok { OnOk result (self.new.running ≡ initialized object class self.old.running) }
        ensures types { let s = self.old.types in OnOk result ((o t : VerificationType)
            → IsNumber s object o → IsNumber s class t → IsObjectType o
            → ObjectBecomes o t (frame_by s self.old.running) (frame_by s self.new.running)) }
    {
        self.locals.replace(object, class)?;
        self.stacks.replace(object, class)?;
        if object == OWN_OBJECT {
            self.flag = false;
        }
        Ok(())
    }

    /// Declares a frame at an offset in bytes: the running one, as it is now. Tells its place.
    pub fn declare(&mut self, offset: u16) -> Result<usize, AllocError>
        requires stack { length self.old.running.stack ≤ self.old.limit }
        requires other { at_offset self.old.declared offset ≡ None }
        ensures place { IfOk result (λ frame. frame ≡ length self.old.declared) }
        ensures ok { OnOk result (self.new
            ≡ record self.old { declared = self.old.declared ++ (offset, self.old.running) ∷ [] }) }
        ensures err { OnErr result (self.new ≡ self.old) }
    {
        reach(offset, &mut self.places)?;
        let declared = Declared {
            offset,
            locals: self.locals.declare()?,
            stack: self.stacks.declare()?,
            flag: self.flag,
        };
        let frame = self.declared.len();
        self.declared.push(declared)?;
        self.places[usize::from(offset)] = frame + 1;
        Ok(frame)
    }

    /// How many frames are declared.
    pub fn count(&self) -> usize
        ensures { result ≡ length self.now.declared }
    {
        self.declared.len()
    }

    /// The place of the frame that is declared at an offset in bytes. Takes no memory.
    pub fn find(&self, offset: usize) -> Option<usize>
        ensures { MatchOption result (at_offset self.now.declared offset ≡ None)
            (λ frame. IsSomeAnd (slice_get self.now.declared frame)
            (λ x. (x.0 ≡ offset) × (at_offset self.now.declared offset ≡ Some x.1))) }
    {
        let place = place_at(offset, &self.places);
        if place == 0 {
            return None;
        }
        Some(place - 1)
    }

    /// The running frame, by its types.
    pub fn frame(&self, alloc: Global) -> Result<Frame<'n>, AllocError>
        ensures { IfOk result (λ f. frame_of f ≡ frame_by self.now.types self.now.running) }
    {
        Ok(Frame {
            locals: self.locals.running_types(alloc)?,
            stack: self.stacks.running_types(alloc)?,
            flag: self.flag,
        })
    }

    /// The declared frame of a place, by its types.
    pub fn declared_frame(&self, alloc: Global, frame: usize) -> Result<Frame<'n>, AllocError>
        requires { frame < length self.now.declared }
        ensures { IfOk result (λ f. frame_of f ≡ frame_by self.now.types (declared_frame self.now frame)) }
    {
        let declared = self.declared[frame];
        let count = usize::from(self.max_locals);
        Ok(Frame {
            locals: self.locals.declared_types(alloc, declared.locals, count)?,
            stack: self.stacks.declared_types(alloc, declared.stack)?,
            flag: declared.flag,
        })
    }

    /// The running frame becomes a declared one: its locals at once, its stack item by item.
    pub fn take(&mut self, frame: usize) -> Result<(), AllocError>
        requires { frame < length self.old.declared }
        ensures rest { self.new ≡ record self.old { running = self.new.running } }
        ensures size { length self.new.running.locals ≡ length self.old.running.locals }
        ensures ok { OnOk result (self.new.running ≡ declared_frame self.old frame) }
    {
        let declared = self.declared[frame];
        self.locals.take(declared.locals);
        self.flag = declared.flag;
        self.stacks.take(declared.stack)
    }

    /// Whether the running frame may stand where a declared one is wanted (JVMS 4.10.1.4): no before missing, and then
    /// the first class that is missing, of the locals from 0 up, then of the stack from the bottom up.
    pub fn answer(&mut self, frame: usize) -> Result<Answer<'n>, AllocError>
        requires { frame < length self.old.declared }
        ensures same { self.new ≡ self.old }
        ensures told { IfOk result (λ answer. outcome_of answer
            ≡ frame_answer self.old.types.classes (frame_by self.old.types self.old.running)
            (frame_by self.old.types (declared_frame self.old frame))) }
        ensures even { length (declared_frame self.old frame).locals ≡ length self.old.running.locals }
    {
        let declared = self.declared[frame];
        if self.flag && !declared.flag {
            return Ok(Answer::No);
        }
        let locals = self.locals.answer(declared.locals);
        let stack = self.stacks.answer(declared.stack)?;
        Ok(both(locals, stack))
    }

    /// Whether the running frame with a type alone on its stack, in place of all items, may stand where a declared one
    /// is wanted: so an exception of this type is caught by the handler of which that is the frame (JVMS 4.10.1.6).
    /// Takes no memory.
    pub fn answer_caught(&mut self, frame: usize, caught: u32) -> Answer<'n>
        requires frame { frame < length self.old.declared }
        requires given { IsGiven self.old.types caught }
        ensures same { self.new ≡ self.old }
        ensures told { outcome_of result ≡ frame_answer self.old.types.classes
            (frame_by self.old.types (record self.old.running { stack = caught ∷ [] }))
            (frame_by self.old.types (declared_frame self.old frame)) }
        ensures even { length (declared_frame self.old frame).locals ≡ length self.old.running.locals }
    {
        let declared = self.declared[frame];
        if self.flag && !declared.flag {
            return Answer::No;
        }
        let stack = self.stacks.answer_alone(declared.stack, caught);
        if let Answer::No = stack {
            return Answer::No;
        }
        let locals = self.locals.answer(declared.locals);
        both(locals, stack)
    }

    /// Keeps the locals of the running frame as they are, in place of what was kept before. The only refusal is 1, where
    /// memory runs out.
    pub fn keep_locals(&mut self) -> Result<(), AllocError>
        ensures ok { OnOk result (self.new ≡ record self.old { kept = self.old.running.locals }) }
        ensures err { OnErr result (self.new ≡ self.old) }
    {
        self.locals.keep()?;
        Ok(())
    }

    /// The first local variable from one on whose type is not the one that was kept. Takes no time where nothing
    /// changed.
    pub fn first_changed(&self, from: usize) -> Option<usize>
        ensures first { IsFirstUnequal self.now.running.locals self.now.kept from result }
        ensures even { length self.now.kept ≡ length self.now.running.locals }
        ensures few { length self.now.running.locals < 2 ^ 16 }
    {
        self.locals.first_changed(from)
    }

    /// The first local variable whose type differs between two declared frames.
    pub fn first_unequal(&self, frame: usize, other: usize) -> Option<usize>
        requires frame { frame < length self.now.declared }
        requires other { other < length self.now.declared }
        ensures first { IsFirstUnequal (declared_frame self.now frame).locals (declared_frame self.now other).locals 0
            result }
        ensures even { length (declared_frame self.now frame).locals ≡ length self.now.running.locals }
    {
        let row = self.declared[frame].locals;
        let beside = self.declared[other].locals;
        self.locals.first_unequal(row, beside)
    }

    /// Whether two declared frames have the same types in the local variables from one up to another.
    pub fn share_locals(&self, frame: usize, other: usize, from: usize, to: usize) -> bool
        requires frame { frame < length self.now.declared }
        requires other { other < length self.now.declared }
        ensures { IsTrue result ↔ AreEqualBetween (declared_frame self.now frame).locals
            (declared_frame self.now other).locals from to }
    {
        let row = self.declared[frame].locals;
        let beside = self.declared[other].locals;
        self.locals.are_equal(row, beside, from, to)
    }

    /// The number of a local variable of a declared frame; 0, which is that of top, where there is no such local.
    pub fn declared_local(&self, frame: usize, place: usize) -> u32
        requires { frame < length self.now.declared }
        ensures number { result ≡ slice_index (declared_frame self.now frame).locals place }
        ensures given { IsGiven self.now.types result }
    {
        let declared = self.declared[frame];
        self.locals.declared(declared.locals, place)
    }

    /// The answer for a type where that of a local variable of a declared frame is wanted.
    fn local_answer(&self, frame: usize, place: usize, number: u32) -> Answer<'n>
        requires frame { frame < length self.now.declared }
        requires given { IsGiven self.now.types number }
        ensures { let s = self.now.types in outcome_of result ≡ type_answer s.classes (type_by s number)
            (type_by s (slice_index (declared_frame self.now frame).locals place)) }
    {
        let wanted = self.declared_local(frame, place);
        self.types().assignable(number, wanted)
    }

    /// Whether each local variable of the running frame may stand for that of a declared one. Takes no memory, and no
    /// more time than to compare what changed since the two were compared before.
    pub fn takes_locals(&mut self, frame: usize) -> bool
        requires frame { frame < length self.old.declared }
        ensures same { self.new ≡ self.old }
        ensures taken { let x = self.old in IsTrue result → (place : ℕ) → place < length x.running.locals
            → type_answer x.types.classes (type_by x.types (slice_index x.running.locals place))
            (type_by x.types (slice_index (declared_frame x frame).locals place)) ≡ yes }
    {
        let declared = self.declared[frame];
        matches!(self.locals.answer(declared.locals), Answer::Yes)
    }

    /// Whether a type may stand for a local variable of a declared frame; each may where there is no such local. Takes
    /// no memory.
    pub fn takes(&self, frame: usize, place: usize, number: u32) -> bool
        requires frame { frame < length self.now.declared }
        requires given { IsGiven self.now.types number }
        ensures { let s = self.now.types in IsTrue result ↔ (type_answer s.classes (type_by s number)
            (type_by s (slice_index (declared_frame self.now frame).locals place)) ≡ yes) }
    {
        matches!(self.local_answer(frame, place, number), Answer::Yes)
    }
}
