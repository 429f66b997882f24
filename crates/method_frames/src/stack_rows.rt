//! Operand stacks: of the running frame of a method, and of its declared frames.
ghost use Rattle.std.specs.Prelude.{◌≡◌, ◌≤◌, length, take, reverse, OnOk};
ghost use Rattle.method_frames.specs.private.KnownRows.{AreGiven};
ghost use Rattle.method_frames.specs.private.Stacks.{Changes, Holds};

use crate::items::Items;
use crate::type_rows::TypeRows;
use crate::widths::extra;
use blocks::Row;
use frames::VType;
use hierarchy::{Answer, Classes};
use insn::StackForm;
use std::alloc::{AllocError, Global};
use std::marker::Model;
use type_numbers::TypeNumbers;

/// How high a declared stack is, and the row that holds its items.
#[derive(Clone, Copy)]
struct Height {
    row: Row,
    /// How many items it has.
    depth: usize,
    /// How many of them are a long or a double.
    wides: usize,
}

/// The operand stacks of one method (JVMS 2.6.2), their items by the numbers of their types: that of the running frame,
/// and those of its declared frames.
///
/// The running stack is a row of its own, which instructions change at its top. It is written to a [`TypeRows`] only
/// where it is compared or declared, and then only from the least depth on that it had since it was last written: so a
/// comparison takes time for what changed and not for the depth of a stack.
#[derive(Drop)]
pub struct StackRows<'t, 'c, 'n, C: Classes> {
    items: Items,
    rows: TypeRows<'t, 'c, 'n, C>,
    /// The running row holds the items in front of this place.
    written: usize,
    /// The running row holds Top from this place on.
    high: usize,
    declared: Vec<Height>,
}

impl<'t, 'c, 'n, C: Classes> Model for StackRows<'t, 'c, 'n, C> {
    ghost use Rattle.method_frames.specs.NumberedStacks.{NumberedStacks};
    ghost use Rattle.method_frames.specs.private.Stacks.{stacks_of, AreStacks};

    ghost Value = { NumberedStacks };

    ghost view = { λ x. stacks_of x.items x.rows x.declared.items };

    ghost invariant = { λ x. AreStacks x.items x.rows x.written x.high x.declared.items };
}

/// Writes items, and Top above them, to the places of the running row from one on and in front of another one.
fn write<C: Classes>(
    items: &Items,
    from: usize,
    to: usize,
    rows: &mut TypeRows<'_, '_, '_, C>,
) -> Result<(), AllocError>
    requires places { to ≤ length rows.old.running }
    requires given { AreGiven rows.old.types items.now }
    ensures only { Changes from to rows.old rows.new }
    ensures held { OnOk result (Holds items.now from to rows.new) }
{
    for place in from..to {
        rows.set(place, items.get(place))?;
    }
    Ok(())
}

/// Takes the first places of the running row as items.
fn read<C: Classes>(
    rows: &TypeRows<'_, '_, '_, C>,
    depth: usize,
    items: &mut Items,
) -> Result<(), AllocError>
    requires { depth ≤ length rows.now.running }
    ensures given { AreGiven rows.now.types items.new }
    ensures all { OnOk result (items.new ≡ reverse (take depth rows.now.running)) }
{
    items.clear();
    for place in 0..depth {
        items.push(rows.get(place))?;
    }
    Ok(())
}

impl<'t, 'c, 'n, C: Classes> StackRows<'t, 'c, 'n, C> {
    ghost use Rattle.std.specs.Prelude.{◌≡◌, ◌↔◌, ◌<◌, ◌≤◌, [], ◌∷◌, ◌++◌, true, false, length, map, slice_index, slice_get, IsTrue, IfOk, IfSome, MatchOption, OnOk, OnErr};
    ghost use Rattle.hierarchy.specs.Answer.{outcome_of};
    ghost use Rattle.insn.specs.OperandStacks.{rearranged};
    ghost use Rattle.insn.specs.Views.{stack_form_view};
    ghost use Rattle.frames.specs.Slots.{is_wide, units_of};
    ghost use Rattle.frames.specs.FrameAssignable.{item_answer, stack_answer};
    ghost use Rattle.frames.specs.VerificationType.{VerificationType, type_of};
    ghost use Rattle.frames.specs.Objects.{replaced as type_replaced};
    ghost use Rattle.frames.specs.Objects.{has_object};
    ghost use Rattle.type_numbers.specs.Numbers.{Numbering, IsGiven, IsNumber};
    ghost use Rattle.method_frames.specs.ObjectLaws.{IsObjectType};
    ghost use Rattle.type_numbers.specs.Decoding.{type_by, types_by};
    ghost use Rattle.method_frames.specs.NumberedStacks.{declared_stack};
    ghost use Rattle.method_frames.specs.Objects.{is_uninitialized, replaced, holds};

    /// Stacks of which none that is declared has more items than this; the running one has none.
    pub fn new(
        alloc: Global,
        types: &'t TypeNumbers<'c, 'n, C>,
        limit: u16,
    ) -> Result<StackRows<'t, 'c, 'n, C>, AllocError>
        ensures { IfOk result (λ x. x ≡ record { types = types.now; limit = limit; running = []; declared = [] }) }
    {
        Ok(StackRows {
            items: Items::new(alloc),
            rows: TypeRows::new(alloc, types, limit)?,
            written: 0,
            high: 0,
            declared: Vec::new(alloc),
        })
    }

    /// Begins anew, for another method of the same class: keeps the memory, and takes none.
    pub fn restart(&mut self, limit: u16)
        ensures { self.new ≡ record { types = self.old.types; limit = limit; running = []; declared = [] } }
    {
        self.items.clear();
        self.rows.restart(limit);
        self.written = 0;
        self.high = 0;
        self.declared.clear();
    }

    /// How many items the running stack has.
    #[inline(always)]
    pub fn depth(&self) -> usize
        ensures { result ≡ length self.now.running }
    {
        self.items.count()
    }

    /// Whether the running stack has at least so many units, of which a long or a double takes two.
    #[inline(always)]
    pub fn has_units(&self, count: usize) -> bool
        ensures { IsTrue result ↔ (count ≤ units_of (types_by self.now.types self.now.running)) }
    {
        self.items.has_units(count)
    }

    /// Pushes a type, by its number. The only refusal is 1, where memory runs out.
    #[inline(always)]
    pub fn push(&mut self, number: u32) -> Result<(), AllocError>
        requires { IsGiven self.old.types number }
        ensures ok { OnOk result (self.new ≡ record self.old { running = number ∷ self.old.running }) }
        ensures err { OnErr result (self.new ≡ self.old) }
    {
        self.items.push(number)
    }

    /// Takes the top off.
    #[inline(always)]
    pub fn pop(&mut self) -> Option<u32>
        ensures taken { MatchOption result ((self.old.running ≡ []) × (self.new ≡ self.old))
            (λ number. self.old ≡ record self.new { running = number ∷ self.new.running }) }
        ensures given { IfSome result (IsGiven self.old.types) }
    {
        let number = self.items.pop()?;
        self.written = self.written.min(self.items.count());
        Some(number)
    }

    /// The number of the item that so many stand above.
    #[inline(always)]
    pub fn item(&self, above: usize) -> Option<u32>
        ensures item { result ≡ slice_get self.now.running above }
        ensures given { IfSome result (IsGiven self.now.types) }
    {
        self.items.item(above)
    }

    /// Takes the items of a form off, and pushes what it leaves (JVMS 2.11.6). The only refusal is 1, and nothing is
    /// left on the stack then.
    pub fn rearrange(&mut self, form: StackForm) -> Result<(), AllocError>
        requires { length form.takes.now ≤ length self.old.running }
        ensures ok { OnOk result (self.new
            ≡ record self.old { running = rearranged (stack_form_view form) self.old.running }) }
        ensures err { OnErr result (self.new ≡ record self.old { running = [] }) }
    {
        self.written = self.written.min(self.items.count() - form.takes.len());
        if let Err(error) = self.items.rearrange(form) {
            self.written = 0;
            return Err(error);
        }
        Ok(())
    }

    /// Whether an object that is not initialized is on the running stack.
    pub fn has(&self, object: u32) -> bool
        requires { is_uninitialized object ≡ true }
        ensures number { result ≡ holds object self.now.running }
        ensures types { let s = self.now.types in (o : VerificationType) → IsNumber s object o → IsObjectType o
            → result ≡ has_object o (types_by s self.now.running) }
    {
        self.items.has(object)
    }

    /// Puts the number of a type that takes one unit in place of an object's, throughout the running stack. The only
    /// refusal is 1, and the stack stays as it was then.
    pub fn replace(&mut self, object: u32, by: u32) -> Result<(), AllocError>
        requires object { is_uninitialized object ≡ true }
        requires none { is_uninitialized by ≡ false }
        requires narrow { (s : Numbering) → is_wide (type_by s by) ≡ false }
        requires given { IsGiven self.old.types by }
        ensures ok { OnOk result (self.new
            ≡ record self.old { running = map (replaced object by) self.old.running }) }
        ensures types { let s = self.old.types in OnOk result ((o t : VerificationType)
            → IsNumber s object o → IsNumber s by t → IsObjectType o
            → types_by s self.new.running ≡ map (type_replaced o t) (types_by s self.old.running)) }
        ensures err { OnErr result (self.new ≡ self.old) }
    {
        let written = self.written;
        self.written = 0;
        self.rows.replace(object, by)?;
        self.items.replace(object, by);
        self.written = written;
        Ok(())
    }

    /// Takes all items off.
    pub fn clear(&mut self)
        ensures { self.new ≡ record self.old { running = [] } }
    {
        self.items.clear();
        self.written = 0;
    }

    /// The types of the running stack, from the bottom up. The only refusal is 1.
    pub fn running_types(&self, alloc: Global) -> Result<Vec<VType<'n>>, AllocError>
        ensures { IfOk result (λ v. reverse (map type_of v.items) ≡ types_by self.now.types self.now.running) }
    {
        let depth = self.items.count();
        let mut types = Vec::with_capacity(alloc, depth)?;
        for place in 0..depth {
            types.push(self.rows.types().vtype(self.items.get(place)))?;
        }
        Ok(types)
    }

    /// The types of a declared stack, from the bottom up. The only refusal is 1.
    pub fn declared_types(&self, alloc: Global, stack: usize) -> Result<Vec<VType<'n>>, AllocError>
        requires { stack < length self.now.declared }
        ensures { IfOk result (λ v. reverse (map type_of v.items)
            ≡ types_by self.now.types (declared_stack self.now stack)) }
    {
        let height = self.declared[stack];
        self.rows.declared_types(alloc, height.row, height.depth)
    }

    /// Declares a stack that holds what the running one does, and tells its place. The only refusal is 1.
    pub fn declare(&mut self) -> Result<usize, AllocError>
        requires { length self.old.running ≤ self.old.limit }
        ensures place { IfOk result (λ stack. stack ≡ length self.old.declared) }
        ensures ok { OnOk result (self.new
            ≡ record self.old { declared = self.old.declared ++ self.old.running ∷ [] }) }
        ensures err { OnErr result (self.new ≡ self.old) }
    {
        let depth = self.items.count();
        self.high = self.high.max(depth);
        write(&self.items, self.written, self.high, &mut self.rows)?;
        self.written = depth;
        self.high = depth;
        let height = Height {
            row: self.rows.declare()?,
            depth,
            wides: self.items.wides(),
        };
        let stack = self.declared.len();
        self.declared.push(height)?;
        Ok(stack)
    }

    /// The running stack becomes a declared one, item by item. The only refusal is 1, and nothing is said of the
    /// running stack then.
    pub fn take(&mut self, stack: usize) -> Result<(), AllocError>
        requires { stack < length self.old.declared }
        ensures rest { self.new ≡ record self.old { running = self.new.running } }
        ensures ok { OnOk result (self.new.running ≡ declared_stack self.old stack) }
    {
        let height = self.declared[stack];
        self.rows.take(height.row);
        self.high = height.depth;
        self.written = 0;
        read(&self.rows, height.depth, &mut self.items)?;
        self.written = height.depth;
        Ok(())
    }

    /// Whether the items of the running stack may stand where those of a declared one are wanted (JVMS 4.10.1.4): no
    /// before missing, and then the first class that is missing, from the bottom up. The only refusal is 1.
    ///
    /// Where two stacks have as many items and as many units, it is enough to compare their types: no narrow type is
    /// assignable to a long or a double, and a long or double that stood for Top would leave fewer units.
    pub fn answer(&mut self, stack: usize) -> Result<Answer<'n>, AllocError>
        requires { stack < length self.old.declared }
        ensures same { self.new ≡ self.old }
        ensures told { IfOk result (λ answer. let s = self.old.types in outcome_of answer
            ≡ stack_answer (item_answer s.classes) (types_by s self.old.running)
            (types_by s (declared_stack self.old stack))) }
    {
        let height = self.declared[stack];
        if height.depth != self.items.count() {
            return Ok(Answer::No);
        }
        if height.depth == 0 {
            return Ok(Answer::Yes);
        }
        if height.wides != self.items.wides() {
            return Ok(Answer::No);
        }
        self.high = self.high.max(height.depth);
        write(&self.items, self.written, height.depth, &mut self.rows)?;
        self.written = height.depth;
        Ok(self.rows.answer(height.row))
    }

    /// Whether a stack with an item of this type alone may stand where a declared one is wanted. Takes no memory.
    pub fn answer_alone(&self, stack: usize, number: u32) -> Answer<'n>
        requires stack { stack < length self.now.declared }
        requires given { IsGiven self.now.types number }
        ensures { let s = self.now.types in outcome_of result ≡ stack_answer (item_answer s.classes)
            (type_by s number ∷ []) (types_by s (declared_stack self.now stack)) }
    {
        let height = self.declared[stack];
        if height.depth != 1 {
            return Answer::No;
        }
        if height.wides != extra(number) {
            return Answer::No;
        }
        let wanted = self.rows.declared(height.row, 0);
        self.rows.types().assignable(number, wanted)
    }
}
