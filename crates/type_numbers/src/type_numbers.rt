//! The numbers that the types of one class have.

use crate::absent_names::AbsentNames;
use crate::deciding::decided;
use crate::parts::{Parts, absent_number, element_at, names_class, present_number, uninit_number};
use crate::recent_places::RecentPlaces;
use crate::tags;
use frames::{VType, assignable, pack};
use hierarchy::{Answer, Classes};
use names::{Base, OBJECT};
use std::alloc::{AllocError, Global};
use std::collections::BTreeMap;
use std::marker::Model;

/// The numbers of the types that one class at hand names, among the classes of a hierarchy. A number has four bytes,
/// and equal types are equal numbers.
///
/// A type whose class is in the hierarchy has the number that [`pack`](frames::pack) gives it. An absent class has a
/// number after those, by the order in which names are first met, and so have the arrays of it. There are numbers for
/// 16,056,320 absent classes; past these, memory is said to run out. Constants cannot name so many: the text of a
/// descriptor and the constant that leads to it are two of at most 65,534, and it names 256 classes at most.
#[derive(Drop)]
pub struct TypeNumbers<'c, 'n, C: Classes> {
    classes: &'c C,
    /// The absent names that have numbers.
    absent: AbsentNames<'n>,
    /// The names in the hierarchy that have numbers, by their places.
    present: BTreeMap<u16, &'n [u8]>,
    /// The names in the hierarchy that were asked for last, which have numbers, and their places.
    recent: RecentPlaces<'n>,
}

impl<'c, 'n, C: Classes> Model for TypeNumbers<'c, 'n, C> {
    ghost use Rattle.std.specs.Prelude.{map};
    ghost use Rattle.type_numbers.specs.Numbers.{Numbering};
    ghost use Rattle.type_numbers.specs.private.RecentPlaces.{KeepPlaces};

    ghost Value = { Numbering };

    ghost view = { λ t. record {
      classes = C.content t.classes.now;
      absent = t.absent;
      present = map (λ e. (e.0, e.1.now)) t.present.entries;
    } };

    ghost invariant = { λ t. KeepPlaces (C.content t.classes.now) t.present t.recent };
}

impl<'c, 'n, C: Classes> TypeNumbers<'c, 'n, C> {
    ghost use Rattle.std.specs.Prelude.{◌≡◌, ◌≢◌, ◌-◌, ◌≤◌, [], ℕ, List, Some, IfOk, option_map};
    ghost use Rattle.std.specs.Str.{bytes_eq};
    ghost use Rattle.names.specs.StandardNames.{object_name};
    ghost use Rattle.names.specs.Descriptors.{base_of, dimensioned};
    ghost use Rattle.hierarchy.specs.Answer.{outcome_of, missing};
    ghost use Rattle.hierarchy.specs.Class.{interface_of};
    ghost use Rattle.frames.specs.Assignable.{class_answer, lookup_answer, type_answer};
    ghost use Rattle.frames.specs.VerificationType.{VerificationType, array, type_of};
    ghost use Rattle.type_numbers.specs.Numbers.{class_number, IsNoted, IsNumber, IsGiven, Extends};
    ghost use Rattle.type_numbers.specs.Decoding.{name_at, type_with, type_at};
    ghost use Rattle.type_numbers.specs.private.ClassesAt.{IsClassAt};

    /// No class has a number.
    pub fn new(alloc: Global, classes: &'c C) -> Self
        ensures classes { result.classes ≡ C.content classes.now }
        ensures absent { result.absent ≡ [] }
        ensures present { result.present ≡ [] }
    {
        TypeNumbers {
            classes,
            absent: AbsentNames::new(alloc),
            present: BTreeMap::new(alloc),
            recent: RecentPlaces::new(),
        }
    }

    /// No absent class has a number any more. The names in the hierarchy that have numbers are kept for the next class
    /// that is judged.
    pub fn restart(&mut self)
        ensures classes { self.new.classes ≡ self.old.classes }
        ensures absent { self.new.absent ≡ [] }
        ensures present { self.new.present ≡ self.old.present }
    {
        self.absent.clear();
    }

    /// The classes of the hierarchy.
    pub fn classes(&self) -> &'c C
        ensures { C.content result.now ≡ self.now.classes }
    {
        self.classes
    }

    /// The number of a type. The only refusal is 1, where memory runs out.
    pub fn number(&mut self, vtype: &VType<'n>) -> Result<u32, AllocError>
        ensures given { IfOk result (λ n. IsNumber self.new n (type_of vtype.now)) }
        ensures kept { Extends self.old self.new }
    {
        match *vtype {
            VType::Class(name) => self.class_number(0, name),
            VType::Array { dims, base } => self.array_number(dims.max(1), base),
            VType::Uninit(offset) => Ok(uninit_number(offset)),
            _ => Ok(pack(vtype, self.classes)),
        }
    }

    /// The number of an array of so many dimensions, 1 or more.
    fn array_number(&mut self, dims: u8, base: Base<'n>) -> Result<u32, AllocError>
        requires { 1 ≤ dims }
        ensures given { IfOk result (λ n. IsNumber self.new n (array (dimensioned (dims - 1) (base_of base.entry)))) }
        ensures kept { Extends self.old self.new }
    {
        match base {
            Base::Primitive(_) => Ok(pack(&VType::Array { dims, base }, self.classes)),
            Base::Class(name) => self.class_number(dims, name),
        }
    }

    /// The number of a class, or of an array of so many dimensions of one. A name that was asked for a short while ago
    /// takes one comparison: neither the hierarchy nor the names that have numbers are asked again.
    fn class_number(&mut self, dims: u8, name: &'n [u8]) -> Result<u32, AllocError>
        ensures number { IfOk result (λ n. class_number self.new.classes self.new.absent dims name.entry.now ≡ Some n) }
        ensures noted { IfOk result (λ _. IsNoted self.new name.entry.now) }
        ensures kept { Extends self.old self.new }
    {
        if let Some(place) = self.recent.find(name) {
            return Ok(present_number(dims, place));
        }
        match self.classes.place(name) {
            Some(place) => {
                self.present.insert(place, name)?;
                self.recent.keep(name, place);
                Ok(present_number(dims, place))
            }
            None => {
                let place = self.absent.place(name)?;
                absent_number(dims, place).ok_or(AllocError)
            }
        }
    }

    /// The name of a class by the tag and the two bytes of its number.
    fn name_at(&self, tag: u8, rest: u16) -> Option<&'n [u8]>
        ensures { option_map (λ n. n.now) result ≡ name_at self.now tag rest }
    {
        if tag == tags::CLASS {
            return self.present.get(&rest).copied();
        }
        let place = usize::from(tag.saturating_sub(tags::ABSENT)) * 0x1_0000 + usize::from(rest);
        self.absent.get(place)
    }

    /// The class of a name, or an array of so many dimensions of one.
    fn type_with(dims: u8, name: Option<&'n [u8]>) -> Option<VType<'n>>
        ensures { option_map type_of result ≡ type_with dims (option_map (λ n. n.now) name.entry) }
    {
        match name {
            None => None,
            Some(name) if dims == 0 => Some(VType::Class(name)),
            Some(name) => Some(VType::Array {
                dims,
                base: Base::Class(name),
            }),
        }
    }

    /// The type that a number of these parts stands for.
    fn type_at(&self, parts: Parts) -> Option<VType<'n>>
        ensures { option_map type_of result ≡ type_at self.now parts.tag parts.dims parts.rest }
    {
        match parts.tag {
            tags::TOP => Some(VType::Top),
            tags::INT => Some(VType::Int),
            tags::FLOAT => Some(VType::Float),
            tags::DOUBLE => Some(VType::Double),
            tags::LONG => Some(VType::Long),
            tags::NULL => Some(VType::Null),
            tags::UNINIT_THIS => Some(VType::UninitThis),
            tags::UNINIT => Some(VType::Uninit(parts.rest)),
            tags::PRIMITIVE_ARRAY => Some(VType::Array {
                dims: parts.dims,
                base: Base::Primitive(element_at(parts.rest)),
            }),
            tag => Self::type_with(parts.dims, self.name_at(tag, parts.rest)),
        }
    }

    /// The type that has a number.
    pub fn vtype(&self, number: u32) -> VType<'n>
        requires { IsGiven self.now number }
        ensures { IsNumber self.now number (type_of result) }
    {
        match self.type_at(Parts::of(number)) {
            Some(vtype) => vtype,
            None => unreachable!(),
        }
    }

    /// Whether a value of the type of one number may stand where one of the type of another is wanted: the answer of
    /// [`assignable`](frames::assignable) for the types. Takes no memory.
    ///
    /// Numbers tell it, with the places of classes in the hierarchy. A name is looked at only where Object may be wanted,
    /// or for a class that is missing.
    pub fn assignable(&self, from: u32, to: u32) -> Answer<'n>
        requires from { IsGiven self.now from }
        requires to { IsGiven self.now to }
        ensures { (s t : VerificationType) → IsNumber self.now from s → IsNumber self.now to t
            → outcome_of result ≡ type_answer self.now.classes s t }
    {
        if from == to {
            return Answer::Yes;
        }
        match decided(Parts::of(from), Parts::of(to)) {
            Some(holds) => Answer::yes_if(holds),
            None => self.classes_assignable(from, to),
        }
    }

    /// The answer that a class is missing, by the parts of its number.
    fn missing(&self, class: Parts) -> Answer<'n>
        requires { (x : List ℕ) × IsClassAt self.now class.tag class.rest x }
        ensures { (x : List ℕ) → IsClassAt self.now class.tag class.rest x → outcome_of result ≡ missing x }
    {
        match self.name_at(class.tag, class.rest) {
            Some(name) => Answer::Missing(name),
            None => unreachable!(),
        }
    }

    /// Whether a class is `java/lang/Object`, by the parts of its number.
    fn is_object(&self, class: Parts) -> bool
        ensures { (x : List ℕ) → IsClassAt self.now class.tag class.rest x → result ≡ bytes_eq x object_name }
    {
        match self.name_at(class.tag, class.rest) {
            Some(name) => name == OBJECT,
            None => false,
        }
    }

    /// The answer for two classes that differ, of which the second is not Object: it is looked up first. Places and the
    /// order of absent names tell it, so that no name is hashed or compared.
    fn looked_up(&self, from: Parts, to: Parts) -> Answer<'n>
        requires from { (x : List ℕ) × IsClassAt self.now from.tag from.rest x }
        requires to { (y : List ℕ) × IsClassAt self.now to.tag to.rest y }
        ensures { (x y : List ℕ) → IsClassAt self.now from.tag from.rest x → IsClassAt self.now to.tag to.rest y
            → x ≢ y → outcome_of result ≡ lookup_answer self.now.classes x y (interface_of self.now.classes y) }
    {
        if to.tag != tags::CLASS {
            return self.missing(to);
        }
        if self.classes.is_interface_at(to.rest) {
            return Answer::Yes;
        }
        if from.tag != tags::CLASS {
            return self.missing(from);
        }
        Answer::yes_if(self.classes.is_below(from.rest, to.rest))
    }

    /// The answer for two classes that differ, by the parts of their numbers.
    fn class_answer(&self, from: Parts, to: Parts) -> Answer<'n>
        requires from { (x : List ℕ) × IsClassAt self.now from.tag from.rest x }
        requires to { (y : List ℕ) × IsClassAt self.now to.tag to.rest y }
        ensures { (x y : List ℕ) → IsClassAt self.now from.tag from.rest x → IsClassAt self.now to.tag to.rest y
            → x ≢ y → outcome_of result ≡ class_answer self.now.classes x y }
    {
        let answer = self.looked_up(from, to);
        if matches!(answer, Answer::Yes) {
            return Answer::Yes;
        }
        if self.is_object(to) {
            return Answer::Yes;
        }
        answer
    }

    /// The answer for the types of two numbers that differ, where it is a question about classes: two arrays of equally
    /// many dimensions are asked as the classes that they are of.
    fn classes_assignable(&self, from: u32, to: u32) -> Answer<'n>
        requires from { IsGiven self.now from }
        requires to { IsGiven self.now to }
        requires differ { from ≢ to }
        ensures { (s t : VerificationType) → IsNumber self.now from s → IsNumber self.now to t
            → outcome_of result ≡ type_answer self.now.classes s t }
    {
        let (one, other) = (Parts::of(from), Parts::of(to));
        if one.dims == other.dims && names_class(one) && names_class(other) {
            return self.class_answer(one, other);
        }
        self.types_assignable(from, to)
    }

    /// The answer for the types of two numbers.
    fn types_assignable(&self, from: u32, to: u32) -> Answer<'n>
        requires from { IsGiven self.now from }
        requires to { IsGiven self.now to }
        ensures { (s t : VerificationType) → IsNumber self.now from s → IsNumber self.now to t
            → outcome_of result ≡ type_answer self.now.classes s t }
    {
        assignable(&self.vtype(from), &self.vtype(to), self.classes)
    }
}
