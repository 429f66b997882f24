//! Which constants of a class name guarded members: protected members of superclasses in other packages, which the
//! class may use only on objects of its own (JVMS 4.10.1.8).
ghost use Rattle.std.specs.Prelude.{◌≡◌, false, List, IfOk};
ghost use Rattle.names.specs.References.{reference_view};
ghost use Rattle.pool.specs.Entries.{Entry};
ghost use Rattle.pool.specs.Entries.{Entry};
ghost use Rattle.pool.specs.ConstantMeanings.{constant_at};
ghost use Rattle.pool.specs.Views.{view};
ghost use Rattle.classfile.specs.declared.class_file.ClassFile.{ClassFile};
ghost use Rattle.hierarchy.specs.Class.{ClassFact};
ghost use Rattle.hierarchy.specs.Nearest.{MemberReference, is_guarded};
ghost use Rattle.hierarchy.specs.Summary.{references_of};
ghost use Rattle.rules.specs.Guards.{AreGuards, AreRead, AreReadFrom, IsReference, Numbers, Reads, key_by, key_of, names_own, own_name, references_read};

use crate::declaring_class::class_named;
use classfile::ClassFile;
use hierarchy::{Classes, Kind, MemberPlaces, MemberRef, References, Texts, guarded};
use pool::{Constant, Pool};
use std::alloc::{AllocError, Global};

/// A reference to a member by the indices of its texts.
#[derive(Clone, Copy)]
pub struct Key {
    kind: Kind,
    class: u16,
    name: u16,
    descriptor: u16,
}

/// References to members as they are read, with their texts: names of classes once, and so are long texts.
#[derive(Drop)]
pub struct Read<'a> {
    classes: Texts<'a>,
    texts: Texts<'a>,
    members: Vec<MemberRef>,
}

/// For each constant of a pool in turn a number, and for each number an answer: whether the member is guarded that the
/// constant names, if it is a Fieldref or a Methodref of a class other than the class itself.
#[derive(Drop)]
pub struct Guards {
    places: Vec<usize>,
    answers: Vec<bool>,
}

/// The name of the class itself.
fn own_name<'a>(class: &ClassFile<'a>) -> &'a [u8]
    ensures { result.now ≡ own_name class.now }
{
    match class_named(&class.constant_pool, class.this_class) {
        Some(name) => name,
        None => &[],
    }
}

/// Whether the constant at an index is a Fieldref or a Methodref of the Class constant by which the class file names
/// its own class.
pub fn names_own(class: &ClassFile<'_>, index: u16) -> bool
    ensures { result ≡ names_own class.now index }
{
    match class.constant_pool.get(index) {
        Ok(Constant::Fieldref { class: named, .. }) => named == class.this_class,
        Ok(Constant::Methodref { class: named, .. }) => named == class.this_class,
        _ => false,
    }
}

/// The indices of the texts to which the Class and the NameAndType of a reference lead.
fn key_by(pool: &Pool<'_>, kind: Kind, class: u16, name_and_type: u16) -> Option<Key>
    ensures { result ≡ key_by kind (constant_at pool.now class) (constant_at pool.now name_and_type) }
{
    let Ok(Constant::Class { name: class }) = pool.get(class) else {
        return None;
    };
    let Ok(Constant::NameAndType { name, descriptor }) = pool.get(name_and_type) else {
        return None;
    };
    Some(Key {
        kind,
        class,
        name,
        descriptor,
    })
}

/// The indices of the texts of a constant that is a Fieldref or a Methodref of another class than the class itself.
fn key_of<'a>(class: &ClassFile<'a>, constant: Constant<'a>) -> Option<Key>
    ensures { result ≡ key_of class.now (view constant.entry) }
{
    let (kind, named, name_and_type) = match constant {
        Constant::Fieldref {
            class,
            name_and_type,
        } => (Kind::Field, class, name_and_type),
        Constant::Methodref {
            class,
            name_and_type,
        } => (Kind::Method, class, name_and_type),
        _ => return None,
    };
    if named == class.this_class {
        return None;
    }
    key_by(&class.constant_pool, kind, named, name_and_type)
}

impl<'a> Read<'a> {
    /// No reference, and room for those that most classes with so many constants have.
    fn new(alloc: Global, constants: usize) -> Result<Read<'a>, AllocError>
        ensures { IfOk result (λ read. (pool : List Entry) → AreReadFrom pool read) }
    {
        let members = constants / 4;
        Ok(Read {
            classes: Texts::with_room(alloc, members / 4)?,
            texts: Texts::with_room(alloc, constants / 2)?,
            members: Vec::with_capacity(alloc, members)?,
        })
    }

    /// Puts the reference of these indices after all others, and returns its number.
    fn add(&mut self, pool: &Pool<'a>, key: Key) -> Result<usize, AllocError>
        requires { AreReadFrom pool.now self.old }
        ensures { IfOk result (Numbers pool.now self.old self.new key) }
    {
        let number = self.members.len();
        let class = self.classes.place_once(pool, key.class)?;
        let name = self.texts.place(pool, key.name)?;
        let descriptor = self.texts.place(pool, key.descriptor)?;
        let places = MemberPlaces {
            kind: key.kind,
            name,
            descriptor,
        };
        self.members.push(MemberRef { class, places })?;
        Ok(number)
    }

    /// The references with their texts.
    fn into_references(self) -> References<'a>
        ensures { references_of result ≡ references_of (references_read self.entry) }
    {
        let classes = self.classes;
        let texts = self.texts;
        References {
            classes: classes.list,
            texts: texts.list,
            members: self.members,
        }
    }
}

/// The number of the reference to which a constant leads, if it leads to one of another class than the class itself, and
/// any number otherwise.
fn number_of<'a>(
    class: &ClassFile<'a>,
    constant: Constant<'a>,
    read: &mut Read<'a>,
) -> Result<usize, AllocError>
    requires { AreReadFrom class.now.constant_pool read.old }
    ensures { IfOk result (Reads class.now (view constant.entry) read.old read.new) }
{
    match key_of(class, constant) {
        None => Ok(0),
        Some(key) => read.add(&class.constant_pool, key),
    }
}

/// The references to which the constants of a class lead, and for each constant in turn the number of its reference.
fn read_all<'a>(
    alloc: Global,
    class: &ClassFile<'a>,
) -> Result<(Vec<usize>, References<'a>), AllocError>
    ensures { IfOk result (λ x. AreRead class.now x.0.items (references_of x.1)) }
{
    let constants = class.constant_pool.constants();
    let mut places = Vec::with_capacity(alloc, constants.len())?;
    let mut read = Read::new(alloc, constants.len())?;
    for constant in constants {
        places.push(number_of(class, *constant, &mut read)?)?;
    }
    Ok((places, read.into_references()))
}

impl Guards {
    /// The guards of a class among classes. The only refusal: memory ran out.
    pub fn new<'a, C: Classes>(
        alloc: Global,
        class: &ClassFile<'a>,
        classes: &C,
    ) -> Result<Guards, AllocError>
        ensures { IfOk result (AreGuards (C.content classes.now) class.now) }
    {
        let (places, references) = read_all(alloc, class)?;
        let answers = guarded(alloc, classes, own_name(class), &references)?;
        Ok(Guards { places, answers })
    }

    /// Whether the member that the constant at an index names is guarded. The member is a field or a method of a class
    /// other than the class itself.
    pub fn get(&self, index: u16) -> bool
        ensures { (classes : List ClassFact) (class : ClassFile) (r : MemberReference)
            → AreGuards classes class self.now → names_own class index ≡ false
            → IsReference class.constant_pool index r → result ≡ is_guarded classes (own_name class) r }
    {
        if index == 0 {
            return false;
        }
        let place = index as usize - 1;
        if place >= self.places.len() {
            return false;
        }
        let number = self.places[place];
        if number >= self.answers.len() {
            return false;
        }
        self.answers[number]
    }
}
