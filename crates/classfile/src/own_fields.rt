//! The fields that a class declares itself (JVMS 4.5).
ghost use Rattle.std.specs.Prelude.{◌≡◌, true, [], map, Ok, IfOk};
ghost use Rattle.pool.specs.Lookups.{text_at, class_name_at, FieldOf, field_ref_at};
ghost use Rattle.pool.specs.ConstantMeanings.{found};
ghost use Rattle.pool.specs.Views.{view};
ghost use Rattle.classfile.specs.Methods.{is_declared, texts, declared_fields};
ghost use Rattle.classfile.specs.DeclaredFields.{has_named, both_indices, text_indices, type_index, declares, names_class};
ghost use Rattle.classfile.specs.Seen.{AreSeen};
ghost use Rattle.classfile.specs.Views.{member_view};

use crate::class_file::ClassFile;
use crate::member::Member;
use crate::member_keys::MemberKeys;
use pool::{Constant, Pool};
use std::alloc::{AllocError, Global};
use std::marker::Model;

/// Up to so many fields of short texts are looked at one by one: that takes no memory, and less time than a set of
/// their names and descriptors.
const FEW: usize = 32;

/// A text of up to so many bytes is short: to compare it takes little, however often it is done.
const SHORT: usize = 128;

/// Whether the texts at a member's indices are these.
fn is_named(pool: &Pool<'_>, member: &Member<'_>, name: &[u8], descriptor: &[u8]) -> bool
    ensures { result ≡ is_declared
        (texts (found (text_at pool.now member.now.name))
        (found (text_at pool.now member.now.descriptor)) []) name.now descriptor.now }
{
    let (Ok(own_name), Ok(own_descriptor)) = (pool.text(member.name), pool.text(member.descriptor))
    else {
        return false;
    };
    own_name.bytes() == name && own_descriptor.bytes() == descriptor
}

/// Whether one of these fields has the name and the descriptor.
fn is_among(pool: &Pool<'_>, fields: &[Member<'_>], name: &[u8], descriptor: &[u8]) -> bool
    ensures { result ≡ is_declared (declared_fields pool.now (map member_view fields.now)) name.now descriptor.now }
{
    for field in fields {
        if is_named(pool, field, name, descriptor) {
            return true;
        }
    }
    false
}

/// Whether the class declares a field of this name and descriptor, static or not. Takes no memory, and goes through all
/// its fields.
pub fn declares_field(class: &ClassFile<'_>, name: &[u8], descriptor: &[u8]) -> bool
    ensures { result ≡ is_declared
        (declared_fields class.now.constant_pool (map member_view class.now.fields.items)) name.now descriptor.now }
{
    is_among(&class.constant_pool, &class.fields, name, descriptor)
}

/// Whether the text at an index, if one is there, is short.
fn is_short(pool: &Pool<'_>, index: u16) -> bool {
    match pool.text(index) {
        Ok(text) => text.bytes().len() <= SHORT,
        Err(_) => true,
    }
}

/// Whether fields have only short names and descriptors.
fn have_short_texts(pool: &Pool<'_>, fields: &[Member<'_>]) -> bool {
    for field in fields {
        if !is_short(pool, field.name) || !is_short(pool, field.descriptor) {
            return false;
        }
    }
    true
}

/// The fields that a class declares, as its instructions ask for them. A set of their names and descriptors, as numbers
/// of their texts, is made when they are asked first, but for few fields of short texts.
#[derive(Drop)]
pub struct OwnFields<'c, 'a> {
    alloc: Global,
    class: &'c ClassFile<'a>,
    one_by_one: bool,
    met: Option<MemberKeys<'a>>,
}

impl<'c, 'a> Model for OwnFields<'c, 'a> {
    ghost use Rattle.std.specs.Prelude.{map, IfSome};
    ghost use Rattle.classfile.specs.declared.class_file.ClassFile.{ClassFile};
    ghost use Rattle.classfile.specs.Seen.{AreSeen};
    ghost use Rattle.classfile.specs.Views.{member_view};

    ghost Value = { ClassFile };

    ghost view = { λ o. o.class.now };

    ghost invariant = { λ o. IfSome o.met
        (AreSeen o.class.now.constant_pool (map member_view o.class.now.fields.items)) };
}

/// The names and descriptors of fields.
fn met_fields<'a>(
    alloc: Global,
    pool: &Pool<'a>,
    fields: &[Member<'_>],
) -> Result<MemberKeys<'a>, AllocError>
    ensures { IfOk result (AreSeen pool.now (map member_view fields.now)) }
{
    let mut met = MemberKeys::new(alloc, pool)?;
    for field in fields {
        met.meet_member(pool, field)?;
    }
    Ok(met)
}

/// The index of the NameAndType that a Fieldref has.
fn type_index(constant: Constant<'_>) -> Option<u16>
    ensures { result ≡ type_index (view constant.entry) }
{
    match constant {
        Constant::Fieldref { name_and_type, .. } => Some(name_and_type),
        _ => None,
    }
}

/// The indices of the name and of the descriptor that a NameAndType has.
fn both_indices(constant: Constant<'_>) -> Option<(u16, u16)>
    ensures { result ≡ both_indices (view constant.entry) }
{
    match constant {
        Constant::NameAndType { name, descriptor } => Some((name, descriptor)),
        _ => None,
    }
}

/// The indices of the name and of the descriptor to which the Fieldref at an index leads.
fn text_indices(pool: &Pool<'_>, field: u16) -> Option<(u16, u16)>
    ensures { result ≡ text_indices pool.now field }
{
    let Ok(field) = pool.get(field) else {
        return None;
    };
    let index = type_index(field)?;
    match pool.get(index) {
        Ok(constant) => both_indices(constant),
        Err(_) => None,
    }
}

impl<'c, 'a> OwnFields<'c, 'a> {
    /// The fields of a class, none of which was asked for yet.
    pub fn new(alloc: Global, class: &'c ClassFile<'a>) -> OwnFields<'c, 'a>
        ensures { result ≡ class.now }
    {
        let one_by_one = class.fields.len() <= FEW
            && have_short_texts(&class.constant_pool, &class.fields);
        OwnFields {
            alloc,
            class,
            one_by_one,
            met: None,
        }
    }

    /// Whether the constant at this index is a Fieldref of the Class constant by which the class file names its own
    /// class. Takes no memory.
    pub fn names_class(&self, field: u16) -> bool
        ensures exactly { result ≡ names_class self.now field }
        // Then its class has the name of the own class.
        ensures name { result ≡ true → (f : FieldOf) → field_ref_at self.now.constant_pool field ≡ Ok f
            → class_name_at self.now.constant_pool self.now.this_class ≡ Ok f.class }
    {
        match self.class.constant_pool.get(field) {
            Ok(Constant::Fieldref { class, .. }) => class == self.class.this_class,
            _ => false,
        }
    }

    /// The names and descriptors of the fields, which are taken out.
    fn take_met(&mut self) -> Result<MemberKeys<'a>, AllocError>
        ensures same { self.new ≡ self.old }
        ensures met { IfOk result (AreSeen self.old.constant_pool (map member_view self.old.fields.items)) }
    {
        match self.met.take() {
            Some(met) => Ok(met),
            None => met_fields(self.alloc, &self.class.constant_pool, &self.class.fields),
        }
    }

    /// Whether one of the fields has the name and the descriptor at these indices.
    fn has_met(&mut self, name: u16, descriptor: u16) -> Result<bool, AllocError>
        ensures same { self.new ≡ self.old }
        ensures found { IfOk result (λ b. b ≡ has_named self.old name descriptor) }
    {
        let mut met = self.take_met()?;
        let found = met.has_met(&self.class.constant_pool, name, descriptor)?;
        self.met = Some(met);
        Ok(found)
    }

    /// Whether a Fieldref stands at this index that leads to texts, and the class declares a field, static or not, of
    /// its name and its descriptor (JVMS 4.4.2). A call takes the same time however many fields there are and however
    /// long the texts, but that the first may read each field once, and a long text is read once at each index. It
    /// fails only if memory runs out.
    pub fn declares(&mut self, field: u16) -> Result<bool, AllocError>
        ensures same { self.new ≡ self.old }
        ensures declared { IfOk result (λ b. b ≡ declares self.old field) }
    {
        let class = self.class;
        let pool = &class.constant_pool;
        let Ok(texts) = pool.field_ref(field) else {
            return Ok(false);
        };
        if self.one_by_one {
            return Ok(declares_field(class, texts.name.bytes(), texts.descriptor.bytes()));
        }
        match text_indices(pool, field) {
            None => Ok(false),
            Some((name, descriptor)) => self.has_met(name, descriptor),
        }
    }
}
