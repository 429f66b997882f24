//! The constants that lead to texts, each text read once.
ghost use Rattle.std.specs.Prelude.{◌≡◌, option_map, IfOk, OnOk};
ghost use Rattle.pool.specs.Entries.{Class, Dynamic, Fieldref, InvokeDynamic};
ghost use Rattle.pool.specs.Lookups.{methodref};
ghost use Rattle.pool.specs.Views.{view};
ghost use Rattle.type_numbers.specs.declared.text_numbers.Form.TheVariants.{ClassName, FieldDescriptor};
ghost use Rattle.type_numbers.specs.MethodNumbers.{AreTypesOf, GoesOn, method_in, row_of};
ghost use Rattle.type_numbers.specs.Numbers.{Numbering, Extends, IsNumberOf};
ghost use Rattle.type_numbers.specs.private.Entries.{IsEntryDescribed, IsPushed, class_as, descriptor_index, dynamic_of, field_of, is_init_named, is_special_named, loaded_as, member_name, member_texts, method_of, names_nothing, site_of};
ghost use Rattle.type_numbers.specs.private.Readings.{AreTexts, shared_row, type_in};

use crate::loaded_numbers::LoadedNumbers;
use crate::method_numbers::{DescriptorNumbers, MethodNumbers};
use crate::named_constant::NamedConstant;
use crate::parts::is_array;
use crate::text_numbers::{Form, TextNumbers};
use crate::type_numbers::TypeNumbers;
use hierarchy::Classes;
use names::INIT;
use pool::{Constant, Pool};
use std::alloc::{AllocError, Global};

/// The texts of a pool as the names of classes and as the descriptors of fields and of methods, as far as they were
/// read.
#[derive(Drop)]
pub struct Texts {
    classes: TextNumbers,
    descriptors: TextNumbers,
    methods: DescriptorNumbers,
    loaded: LoadedNumbers,
}

/// The indices of a class's name, and of the descriptor of a member, where a Class and a NameAndType whose name is a
/// text stand at these indices.
fn member_texts(pool: &Pool<'_>, class: u16, name_and_type: u16) -> Option<(u16, u16)>
    ensures { result ≡ member_texts pool.now class name_and_type }
{
    let Ok(Constant::Class { name: class }) = pool.get(class) else {
        return None;
    };
    let Ok(Constant::NameAndType { name, descriptor }) = pool.get(name_and_type) else {
        return None;
    };
    match pool.text(name) {
        Ok(_) => Some((class, descriptor)),
        Err(_) => None,
    }
}

/// The index of the descriptor, where a NameAndType whose name is a text stands at this index.
fn descriptor_index(pool: &Pool<'_>, name_and_type: u16) -> Option<u16>
    ensures { result ≡ descriptor_index pool.now name_and_type }
{
    let Ok(Constant::NameAndType { name, descriptor }) = pool.get(name_and_type) else {
        return None;
    };
    match pool.text(name) {
        Ok(_) => Some(descriptor),
        Err(_) => None,
    }
}

/// The name of the NameAndType at this index, if it is a text.
fn member_name<'a>(pool: &Pool<'a>, name_and_type: u16) -> Option<&'a [u8]>
    ensures { option_map (λ n. n.now) result ≡ member_name pool.now name_and_type }
{
    let Ok(Constant::NameAndType { name, .. }) = pool.get(name_and_type) else {
        return None;
    };
    match pool.text(name) {
        Ok(text) => Some(text.bytes()),
        Err(_) => None,
    }
}

/// Whether the NameAndType at this index names an instance initialization method (JVMS 2.9.1).
fn is_init_named(pool: &Pool<'_>, name_and_type: u16) -> bool
    ensures { result ≡ is_init_named pool.now name_and_type }
{
    match member_name(pool, name_and_type) {
        Some(name) => name == INIT,
        None => false,
    }
}

/// Whether the name of the NameAndType at this index begins with '<', as `<init>` and `<clinit>` do.
fn is_special_named(pool: &Pool<'_>, name_and_type: u16) -> bool
    ensures { result ≡ is_special_named pool.now name_and_type }
{
    match member_name(pool, name_and_type) {
        Some([first, ..]) => *first == b'<',
        Some([]) | None => false,
    }
}

/// A Class that names the type of this number, if it names one, and loads an object of the type of that one.
fn class_as(class: Option<u32>, loaded: u32) -> NamedConstant
    ensures { result ≡ class_as class loaded }
{
    match class {
        Some(class) => NamedConstant::Class { class, loaded },
        None => NamedConstant::Loaded { loaded },
    }
}

/// A constant that loads a value of the type of this number, if it loads one.
fn loaded_as(loaded: Option<u32>) -> NamedConstant
    ensures { result ≡ loaded_as loaded }
{
    match loaded {
        Some(loaded) => NamedConstant::Loaded { loaded },
        None => NamedConstant::Other,
    }
}

/// A Dynamic of the type of this number, if there is one.
fn dynamic_of(held: Option<u32>) -> NamedConstant
    ensures { result ≡ dynamic_of held }
{
    match held {
        Some(held) => NamedConstant::Dynamic { held },
        None => NamedConstant::Other,
    }
}

/// An InvokeDynamic whose descriptor names these types, if it is one of a method.
fn site_of(special: bool, types: Option<MethodNumbers>) -> NamedConstant
    ensures { result ≡ site_of special types }
{
    match types {
        Some(types) => NamedConstant::Site { special, types },
        None => NamedConstant::Other,
    }
}

/// A field of a class of this number, which holds a type of that one; none where a number is missing, or the class is
/// an array.
fn field_of(class: Option<u32>, held: Option<u32>) -> NamedConstant
    ensures { result ≡ field_of class held }
{
    let Some(class) = class else {
        return NamedConstant::Other;
    };
    let Some(held) = held else {
        return NamedConstant::Other;
    };
    if is_array(class) {
        NamedConstant::Other
    } else {
        NamedConstant::Field { class, held }
    }
}

/// A method of a class of this number, whose descriptor names these types; none where one of the two is missing.
fn method_of(
    interface: bool,
    init: bool,
    class: Option<u32>,
    types: Option<MethodNumbers>,
) -> NamedConstant
    ensures { result ≡ method_of interface init class types }
{
    let Some(class) = class else {
        return NamedConstant::Other;
    };
    let Some(types) = types else {
        return NamedConstant::Other;
    };
    NamedConstant::Method {
        interface,
        init,
        class,
        types,
    }
}

/// Whether a constant has no meaning for instructions: it is a text, or the name and the descriptor of a member.
fn names_nothing(constant: Constant<'_>) -> bool
    ensures { result ≡ names_nothing constant.entry }
{
    match constant {
        Constant::Utf8(_) | Constant::NameAndType { .. } => true,
        _ => false,
    }
}

impl Texts {
    /// No text was read yet, but the classes of which constants load objects have numbers.
    pub fn new<'a, C: Classes>(
        alloc: Global,
        pool: &Pool<'a>,
        numbers: &mut TypeNumbers<'_, 'a, C>,
    ) -> Result<Texts, AllocError>
        ensures kept { Extends numbers.old numbers.new }
        ensures texts { IfOk result (AreTexts numbers.new pool.now) }
    {
        Ok(Texts {
            classes: TextNumbers::new(alloc, Form::ClassName, pool)?,
            descriptors: TextNumbers::new(alloc, Form::FieldDescriptor, pool)?,
            methods: DescriptorNumbers::new(alloc, pool)?,
            loaded: LoadedNumbers::new(numbers)?,
        })
    }

    /// The Class whose name stands at an index.
    fn class<'a, C: Classes>(
        &mut self,
        pool: &Pool<'a>,
        name: u16,
        numbers: &mut TypeNumbers<'_, 'a, C>,
    ) -> Result<NamedConstant, AllocError>
        requires { AreTexts numbers.old pool.now self.old }
        ensures kept { Extends numbers.old numbers.new }
        ensures texts { OnOk result (AreTexts numbers.new pool.now self.new) }
        ensures row { shared_row self.new ≡ shared_row self.old }
        ensures described { IfOk result (IsEntryDescribed numbers.new (shared_row self.new) pool.now (Class name)) }
    {
        let class = self.classes.number(pool, name, numbers)?;
        Ok(class_as(class, self.loaded.class))
    }

    /// The numbers of the types that the name of a class and the descriptor of a field name.
    fn field_types<'a, C: Classes>(
        &mut self,
        pool: &Pool<'a>,
        name: u16,
        descriptor: u16,
        numbers: &mut TypeNumbers<'_, 'a, C>,
    ) -> Result<(Option<u32>, Option<u32>), AllocError>
        requires { AreTexts numbers.old pool.now self.old }
        ensures kept { Extends numbers.old numbers.new }
        ensures texts { OnOk result (AreTexts numbers.new pool.now self.new) }
        ensures row { shared_row self.new ≡ shared_row self.old }
        ensures class { IfOk result (λ x. IsNumberOf numbers.new x.0 (type_in ClassName pool.now name)) }
        ensures held { IfOk result (λ x. IsNumberOf numbers.new x.1 (type_in FieldDescriptor pool.now descriptor)) }
    {
        let class = self.classes.number(pool, name, numbers)?;
        let held = self.descriptors.number(pool, descriptor, numbers)?;
        Ok((class, held))
    }

    /// The Fieldref that leads to a Class and a NameAndType at these indices.
    fn field<'a, C: Classes>(
        &mut self,
        pool: &Pool<'a>,
        class: u16,
        name_and_type: u16,
        numbers: &mut TypeNumbers<'_, 'a, C>,
    ) -> Result<NamedConstant, AllocError>
        requires { AreTexts numbers.old pool.now self.old }
        ensures kept { Extends numbers.old numbers.new }
        ensures texts { OnOk result (AreTexts numbers.new pool.now self.new) }
        ensures row { shared_row self.new ≡ shared_row self.old }
        ensures described { IfOk result (IsEntryDescribed numbers.new (shared_row self.new) pool.now
            (Fieldref class name_and_type)) }
    {
        let Some((name, descriptor)) = member_texts(pool, class, name_and_type) else {
            return Ok(NamedConstant::Other);
        };
        let (class, held) = self.field_types(pool, name, descriptor, numbers)?;
        Ok(field_of(class, held))
    }

    /// The numbers of the types that the name of a class and the descriptor of a method name.
    fn method_types<'a, C: Classes>(
        &mut self,
        pool: &Pool<'a>,
        name: u16,
        descriptor: u16,
        numbers: &mut TypeNumbers<'_, 'a, C>,
    ) -> Result<(Option<u32>, Option<MethodNumbers>), AllocError>
        requires { AreTexts numbers.old pool.now self.old }
        ensures kept { Extends numbers.old numbers.new }
        ensures texts { OnOk result (AreTexts numbers.new pool.now self.new) }
        ensures grown { OnOk result (GoesOn (shared_row self.old) (shared_row self.new)) }
        ensures class { IfOk result (λ x. IsNumberOf numbers.new x.0 (type_in ClassName pool.now name)) }
        ensures types { IfOk result (λ x.
            AreTypesOf numbers.new (shared_row self.new) x.1 (method_in pool.now descriptor)) }
    {
        let class = self.classes.number(pool, name, numbers)?;
        let types = self.methods.types(pool, descriptor, numbers)?;
        Ok((class, types))
    }

    /// The Methodref or InterfaceMethodref that leads to a Class and a NameAndType at these indices.
    fn method<'a, C: Classes>(
        &mut self,
        pool: &Pool<'a>,
        interface: bool,
        class: u16,
        name_and_type: u16,
        numbers: &mut TypeNumbers<'_, 'a, C>,
    ) -> Result<NamedConstant, AllocError>
        requires { AreTexts numbers.old pool.now self.old }
        ensures kept { Extends numbers.old numbers.new }
        ensures texts { OnOk result (AreTexts numbers.new pool.now self.new) }
        ensures grown { OnOk result (GoesOn (shared_row self.old) (shared_row self.new)) }
        ensures described { IfOk result (IsEntryDescribed numbers.new (shared_row self.new) pool.now
            (methodref interface class name_and_type)) }
    {
        let Some((name, descriptor)) = member_texts(pool, class, name_and_type) else {
            return Ok(NamedConstant::Other);
        };
        let (class, types) = self.method_types(pool, name, descriptor, numbers)?;
        Ok(method_of(interface, is_init_named(pool, name_and_type), class, types))
    }

    /// The Dynamic that leads to a NameAndType at this index, whatever its bootstrap method.
    fn dynamic<'a, C: Classes>(
        &mut self,
        pool: &Pool<'a>,
        name_and_type: u16,
        numbers: &mut TypeNumbers<'_, 'a, C>,
    ) -> Result<NamedConstant, AllocError>
        requires { AreTexts numbers.old pool.now self.old }
        ensures kept { Extends numbers.old numbers.new }
        ensures texts { OnOk result (AreTexts numbers.new pool.now self.new) }
        ensures row { shared_row self.new ≡ shared_row self.old }
        ensures described { IfOk result (IsEntryDescribed numbers.new (shared_row self.new) pool.now
            (Dynamic 0 name_and_type)) }
    {
        let Some(descriptor) = descriptor_index(pool, name_and_type) else {
            return Ok(NamedConstant::Other);
        };
        let held = self.descriptors.number(pool, descriptor, numbers)?;
        Ok(dynamic_of(held))
    }

    /// The InvokeDynamic that leads to a NameAndType at this index, whatever its bootstrap method.
    fn call_site<'a, C: Classes>(
        &mut self,
        pool: &Pool<'a>,
        name_and_type: u16,
        numbers: &mut TypeNumbers<'_, 'a, C>,
    ) -> Result<NamedConstant, AllocError>
        requires { AreTexts numbers.old pool.now self.old }
        ensures kept { Extends numbers.old numbers.new }
        ensures texts { OnOk result (AreTexts numbers.new pool.now self.new) }
        ensures grown { OnOk result (GoesOn (shared_row self.old) (shared_row self.new)) }
        ensures described { IfOk result (IsEntryDescribed numbers.new (shared_row self.new) pool.now
            (InvokeDynamic 0 name_and_type)) }
    {
        let Some(descriptor) = descriptor_index(pool, name_and_type) else {
            return Ok(NamedConstant::Other);
        };
        let types = self.methods.types(pool, descriptor, numbers)?;
        Ok(site_of(is_special_named(pool, name_and_type), types))
    }

    /// A constant of the pool whose texts, or whose kind, may name types.
    fn naming<'a, C: Classes>(
        &mut self,
        pool: &Pool<'a>,
        constant: Constant<'a>,
        numbers: &mut TypeNumbers<'_, 'a, C>,
    ) -> Result<NamedConstant, AllocError>
        requires { AreTexts numbers.old pool.now self.old }
        ensures kept { Extends numbers.old numbers.new }
        ensures texts { OnOk result (AreTexts numbers.new pool.now self.new) }
        ensures grown { OnOk result (GoesOn (shared_row self.old) (shared_row self.new)) }
        ensures described { IfOk result (IsEntryDescribed numbers.new (shared_row self.new) pool.now
            (view constant.entry)) }
    {
        match constant {
            Constant::Class { name } => self.class(pool, name, numbers),
            Constant::Fieldref {
                class,
                name_and_type,
            } => self.field(pool, class, name_and_type, numbers),
            Constant::Methodref {
                class,
                name_and_type,
            } => self.method(pool, false, class, name_and_type, numbers),
            Constant::InterfaceMethodref {
                class,
                name_and_type,
            } => self.method(pool, true, class, name_and_type, numbers),
            Constant::Dynamic { name_and_type, .. } => self.dynamic(pool, name_and_type, numbers),
            Constant::InvokeDynamic { name_and_type, .. } => self.call_site(
                pool,
                name_and_type,
                numbers,
            ),
            _ => Ok(loaded_as(self.loaded.of(constant))),
        }
    }

    /// Puts a constant of the pool, as instructions name it, after a row. The only refusal is 1, where memory runs out.
    pub fn push<'a, C: Classes>(
        &mut self,
        pool: &Pool<'a>,
        constant: Constant<'a>,
        numbers: &mut TypeNumbers<'_, 'a, C>,
        row: &mut Vec<NamedConstant>,
    ) -> Result<(), AllocError>
        requires { AreTexts numbers.old pool.now self.old }
        ensures kept { Extends numbers.old numbers.new }
        ensures texts { OnOk result (AreTexts numbers.new pool.now self.new) }
        ensures grown { OnOk result (GoesOn (shared_row self.old) (shared_row self.new)) }
        ensures pushed { OnOk result (IsPushed numbers.new (shared_row self.new) pool.now (view constant.entry)
            row.old.items row.new.items) }
    {
        if names_nothing(constant) {
            row.push(NamedConstant::Other)?;
            return Ok(());
        }
        let named = self.naming(pool, constant, numbers)?;
        row.push(named)?;
        Ok(())
    }

    /// The texts as the descriptors of methods.
    pub fn into_descriptors(self) -> DescriptorNumbers
        ensures { result ≡ self.methods }
    {
        self.methods
    }
}
