//! The meaning of constants to the instructions that name them: a reference type, a field or a method with its types. A
//! long descriptor is read once, however many constants and instructions lead to it.
ghost use Rattle.std.specs.Prelude.{◌≡◌, ◌≤◌, false, vec_len, option_map, IfOk, IfSome};
ghost use Rattle.names.specs.Types.{type_of, method_of};
ghost use Rattle.names.specs.Reading.{field_answer, method_answer};
ghost use Rattle.names.specs.ReferenceTypes.{reference_type};
ghost use Rattle.names.specs.References.{reference_view};
ghost use Rattle.pool.specs.ConstantMeanings.{found, class_at, field_at, field_constant, method_at, method_constant, dynamic_type_at, call_site, call_site_at};
ghost use Rattle.pool.specs.ConstantViews.{field_constant_view, method_constant_view, call_site_view};
ghost use Rattle.pool.specs.TextPlaces.{StandsIn, StandIn, named_view, member_view, method_view};

use crate::constant_pool::Pool;
use crate::lookups::{Member, TextAt};
use crate::reference::{CallSite, FieldConstant, MethodConstant};
use names::{
    FieldType, MethodType, NameFault, RefType, Text, field_type, method_type, reference_type,
};
use std::alloc::{AllocError, Global};
use std::collections::BTreeMap;
use std::marker::Model;

/// How many bytes of a text the reading of one type may take: a text that has fewer for each of its types is read anew.
const SHORT: usize = 8;

/// The constants of a pool as instructions name them. What a text names is kept for the text, where it has at least
/// eight bytes for each type in it: so what is kept is a small multiple of the texts, and what is read anew is so of
/// what its types cost whoever uses them.
#[derive(Drop)]
pub struct ConstantTypes<'p, 'a> {
    alloc: Global,
    pool: &'p Pool<'a>,
    // By the indices of their texts.
    arrays: BTreeMap<u16, RefType<'a>>,
    fields: BTreeMap<u16, FieldType<'a>>,
    methods: BTreeMap<u16, MethodType<'a>>,
}

impl<'p, 'a> Model for ConstantTypes<'p, 'a> {
    ghost use Rattle.std.specs.Prelude.{List};
    ghost use Rattle.std.specs.BTreeMap.{get};
    ghost use Rattle.std.specs.Ordering.{nat_cmp};
    ghost use Rattle.pool.specs.Entries.{Entry};
    ghost use Rattle.pool.specs.private.KeptTexts.{AreArrays, AreFields, AreFew, AreMethods};

    ghost Value = { List Entry };

    ghost view = { λ d. d.pool.now };

    ghost invariant = { λ d. AreArrays d.pool.now (get nat_cmp d.arrays) × AreFields d.pool.now (get nat_cmp d.fields)
        × AreMethods d.pool.now (get nat_cmp d.methods) × AreFew (get nat_cmp d.methods) };
}

/// Whether the text is the name of a class, or too short to be kept for one type.
fn is_read_at_once(text: Text<'_>) -> bool {
    text.len() < SHORT || text.bytes()[0] != b'['
}

/// The types once more.
fn copy<'a>(alloc: Global, method: &MethodType<'a>) -> Result<MethodType<'a>, AllocError>
    ensures same { IfOk result (λ m. method_of m ≡ method_of method.now) }
    ensures few { IfOk result (λ m. vec_len m.params ≡ vec_len method.now.params) }
{
    let mut params = Vec::with_capacity(alloc, method.params.len())?;
    params.extend_from_slice(&method.params)?;
    Ok(MethodType {
        params,
        result: method.result,
    })
}

impl<'p, 'a> ConstantTypes<'p, 'a> {
    /// The constants of a pool, none of which was asked for yet.
    pub fn new(alloc: Global, pool: &'p Pool<'a>) -> ConstantTypes<'p, 'a>
        ensures { result ≡ pool.now }
    {
        ConstantTypes {
            alloc,
            pool,
            arrays: BTreeMap::new(alloc),
            fields: BTreeMap::new(alloc),
            methods: BTreeMap::new(alloc),
        }
    }

    /// The type that a text of a Class constant names.
    fn reference_type(&mut self, at: TextAt<'a>) -> Result<Option<RefType<'a>>, AllocError>
        requires { StandsIn self.old at }
        ensures same { self.new ≡ self.old }
        ensures read { IfOk result (λ o. option_map reference_view o ≡ reference_type at.entry.text.bytes.now) }
    {
        if is_read_at_once(at.text) {
            return Ok(reference_type(at.text));
        }
        if let Some(kept) = self.arrays.get(&at.index) {
            return Ok(Some(*kept));
        }
        let Some(array) = reference_type(at.text) else {
            return Ok(None);
        };
        self.arrays.insert(at.index, array)?;
        Ok(Some(array))
    }

    /// The type that a field's descriptor names.
    fn field_type(&mut self, at: TextAt<'a>) -> Result<Option<FieldType<'a>>, AllocError>
        requires { StandsIn self.old at }
        ensures same { self.new ≡ self.old }
        ensures read { IfOk result (λ o. option_map type_of o ≡ found (field_answer at.entry.text.bytes.now)) }
    {
        if at.text.len() < SHORT {
            return Ok(field_type(at.text).ok());
        }
        if let Some(kept) = self.fields.get(&at.index) {
            return Ok(Some(*kept));
        }
        let Ok(field) = field_type(at.text) else {
            return Ok(None);
        };
        self.fields.insert(at.index, field)?;
        Ok(Some(field))
    }

    /// The types that a method's descriptor names, with at most 255 parameters.
    fn method_type(&mut self, at: TextAt<'a>) -> Result<Option<MethodType<'a>>, AllocError>
        requires { StandsIn self.old at }
        ensures same { self.new ≡ self.old }
        ensures few { IfOk result (λ o. IfSome o (λ m. vec_len m.params ≤ 255)) }
        ensures read { IfOk result (λ o. option_map method_of o ≡ found (method_answer false at.entry.text.bytes.now)) }
    {
        if let Some(kept) = self.methods.get(&at.index) {
            return Ok(Some(copy(self.alloc, kept)?));
        }
        let method = match method_type(self.alloc, at.text, false) {
            Ok(method) => method,
            Err(NameFault::OutOfMemory) => return Err(AllocError),
            Err(_) => return Ok(None),
        };
        if at.text.len() / SHORT <= method.params.len() {
            return Ok(Some(method));
        }
        let kept = copy(self.alloc, &method)?;
        self.methods.insert(at.index, kept)?;
        Ok(Some(method))
    }

    fn field_of(&mut self, field: Member<'a>) -> Result<Option<FieldConstant<'a>>, AllocError>
        requires { StandIn self.old field }
        ensures same { self.new ≡ self.old }
        ensures found { IfOk result (λ o. option_map field_constant_view o ≡ field_constant (member_view field.entry)) }
    {
        let Some(RefType::Class(class)) = self.reference_type(field.class)? else {
            return Ok(None);
        };
        let Some(field_type) = self.field_type(field.descriptor)? else {
            return Ok(None);
        };
        Ok(Some(FieldConstant {
            class,
            name: field.name.bytes(),
            descriptor: field.descriptor.text.bytes(),
            field_type,
        }))
    }

    fn method_of(
        &mut self,
        interface: bool,
        method: Member<'a>,
    ) -> Result<Option<MethodConstant<'a>>, AllocError>
        requires { StandIn self.old method }
        ensures same { self.new ≡ self.old }
        ensures found { IfOk result (λ o. option_map method_constant_view o
            ≡ method_constant (method_view interface method.entry)) }
    {
        let Some(class) = self.reference_type(method.class)? else {
            return Ok(None);
        };
        let Some(method_type) = self.method_type(method.descriptor)? else {
            return Ok(None);
        };
        Ok(Some(MethodConstant {
            interface,
            class,
            name: method.name.bytes(),
            descriptor: method.descriptor.text.bytes(),
            method_type,
        }))
    }

    fn site_of(
        &mut self,
        name: Text<'a>,
        descriptor: TextAt<'a>,
    ) -> Result<Option<CallSite<'a>>, AllocError>
        requires { StandsIn self.old descriptor }
        ensures same { self.new ≡ self.old }
        ensures found { IfOk result (λ o. option_map call_site_view o
            ≡ call_site (named_view (name.entry, descriptor.entry))) }
    {
        let Some(method_type) = self.method_type(descriptor)? else {
            return Ok(None);
        };
        Ok(Some(CallSite {
            name: name.bytes(),
            method_type,
        }))
    }

    /// The type that the Class constant at this index names (JVMS 4.4.1); none where no other stands there, or its text
    /// is of neither form.
    pub fn class_type(&mut self, index: u16) -> Result<Option<RefType<'a>>, AllocError>
        ensures same { self.new ≡ self.old }
        ensures found { IfOk result (λ o. option_map reference_view o ≡ class_at self.old index) }
    {
        match self.pool.named_class(index) {
            Ok(name) => self.reference_type(name),
            Err(_) => Ok(None),
        }
    }

    /// The field that the Fieldref at this index names (JVMS 4.4.2); none where another constant stands there, its
    /// class is an array, or its texts are of other forms.
    pub fn field_constant(&mut self, index: u16) -> Result<Option<FieldConstant<'a>>, AllocError>
        ensures same { self.new ≡ self.old }
        ensures found { IfOk result (λ o. option_map field_constant_view o ≡ field_at self.old index) }
    {
        match self.pool.field_member(index) {
            Ok(field) => self.field_of(field),
            Err(_) => Ok(None),
        }
    }

    /// The method that the Methodref or InterfaceMethodref at this index names (JVMS 4.4.2); none where another
    /// constant stands there, or its texts are of other forms.
    pub fn method_constant(&mut self, index: u16) -> Result<Option<MethodConstant<'a>>, AllocError>
        ensures same { self.new ≡ self.old }
        ensures found { IfOk result (λ o. option_map method_constant_view o ≡ method_at self.old index) }
    {
        match self.pool.method_member(index) {
            Ok((interface, method)) => self.method_of(interface, method),
            Err(_) => Ok(None),
        }
    }
    /// The type of the constant that the Dynamic at this index has computed (JVMS 4.4.10); none where another constant
    /// stands there, or its descriptor is not a field's.
    pub fn dynamic_type(&mut self, index: u16) -> Result<Option<FieldType<'a>>, AllocError>
        ensures same { self.new ≡ self.old }
        ensures found { IfOk result (λ o. option_map type_of o ≡ dynamic_type_at self.old index) }
    {
        match self.pool.dynamic_texts(index) {
            Ok((_, descriptor)) => self.field_type(descriptor),
            Err(_) => Ok(None),
        }
    }

    /// The call site that the InvokeDynamic at this index names (JVMS 4.4.10); none where another constant stands
    /// there, or its descriptor is not a method's.
    pub fn call_site(&mut self, index: u16) -> Result<Option<CallSite<'a>>, AllocError>
        ensures same { self.new ≡ self.old }
        ensures found { IfOk result (λ o. option_map call_site_view o ≡ call_site_at self.old index) }
    {
        match self.pool.invoke_dynamic_texts(index) {
            Ok((name, descriptor)) => self.site_of(name, descriptor),
            Err(_) => Ok(None),
        }
    }
}
