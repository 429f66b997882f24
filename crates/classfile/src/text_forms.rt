//! The forms of the texts of a constant pool (JVMS 4.2, 4.3). Each text is judged once, however many constants and
//! members ask for its form.
ghost use Rattle.std.specs.Prelude.{◌≡◌, Ok, IfOk, IfSome};
ghost use Rattle.pool.specs.Lookups.{text_at};
ghost use Rattle.classfile.specs.Naming.{is_class_name, is_unqualified_name, is_method_name, is_field_descriptor, fits_method};
ghost use Rattle.classfile.specs.ConstantForm.{names_class};
ghost use Rattle.classfile.specs.private.TextForms.{name_form_of, descriptor_form_of, AreForms, AreKept, AreMethodForms};

use crate::naming::{begins_with, is_array_name, is_field_descriptor, is_init, name_forms};
use names::{Text, method_shape};
use pool::Pool;
use std::alloc::{AllocError, Global};

/// A form of texts, which reading a text once tells.
trait TextForm: Copy {
    ghost use Rattle.std.specs.Prelude.{◌≡◌, ℕ, List};

    ghost form_of: { List ℕ → Self };

    /// The form of a text.
    fn form_of(text: Text<'_>) -> Self
        ensures { result ≡ form_of text.entry.bytes.now };
}

/// Whether a text names a class.
#[derive(Clone, Copy)]
pub struct ClassForm {
    /// The name of a class or interface, or the descriptor of an array (JVMS 4.4.1).
    pub names_class: bool,
}

/// The forms of names that a text has.
#[derive(Clone, Copy)]
pub struct NameForm {
    /// An unqualified name.
    pub unqualified_name: bool,
    /// The name of a method that is not special.
    pub method_name: bool,
}

/// The forms of descriptors that a text has.
#[derive(Clone, Copy)]
pub struct DescriptorForm {
    /// The descriptor of a field.
    pub field: bool,
    /// The descriptor of a method, within the limits without a receiver.
    pub method: bool,
    /// Such a descriptor without a result.
    pub void: bool,
    /// The descriptor of a method, within the limits with a receiver.
    pub receiver_method: bool,
    /// Such a descriptor without a result.
    pub receiver_void: bool,
}

/// The descriptor is read once: with a receiver its parameters take one unit more.
fn method_form(text: Text<'_>) -> DescriptorForm
    ensures { AreMethodForms text.entry.bytes.now result }
{
    match method_shape(text, false) {
        Ok(shape) => {
            let void = !shape.has_result;
            let fits = shape.units < 255;
            DescriptorForm {
                field: false,
                method: true,
                void,
                receiver_method: fits,
                receiver_void: fits & void,
            }
        }
        Err(_) => DescriptorForm {
            field: false,
            method: false,
            void: false,
            receiver_method: false,
            receiver_void: false,
        },
    }
}

/// Whether the text is the name of a class or interface in its internal form (JVMS 4.2.1).
fn is_class_name(text: Text<'_>) -> bool
    ensures { result ≡ is_class_name text.entry.bytes.now }
{
    names::is_class_name(text)
}

/// Whether the text is the name of a class or interface, or the descriptor of an array (JVMS 4.4.1).
#[inline(never)]
fn names_class(text: Text<'_>) -> bool
    ensures { result ≡ names_class text.entry.bytes.now }
{
    if is_array_name(text) {
        is_field_descriptor(text)
    } else {
        is_class_name(text)
    }
}

impl TextForm for ClassForm {
    ghost use Rattle.classfile.specs.private.TextForms.{class_form_of};

    ghost form_of = { class_form_of };

    fn form_of(text: Text<'_>) -> ClassForm {
        ClassForm {
            names_class: names_class(text),
        }
    }
}

/// The forms of unqualified names (JVMS 4.2.2), found in one pass.
impl TextForm for NameForm {
    ghost use Rattle.classfile.specs.private.TextForms.{name_form_of};

    ghost form_of = { name_form_of };

    #[inline(never)]
    fn form_of(text: Text<'_>) -> NameForm {
        let names = name_forms(text);
        NameForm {
            unqualified_name: names.unqualified_name,
            method_name: names.method_name,
        }
    }
}

/// A text that begins with a `(` is not a field's descriptor, and no other is a method's (JVMS 4.3).
impl TextForm for DescriptorForm {
    ghost use Rattle.classfile.specs.private.TextForms.{descriptor_form_of};

    ghost form_of = { descriptor_form_of };

    #[inline(never)]
    fn form_of(text: Text<'_>) -> DescriptorForm {
        if begins_with(text, b'(') {
            method_form(text)
        } else {
            DescriptorForm {
                field: is_field_descriptor(text),
                method: false,
                void: false,
                receiver_method: false,
                receiver_void: false,
            }
        }
    }
}

/// The forms of one kind of the texts of a pool, each found when it is first asked.
#[derive(Drop)]
struct JudgedTexts<F: TextForm> {
    /// For each entry its form, where it was asked.
    forms: Vec<Option<F>>,
}

impl<F: TextForm> JudgedTexts<F> {
    /// No text is judged yet.
    fn new(alloc: Global, pool: &Pool<'_>) -> Result<JudgedTexts<F>, AllocError>
        ensures { IfOk result (λ j. AreKept F.form_of pool.now j.forms.items) }
    {
        Ok(JudgedTexts {
            forms: vec![in alloc; None; pool.constants().len()]?,
        })
    }

    /// The form of the text at this index, if it was judged.
    fn judged(&self, _pool: &Pool<'_>, index: u16, _text: Text<'_>) -> Option<F>
        requires kept { AreKept F.form_of _pool.now self.now.forms.items }
        requires text { text_at _pool.now index ≡ Ok _text.bytes.now }
        ensures { IfSome result (λ f. f ≡ F.form_of _text.entry.bytes.now) }
    {
        self.forms[usize::from(index) - 1]
    }

    /// The form of the text at this index.
    fn form(&mut self, pool: &Pool<'_>, index: u16, text: Text<'_>) -> F
        requires kept { AreKept F.form_of pool.now self.now.forms.items }
        requires text { text_at pool.now index ≡ Ok text.bytes.now }
        ensures form { result ≡ F.form_of text.entry.bytes.now }
        ensures kept { AreKept F.form_of pool.now self.new.forms.items }
    {
        let place = usize::from(index) - 1;
        if let Some(form) = self.forms[place] {
            return form;
        }
        let form = F::form_of(text);
        self.forms[place] = Some(form);
        form
    }
}

/// The forms of the texts of a pool.
#[derive(Drop)]
pub struct TextForms {
    classes: JudgedTexts<ClassForm>,
    names: JudgedTexts<NameForm>,
    descriptors: JudgedTexts<DescriptorForm>,
}

impl TextForms {
    /// No text is judged yet.
    pub fn new(alloc: Global, pool: &Pool<'_>) -> Result<TextForms, AllocError>
        ensures { IfOk result (AreForms pool.now) }
    {
        Ok(TextForms {
            classes: JudgedTexts::new(alloc, pool)?,
            names: JudgedTexts::new(alloc, pool)?,
            descriptors: JudgedTexts::new(alloc, pool)?,
        })
    }

    /// Whether the text at this index names a class.
    pub fn names_class(&mut self, pool: &Pool<'_>, index: u16, text: Text<'_>) -> bool
        requires kept { AreForms pool.now self.now }
        requires text { text_at pool.now index ≡ Ok text.bytes.now }
        ensures form { result ≡ names_class text.entry.bytes.now }
        ensures kept { AreForms pool.now self.new }
    {
        self.classes.form(pool, index, text).names_class
    }

    /// The forms of names that the text at this index has.
    pub fn name(&mut self, pool: &Pool<'_>, index: u16, text: Text<'_>) -> NameForm
        requires kept { AreForms pool.now self.now }
        requires text { text_at pool.now index ≡ Ok text.bytes.now }
        ensures form { result ≡ name_form_of text.entry.bytes.now }
        ensures kept { AreForms pool.now self.new }
    {
        self.names.form(pool, index, text)
    }

    /// Whether the text at this index is an unqualified name. Most were judged before.
    pub fn is_unqualified_name(&mut self, pool: &Pool<'_>, index: u16, text: Text<'_>) -> bool
        requires kept { AreForms pool.now self.now }
        requires text { text_at pool.now index ≡ Ok text.bytes.now }
        ensures form { result ≡ is_unqualified_name text.entry.bytes.now }
        ensures kept { AreForms pool.now self.new }
    {
        match self.names.judged(pool, index, text) {
            Some(form) => form.unqualified_name,
            None => self.name(pool, index, text).unqualified_name,
        }
    }

    /// Whether the text at this index is the name of a method that is not special. Most were judged before.
    pub fn is_method_name(&mut self, pool: &Pool<'_>, index: u16, text: Text<'_>) -> bool
        requires kept { AreForms pool.now self.now }
        requires text { text_at pool.now index ≡ Ok text.bytes.now }
        ensures form { result ≡ is_method_name text.entry.bytes.now }
        ensures kept { AreForms pool.now self.new }
    {
        match self.names.judged(pool, index, text) {
            Some(form) => form.method_name,
            None => self.name(pool, index, text).method_name,
        }
    }

    /// The forms of descriptors that the text at this index has.
    pub fn descriptor(&mut self, pool: &Pool<'_>, index: u16, text: Text<'_>) -> DescriptorForm
        requires kept { AreForms pool.now self.now }
        requires text { text_at pool.now index ≡ Ok text.bytes.now }
        ensures form { result ≡ descriptor_form_of text.entry.bytes.now }
        ensures kept { AreForms pool.now self.new }
    {
        self.descriptors.form(pool, index, text)
    }

    /// Whether the text at this index is the descriptor of a field. Most were judged before.
    pub fn is_field_descriptor(&mut self, pool: &Pool<'_>, index: u16, text: Text<'_>) -> bool
        requires kept { AreForms pool.now self.now }
        requires text { text_at pool.now index ≡ Ok text.bytes.now }
        ensures form { result ≡ is_field_descriptor text.entry.bytes.now }
        ensures kept { AreForms pool.now self.new }
    {
        match self.descriptors.judged(pool, index, text) {
            Some(form) => form.field,
            None => self.descriptor(pool, index, text).field,
        }
    }
}

/// Whether a method of this name may have the descriptor, which is of this form.
pub fn fits_method(
    receiver: bool,
    name: Text<'_>,
    _descriptor: Text<'_>,
    form: DescriptorForm,
) -> bool
    requires { form ≡ descriptor_form_of _descriptor.bytes.now }
    ensures { result ≡ fits_method receiver name.entry.bytes.now _descriptor.entry.bytes.now }
{
    let void = is_init(name);
    match (receiver, void) {
        (false, false) => form.method,
        (false, true) => form.void,
        (true, false) => form.receiver_method,
        (true, true) => form.receiver_void,
    }
}
