//! Which rule an entry of the constant pool breaks, by its kind (JVMS 4.4.1 to 4.4.10).
ghost use Rattle.std.specs.Prelude.{◌≡◌, ◌||◌, ◌∷◌, []};
ghost use Rattle.classfile.specs.declared.form_fault.FormRule.TheVariants.{BadName, BadDescriptor};
ghost use Rattle.classfile.specs.Conditions.{broken_rule};
ghost use Rattle.classfile.specs.ConstantForm.{is_no_class_name, is_array_class, is_no_unqualified_name, is_no_descriptor, is_no_field_descriptor, is_no_method_descriptor, is_no_field, is_no_method, is_no_method_of_class, is_special_name, is_special, is_no_method_name, has_bad, has_other, texts_have_bad, texts_have_other, class_conditions, string_conditions, field_conditions, method_conditions, interface_method_conditions, name_and_type_conditions, method_handle_conditions, method_type_conditions, dynamic_conditions, invoke_dynamic_conditions, constant_conditions};
ghost use Rattle.classfile.specs.private.NamedAt.{IsNamedAt};
ghost use Rattle.classfile.specs.private.TextForms.{AreForms};
ghost use Rattle.pool.specs.Views.{view};

use crate::form_fault::FormRule;
use crate::indices::{ConstantKind, index_rule, is_bad, is_other, lacks};
use crate::naming::{begins_with, is_array_name, is_init};
use crate::text_forms::{TextForms, fits_method};
use names::Text;
use pool::{Constant, NameAndType, Pool};

/// A name and a descriptor with their indices, as a constant has them.
#[derive(Clone, Copy)]
struct NamedAt<'a> {
    name: u16,
    descriptor: u16,
    texts: NameAndType<'a>,
}

/// The name and the descriptor that the index leads to, if both are there.
#[inline(always)]
#[tactic(auto, unfolding(pool::specs::Lookups::name_and_type_at, pool::specs::Lookups::named))]
fn named_at<'a>(pool: &Pool<'a>, index: u16) -> Option<NamedAt<'a>>
    ensures { IsNamedAt pool.now index result }
{
    let Ok(Constant::NameAndType { name, descriptor }) = pool.get(index) else {
        return None;
    };
    let Ok(name_text) = pool.text(name) else {
        return None;
    };
    let Ok(descriptor_text) = pool.text(descriptor) else {
        return None;
    };
    Some(NamedAt {
        name,
        descriptor,
        texts: NameAndType {
            name: name_text,
            descriptor: descriptor_text,
        },
    })
}

/// Whether the index leads to the name of an array class.
#[tactic(auto, unfolding(crate::specs::ConstantForm::is_array_class))]
pub fn is_array_class(pool: &Pool<'_>, index: u16) -> bool
    ensures { result ≡ is_array_class pool.now index }
{
    match pool.class_name(index) {
        Ok(name) => is_array_name(name),
        Err(_) => false,
    }
}

/// Whether the index leads to a text that is not an unqualified name.
#[tactic(auto, unfolding(crate::specs::ConstantForm::is_no_unqualified_name))]
pub fn is_no_unqualified_name(pool: &Pool<'_>, forms: &mut TextForms, index: u16) -> bool
    requires { AreForms pool.now forms.now }
    ensures told { result ≡ is_no_unqualified_name pool.now index }
    ensures kept { AreForms pool.now forms.new }
{
    match pool.text(index) {
        Ok(text) => !forms.name(pool, index, text).unqualified_name,
        Err(_) => false,
    }
}

/// Whether the index leads to a text that is not a descriptor of a field.
#[tactic(auto, unfolding(crate::specs::ConstantForm::is_no_field_descriptor))]
pub fn is_no_field_descriptor(pool: &Pool<'_>, forms: &mut TextForms, index: u16) -> bool
    requires { AreForms pool.now forms.now }
    ensures told { result ≡ is_no_field_descriptor pool.now index }
    ensures kept { AreForms pool.now forms.new }
{
    match pool.text(index) {
        Ok(text) => !forms.descriptor(pool, index, text).field,
        Err(_) => false,
    }
}

#[tactic(auto, unfolding(crate::specs::ConstantForm::is_no_method_descriptor))]
fn is_no_method_descriptor(pool: &Pool<'_>, forms: &mut TextForms, index: u16) -> bool
    requires { AreForms pool.now forms.now }
    ensures told { result ≡ is_no_method_descriptor pool.now index }
    ensures kept { AreForms pool.now forms.new }
{
    match pool.text(index) {
        Ok(text) => !forms.descriptor(pool, index, text).method,
        Err(_) => false,
    }
}

#[tactic(auto, unfolding(crate::specs::ConstantForm::is_no_field))]
fn is_no_field(pool: &Pool<'_>, forms: &mut TextForms, index: u16) -> bool
    requires { AreForms pool.now forms.now }
    ensures told { result ≡ is_no_field pool.now index }
    ensures kept { AreForms pool.now forms.new }
{
    match named_at(pool, index) {
        Some(named) => !forms
            .descriptor(pool, named.descriptor, named.texts.descriptor)
            .field,
        None => false,
    }
}

#[tactic(auto, unfolding(crate::specs::ConstantForm::is_no_method))]
fn is_no_method(pool: &Pool<'_>, forms: &mut TextForms, index: u16) -> bool
    requires { AreForms pool.now forms.now }
    ensures told { result ≡ is_no_method pool.now index }
    ensures kept { AreForms pool.now forms.new }
{
    match named_at(pool, index) {
        Some(named) => !forms
            .descriptor(pool, named.descriptor, named.texts.descriptor)
            .method,
        None => false,
    }
}

/// The rule that a method of a class breaks by its name and its descriptor.
#[tactic(auto, unfolding(crate::specs::ConstantForm::is_special, crate::specs::ConstantForm::is_no_method_of_class))]
fn method_name_rule(pool: &Pool<'_>, forms: &mut TextForms, named: u16) -> Option<FormRule>
    requires { AreForms pool.now forms.now }
    ensures told { result ≡ broken_rule
        ((BadName, is_special pool.now named) ∷ (BadDescriptor, is_no_method_of_class pool.now named) ∷ []) }
    ensures kept { AreForms pool.now forms.new }
{
    let named = named_at(pool, named)?;
    let texts = named.texts;
    let form = forms.descriptor(pool, named.descriptor, texts.descriptor);
    if is_special_name(texts.name) {
        Some(FormRule::BadName)
    } else if !fits_method(false, texts.name, texts.descriptor, form) {
        Some(FormRule::BadDescriptor)
    } else {
        None
    }
}

/// Whether the name is a special one other than that of instance initialization methods.
fn is_special_name(name: Text<'_>) -> bool
    ensures { result ≡ is_special_name name.entry.bytes.now }
{
    begins_with(name, b'<') && !is_init(name)
}

#[tactic(auto, unfolding(crate::specs::ConstantForm::is_no_method_name))]
fn is_no_method_name(pool: &Pool<'_>, forms: &mut TextForms, index: u16) -> bool
    requires { AreForms pool.now forms.now }
    ensures told { result ≡ is_no_method_name pool.now index }
    ensures kept { AreForms pool.now forms.new }
{
    match named_at(pool, index) {
        Some(named) => !forms.name(pool, named.name, named.texts.name).method_name,
        None => false,
    }
}

/// Whether one of a reference's indices may not be looked up.
#[tactic(auto, unfolding(crate::specs::ConstantForm::has_bad))]
fn has_bad(pool: &Pool<'_>, class: u16, named: u16) -> bool
    ensures { result ≡ has_bad pool.now class named }
{
    is_bad(pool, class) || is_bad(pool, named)
}

/// Whether one of a reference's indices breaks a rule, 20 or 21; each is looked up once for both.
#[tactic(auto, unfolding(crate::specs::ConstantForm::has_bad, crate::specs::ConstantForm::has_other))]
fn has_fault(pool: &Pool<'_>, class: u16, named: u16) -> bool
    ensures { result ≡ (has_bad pool.now class named || has_other pool.now class named) }
{
    lacks(pool, ConstantKind::Class, class) || lacks(pool, ConstantKind::NameAndType, named)
}

/// Whether the index of a name or that of a descriptor may not be looked up.
#[tactic(auto, unfolding(crate::specs::ConstantForm::texts_have_bad))]
pub fn texts_have_bad(pool: &Pool<'_>, name: u16, descriptor: u16) -> bool
    ensures { result ≡ texts_have_bad pool.now name descriptor }
{
    is_bad(pool, name) || is_bad(pool, descriptor)
}

/// Whether the index of a name or that of a descriptor breaks a rule, 20 or 21; each is looked up once for both.
#[tactic(auto, unfolding(crate::specs::ConstantForm::texts_have_bad, crate::specs::ConstantForm::texts_have_other))]
pub fn texts_have_fault(pool: &Pool<'_>, name: u16, descriptor: u16) -> bool
    ensures { result ≡ (texts_have_bad pool.now name descriptor || texts_have_other pool.now name descriptor) }
{
    lacks(pool, ConstantKind::Utf8, name) || lacks(pool, ConstantKind::Utf8, descriptor)
}

#[tactic(auto, unfolding(pool::specs::Lookups::text_at, crate::specs::Indices::is_bad, crate::specs::Indices::is_other, crate::specs::ConstantForm::is_no_class_name))]
fn class_rule(pool: &Pool<'_>, forms: &mut TextForms, name: u16) -> Option<FormRule>
    requires { AreForms pool.now forms.now }
    ensures told { result ≡ broken_rule (class_conditions pool.now name) }
    ensures kept { AreForms pool.now forms.new }
{
    match pool.text(name) {
        Ok(text) => {
            if forms.names_class(pool, name, text) {
                None
            } else {
                Some(FormRule::BadName)
            }
        }
        Err(_) => Some(index_rule(is_bad(pool, name))),
    }
}

fn string_rule(pool: &Pool<'_>, text: u16) -> Option<FormRule>
    ensures { result ≡ broken_rule (string_conditions pool.now text) }
{
    if lacks(pool, ConstantKind::Utf8, text) {
        Some(index_rule(is_bad(pool, text)))
    } else {
        None
    }
}

fn field_rule(pool: &Pool<'_>, forms: &mut TextForms, class: u16, named: u16) -> Option<FormRule>
    requires { AreForms pool.now forms.now }
    ensures told { result ≡ broken_rule (field_conditions pool.now class named) }
    ensures kept { AreForms pool.now forms.new }
{
    if has_fault(pool, class, named) {
        Some(index_rule(has_bad(pool, class, named)))
    } else if is_array_class(pool, class) {
        Some(FormRule::BadName)
    } else if is_no_field(pool, forms, named) {
        Some(FormRule::BadDescriptor)
    } else {
        None
    }
}

fn method_rule(pool: &Pool<'_>, forms: &mut TextForms, class: u16, named: u16) -> Option<FormRule>
    requires { AreForms pool.now forms.now }
    ensures told { result ≡ broken_rule (method_conditions pool.now class named) }
    ensures kept { AreForms pool.now forms.new }
{
    if has_fault(pool, class, named) {
        Some(index_rule(has_bad(pool, class, named)))
    } else {
        method_name_rule(pool, forms, named)
    }
}

fn interface_method_rule(
    pool: &Pool<'_>,
    forms: &mut TextForms,
    class: u16,
    named: u16,
) -> Option<FormRule>
    requires { AreForms pool.now forms.now }
    ensures told { result ≡ broken_rule (interface_method_conditions pool.now class named) }
    ensures kept { AreForms pool.now forms.new }
{
    if has_fault(pool, class, named) {
        Some(index_rule(has_bad(pool, class, named)))
    } else if is_array_class(pool, class) || is_no_method_name(pool, forms, named) {
        Some(FormRule::BadName)
    } else if is_no_method(pool, forms, named) {
        Some(FormRule::BadDescriptor)
    } else {
        None
    }
}

#[tactic(auto, unfolding(pool::specs::Lookups::text_at, crate::specs::Indices::is_bad, crate::specs::Indices::is_other, crate::specs::ConstantForm::texts_have_bad, crate::specs::ConstantForm::texts_have_other, crate::specs::ConstantForm::is_no_unqualified_name, crate::specs::ConstantForm::is_no_descriptor))]
fn name_and_type_rule(
    pool: &Pool<'_>,
    forms: &mut TextForms,
    name: u16,
    descriptor: u16,
) -> Option<FormRule>
    requires { AreForms pool.now forms.now }
    ensures told { result ≡ broken_rule (name_and_type_conditions pool.now name descriptor) }
    ensures kept { AreForms pool.now forms.new }
{
    let (Ok(name_text), Ok(text)) = (pool.text(name), pool.text(descriptor)) else {
        return Some(index_rule(texts_have_bad(pool, name, descriptor)));
    };
    if !forms.name(pool, name, name_text).unqualified_name {
        return Some(FormRule::BadName);
    }
    let form = forms.descriptor(pool, descriptor, text);
    if !form.field && !form.method {
        Some(FormRule::BadDescriptor)
    } else {
        None
    }
}

fn method_handle_rule(major: u16, pool: &Pool<'_>, reference: u16) -> Option<FormRule>
    ensures { result ≡ broken_rule (method_handle_conditions major pool.now reference) }
{
    if lacks(pool, ConstantKind::Reference, reference) {
        Some(index_rule(is_bad(pool, reference)))
    } else if major < 51 {
        Some(FormRule::WrongKind)
    } else {
        None
    }
}

fn method_type_rule(
    major: u16,
    pool: &Pool<'_>,
    forms: &mut TextForms,
    descriptor: u16,
) -> Option<FormRule>
    requires { AreForms pool.now forms.now }
    ensures told { result ≡ broken_rule (method_type_conditions major pool.now descriptor) }
    ensures kept { AreForms pool.now forms.new }
{
    if lacks(pool, ConstantKind::Utf8, descriptor) {
        Some(index_rule(is_bad(pool, descriptor)))
    } else if major < 51 {
        Some(FormRule::WrongKind)
    } else if is_no_method_descriptor(pool, forms, descriptor) {
        Some(FormRule::BadDescriptor)
    } else {
        None
    }
}

fn dynamic_rule(major: u16, pool: &Pool<'_>, forms: &mut TextForms, named: u16) -> Option<FormRule>
    requires { AreForms pool.now forms.now }
    ensures told { result ≡ broken_rule (dynamic_conditions major pool.now named) }
    ensures kept { AreForms pool.now forms.new }
{
    if is_bad(pool, named) {
        Some(FormRule::BadIndex)
    } else if is_other(pool, ConstantKind::NameAndType, named) || major < 55 {
        Some(FormRule::WrongKind)
    } else if is_no_field(pool, forms, named) {
        Some(FormRule::BadDescriptor)
    } else {
        None
    }
}

fn invoke_dynamic_rule(
    major: u16,
    pool: &Pool<'_>,
    forms: &mut TextForms,
    named: u16,
) -> Option<FormRule>
    requires { AreForms pool.now forms.now }
    ensures told { result ≡ broken_rule (invoke_dynamic_conditions major pool.now named) }
    ensures kept { AreForms pool.now forms.new }
{
    if lacks(pool, ConstantKind::NameAndType, named) {
        Some(index_rule(is_bad(pool, named)))
    } else if major < 51 {
        Some(FormRule::WrongKind)
    } else if is_no_method(pool, forms, named) {
        Some(FormRule::BadDescriptor)
    } else {
        None
    }
}

/// The rule that a constant breaks in a class of this major version.
#[tactic(auto, unfolding(crate::specs::ConstantForm::constant_conditions))]
pub fn constant_rule(
    major: u16,
    pool: &Pool<'_>,
    forms: &mut TextForms,
    constant: &Constant<'_>,
) -> Option<FormRule>
    requires { AreForms pool.now forms.now }
    ensures told { result ≡ broken_rule (constant_conditions major pool.now (view constant.now)) }
    ensures kept { AreForms pool.now forms.new }
{
    match *constant {
        Constant::Utf8(_)
        | Constant::Integer { .. }
        | Constant::Float { .. }
        | Constant::Long { .. }
        | Constant::Double { .. }
        | Constant::Unusable => None,
        Constant::Class { name } => class_rule(pool, forms, name),
        Constant::String { text } => string_rule(pool, text),
        Constant::Fieldref {
            class,
            name_and_type,
        } => field_rule(pool, forms, class, name_and_type),
        Constant::Methodref {
            class,
            name_and_type,
        } => method_rule(pool, forms, class, name_and_type),
        Constant::InterfaceMethodref {
            class,
            name_and_type,
        } => { interface_method_rule(pool, forms, class, name_and_type) }
        Constant::NameAndType { name, descriptor } => name_and_type_rule(
            pool, forms, name, descriptor,
        ),
        Constant::MethodHandle { reference, .. } => method_handle_rule(major, pool, reference),
        Constant::MethodType { descriptor } => method_type_rule(major, pool, forms, descriptor),
        Constant::Dynamic { name_and_type, .. } => dynamic_rule(major, pool, forms, name_and_type),
        Constant::InvokeDynamic { name_and_type, .. } => invoke_dynamic_rule(
            major,
            pool,
            forms,
            name_and_type,
        ),
    }
}
