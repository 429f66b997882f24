//! Which rule a field or a method breaks (JVMS 4.5, 4.6).
ghost use Rattle.std.specs.Prelude.{◌≡◌, ◌||◌, Ok};
ghost use Rattle.classfile.specs.Conditions.{broken_rule};
ghost use Rattle.classfile.specs.MemberForm.{member_has_bad, member_has_other, field_conditions, may_name_method, is_bad_method_name, may_describe_method, is_badly_described, is_instance_initializer, is_class_initializer, is_badly_flagged, has_body, body_conditions, method_conditions};
ghost use Rattle.classfile.specs.private.MemberTexts.{HasTexts, AreSoundTexts, named_method_conditions};
ghost use Rattle.classfile.specs.private.TextForms.{name_form_of, descriptor_form_of, AreForms};
ghost use Rattle.classfile.specs.Views.{member_view};
ghost use Rattle.pool.specs.Lookups.{text_at};
ghost use Rattle.pool.specs.Views.{name_and_type_view};

use crate::attribute_form::{
    attributes_have_bad, attributes_have_fault, has_code, have_bad_length, have_twice,
};
use crate::constant_form::{
    is_no_field_descriptor, is_no_unqualified_name, texts_have_bad, texts_have_fault,
};
use crate::flags::{ABSTRACT, NATIVE, STATIC, are_bad_field_flags, are_bad_method_flags, has};
use crate::form_fault::FormRule;
use crate::indices::index_rule;
use crate::location::Location;
use crate::member::Member;
use crate::naming::{is_clinit, is_init};
use crate::repeated_attributes::numbers_stand_twice;
use crate::text_forms::{DescriptorForm, NameForm, TextForms, fits_method};
use names::Text;
use pool::{NameAndType, Pool};

#[tactic(auto, unfolding(crate::specs::MemberForm::member_has_bad))]
fn member_has_bad(pool: &Pool<'_>, member: &Member<'_>) -> bool
    ensures { result ≡ member_has_bad pool.now (member_view member.now) }
{
    texts_have_bad(pool, member.name, member.descriptor)
        || attributes_have_bad(pool, &member.attributes)
}

/// Whether one of its indices breaks a rule, 20 or 21; each is looked up once for both.
#[tactic(auto, unfolding(crate::specs::MemberForm::member_has_bad, crate::specs::MemberForm::member_has_other))]
fn member_has_fault(pool: &Pool<'_>, member: &Member<'_>) -> bool
    ensures { result ≡ (member_has_bad pool.now (member_view member.now)
        || member_has_other pool.now (member_view member.now)) }
{
    texts_have_fault(pool, member.name, member.descriptor)
        || attributes_have_fault(pool, &member.attributes)
}

/// The name and the descriptor of a member, each looked up once, if none of its indices breaks a rule, 20 or 21.
#[tactic(auto, unfolding(pool::specs::Lookups::text_at, crate::specs::Indices::is_bad, crate::specs::Indices::is_other, crate::specs::ConstantForm::texts_have_bad, crate::specs::ConstantForm::texts_have_other, crate::specs::MemberForm::member_has_bad, crate::specs::MemberForm::member_has_other))]
fn sound_texts<'a>(pool: &Pool<'a>, member: &Member<'_>) -> Option<NameAndType<'a>>
    ensures { AreSoundTexts pool.now (member_view member.now) result }
{
    let Ok(name) = pool.text(member.name) else {
        return None;
    };
    let Ok(descriptor) = pool.text(member.descriptor) else {
        return None;
    };
    if attributes_have_fault(pool, &member.attributes) {
        return None;
    }
    Some(NameAndType { name, descriptor })
}

/// The rule that a field breaks; `repeated` where an earlier one has its name and descriptor.
pub fn field_rule(
    pool: &Pool<'_>,
    forms: &mut TextForms,
    repeated: bool,
    field: &Member<'_>,
) -> Option<FormRule>
    requires { AreForms pool.now forms.now }
    ensures told { result ≡ broken_rule (field_conditions pool.now repeated (member_view field.now)) }
    ensures kept { AreForms pool.now forms.new }
{
    if member_has_fault(pool, field) {
        Some(index_rule(member_has_bad(pool, field)))
    } else if is_no_unqualified_name(pool, forms, field.name) {
        Some(FormRule::BadName)
    } else if is_no_field_descriptor(pool, forms, field.descriptor) {
        Some(FormRule::BadDescriptor)
    } else if are_bad_field_flags(field.access_flags) {
        Some(FormRule::BadFlags)
    } else if repeated {
        Some(FormRule::Twice)
    } else if numbers_stand_twice(Location::Field, &field.attributes) {
        Some(FormRule::AttributeTwice)
    } else {
        None
    }
}

fn may_name_method(interface: bool, name: Text<'_>, form: NameForm) -> bool
    requires { form ≡ name_form_of name.bytes.now }
    ensures { result ≡ may_name_method interface name.entry.bytes.now }
{
    if is_init(name) {
        !interface
    } else {
        is_clinit(name) || form.method_name
    }
}

#[tactic(auto, unfolding(crate::specs::MemberForm::is_bad_method_name))]
fn is_bad_method_name(
    pool: &Pool<'_>,
    forms: &mut TextForms,
    interface: bool,
    index: u16,
    name: Text<'_>,
) -> bool
    requires forms { AreForms pool.now forms.now }
    requires name { text_at pool.now index ≡ Ok name.bytes.now }
    ensures told { result ≡ is_bad_method_name pool.now interface index }
    ensures kept { AreForms pool.now forms.new }
{
    !may_name_method(interface, name, forms.name(pool, index, name))
}

fn may_describe_method(receiver: bool, named: NameAndType<'_>, form: DescriptorForm) -> bool
    requires { form ≡ descriptor_form_of named.descriptor.bytes.now }
    ensures { result ≡ may_describe_method receiver (name_and_type_view named.entry) }
{
    if is_clinit(named.name) {
        named.descriptor.bytes() == b"()V".as_slice()
    } else {
        fits_method(receiver, named.name, named.descriptor, form)
    }
}

#[tactic(auto, unfolding(crate::specs::MemberForm::is_badly_described, pool::specs::Lookups::named))]
fn is_badly_described(
    pool: &Pool<'_>,
    forms: &mut TextForms,
    method: &Member<'_>,
    texts: NameAndType<'_>,
) -> bool
    requires forms { AreForms pool.now forms.now }
    requires texts { HasTexts pool.now (member_view method.now) texts }
    ensures told { result ≡ is_badly_described pool.now (member_view method.now) }
    ensures kept { AreForms pool.now forms.new }
{
    let receiver = !has(method.access_flags, STATIC);
    let form = forms.descriptor(pool, method.descriptor, texts.descriptor);
    !may_describe_method(receiver, texts, form)
}

#[tactic(auto, unfolding(crate::specs::MemberForm::is_instance_initializer))]
/// Whether the method is an instance initialization method (JVMS 2.9.1).
pub fn is_instance_initializer(pool: &Pool<'_>, method: &Member<'_>) -> bool
    ensures { result ≡ is_instance_initializer pool.now (member_view method.now) }
{
    match pool.text(method.name) {
        Ok(name) => is_init(name),
        Err(_) => false,
    }
}

/// Whether the method is a class initialization method (JVMS 2.9.2).
#[tactic(auto, unfolding(crate::specs::MemberForm::is_class_initializer))]
pub fn is_class_initializer(pool: &Pool<'_>, method: &Member<'_>) -> bool
    ensures { result ≡ is_class_initializer pool.now (member_view method.now) }
{
    match pool.text(method.name) {
        Ok(name) => is_clinit(name),
        Err(_) => false,
    }
}

#[tactic(auto, unfolding(crate::specs::MemberForm::is_badly_flagged, crate::specs::MemberForm::is_instance_initializer, crate::specs::MemberForm::is_class_initializer))]
fn is_badly_flagged(_pool: &Pool<'_>, method: &Member<'_>, name: Text<'_>) -> bool
    requires { text_at _pool.now method.now.name ≡ Ok name.bytes.now }
    ensures { result ≡ is_badly_flagged _pool.now (member_view method.now) }
{
    are_bad_method_flags(is_init(name), is_clinit(name), method.access_flags)
}

/// Whether the method has a body, so that its Code has to stand there.
#[tactic(auto, unfolding(crate::specs::MemberForm::has_body, crate::specs::MemberForm::is_class_initializer))]
fn has_body(_pool: &Pool<'_>, method: &Member<'_>, name: Text<'_>) -> bool
    requires { text_at _pool.now method.now.name ≡ Ok name.bytes.now }
    ensures { result ≡ has_body _pool.now (member_view method.now) }
{
    let flags = method.access_flags;
    is_clinit(name) || !(has(flags, NATIVE) || has(flags, ABSTRACT))
}

/// The rule that a method breaks in a class or in an interface; `repeated` where an earlier one has its name and
/// descriptor.
pub fn method_rule(
    pool: &Pool<'_>,
    forms: &mut TextForms,
    interface: bool,
    repeated: bool,
    method: &Member<'_>,
) -> Option<FormRule>
    requires { AreForms pool.now forms.now }
    ensures told { result ≡ broken_rule (method_conditions pool.now interface repeated (member_view method.now)) }
    ensures kept { AreForms pool.now forms.new }
{
    match sound_texts(pool, method) {
        Some(texts) => named_method_rule(pool, forms, interface, repeated, method, texts),
        None => Some(index_rule(member_has_bad(pool, method))),
    }
}

/// The rule that a method of this name and this descriptor breaks by another thing than an index.
fn named_method_rule(
    pool: &Pool<'_>,
    forms: &mut TextForms,
    interface: bool,
    repeated: bool,
    method: &Member<'_>,
    texts: NameAndType<'_>,
) -> Option<FormRule>
    requires forms { AreForms pool.now forms.now }
    requires texts { HasTexts pool.now (member_view method.now) texts }
    ensures told { result ≡ broken_rule (named_method_conditions pool.now interface repeated (member_view method.now)) }
    ensures kept { AreForms pool.now forms.new }
{
    if is_bad_method_name(pool, forms, interface, method.name, texts.name) {
        Some(FormRule::BadName)
    } else if is_badly_described(pool, forms, method, texts) {
        Some(FormRule::BadDescriptor)
    } else if is_badly_flagged(pool, method, texts.name) {
        Some(FormRule::BadFlags)
    } else if repeated {
        Some(FormRule::Twice)
    } else {
        body_rule(pool, method, texts.name)
    }
}

/// The rule that a method of this name breaks by its attributes.
fn body_rule(pool: &Pool<'_>, method: &Member<'_>, name: Text<'_>) -> Option<FormRule>
    requires { text_at pool.now method.now.name ≡ Ok name.bytes.now }
    ensures { result ≡ broken_rule (body_conditions pool.now (member_view method.now)) }
{
    let has_body = has_body(pool, method, name);
    let has_code = has_code(&method.attributes);
    if has_body && !has_code {
        Some(FormRule::CodeMissing)
    } else if !has_body && has_code {
        Some(FormRule::CodeNotAllowed)
    } else if have_bad_length(&method.attributes) {
        Some(FormRule::BadCodeLength)
    } else if have_twice(&method.attributes) {
        Some(FormRule::AttributeTwice)
    } else {
        None
    }
}
