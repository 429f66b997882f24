//! Method handles that lead to what their kind asks, names of methods, and bootstrap methods (JVMS 4.4.6, 4.4.8,
//! 4.4.10).
ghost use Rattle.std.specs.Prelude.{◌≡◌, ◌||◌, not, [], ◌∷◌, IfOk};
ghost use Rattle.classfile.specs.Conditions.{broken_rule};
ghost use Rattle.classfile.specs.Indices.{on_found, on_text};
ghost use Rattle.classfile.specs.Naming.{is_init, is_method_name};
ghost use Rattle.classfile.specs.private.TextForms.{AreForms};
ghost use Rattle.classfile.specs.release.Constants.{misnames_method, is_misnamed, is_field_kind, is_method_kind, is_interface_kind, leads_as, leads_otherwise, creates, is_other_method, has_other_method, leads_to_other_method, handle_conditions, lacks_bootstrap, constant_conditions};
ghost use Rattle.pool.specs.Lookups.{named, text_at};
ghost use Rattle.classfile.specs.declared.form_fault.FormRule.TheVariants.{BadBootstrap};
ghost use Rattle.classfile.specs.Views.{class_view};
ghost use Rattle.pool.specs.Views.{view, name_and_type_view};

use crate::bootstraps::Bootstraps;
use crate::class_file::ClassFile;
use crate::form_fault::FormRule;
use crate::naming::{begins_with, is_init};
use crate::text_forms::TextForms;
use pool::{Constant, NameAndType, Pool, ReferenceKind};
use std::alloc::AllocError;

/// Whether the text at the index, if there is one, is neither `<init>` nor the name of a method that is not special.
fn is_misnamed_method(pool: &Pool<'_>, forms: &mut TextForms, name: u16) -> bool
    requires { AreForms pool.now forms.now }
    ensures told { result ≡ on_text pool.now name (λ t. not (is_init t || is_method_name t)) }
    ensures kept { AreForms pool.now forms.new }
{
    match pool.text(name) {
        Ok(text) if !is_init(text) => !forms.is_method_name(pool, name, text),
        Ok(_) | Err(_) => false,
    }
}

/// Whether a method is named otherwise than methods are.
#[tactic(auto, unfolding(pool::specs::Lookups::named, crate::specs::release::Constants::is_misnamed))]
fn is_misnamed(pool: &Pool<'_>, forms: &mut TextForms, name: u16, descriptor: u16) -> bool
    requires { AreForms pool.now forms.now }
    ensures told { result ≡ is_misnamed pool.now name descriptor }
    ensures kept { AreForms pool.now forms.new }
{
    match pool.text(descriptor) {
        Ok(text) if begins_with(text, b'(') => is_misnamed_method(pool, forms, name),
        Ok(_) | Err(_) => false,
    }
}

fn is_field_kind(kind: ReferenceKind) -> bool
    ensures { result ≡ is_field_kind kind }
{
    matches!(
        kind,
        ReferenceKind::GetField
            | ReferenceKind::GetStatic
            | ReferenceKind::PutField
            | ReferenceKind::PutStatic
    )
}

fn is_method_kind(kind: ReferenceKind) -> bool
    ensures { result ≡ is_method_kind kind }
{
    matches!(
        kind,
        ReferenceKind::InvokeVirtual
            | ReferenceKind::InvokeStatic
            | ReferenceKind::InvokeSpecial
            | ReferenceKind::NewInvokeSpecial
    )
}

fn is_interface_kind(major: u16, kind: ReferenceKind) -> bool
    ensures { result ≡ is_interface_kind major kind }
{
    match kind {
        ReferenceKind::InvokeInterface => true,
        ReferenceKind::InvokeStatic | ReferenceKind::InvokeSpecial => major > 51,
        _ => false,
    }
}

/// Whether a method handle of this kind, in a class of this major version, leads to such a constant.
fn leads_as(major: u16, kind: ReferenceKind, constant: &Constant<'_>) -> bool
    ensures { result ≡ leads_as major kind (view constant.now) }
{
    match constant {
        Constant::Fieldref { .. } => is_field_kind(kind),
        Constant::Methodref { .. } => is_method_kind(kind),
        Constant::InterfaceMethodref { .. } => is_interface_kind(major, kind),
        _ => true,
    }
}

#[tactic(auto, unfolding(crate::specs::release::Constants::leads_otherwise))]
fn leads_otherwise(major: u16, pool: &Pool<'_>, kind: ReferenceKind, reference: u16) -> bool
    ensures { result ≡ leads_otherwise major pool.now kind reference }
{
    match pool.get(reference) {
        Ok(constant) => !leads_as(major, kind, &constant),
        Err(_) => false,
    }
}

/// Whether a method handle of this kind leads to no method of this name.
fn is_other_method(kind: ReferenceKind, texts: NameAndType<'_>) -> bool
    ensures { result ≡ is_other_method kind (name_and_type_view texts.entry) }
{
    let creates = matches!(kind, ReferenceKind::NewInvokeSpecial);
    if is_init(texts.name) {
        !creates
    } else {
        creates
    }
}

fn has_other_method(pool: &Pool<'_>, kind: ReferenceKind, constant: &Constant<'_>) -> bool
    ensures { result ≡ has_other_method pool.now kind (view constant.now) }
{
    let (Constant::Methodref { name_and_type, .. }
    | Constant::InterfaceMethodref { name_and_type, .. }) = constant
    else {
        return false;
    };
    match pool.name_and_type(*name_and_type) {
        Ok(texts) => is_other_method(kind, texts),
        Err(_) => false,
    }
}

#[tactic(auto, unfolding(crate::specs::release::Constants::leads_to_other_method))]
fn leads_to_other_method(pool: &Pool<'_>, kind: ReferenceKind, reference: u16) -> bool
    ensures { result ≡ leads_to_other_method pool.now kind reference }
{
    match pool.get(reference) {
        Ok(constant) => has_other_method(pool, kind, &constant),
        Err(_) => false,
    }
}

fn method_handle_rule(
    major: u16,
    pool: &Pool<'_>,
    kind: ReferenceKind,
    reference: u16,
) -> Option<FormRule>
    ensures { result ≡ broken_rule (handle_conditions major pool.now kind reference) }
{
    if leads_otherwise(major, pool, kind, reference) {
        Some(FormRule::WrongKind)
    } else if leads_to_other_method(pool, kind, reference) {
        Some(FormRule::BadName)
    } else {
        None
    }
}

/// The rule of a constant that leads to the bootstrap method of this number.
#[tactic(auto, unfolding(crate::specs::release::Constants::lacks_bootstrap))]
fn bootstrap_rule(
    bootstraps: &mut Bootstraps<'_, '_>,
    number: u16,
) -> Result<Option<FormRule>, AllocError>
    ensures told { IfOk result (λ r. r ≡ broken_rule ((BadBootstrap, lacks_bootstrap (class_view bootstraps.old) number) ∷ [])) }
    ensures same { bootstraps.new ≡ bootstraps.old }
{
    if bootstraps.has(number)? {
        Ok(None)
    } else {
        Ok(Some(FormRule::BadBootstrap))
    }
}

/// The rule that a constant of the class breaks.
#[tactic(auto, unfolding(crate::specs::release::Constants::constant_conditions))]
pub fn constant_rule(
    class: &ClassFile<'_>,
    forms: &mut TextForms,
    bootstraps: &mut Bootstraps<'_, '_>,
    constant: &Constant<'_>,
) -> Result<Option<FormRule>, AllocError>
    requires forms { AreForms class.now.constant_pool forms.now }
    requires class { bootstraps.now ≡ class.now }
    ensures told { IfOk result (λ r. r ≡ broken_rule (constant_conditions (class_view class.now) (view constant.now))) }
    ensures kept { AreForms class.now.constant_pool forms.new }
    ensures same { bootstraps.new ≡ bootstraps.old }
{
    let (major, pool) = (class.major_version, &class.constant_pool);
    match *constant {
        Constant::NameAndType { name, descriptor } if is_misnamed(pool, forms, name, descriptor) =>
            { Ok(Some(FormRule::BadName)) }
        Constant::MethodHandle { kind, reference } => {
            Ok(method_handle_rule(major, pool, kind, reference))
        }
        Constant::Dynamic { bootstrap, .. } | Constant::InvokeDynamic { bootstrap, .. } => {
            bootstrap_rule(bootstraps, bootstrap)
        }
        _ => Ok(None),
    }
}
