//! Whether a class file is well formed (JVMS 4.1 to 4.7).
ghost use Rattle.std.specs.Prelude.{◌≡◌, false, IfOk, IfErr, MatchResult};
ghost use Rattle.classfile.specs.private.TextForms.{AreForms};
ghost use Rattle.classfile.specs.private.Told.{entry_told, class_told, field_told, method_told};
ghost use Rattle.classfile.specs.Views.{class_view, member_view};
ghost use Rattle.pool.specs.Views.{view};
ghost use Rattle.classfile.specs.WellFormed.{WellFormed, Passes, TellsFirst};
ghost use Rattle.classfile.specs.declared.form_fault.FormFault.TheVariants.{OutOfMemory};
ghost use Rattle.classfile.specs.declared.form_fault.Place.TheVariants as places;

use crate::bootstraps::Bootstraps;
use crate::class_file::ClassFile;
use crate::class_form::class_rule;
use crate::constant_form::constant_rule;
use crate::duplicate_finder::DuplicateFinder;
use crate::flags::{INTERFACE, has};
use crate::form_fault::{FormFault, FormRule, Place};
use crate::member::Member;
use crate::member_form::{field_rule, method_rule};
use crate::profile::Profile;
use crate::release_form;
use crate::text_forms::TextForms;
use pool::Constant;
use std::alloc::{AllocError, Global};

/// A class file that is well formed.
#[derive(Clone, Copy)]
pub struct Formed<'c, 'a> {
    class: &'c ClassFile<'a>,
    pub(crate) dynamic: bool,
    pub ghost well_formed: { ∥ WellFormed (class_view class.now) ∥₁ },
}

impl<'c, 'a> Formed<'c, 'a> {
    ghost use Rattle.classfile.specs.CodeMethods.{judged_class, judged};

    /// The class file.
    pub fn class(self) -> &'c ClassFile<'a>
        ensures same { result.now ≡ self.entry.class.now }
        ensures formed { WellFormed (class_view result.now) }
    {
        self.class
    }

    /// The class, whose methods are judged by this profile. [`form_check`] answers it as [`Profile::Default`] says.
    pub fn under(self, profile: Profile) -> Formed<'c, 'a>
        ensures class { result.class.now ≡ self.entry.class.now }
        ensures judged { judged_class result ≡ judged profile (class_view self.entry.class.now) }
    {
        Formed {
            class: self.class,
            dynamic: profile.judges_dynamic(),
        }
    }
}

/// The rule that a constant of the class breaks; one of a release where it breaks no other.
fn entry_told(
    class: &ClassFile<'_>,
    forms: &mut TextForms,
    bootstraps: &mut Bootstraps<'_, '_>,
    constant: &Constant<'_>,
) -> Result<Option<FormRule>, AllocError>
    requires forms { AreForms class.now.constant_pool forms.now }
    requires class { bootstraps.now ≡ class.now }
    ensures told { IfOk result (λ r. r ≡ entry_told (class_view class.now) (view constant.now)) }
    ensures kept { AreForms class.now.constant_pool forms.new }
    ensures same { bootstraps.new ≡ bootstraps.old }
{
    let rule = constant_rule(class.major_version, &class.constant_pool, forms, constant);
    if rule.is_none() && class.release {
        return release_form::constant_rule(class, forms, bootstraps, constant);
    }
    Ok(rule)
}

/// The rule that the class itself breaks; one of a release where it breaks no other.
fn class_told(alloc: Global, class: &ClassFile<'_>) -> Result<Option<FormRule>, AllocError>
    ensures { IfOk result (λ r. r ≡ class_told (class_view class.now)) }
{
    let rule = class_rule(class);
    if rule.is_none() && class.release {
        return release_form::class_rule(alloc, class);
    }
    Ok(rule)
}

/// The rule that a field of the class breaks, where an earlier one has its name and descriptor or none has; one of a
/// release where it breaks no other.
fn field_told(
    class: &ClassFile<'_>,
    forms: &mut TextForms,
    repeated: bool,
    field: &Member<'_>,
) -> Option<FormRule>
    requires { AreForms class.now.constant_pool forms.now }
    ensures told { result ≡ field_told (class_view class.now) repeated (member_view field.now) }
    ensures kept { AreForms class.now.constant_pool forms.new }
{
    let rule = field_rule(&class.constant_pool, forms, repeated, field);
    if rule.is_none() && class.release {
        return release_form::field_rule(class, field);
    }
    rule
}

/// The rule that a method of the class breaks, where an earlier one has its name and descriptor or none has; one of a
/// release where it breaks no other.
fn method_told(
    alloc: Global,
    class: &ClassFile<'_>,
    forms: &mut TextForms,
    repeated: bool,
    method: &Member<'_>,
) -> Result<Option<FormRule>, AllocError>
    requires { AreForms class.now.constant_pool forms.now }
    ensures told { IfOk result (λ r. r ≡ method_told (class_view class.now) repeated (member_view method.now)) }
    ensures kept { AreForms class.now.constant_pool forms.new }
{
    let interface = has(class.access_flags, INTERFACE);
    let rule = method_rule(&class.constant_pool, forms, interface, repeated, method);
    if rule.is_none() && class.release {
        return release_form::method_rule(alloc, class, forms, method);
    }
    Ok(rule)
}

fn pool_form(alloc: Global, class: &ClassFile<'_>, forms: &mut TextForms) -> Result<(), FormFault>
    requires { AreForms class.now.constant_pool forms.now }
    ensures passes { Passes (class_view class.now) (λ n. places.Pool n) result }
    ensures kept { AreForms class.now.constant_pool forms.new }
{
    let mut bootstraps = Bootstraps::new(alloc, class);
    for (place, constant) in class.constant_pool.constants().iter().enumerate() {
        if let Some(rule) = entry_told(class, forms, &mut bootstraps, constant)? {
            return Err(FormFault::Broken {
                rule,
                place: Place::Pool(place + 1),
            });
        }
    }
    Ok(())
}

fn class_form(alloc: Global, class: &ClassFile<'_>) -> Result<(), FormFault>
    ensures { Passes (class_view class.now) (λ n. places.Class) result }
{
    match class_told(alloc, class)? {
        Some(rule) => Err(FormFault::Broken {
            rule,
            place: Place::Class,
        }),
        None => Ok(()),
    }
}

fn fields_form(alloc: Global, class: &ClassFile<'_>, forms: &mut TextForms) -> Result<(), FormFault>
    requires { AreForms class.now.constant_pool forms.now }
    ensures passes { Passes (class_view class.now) (λ n. places.Field n) result }
    ensures kept { AreForms class.now.constant_pool forms.new }
{
    let pool = &class.constant_pool;
    let mut seen = DuplicateFinder::new(alloc, pool, class.fields.len())?;
    for (n, field) in class.fields.iter().enumerate() {
        let repeated = seen.meet(pool, &class.fields[..n], field)?;
        if let Some(rule) = field_told(class, forms, repeated, field) {
            return Err(FormFault::Broken {
                rule,
                place: Place::Field(n),
            });
        }
    }
    Ok(())
}

fn methods_form(
    alloc: Global,
    class: &ClassFile<'_>,
    forms: &mut TextForms,
) -> Result<(), FormFault>
    requires { AreForms class.now.constant_pool forms.now }
    ensures { Passes (class_view class.now) (λ n. places.Method n) result }
{
    let pool = &class.constant_pool;
    let mut seen = DuplicateFinder::new(alloc, pool, class.methods.len())?;
    for (n, method) in class.methods.iter().enumerate() {
        let repeated = seen.meet(pool, &class.methods[..n], method)?;
        if let Some(rule) = method_told(alloc, class, forms, repeated, method)? {
            return Err(FormFault::Broken {
                rule,
                place: Place::Method(n),
            });
        }
    }
    Ok(())
}

/// All places in their order.
fn places_form(alloc: Global, class: &ClassFile<'_>) -> Result<(), FormFault>
    ensures { MatchResult result (λ _. WellFormed (class_view class.now)) (TellsFirst (class_view class.now)) }
{
    let mut forms = TextForms::new(alloc, &class.constant_pool)?;
    pool_form(alloc, class, &mut forms)?;
    class_form(alloc, class)?;
    fields_form(alloc, class, &mut forms)?;
    methods_form(alloc, class, &mut forms)
}

/// Whether the class file is well formed: the entries of its pool (JVMS 4.4), the class itself (4.1), its fields (4.5),
/// its methods (4.6) and their Code (4.7.3).
///
/// Otherwise the first place at which a rule is broken, in this order, with the least number that is broken there: 20
/// to 30, as [`FormRule`](crate::FormRule) has them; or 1 where memory runs out. Time grows with the class as n log n.
pub fn form_check<'c, 'a>(
    alloc: Global,
    class: &'c ClassFile<'a>,
) -> Result<Formed<'c, 'a>, FormFault>
    // The answer is this class, which is well formed.
    ensures same { IfOk result (λ f. f.class.now ≡ class.now) }
    ensures formed { IfOk result (λ _. WellFormed (class_view class.now)) }
    // Its methods are judged by the default profile.
    ensures default { IfOk result (λ f. f.dynamic ≡ false) }
    // A class that is well formed is returned, unless memory runs out.
    ensures only { WellFormed (class_view class.now) → IfErr result (λ e. e ≡ OutOfMemory) }
    // Which fault it is.
    ensures fault { IfErr result (TellsFirst (class_view class.now)) }
{
    places_form(alloc, class)?;
    Ok(Formed {
        class,
        dynamic: false,
    })
}
