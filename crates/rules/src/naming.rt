//! The constant that an instruction names.
ghost use Rattle.std.specs.Prelude.{◌≡◌, ℕ, option_map, IfOk, IfSome};
ghost use Rattle.insn.specs.Views.{act_view};
ghost use Rattle.names.specs.Types.{type_of};
ghost use Rattle.std.specs.Option.{option_and_then};
ghost use Rattle.pool.specs.ConstantMeanings.{constant_at, field_at};
ghost use Rattle.pool.specs.ConstantViews.{field_constant_view, method_constant_view, call_site_view};
ghost use Rattle.rules.specs.Bodies.{method_view};
ghost use Rattle.rules.specs.Constants.{bootstrap_of, is_bootstrapped};
ghost use Rattle.rules.specs.Naming.{IsNamed, is_own, kept_class, kept_field, kept_own, kept_method, kept_type, kept_site, kept_bootstrapped};

use crate::declaring_class::own_class;
use classfile::{Bootstraps, CodeMethod, OwnFields};
use insn::Act;
use names::{FieldType, RefType};
use pool::{CallSite, Constant, ConstantTypes, FieldConstant, MethodConstant, Pool};
use std::alloc::AllocError;

/// The thing that an instruction names, where the constant is one that it may name.
#[derive(Drop)]
pub enum Named<'a> {
    /// The instruction names nothing that is looked up, or it is `new`.
    Nothing,
    /// The type that its Class constant names.
    Class(Option<RefType<'a>>),
    /// Its field.
    Field {
        field: Option<FieldConstant<'a>>,
        /// Whether it is `putfield` of a field of the class itself, in a constructor.
        own: bool,
    },
    /// Its method.
    Method(Option<MethodConstant<'a>>),
    /// The type of the constant that it loads, where that is a Dynamic.
    Computed {
        computed: Option<FieldType<'a>>,
        /// Whether the class has a bootstrap method for the constant that may be used.
        bootstrapped: bool,
    },
    /// Its call site.
    Site {
        site: Option<CallSite<'a>>,
        /// Whether the class has a bootstrap method for the call site that may be used.
        bootstrapped: bool,
    },
}

impl<'a> Named<'a> {
    /// The type that the instruction names.
    #[inline(never)]
    pub fn class(&self) -> Option<RefType<'a>>
        ensures { result ≡ kept_class self.now }
    {
        match self {
            Named::Class(class) => *class,
            _ => None,
        }
    }

    /// The field that the instruction names.
    #[inline(never)]
    pub fn field(&self) -> Option<FieldConstant<'a>>
        ensures { result ≡ kept_field self.now }
    {
        match self {
            Named::Field { field, .. } => *field,
            _ => None,
        }
    }

    /// Whether it is a field of the class itself that a constructor sets.
    pub fn is_own(&self) -> bool
        ensures { result ≡ kept_own self.now }
    {
        match self {
            Named::Field { own, .. } => *own,
            _ => false,
        }
    }

    /// The method that the instruction names.
    pub fn method(&self) -> Option<&MethodConstant<'a>>
        ensures { option_map (λ c. method_constant_view c.now) result
            ≡ option_map method_constant_view (kept_method self.now) }
    {
        match self {
            Named::Method(Some(method)) => Some(method),
            _ => None,
        }
    }

    /// The type of the Dynamic constant that the instruction loads.
    pub fn computed(&self) -> Option<FieldType<'a>>
        ensures { result ≡ kept_type self.now }
    {
        match self {
            Named::Computed { computed, .. } => *computed,
            _ => None,
        }
    }

    /// The call site that the instruction names.
    pub fn site(&self) -> Option<&CallSite<'a>>
        ensures { option_map (λ c. call_site_view c.now) result ≡ option_map call_site_view (kept_site self.now) }
    {
        match self {
            Named::Site {
                site: Some(site),
                ..
            } => Some(site),
            _ => None,
        }
    }

    /// Whether the class has a bootstrap method that may be used for the constant that the instruction names; true for
    /// a constant that is neither a Dynamic nor an InvokeDynamic.
    pub fn is_bootstrapped(&self) -> bool
        ensures { result ≡ kept_bootstrapped self.now }
    {
        match self {
            Named::Computed { bootstrapped, .. } | Named::Site { bootstrapped, .. } => {
                *bootstrapped
            }
            _ => true,
        }
    }
}

/// Whether the method is a constructor, and its class declares the field that the Fieldref at an index names.
pub fn is_own<'a>(
    fields: &mut OwnFields<'_, 'a>,
    method: &CodeMethod<'_, 'a>,
    index: u16,
    field: Option<FieldConstant<'a>>,
) -> Result<bool, AllocError>
    requires class { fields.old ≡ method.now.class.now }
    requires found { option_map field_constant_view field ≡ field_at (method_view method.now).constant_pool index }
    ensures same { fields.new ≡ fields.old }
    ensures own { IfOk result (λ b. b ≡ is_own (method_view method.now) (option_map field_constant_view field.entry)) }
{
    let Some(field) = field else {
        return Ok(false);
    };
    if !method.is_init || !(fields.names_class(index) || own_class(method) == field.class) {
        return Ok(false);
    }
    fields.declares(index)
}

/// The number of the bootstrap method of a Dynamic or an InvokeDynamic.
fn bootstrap_of(pool: &Pool<'_>, index: u16) -> Option<u16>
    ensures { result ≡ option_and_then bootstrap_of (constant_at pool.now index) }
{
    match pool.get(index) {
        Ok(Constant::Dynamic { bootstrap, .. }) => Some(bootstrap),
        Ok(Constant::InvokeDynamic { bootstrap, .. }) => Some(bootstrap),
        Ok(_) | Err(_) => None,
    }
}

/// Whether the class has a bootstrap method for the constant at an index that may be used. Where such constants are
/// refused, no bootstrap method is looked at.
pub fn is_bootstrapped(
    bootstraps: &mut Bootstraps<'_, '_>,
    method: &CodeMethod<'_, '_>,
    index: u16,
) -> Result<bool, AllocError>
    requires class { bootstraps.old ≡ method.now.class.now }
    ensures same { bootstraps.new ≡ bootstraps.old }
    ensures found { let m = method_view method.now in
        IfOk result (λ b. b ≡ is_bootstrapped m (constant_at m.constant_pool index)) }
{
    let Some(number) = bootstrap_of(&method.class.constant_pool, index) else {
        return Ok(true);
    };
    if !method.dynamic {
        return Ok(false);
    }
    bootstraps.has(number)
}

/// Looks up the constant that an instruction with this act names, by the constants, the fields and the bootstrap
/// methods of its class. The only refusal: memory ran out.
pub fn named_by<'a>(
    constants: &mut ConstantTypes<'_, 'a>,
    fields: &mut OwnFields<'_, 'a>,
    bootstraps: &mut Bootstraps<'_, 'a>,
    method: &CodeMethod<'_, 'a>,
    act: &Act<'a>,
) -> Result<Named<'a>, AllocError>
    requires constants { constants.old ≡ method.now.class.now.constant_pool }
    requires fields { fields.old ≡ method.now.class.now }
    requires bootstraps { bootstraps.old ≡ method.now.class.now }
    ensures same { constants.new ≡ constants.old }
    ensures same_fields { fields.new ≡ fields.old }
    ensures same_bootstraps { bootstraps.new ≡ bootstraps.old }
    ensures found { IfOk result (IsNamed (method_view method.now) (act_view act.now)) }
{
    match *act {
        Act::NewReferenceArray { index }
        | Act::NewMultiArray { index, .. }
        | Act::CheckCast { index }
        | Act::InstanceOf { index } => Ok(Named::Class(constants.class_type(index)?)),
        Act::GetStatic { index } | Act::PutStatic { index } | Act::GetField { index } => {
            let field = constants.field_constant(index)?;
            Ok(Named::Field { field, own: false })
        }
        Act::PutField { index } => {
            let field = constants.field_constant(index)?;
            let own = is_own(fields, method, index, field)?;
            Ok(Named::Field { field, own })
        }
        Act::InvokeVirtual { index }
        | Act::InvokeSpecial { index }
        | Act::InvokeStatic { index }
        | Act::InvokeInterface { index, .. } => Ok(Named::Method(constants.method_constant(
            index,
        )?)),
        Act::LoadConstant { index } | Act::LoadWideConstant { index } => {
            let computed = constants.dynamic_type(index)?;
            let bootstrapped = is_bootstrapped(bootstraps, method, index)?;
            Ok(Named::Computed {
                computed,
                bootstrapped,
            })
        }
        Act::InvokeDynamic { index } => {
            let site = constants.call_site(index)?;
            let bootstrapped = is_bootstrapped(bootstraps, method, index)?;
            Ok(Named::Site { site, bootstrapped })
        }
        _ => Ok(Named::Nothing),
    }
}
