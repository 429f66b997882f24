//! The classes that entries of a stack map name by the constant pool. The name of an array class is read once.
ghost use Rattle.std.specs.Prelude.{◌≡◌, IfOk};
ghost use Rattle.pool.specs.Lookups.{entry_at};
ghost use Rattle.pool.specs.ConstantMeanings.{class_at};
ghost use Rattle.frames.specs.VerificationType.{type_of};
ghost use Rattle.frames.specs.MapViews.{info_of};
ghost use Rattle.frames.specs.DeclaredFrames.{is_absent, is_other, object_type, type_given};

use crate::naming::reference_to;
use crate::stack_map::TypeInfo;
use crate::vtype::VType;
use pool::{Constant, ConstantTypes, Pool};
use std::alloc::AllocError;

// The type that the Class constant of an index names, or top.
fn object_type<'a>(
    constants: &mut ConstantTypes<'_, 'a>,
    class: u16,
) -> Result<VType<'a>, AllocError>
    ensures same { constants.new ≡ constants.old }
    ensures named { IfOk result (λ t. type_of t ≡ object_type (class_at constants.old class)) }
{
    match constants.class_type(class)? {
        Some(named) => Ok(reference_to(named)),
        None => Ok(VType::Top),
    }
}

/// The type that an entry gives.
pub fn type_given<'a>(
    constants: &mut ConstantTypes<'_, 'a>,
    info: TypeInfo,
) -> Result<VType<'a>, AllocError>
    ensures same { constants.new ≡ constants.old }
    ensures given { IfOk result (λ t. type_of t ≡ type_given constants.old (info_of info)) }
{
    match info {
        TypeInfo::Top => Ok(VType::Top),
        TypeInfo::Integer => Ok(VType::Int),
        TypeInfo::Float => Ok(VType::Float),
        TypeInfo::Double => Ok(VType::Double),
        TypeInfo::Long => Ok(VType::Long),
        TypeInfo::Null => Ok(VType::Null),
        TypeInfo::UninitializedThis => Ok(VType::UninitThis),
        TypeInfo::Object(class) => object_type(constants, class),
        TypeInfo::Uninitialized(offset) => Ok(VType::Uninit(offset)),
    }
}

/// Whether nothing stands at an index.
#[inline(always)]
pub fn is_absent(pool: &Pool<'_>, index: u16) -> bool
    ensures { result ≡ is_absent (entry_at pool.now index) }
{
    match pool.get(index) {
        Ok(_) => false,
        Err(_) => true,
    }
}

/// Whether another constant than a class stands at an index.
#[inline(always)]
pub fn is_other(pool: &Pool<'_>, index: u16) -> bool
    ensures { result ≡ is_other (entry_at pool.now index) }
{
    match pool.get(index) {
        Ok(Constant::Class { .. }) => false,
        Ok(_) => true,
        Err(_) => false,
    }
}
