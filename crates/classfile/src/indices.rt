//! The entry at an index of the constant pool: whether it may be looked up, and of which kind it is (JVMS 4.4).
ghost use Rattle.std.specs.Prelude.{◌≡◌, ◌||◌, if◌then◌else◌};
ghost use Rattle.classfile.specs.Indices.{is_of, is_bad, is_bad_unless_zero, is_other};
ghost use Rattle.classfile.specs.declared.form_fault.FormRule.TheVariants.{BadIndex, WrongKind};
ghost use Rattle.pool.specs.Views.{view};

use crate::form_fault::FormRule;
use pool::{Constant, Pool};

/// The kinds of constants that class files ask for at an index.
#[derive(Clone, Copy, Debug, PartialEq, Eq)]
pub enum ConstantKind {
    /// A Utf8 (JVMS 4.4.7).
    Utf8,
    /// A Class (JVMS 4.4.1).
    Class,
    /// A NameAndType (JVMS 4.4.6).
    NameAndType,
    /// A Fieldref, a Methodref or an InterfaceMethodref (JVMS 4.4.2).
    Reference,
    /// An Integer, a Float, a Long, a Double or a String (JVMS 4.4.3 to 4.4.5).
    Value,
}

fn is_of(kind: ConstantKind, constant: &Constant<'_>) -> bool
    ensures { result ≡ is_of kind (view constant.now) }
{
    match kind {
        ConstantKind::Utf8 => matches!(constant, Constant::Utf8(_)),
        ConstantKind::Class => matches!(constant, Constant::Class { .. }),
        ConstantKind::NameAndType => matches!(constant, Constant::NameAndType { .. }),
        ConstantKind::Reference => matches!(
            constant,
            Constant::Fieldref { .. }
                | Constant::Methodref { .. }
                | Constant::InterfaceMethodref { .. }
        ),
        ConstantKind::Value => matches!(
            constant,
            Constant::Integer { .. }
                | Constant::Float { .. }
                | Constant::Long { .. }
                | Constant::Double { .. }
                | Constant::String { .. }
        ),
    }
}

/// Whether nothing may be looked up at the index.
#[tactic(auto, unfolding(crate::specs::Indices::is_bad))]
pub fn is_bad(pool: &Pool<'_>, index: u16) -> bool
    ensures { result ≡ is_bad pool.now index }
{
    pool.get(index).is_err()
}

/// Whether nothing may be looked up at the index, which may be 0.
pub fn is_bad_unless_zero(pool: &Pool<'_>, index: u16) -> bool
    ensures { result ≡ is_bad_unless_zero pool.now index }
{
    index != 0 && is_bad(pool, index)
}

/// Whether a constant of another kind stands at the index.
#[tactic(auto, unfolding(crate::specs::Indices::is_other))]
pub fn is_other(pool: &Pool<'_>, kind: ConstantKind, index: u16) -> bool
    ensures { result ≡ is_other pool.now kind index }
{
    match pool.get(index) {
        Ok(constant) => !is_of(kind, &constant),
        Err(_) => false,
    }
}

/// Whether no constant of the kind stands at the index.
#[tactic(auto, unfolding(crate::specs::Indices::is_bad, crate::specs::Indices::is_other))]
pub fn lacks(pool: &Pool<'_>, kind: ConstantKind, index: u16) -> bool
    ensures { result ≡ (is_bad pool.now index || is_other pool.now kind index) }
{
    match pool.get(index) {
        Ok(constant) => !is_of(kind, &constant),
        Err(_) => true,
    }
}

/// Whether no constant of the kind stands at the index, which may be 0.
#[tactic(auto, unfolding(crate::specs::Indices::is_other, pool::specs::Lookups::entry_at))]
pub fn lacks_unless_zero(pool: &Pool<'_>, kind: ConstantKind, index: u16) -> bool
    ensures { result ≡ (is_bad_unless_zero pool.now index || is_other pool.now kind index) }
{
    index != 0 && lacks(pool, kind, index)
}

/// The rule that is reported for indices that break one: 20 where one may not be looked up.
pub fn index_rule(bad: bool) -> FormRule
    ensures { result ≡ (if bad then BadIndex else WrongKind) }
{
    if bad {
        FormRule::BadIndex
    } else {
        FormRule::WrongKind
    }
}
