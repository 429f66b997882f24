//! Why a list of classes is refused.
ghost use Rattle.hierarchy.specs.declared.fault.HierarchyFault.TheVariants.{OutOfMemory};
ghost use Rattle.hierarchy.specs.Faults.{number_of};
ghost use Rattle.std.specs.Prelude.{◌≡◌};

use std::alloc::{AllocError, AllocFailed};
use thiserror::Error;

/// Why a list of classes is refused. A fault with a name carries that of the first class in the list that has the
/// fault.
#[derive(Clone, Copy, Debug, PartialEq, Eq, Error)]
pub enum HierarchyFault<'a> {
    /// 1: there was no memory left.
    #[error("out of memory")]
    OutOfMemory,
    /// 40: the class stands more than once in the list.
    #[error("a class stands twice")]
    ClassTwice { name: &'a [u8] },
    /// 41: the class stands on the chain of its own superclasses.
    #[error("a class is its own superclass")]
    Cycle { name: &'a [u8] },
    /// 42: the class, which is not `java/lang/Object`, has no superclass, or one that is not in the list.
    #[error("a superclass is missing")]
    SuperMissing { name: &'a [u8] },
    /// 43: `java/lang/Object` is absent, is an interface, or has a superclass.
    #[error("java/lang/Object is missing or wrong")]
    NoObject,
    /// 44: `java/lang/Cloneable` or `java/io/Serializable` is in the list and is not an interface.
    #[error("an interface of arrays is a class")]
    BadArrayInterface { name: &'a [u8] },
    /// 45: the list has more than 65,535 classes.
    #[error("too many classes")]
    TooManyClasses,
    /// 46: the superclass of the interface is not `java/lang/Object` (JVMS 4.1).
    #[error("an interface has a superclass other than java/lang/Object")]
    InterfaceSuper { name: &'a [u8] },
}

impl<'a> HierarchyFault<'a> {
    /// The number of the refusal: 1, or 40 to 46.
    pub fn number(&self) -> u8
        ensures { result ≡ number_of self.now }
    {
        match *self {
            HierarchyFault::OutOfMemory => 1,
            HierarchyFault::ClassTwice { .. } => 40,
            HierarchyFault::Cycle { .. } => 41,
            HierarchyFault::SuperMissing { .. } => 42,
            HierarchyFault::NoObject => 43,
            HierarchyFault::BadArrayInterface { .. } => 44,
            HierarchyFault::TooManyClasses => 45,
            HierarchyFault::InterfaceSuper { .. } => 46,
        }
    }
}

impl<'a> From<AllocError> for HierarchyFault<'a> {
    ghost from_gives = { λ _ e. e ≡ OutOfMemory };

    fn from(_e: AllocError) -> HierarchyFault<'a> {
        HierarchyFault::OutOfMemory
    }
}

impl<'a, T: Drop> From<AllocFailed<T>> for HierarchyFault<'a> {
    ghost from_gives = { λ _ e. e ≡ OutOfMemory };

    fn from(_e: AllocFailed<T>) -> HierarchyFault<'a> {
        HierarchyFault::OutOfMemory
    }
}
