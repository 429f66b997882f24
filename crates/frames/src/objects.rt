//! The own object that is not initialized.
ghost use Rattle.std.specs.Prelude.{◌≡◌};
ghost use Rattle.frames.specs.VerificationType.{type_of};
ghost use Rattle.frames.specs.DeclaredFrames.{is_uninit_this};

use crate::vtype::VType;

/// Whether a type is that of the own object which is not initialized.
pub fn is_own(t: &VType<'_>) -> bool
    ensures own { result ≡ is_uninit_this (type_of t.now) }
{
    matches!(t, VType::UninitThis)
}
