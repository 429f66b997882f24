//! How messages are answered.
use answers::Form;
use classfile::Profile;

/// How messages are answered: the form of the texts, and how methods are judged.
#[derive(Clone, Copy, Debug, PartialEq, Eq)]
pub struct Setting {
    pub form: Form,
    pub profile: Profile,
}
