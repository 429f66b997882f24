//! The types that Class constants name.
ghost use Rattle.std.specs.Prelude.{◌≡◌, option_map};
ghost use Rattle.names.specs.References.{reference_view};
ghost use Rattle.pool.specs.ConstantMeanings.{class_at};

use crate::constant_pool::Pool;
use names::{RefType, reference_type};

impl<'a> Pool<'a> {
    /// The type that the Class constant at this index names (JVMS 4.4.1); none where no other stands there, or its text
    /// is of neither form. Takes no memory.
    pub fn class_type(&self, index: u16) -> Option<RefType<'a>>
        ensures { option_map reference_view result ≡ class_at self.now index }
    {
        match self.class_name(index) {
            Ok(text) => reference_type(text),
            Err(_) => None,
        }
    }
}
