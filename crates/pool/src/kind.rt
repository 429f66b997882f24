//! The kinds of a method handle's reference.
ghost use Rattle.std.specs.Prelude.{◌≡◌};
ghost use Rattle.pool.specs.Kinds.{kind_number, kind_of};

/// The way in which a method handle uses the member that it refers to (JVMS 4.4.8, table 5.4.3.5-A).
#[derive(Clone, Copy, Debug, PartialEq, Eq)]
pub enum ReferenceKind {
    /// 1, `REF_getField`
    GetField = 1,
    /// 2, `REF_getStatic`
    GetStatic = 2,
    /// 3, `REF_putField`
    PutField = 3,
    /// 4, `REF_putStatic`
    PutStatic = 4,
    /// 5, `REF_invokeVirtual`
    InvokeVirtual = 5,
    /// 6, `REF_invokeStatic`
    InvokeStatic = 6,
    /// 7, `REF_invokeSpecial`
    InvokeSpecial = 7,
    /// 8, `REF_newInvokeSpecial`
    NewInvokeSpecial = 8,
    /// 9, `REF_invokeInterface`
    InvokeInterface = 9,
}

impl ReferenceKind {
    /// The number of this kind in a class file.
    pub fn number(self) -> u8
        ensures { result ≡ kind_number self }
    {
        self as u8
    }

    /// The kind of this number; none outside 1 to 9.
    pub fn from_number(number: u8) -> Option<ReferenceKind>
        ensures { result ≡ kind_of number }
    {
        Some(match number {
            1 => ReferenceKind::GetField,
            2 => ReferenceKind::GetStatic,
            3 => ReferenceKind::PutField,
            4 => ReferenceKind::PutStatic,
            5 => ReferenceKind::InvokeVirtual,
            6 => ReferenceKind::InvokeStatic,
            7 => ReferenceKind::InvokeSpecial,
            8 => ReferenceKind::NewInvokeSpecial,
            9 => ReferenceKind::InvokeInterface,
            _ => return None,
        })
    }
}
