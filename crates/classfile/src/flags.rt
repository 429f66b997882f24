//! Access flags, and which of them may stand together (JVMS 4.1, 4.5, 4.6).
ghost use Rattle.std.specs.Prelude.{◌≡◌};
ghost use Rattle.std.specs.List.{list_any};
ghost use Rattle.classfile.specs.Flags.{has, breaks, class_flags, field_flags, method_flags, are_bad_class_flags, are_bad_field_flags, are_bad_method_flags, interface_field_flags, interface_method_flags, strict_flags, are_bad_interface_field, are_bad_interface_method, are_badly_strict};

/// ACC_PUBLIC, of classes, fields and methods.
pub const PUBLIC: u16 = 0x0001;
/// ACC_PRIVATE, of fields and methods.
pub const PRIVATE: u16 = 0x0002;
/// ACC_PROTECTED, of fields and methods.
pub const PROTECTED: u16 = 0x0004;
/// ACC_STATIC, of fields and methods.
pub const STATIC: u16 = 0x0008;
/// ACC_FINAL, of classes, fields and methods.
pub const FINAL: u16 = 0x0010;
/// ACC_SUPER, of classes.
pub const SUPER: u16 = 0x0020;
/// ACC_SYNCHRONIZED, of methods.
pub const SYNCHRONIZED: u16 = 0x0020;
/// ACC_VOLATILE, of fields.
pub const VOLATILE: u16 = 0x0040;
/// ACC_TRANSIENT, of fields.
pub const TRANSIENT: u16 = 0x0080;
/// ACC_BRIDGE, of methods.
pub const BRIDGE: u16 = 0x0040;
/// ACC_NATIVE, of methods.
pub const NATIVE: u16 = 0x0100;
/// ACC_INTERFACE, of classes.
pub const INTERFACE: u16 = 0x0200;
/// ACC_ABSTRACT, of classes and methods.
pub const ABSTRACT: u16 = 0x0400;
/// ACC_STRICT, of methods.
pub const STRICT: u16 = 0x0800;
/// ACC_ANNOTATION, of classes.
pub const ANNOTATION: u16 = 0x2000;
/// ACC_ENUM, of classes.
pub const ENUM: u16 = 0x4000;
/// ACC_MODULE, of classes.
pub const MODULE: u16 = 0x8000;

/// Flags that may not stand as they do: where all of `set` stand and none of `clear`, none of `excluded` may stand, and
/// all of `needed` have to.
#[derive(Clone, Copy)]
struct FlagRow {
    set: u16,
    clear: u16,
    excluded: u16,
    needed: u16,
}

/// The rows of a table that is written as `SET, CLEAR, EXCLUDED, NEEDED;`, one row a line.
macro_rules! flag_rows {
    ($($set:expr, $clear:expr, $excluded:expr, $needed:expr;)*) => {
        [$(FlagRow { set: $set, clear: $clear, excluded: $excluded, needed: $needed }),*]
    };
}

/// The rules for the flags of classes below major version 50, of which an interface is abstract without the flag.
static OLD_CLASS_FLAGS: [FlagRow; 4] = flag_rows! {
    0,         0,         MODULE,               0;
    INTERFACE, 0,         FINAL | SUPER | ENUM, 0;
    0,         INTERFACE, ANNOTATION,           0;
    FINAL,     INTERFACE, ABSTRACT,             0;
};

/// The rules for the flags of classes (JVMS 4.1).
static CLASS_FLAGS: [FlagRow; 4] = flag_rows! {
    0,         0,         MODULE,               0;
    INTERFACE, 0,         FINAL | SUPER | ENUM, ABSTRACT;
    0,         INTERFACE, ANNOTATION,           0;
    FINAL,     INTERFACE, ABSTRACT,             0;
};

/// The rules for the flags of fields (JVMS 4.5).
static FIELD_FLAGS: [FlagRow; 3] = flag_rows! {
    PUBLIC,    0,         PRIVATE | PROTECTED,  0;
    PRIVATE,   0,         PROTECTED,            0;
    FINAL,     0,         VOLATILE,             0;
};

/// The rules for the flags of methods (JVMS 4.6) that are no initialization methods.
static METHOD_FLAGS: [FlagRow; 3] = flag_rows! {
    PUBLIC,    0,         PRIVATE | PROTECTED,  0;
    PRIVATE,   0,         PROTECTED,            0;
    ABSTRACT,  0,         PRIVATE | STATIC | FINAL | SYNCHRONIZED | NATIVE, 0;
};

/// The rules for the flags of instance initialization methods.
static INIT_FLAGS: [FlagRow; 3] = flag_rows! {
    PUBLIC,    0,         PRIVATE | PROTECTED,  0;
    PRIVATE,   0,         PROTECTED,            0;
    0,         0,         STATIC | FINAL | SYNCHRONIZED | BRIDGE | NATIVE | ABSTRACT, 0;
};

/// The rule for the flags of class initialization methods: only this one counts.
static CLINIT_FLAGS: [FlagRow; 1] = flag_rows! {
    0,         0,         0,                    STATIC;
};

/// The rule for the flags of fields of interfaces (JVMS 4.5).
static INTERFACE_FIELD_FLAGS: [FlagRow; 1] = flag_rows! {
    0, 0, PRIVATE | PROTECTED | VOLATILE | TRANSIENT | ENUM, PUBLIC | STATIC | FINAL;
};

/// The rules for the flags of methods of interfaces below major version 52 (JVMS 4.6).
static OLD_INTERFACE_METHOD_FLAGS: [FlagRow; 2] = flag_rows! {
    0,         0,         PROTECTED | FINAL | SYNCHRONIZED | NATIVE, 0;
    0,         0,         0,                    PUBLIC | ABSTRACT;
};

/// The rules for the flags of methods of interfaces from major version 52 on (JVMS 4.6).
static INTERFACE_METHOD_FLAGS: [FlagRow; 2] = flag_rows! {
    0,         0,         PROTECTED | FINAL | SYNCHRONIZED | NATIVE, 0;
    0,         PUBLIC,    0,                    PRIVATE;
};

/// The rule for ACC_STRICT (JVMS 4.6).
static STRICT_FLAGS: [FlagRow; 1] = flag_rows! {
    ABSTRACT,  0,         STRICT,               0;
};

/// Whether the flag is set.
#[tactic(auto, unfolding(crate::specs::Flags::has))]
pub fn has(flags: u16, flag: u16) -> bool
    ensures { result ≡ has flags flag }
{
    flags & flag != 0
}

fn breaks(flags: u16, row: &FlagRow) -> bool
    ensures { result ≡ breaks flags row.now }
{
    let applies = (flags & row.set == row.set) & (flags & row.clear == 0);
    applies & ((flags & row.excluded != 0) | (flags & row.needed != row.needed))
}

fn break_one(flags: u16, rows: &[FlagRow]) -> bool
    ensures { result ≡ list_any (breaks flags) rows.now }
{
    rows.iter().any(|row| breaks(flags, row))
}

fn class_flags(major: u16) -> &'static [FlagRow]
    ensures { result.now ≡ class_flags major }
{
    if major < 50 {
        &OLD_CLASS_FLAGS
    } else {
        &CLASS_FLAGS
    }
}

fn field_flags() -> &'static [FlagRow]
    ensures { result.now ≡ field_flags }
{
    &FIELD_FLAGS
}

/// The rows of a method; `init` and `clinit` say that it is an instance or a class initialization method.
fn method_flags(init: bool, clinit: bool) -> &'static [FlagRow]
    ensures { result.now ≡ method_flags init clinit }
{
    if clinit {
        &CLINIT_FLAGS
    } else if init {
        &INIT_FLAGS
    } else {
        &METHOD_FLAGS
    }
}

/// Whether flags of a class of this major version stand together that may not (JVMS 4.1).
#[tactic(auto, unfolding(crate::specs::Flags::are_bad_class_flags))]
pub(crate) fn are_bad_class_flags(major: u16, flags: u16) -> bool
    ensures { result ≡ are_bad_class_flags major flags }
{
    break_one(flags, class_flags(major))
}

/// Whether flags of a field stand together that may not (JVMS 4.5).
#[tactic(auto, unfolding(crate::specs::Flags::are_bad_field_flags))]
pub(crate) fn are_bad_field_flags(flags: u16) -> bool
    ensures { result ≡ are_bad_field_flags flags }
{
    break_one(flags, field_flags())
}

/// Whether flags of a method stand together that may not (JVMS 4.6): `init` and `clinit` say that it is an instance
/// or a class initialization method. The rows are chosen first, so that their masks are known where they are compared.
#[tactic(auto, unfolding(crate::specs::Flags::are_bad_method_flags))]
pub(crate) fn are_bad_method_flags(init: bool, clinit: bool, flags: u16) -> bool
    ensures { result ≡ are_bad_method_flags init clinit flags }
{
    if clinit {
        break_one(flags, method_flags(init, true))
    } else if init {
        break_one(flags, method_flags(true, false))
    } else {
        break_one(flags, method_flags(false, false))
    }
}

fn interface_field_flags() -> &'static [FlagRow]
    ensures { result.now ≡ interface_field_flags }
{
    &INTERFACE_FIELD_FLAGS
}

fn interface_method_flags(major: u16) -> &'static [FlagRow]
    ensures { result.now ≡ interface_method_flags major }
{
    if major < 52 {
        &OLD_INTERFACE_METHOD_FLAGS
    } else {
        &INTERFACE_METHOD_FLAGS
    }
}

fn strict_flags() -> &'static [FlagRow]
    ensures { result.now ≡ strict_flags }
{
    &STRICT_FLAGS
}

/// Whether these are no flags of a field of an interface (JVMS 4.5).
#[tactic(auto, unfolding(crate::specs::Flags::are_bad_interface_field))]
pub(crate) fn are_bad_interface_field(flags: u16) -> bool
    ensures { result ≡ are_bad_interface_field flags }
{
    break_one(flags, interface_field_flags())
}

/// Whether these are no flags of a method of an interface of this major version (JVMS 4.6).
#[tactic(auto, unfolding(crate::specs::Flags::are_bad_interface_method))]
pub(crate) fn are_bad_interface_method(major: u16, flags: u16) -> bool
    ensures { result ≡ are_bad_interface_method major flags }
{
    break_one(flags, interface_method_flags(major))
}

/// Whether an abstract method is strict, in a class of a major version that has ACC_STRICT (JVMS 4.6).
#[tactic(auto, unfolding(crate::specs::Flags::are_badly_strict))]
pub(crate) fn are_badly_strict(major: u16, flags: u16) -> bool
    ensures { result ≡ are_badly_strict major flags }
{
    major >= 46 && major <= 60 && break_one(flags, strict_flags())
}
