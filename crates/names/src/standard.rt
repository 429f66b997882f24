//! Names that the standard speaks of.

/// The class above all others (JVMS 4.1).
pub const OBJECT: &[u8] = b"java/lang/Object";

/// An interface of every array (JVMS 4.10.1.2).
pub const CLONEABLE: &[u8] = b"java/lang/Cloneable";

/// The other interface of every array (JVMS 4.10.1.2).
pub const SERIALIZABLE: &[u8] = b"java/io/Serializable";

/// The class of all objects that are raised (JVMS 2.10).
pub const THROWABLE: &[u8] = b"java/lang/Throwable";

/// Instance initialization methods (JVMS 2.9.1).
pub const INIT: &[u8] = b"<init>";

/// The class of strings (JVMS 4.4.3).
pub const STRING: &[u8] = b"java/lang/String";

/// The class of classes (JVMS 5.1).
pub const CLASS: &[u8] = b"java/lang/Class";

/// The class of method types (JVMS 4.4.9).
pub const METHOD_TYPE: &[u8] = b"java/lang/invoke/MethodType";

/// The class of method handles (JVMS 4.4.8).
pub const METHOD_HANDLE: &[u8] = b"java/lang/invoke/MethodHandle";
