//! From bytes to a class, and from a class to bytes.
ghost use Rattle.std.specs.Prelude.{◌≡◌, ℕ, List, IfOk, IfErr};
ghost use Rattle.layout.specs.Format.{AreBytes, Spells};
ghost use Rattle.layout.specs.Whole.{WholeFault};
ghost use Rattle.layout.specs.Faults.{UnlessMemory};
ghost use Rattle.layout.specs.Pieces.{Delivers};
ghost use Rattle.layout.specs.declared.fault.ReadFault.TheVariants.{OutOfMemory, BytesAfter};
ghost use Rattle.layout.specs.declared.fault.WriteFault.TheVariants as writing;
ghost use Rattle.classfile.specs.Values.{Class};
ghost use Rattle.classfile.specs.ClassFile.{class, IsClass, ClassFault};
ghost use Rattle.classfile.specs.declared.versions.Versions.TheVariants.{Java7To17};
ghost use Rattle.classfile.specs.Encoding.{Encodes};
ghost use Rattle.classfile.specs.private.Pieces.{class_pieces};
ghost use Rattle.classfile.specs.Views.{class_view};

use crate::class_file::{ClassFile, class, put_class};
use crate::versions::Versions;
use layout::{Cursor, MAX_CLASS_BYTES, Output, ReadFault, WriteFault};
use std::alloc::Global;

/// The class of Java SE 7 to 17 that the bytes spell (JVMS 4.1), which borrows its texts, bodies and code from them.
///
/// Otherwise the first fault in the order of the file, each with its place in bytes: 2 where a part passes the
/// end, 3 for a bad text, 7 for a tag or a method handle's kind, 10 for the magic number, 11 for the version,
/// 12 for an attribute that is read by field and does not use exactly its length, 13 for bytes after the class,
/// 14 at 0 for more than 16,777,216 bytes, before anything is read, and 16 for a pool without a count;
/// or 1 where memory runs out.
pub fn decode(alloc: Global, bytes: &[u8]) -> Result<ClassFile<'_>, ReadFault>
    // The bytes spell the class that is returned.
    ensures found { IfOk result (λ c. IsClass Java7To17 bytes.now (class_view c)) }
    // A class that the bytes spell is returned, unless memory runs out.
    ensures only { (c : Class) → IsClass Java7To17 bytes.now c → IfErr result (λ e. e ≡ OutOfMemory) }
    // Which fault it is.
    ensures fault { IfErr result (λ e. UnlessMemory e (ClassFault Java7To17 bytes.now e)) }
{
    decode_under(alloc, Versions::Java7To17, bytes)
}

/// The class of one of these versions that the bytes spell, as [`decode`] answers it.
pub fn decode_under(
    alloc: Global,
    versions: Versions,
    bytes: &[u8],
) -> Result<ClassFile<'_>, ReadFault>
    // The bytes spell the class that is returned.
    ensures found { IfOk result (λ c. IsClass versions bytes.now (class_view c)) }
    // A class that the bytes spell is returned, unless memory runs out.
    ensures only { (c : Class) → IsClass versions bytes.now c → IfErr result (λ e. e ≡ OutOfMemory) }
    // Which fault it is.
    ensures fault { IfErr result (λ e. UnlessMemory e (ClassFault versions bytes.now e)) }
{
    if bytes.len() > MAX_CLASS_BYTES {
        return Err(ReadFault::TooLong { at: 0 });
    }
    whole_class(alloc, versions, bytes)
}

/// The class that bytes within the limit spell.
fn whole_class(alloc: Global, versions: Versions, bytes: &[u8]) -> Result<ClassFile<'_>, ReadFault>
    ensures found { IfOk result (λ c. Spells (class versions) bytes.now (class_view c)) }
    ensures only { (c : Class) → Spells (class versions) bytes.now c → IfErr result (λ e. e ≡ OutOfMemory) }
    ensures fault { IfErr result (λ e. UnlessMemory e (WholeFault (class versions) BytesAfter bytes.now e)) }
{
    let mut cursor = Cursor::new(bytes);
    let class = class(alloc, versions, &mut cursor)?;
    if !cursor.rest().is_empty() {
        return Err(ReadFault::BytesAfter { at: cursor.at() });
    }
    Ok(class)
}

fn written(alloc: Global, versions: Versions, class: &ClassFile<'_>) -> Result<Vec<u8>, WriteFault>
    ensures { Delivers (class_pieces versions (class_view class.now)) (λ v. v.items) result }
{
    let mut out = Output::new(alloc);
    let answer = put_class(&mut out, versions, class);
    out.delivered(answer)
}

/// The bytes that spell a class of Java SE 7 to 17.
///
/// 17 where a count or a length passes its field or the parts have more than 16,777,216 bytes, and otherwise 18
/// where no bytes spell the class, as where a raw attribute would be read by field; or 1 where memory runs out.
pub fn encode(alloc: Global, class: &ClassFile<'_>) -> Result<Vec<u8>, WriteFault>
    // The bytes that are returned spell the class; and which refusal it is.
    ensures exact { Encodes Java7To17 (class_view class.now) (λ v. v.items) result }
    // A class that has a spelling is written, unless memory runs out.
    ensures only { (bytes : List ℕ) → AreBytes bytes → IsClass Java7To17 bytes (class_view class.now)
        → IfErr result (λ e. e ≡ writing.OutOfMemory) }
{
    encode_under(alloc, Versions::Java7To17, class)
}

/// The bytes that spell the class in one of these versions, as [`encode`] answers them.
pub fn encode_under(
    alloc: Global,
    versions: Versions,
    class: &ClassFile<'_>,
) -> Result<Vec<u8>, WriteFault>
    // The bytes that are returned spell the class; and which refusal it is.
    ensures exact { Encodes versions (class_view class.now) (λ v. v.items) result }
    // A class that has a spelling is written, unless memory runs out.
    ensures only { (bytes : List ℕ) → AreBytes bytes → IsClass versions bytes (class_view class.now)
        → IfErr result (λ e. e ≡ writing.OutOfMemory) }
{
    written(alloc, versions, class)
}
