//! The code of a class's methods, decoded and encoded again.

use classfile::{Attribute, ClassFile, CodeAttr, Member};
use insn::{CodeFault, Insn};
use layout::{MAX_CODE_BYTES, ReadFault, WriteFault};
use std::alloc::{AllocError, AllocFailed, Global};
use std::fmt;
use thiserror::Error;

/// How much code was decoded, and encoded to the same bytes.
#[derive(Clone, Copy)]
pub struct Count {
    methods: usize,
    instructions: usize,
    bytes: usize,
}

impl fmt::Display for Count {
    fn fmt<W: fmt::Write>(&self, f: &mut fmt::Formatter<W>) -> fmt::Result {
        let Count {
            methods,
            instructions,
            bytes,
        } = self;
        write!(
            f,
            "{methods} methods, {instructions} instructions, {bytes} bytes"
        )
    }
}

/// Why a class's code is not what it was.
#[derive(Clone, Copy, Debug, Error)]
pub enum Difference {
    /// It is not a class file.
    #[error("no class: {0}")]
    NoClass(ReadFault),
    /// A method's code is too long.
    #[error("code over 65535 bytes")]
    TooLong,
    /// A method's code is none.
    #[error("no code: {0}")]
    NoCode(CodeFault),
    /// The instructions are not encoded.
    #[error("not encoded: {0}")]
    NotEncoded(WriteFault),
    /// They are encoded as other bytes.
    #[error("encoded as other bytes")]
    OtherBytes,
    /// Memory ran out.
    #[error("no memory")]
    Memory,
}

impl From<AllocError> for Difference {
    fn from(_e: AllocError) -> Difference {
        Difference::Memory
    }
}

impl<T: Drop> From<AllocFailed<T>> for Difference {
    fn from(_e: AllocFailed<T>) -> Difference {
        Difference::Memory
    }
}

/// Decodes and encodes the code of each method of this class file.
pub fn code_of(alloc: Global, bytes: &[u8]) -> Result<Count, Difference> {
    let class = match classfile::decode(alloc, bytes) {
        Ok(class) => class,
        Err(fault) => return Err(Difference::NoClass(fault)),
    };
    let mut count = Count {
        methods: 0,
        instructions: 0,
        bytes: 0,
    };
    for method in &class.methods {
        for attribute in &method.attributes {
            if let Attribute::Code { code, .. } = attribute {
                let instructions = same_code(alloc, code.code)?;
                count.methods = count.methods.wrapping_add(1);
                count.instructions = count.instructions.wrapping_add(instructions);
                count.bytes = count.bytes.wrapping_add(code.code.len());
            }
        }
    }
    Ok(count)
}

/// Decodes this code and encodes it again; returns how many instructions it has.
fn same_code(alloc: Global, code: &[u8]) -> Result<usize, Difference> {
    if code.len() > MAX_CODE_BYTES {
        return Err(Difference::TooLong);
    }
    let list = match insn::decode_code(alloc, code) {
        Ok(list) => list,
        Err(fault) => return Err(Difference::NoCode(fault)),
    };
    let mut instructions: Vec<Insn<'_>> = Vec::with_capacity(alloc, list.len())?;
    for (_, insn) in &list {
        instructions.push(*insn)?;
    }
    let written = match insn::encode_code(alloc, &instructions) {
        Ok(written) => written,
        Err(fault) => return Err(Difference::NotEncoded(fault)),
    };
    if written.as_slice() != code {
        return Err(Difference::OtherBytes);
    }
    Ok(list.len())
}
