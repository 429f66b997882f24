//! Flags, names, and texts of the constant pool.
ghost use Rattle.std.specs.Prelude.{◌≡◌, ◌<◌, ◌∷◌};
ghost use Rattle.printing.specs.Writing.{Writes};
ghost use Rattle.printing.specs.Names.{digit, hexadecimal, is_plain, unit_text, name_text, constant_text, class_text};

use crate::print::{Print, WriteFailed, put_bytes};
use crate::runs::{Escapes, put_units};
use names::{Text, check_text, first_set};
use pool::Pool;
use std::io::Write;
use std::simd::prelude::*;

/// A number in four lowercase hexadecimal digits, as flags are written.
#[derive(Clone, Copy)]
pub struct Hexadecimal(pub u16);

/// The digit of a number below 16.
pub fn digit(n: u16) -> u8
    requires { n < 16 }
    ensures { result ≡ digit n }
{
    let n = n as u8;
    if n < 10 { n + b'0' } else { n + 87 }
}

impl Print for Hexadecimal {
    ghost text = { λ t. hexadecimal t.0 };

    fn put<W: Write>(&self, out: &mut W) -> Result<(), WriteFailed> {
        let n = self.0;
        put_bytes(
            out,
            &[
                digit(n / 4096),
                digit(n / 256 % 16),
                digit(n / 16 % 16),
                digit(n % 16),
            ],
        )
    }
}

/// A name, unit by unit (JVMS 4.4.7): printable ASCII as it is, and any other unit and the backslash
/// as `\u` and four small hexadecimal digits.
#[derive(Clone, Copy)]
pub struct Name<'a>(pub Text<'a>);

/// Whether a unit stands as it is.
pub(crate) fn is_plain(unit: u16) -> bool
    ensures { result ≡ is_plain unit }
{
    unit >= 32 && unit <= 126 && unit != 92
}

/// Writes `\u` and the four small hexadecimal digits of a unit.
pub(crate) fn put_escape<W: Write>(out: &mut W, unit: u16) -> Result<(), WriteFailed>
    ensures { Writes (W.contents out.old) (W.contents out.new) (92 ∷ 117 ∷ hexadecimal unit) result }
{
    put_bytes(
        out,
        &[
            b'\\',
            b'u',
            digit(unit / 4096),
            digit(unit / 256 % 16),
            digit(unit / 16 % 16),
            digit(unit % 16),
        ],
    )
}

fn put_unit<W: Write>(out: &mut W, unit: u16) -> Result<(), WriteFailed>
    ensures { Writes (W.contents out.old) (W.contents out.new) (unit_text unit) result }
{
    if is_plain(unit) {
        put_bytes(out, &[unit as u8])
    } else {
        put_escape(out, unit)
    }
}

/// The escapes of a [`Name`].
struct NameEscapes;

impl Escapes for NameEscapes {
    ghost text = { unit_text };

    fn stands(byte: u8) -> bool {
        is_plain(u16::from(byte))
    }

    fn in_sixteen(bytes: &[u8], at: usize) -> usize {
        let v = u8x16::from_slice(&bytes[at..]);
        let outside = (v - u8x16::splat(32)).simd_ge(u8x16::splat(127 - 32));
        let stops = outside | v.simd_eq(u8x16::splat(92));
        first_set(stops.to_bitmask(), 16)
    }

    fn put_unit<W: Write>(out: &mut W, unit: u16) -> Result<(), WriteFailed> {
        put_unit(out, unit)
    }
}

impl<'a> Print for Name<'a> {
    ghost text = { λ t. name_text t.0.bytes.now };

    fn put<W: Write>(&self, out: &mut W) -> Result<(), WriteFailed> {
        put_units::<NameEscapes, W>(self.0.bytes(), out)
    }
}

/// Bytes that spell a text, as a [`Name`]. Of other bytes nothing is written.
#[derive(Clone, Copy)]
pub struct Spelled<'a>(pub &'a [u8]);

impl<'a> Print for Spelled<'a> {
    ghost use Rattle.printing.specs.Names.{spelled_text};

    ghost text = { λ t. spelled_text t.0.now };

    fn put<W: Write>(&self, out: &mut W) -> Result<(), WriteFailed> {
        match check_text(self.0) {
            Ok(text) => Name(text).put(out),
            Err(_) => put_bytes(out, &[]),
        }
    }
}

/// The text at an index of the constant pool (JVMS 4.4.7), with the escapes of a [`Name`].
#[derive(Clone, Copy)]
pub struct ConstantText<'p, 'a> {
    pub pool: &'p Pool<'a>,
    pub index: u16,
}

impl<'p, 'a> Print for ConstantText<'p, 'a> {
    ghost text = { λ t. constant_text t.pool.now t.index };

    fn put<W: Write>(&self, out: &mut W) -> Result<(), WriteFailed> {
        match self.pool.text(self.index) {
            Ok(text) => Name(text).put(out),
            Err(_) => put_bytes(out, &[]),
        }
    }
}

/// The name of the class at an index of the constant pool (JVMS 4.4.1), with the escapes of a [`Name`].
#[derive(Clone, Copy)]
pub struct ClassName<'p, 'a> {
    pub pool: &'p Pool<'a>,
    pub index: u16,
}

impl<'p, 'a> Print for ClassName<'p, 'a> {
    ghost text = { λ t. class_text t.pool.now t.index };

    fn put<W: Write>(&self, out: &mut W) -> Result<(), WriteFailed> {
        match self.pool.class_name(self.index) {
            Ok(text) => Name(text).put(out),
            Err(_) => put_bytes(out, &[]),
        }
    }
}
