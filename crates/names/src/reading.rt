//! Reading descriptors: from the front of a text byte by byte, and then whether the text ends there and
//! the limits hold.

ghost use Rattle.std.specs.Prelude.{◌≡◌, ◌⊎◌, ◌↔◌, Bool, Ok, Err, Some, ◌≤◌, ◌<◌, ◌-◌, ℕ, true, false, List, ◌∷◌, ◌++◌, [], drop, length, vec_len, ◌==◌, MatchResult, IfOk, OnOk, IfErr, IfSome, IsErrAnd, IsOkAnd};
ghost use Rattle.std.specs.List.{prefix_len};
ghost use Rattle.names.specs.Descriptors.{FieldDescriptor, MethodDescriptor, SpellsField, SpellsMethod, base_of, dimensions, method_width, AreWithinDimensions};
ghost use Rattle.names.specs.Names.{bracket};
ghost use Rattle.names.specs.Faults.{IsFieldFault, IsMethodFault};
ghost use Rattle.names.specs.Reading.{found, outside, read_class, primitive_of, read_base, read_field, read_params, read_result, method_type, field_answer, method_answer, read_method, result_answer};
ghost use Rattle.std.specs.Option.{option_map};
ghost use Rattle.names.specs.ReadTypes.{type_read, KeepsTypes, ReadsParams, FailsParams, ReadsMethod, FailsMethod, PassesParams, PassesMethod, IsLimited, IsFitting};
ghost use Rattle.names.specs.Types.{type_of, method_of};
ghost use Rattle.names.specs.Answers.{IsFieldAnswer, IsMethodAnswer};
ghost use Rattle.names.specs.declared.fault.NameFault.{NameFault};
ghost use Rattle.names.specs.declared.fault.NameFault.TheVariants.{OutOfMemory, BadDescriptor, TooManyDimensions, TooWide};

use crate::base::{Base, Primitive};
use crate::descriptor::{FieldType, MethodType};
use crate::fault::NameFault;
use crate::name::class_name_front;
use crate::text::Text;
use std::alloc::{AllocError, Global};

/// No value at the front of the bytes: `rest` begins with the first byte that fits none.
#[derive(Clone, Copy)]
pub(crate) struct Outside<'a> {
    pub(crate) rest: &'a [u8],
}

/// Whether the bytes begin with this one.
pub(crate) fn is_first(bytes: &[u8], b: u8) -> bool
    ensures yes { result ≡ true → bytes.now ≡ b ∷ drop 1 bytes.now }
    ensures no { result ≡ false → (rest : List ℕ) → bytes.now ≡ b ∷ rest → ⊥ }
{
    match bytes.split_first() {
        None => false,
        Some((first, _)) => *first == b,
    }
}

/// A class name up to its `;`, and the bytes after that.
fn read_class(bytes: &[u8]) -> Result<(&[u8], &[u8]), Outside<'_>>
    ensures { MatchResult result (λ x. read_class true bytes.now ≡ found x.0.now x.1.now)
        (λ e. read_class true bytes.now ≡ outside e.rest.now) }
{
    let (front, fresh) = class_name_front(bytes);
    let (name, rest) = bytes.split_at(front);
    match rest.split_first() {
        None => Err(Outside { rest }),
        Some((b, after)) => {
            if fresh || *b != b';' {
                return Err(Outside { rest });
            }
            Ok((name, after))
        }
    }
}

/// The primitive type that a letter stands for, if it stands for one (JVMS Table 4.3-A).
#[inline(always)]
pub fn primitive_of(letter: u8) -> Option<Primitive>
    ensures { result ≡ primitive_of letter }
{
    match letter {
        b'B' => Some(Primitive::Byte),
        b'C' => Some(Primitive::Char),
        b'D' => Some(Primitive::Double),
        b'F' => Some(Primitive::Float),
        b'I' => Some(Primitive::Int),
        b'J' => Some(Primitive::Long),
        b'S' => Some(Primitive::Short),
        b'Z' => Some(Primitive::Boolean),
        _ => None,
    }
}

/// A primitive type or a class, and the bytes after it.
fn read_base(bytes: &[u8]) -> Result<(Base<'_>, &[u8]), Outside<'_>>
    ensures { MatchResult result (λ x. read_base bytes.now ≡ found (base_of x.0) x.1.now)
        (λ e. read_base bytes.now ≡ outside e.rest.now) }
{
    match bytes.split_first() {
        None => Err(Outside { rest: bytes }),
        Some((b'L', after)) => match read_class(after) {
            Ok((name, after)) => Ok((Base::Class(name), after)),
            Err(stop) => Err(stop),
        },
        Some((letter, after)) => match primitive_of(*letter) {
            Some(primitive) => Ok((Base::Primitive(primitive), after)),
            None => Err(Outside { rest: bytes }),
        },
    }
}

/// A field type with any number of dimensions.
#[derive(Clone, Copy)]
pub(crate) struct FieldRead<'a> {
    pub(crate) dims: usize,
    pub(crate) base: Base<'a>,
}

impl<'a> FieldRead<'a> {
    /// The type, if its dimensions are at most 255.
    pub(crate) fn limited(self) -> Result<FieldType<'a>, NameFault>
        ensures within { IfOk result (λ f. (type_of f ≡ type_read self.entry) × (self.entry.dims ≤ 255)) }
        ensures deep { IfErr result (λ e. (e ≡ TooManyDimensions) × (255 < self.entry.dims)) }
    {
        if self.dims > 255 {
            return Err(NameFault::TooManyDimensions);
        }
        Ok(FieldType {
            dims: self.dims as u8,
            base: self.base,
        })
    }
}

/// How many `[` the bytes begin with: where a type stands there, its dimensions (JVMS 4.3.2).
pub fn brackets(bytes: &[u8]) -> usize
    ensures within { result ≤ length bytes.now }
    ensures count { result ≡ prefix_len (λ b. b == bracket) bytes.now }
{
    bytes.iter().take_while(|b| **b == b'[').count()
}

/// A field type, and the bytes after it.
pub(crate) fn read_field(bytes: &[u8]) -> Result<(FieldRead<'_>, &[u8]), Outside<'_>>
    ensures { MatchResult result (λ x. read_field bytes.now ≡ found (type_read x.0) x.1.now)
        (λ e. read_field bytes.now ≡ outside e.rest.now) }
{
    let dims = brackets(bytes);
    let (_, rest) = bytes.split_at(dims);
    match read_base(rest) {
        Ok((base, after)) => Ok((FieldRead { dims, base }, after)),
        Err(stop) => Err(stop),
    }
}

/// The bytes are no descriptor with the first of `rest`, which is what is left of them.
pub(crate) fn bad_descriptor(bytes: &[u8], rest: &[u8]) -> NameFault
    requires { length rest.now ≤ length bytes.now }
    ensures { result ≡ BadDescriptor (length bytes.now - length rest.now) }
{
    NameFault::BadDescriptor {
        at: bytes.len() - rest.len(),
    }
}

fn judge_field(bytes: &[u8]) -> Result<FieldType<'_>, NameFault>
    ensures { IsFieldAnswer bytes.now result }
{
    match read_field(bytes) {
        Err(stop) => Err(bad_descriptor(bytes, stop.rest)),
        Ok((field, rest)) => {
            if !rest.is_empty() {
                return Err(bad_descriptor(bytes, rest));
            }
            field.limited()
        }
    }
}

/// The type that a field descriptor names (JVMS 4.3.2). Takes no memory.
///
/// Refuses by 4 a text that is not a field descriptor, and by 5 one with more than 255 dimensions.
pub fn field_type(text: Text<'_>) -> Result<FieldType<'_>, NameFault>
    // A type exactly where the text is its descriptor, and its dimensions are at most 255.
    ensures found { IfOk result (λ f. SpellsField text.entry.bytes.now (type_of f)) }
    ensures accepted { (t : FieldDescriptor) → SpellsField text.entry.bytes.now t → dimensions t ≤ 255
        → IsOkAnd result (λ f. type_of f ≡ t) }

    // A refusal exactly where it holds of the text; it is never 1.
    ensures fault { IfErr result (λ e. IsFieldFault text.entry.bytes.now e) }
    ensures refused { (e : NameFault) → IsFieldFault text.entry.bytes.now e → result ≡ Err e }

    // So says the word that computes.
    ensures computed { IsFieldAnswer text.entry.bytes.now result }
{
    judge_field(text.bytes())
}

/// The parameters of a method while they are read.
#[derive(Drop)]
struct Params<'a> {
    /// The types so far; some are missing once `deep` or `wide` is set.
    types: Vec<FieldType<'a>>,
    /// Whether one of the types has more than 255 dimensions.
    deep: bool,
    /// Whether there are more than 255 types.
    wide: bool,
}

impl<'a> Params<'a> {
    fn add(&mut self, field: FieldRead<'a>) -> Result<(), AllocError>
        ensures { OnOk result ((types : List FieldDescriptor) → KeepsTypes self.old types
            → KeepsTypes self.new (types ++ type_read field.entry ∷ [])) }
    {
        match field.limited() {
            Err(_) => self.deep = true,
            Ok(t) => {
                if self.types.len() < 255 {
                    self.types.push(t)?;
                } else {
                    self.wide = true;
                }
            }
        }
        Ok(())
    }
}

/// Field types up to a `)`, and what stands after that. The bytes are the end of a text of `total` bytes.
fn read_params<'a>(
    alloc: Global,
    bytes: &'a [u8],
    total: usize,
) -> Result<(Params<'a>, &'a [u8]), NameFault>
    requires { length bytes.now ≤ total }
    ensures read { IfOk result (λ x. ReadsParams bytes.now x.0 x.1.now) }
    ensures fault { IfErr result (λ e. (e ≡ OutOfMemory) ⊎ FailsParams bytes.now total e) }
{
    let mut params = Params {
        types: Vec::new(alloc),
        deep: false,
        wide: false,
    };
    let mut rest = bytes;
    'types: loop {
        if is_first(rest, b')') {
            let (_, after) = rest.split_at(1);
            return Ok((params, after));
        }
        match read_field(rest) {
            Ok((field, after)) => {
                params.add(field)?;
                rest = after;
            }
            Err(stop) => {
                let at = total - stop.rest.len();
                return Err(NameFault::BadDescriptor { at });
            }
        }
    }
}

/// A field type or a `V`, and what stands after it.
pub(crate) fn read_result(bytes: &[u8]) -> Result<(Option<FieldRead<'_>>, &[u8]), Outside<'_>>
    ensures { MatchResult result (λ x. read_result bytes.now ≡ found (option_map type_read x.0) x.1.now)
        (λ e. read_result bytes.now ≡ outside e.rest.now) }
{
    if is_first(bytes, b'V') {
        let (_, after) = bytes.split_at(1);
        return Ok((None, after));
    }
    match read_field(bytes) {
        Ok((field, after)) => Ok((Some(field), after)),
        Err(stop) => Err(stop),
    }
}

/// Parameters and a result, and what stands after them.
fn read_method<'a>(
    alloc: Global,
    bytes: &'a [u8],
) -> Result<(Params<'a>, Option<FieldRead<'a>>, &'a [u8]), NameFault>
    ensures read { IfOk result (λ x. ReadsMethod bytes.now x.0 x.1 x.2.now) }
    ensures fault { IfErr result (λ e. (e ≡ OutOfMemory) ⊎ FailsMethod bytes.now e) }
{
    if !is_first(bytes, b'(') {
        return Err(NameFault::BadDescriptor { at: 0 });
    }
    let (_, inside) = bytes.split_at(1);
    let (params, rest) = read_params(alloc, inside, bytes.len())?;
    match read_result(rest) {
        Ok((result, after)) => Ok((params, result, after)),
        Err(stop) => Err(bad_descriptor(bytes, stop.rest)),
    }
}

/// The types that were read, if they are within the limits.
fn limited<'a>(
    params: Params<'a>,
    returned: Option<FieldRead<'a>>,
    receiver: bool,
) -> Result<MethodType<'a>, NameFault>
    requires { length params.types.items ≤ 255 }
    ensures { (types : List FieldDescriptor) → KeepsTypes params.entry types
        → IsLimited receiver (method_type types (option_map type_read returned.entry)) result }
{
    if params.deep {
        return Err(NameFault::TooManyDimensions);
    }
    match returned {
        None => fitting(params, None, receiver),
        Some(field) => match field.limited() {
            Ok(t) => fitting(params, Some(t), receiver),
            Err(fault) => Err(fault),
        },
    }
}

/// Types of which none has too many dimensions, if they are not too wide.
fn fitting<'a>(
    params: Params<'a>,
    returned: Option<FieldType<'a>>,
    receiver: bool,
) -> Result<MethodType<'a>, NameFault>
    requires few { length params.types.items ≤ 255 }
    requires shallow { params.deep ≡ false }
    ensures { (types : List FieldDescriptor) → KeepsTypes params.entry types
        → IsFitting receiver (method_type types (option_map type_of returned.entry)) result }
{
    if params.wide {
        return Err(NameFault::TooWide);
    }
    let Params { types, .. } = params;
    let method = MethodType {
        params: types,
        result: returned,
    };
    if method.width(receiver) > 255 {
        return Err(NameFault::TooWide);
    }
    Ok(method)
}

fn judge_method<'a>(
    alloc: Global,
    bytes: &'a [u8],
    receiver: bool,
) -> Result<MethodType<'a>, NameFault>
    ensures { IsMethodAnswer receiver bytes.now result }
{
    let (params, returned, over) = read_method(alloc, bytes)?;
    if !over.is_empty() {
        return Err(bad_descriptor(bytes, over));
    }
    limited(params, returned, receiver)
}

/// The types that a method descriptor names (JVMS 4.3.3); `receiver` where the method has one.
///
/// Refuses by 4 a text that is not a method descriptor, by 5 one in which a type has more than 255
/// dimensions, and by 6 one whose parameters take more than 255 units with the receiver: by the least
/// of these numbers that holds. 1 where memory runs out.
pub fn method_type(
    alloc: Global,
    text: Text<'_>,
    receiver: bool,
) -> Result<MethodType<'_>, NameFault>
    // Types exactly where the text is their descriptor, and they are within the limits.
    ensures found { IfOk result (λ m. SpellsMethod text.entry.bytes.now (method_of m)) }
    ensures within { IfOk result (λ m. AreWithinDimensions (method_of m)
        × (method_width (method_of m) receiver ≤ 255)) }
    ensures few { IfOk result (λ m. vec_len m.params ≤ 255) }
    ensures accepted { (m : MethodDescriptor) → SpellsMethod text.entry.bytes.now m → AreWithinDimensions m
        → method_width m receiver ≤ 255 → MatchResult result (λ v. method_of v ≡ m) (λ e. e ≡ OutOfMemory) }

    // A refusal exactly where it holds of the text, or memory runs out.
    ensures fault { IfErr result (λ e. (e ≡ OutOfMemory) ⊎ IsMethodFault receiver text.entry.bytes.now e) }
    ensures refused { (e : NameFault) → IsMethodFault receiver text.entry.bytes.now e
        → IsErrAnd result (λ d. (d ≡ OutOfMemory) ⊎ (d ≡ e)) }

    // So says the word that computes.
    ensures computed { IsMethodAnswer receiver text.entry.bytes.now result }
{
    judge_method(alloc, text.bytes(), receiver)
}

/// Field types up to a `)`, of which none is kept, and what stands after that.
fn behind_params(bytes: &[u8]) -> Result<&[u8], Outside<'_>>
    ensures { MatchResult result (λ rest. PassesParams bytes.now rest.now)
        (λ e. read_params (length bytes.now) bytes.now ≡ outside e.rest.now) }
{
    let mut rest = bytes;
    'types: loop {
        if is_first(rest, b')') {
            let (_, after) = rest.split_at(1);
            return Ok(after);
        }
        match read_field(rest) {
            Ok((_, after)) => rest = after,
            Err(stop) => return Err(stop),
        }
    }
}

/// The result after parameters of which none is kept, and what stands after it.
fn read_returned(bytes: &[u8]) -> Result<(Option<FieldRead<'_>>, &[u8]), Outside<'_>>
    ensures { MatchResult result (λ x. PassesMethod bytes.now x.0 x.1.now)
        (λ e. read_method bytes.now ≡ outside e.rest.now) }
{
    if !is_first(bytes, b'(') {
        return Err(Outside { rest: bytes });
    }
    let (_, inside) = bytes.split_at(1);
    match behind_params(inside) {
        Ok(rest) => read_result(rest),
        Err(stop) => Err(stop),
    }
}

fn judge_result(bytes: &[u8]) -> Option<FieldType<'_>>
    ensures { option_map type_of result ≡ result_answer bytes.now }
{
    match read_returned(bytes) {
        Err(_) => None,
        Ok((returned, over)) => {
            if !over.is_empty() {
                return None;
            }
            match returned {
                None => None,
                Some(field) => field.limited().ok(),
            }
        }
    }
}

/// The type of the result that a method descriptor names, `None` standing for `V` (JVMS 4.3.3). Takes no memory.
///
/// `None` stands as well for a text that is not a method descriptor, and for a result of more than 255 dimensions:
/// [`method_type`] tells these apart.
pub fn result_type(text: Text<'_>) -> Option<FieldType<'_>>
    // If the text is a descriptor: the result.
    ensures named { (m : MethodDescriptor) → SpellsMethod text.entry.bytes.now m → AreWithinDimensions m
        → option_map type_of result ≡ m.result }

    // A type only where the text is a descriptor with this result.
    ensures only { IfSome result (λ t. (m : MethodDescriptor) × SpellsMethod text.entry.bytes.now m
        × (m.result ≡ Some (type_of t))) }

    // So says the word that computes, with or without a receiver.
    ensures computed { (receiver : Bool) (m : MethodDescriptor) → method_answer receiver text.entry.bytes.now ≡ Ok m
        → option_map type_of result ≡ m.result }
{
    judge_result(text.bytes())
}

/// A text spells at most one type.
pub fn one_field_type()
    ensures { (bytes : List ℕ) (s t : FieldDescriptor) → SpellsField bytes s → SpellsField bytes t → s ≡ t }
{}

/// A text spells at most one list of parameters and result.
pub fn one_method_type()
    ensures { (bytes : List ℕ) (m n : MethodDescriptor) → SpellsMethod bytes m → SpellsMethod bytes n → m ≡ n }
{}

/// The words that compute say of a field's descriptor what the grammar and the limits say.
pub fn field_answers()
    ensures named { (bytes : List ℕ) (t : FieldDescriptor)
        → (field_answer bytes ≡ Ok t) ↔ (SpellsField bytes t × (dimensions t ≤ 255)) }
    ensures refused { (bytes : List ℕ) (e : NameFault) → (field_answer bytes ≡ Err e) ↔ IsFieldFault bytes e }
{}

/// The words that compute say of a method's descriptor what the grammar and the limits say.
pub fn method_answers()
    ensures named { (receiver : Bool) (bytes : List ℕ) (m : MethodDescriptor)
        → (method_answer receiver bytes ≡ Ok m)
        ↔ (SpellsMethod bytes m × AreWithinDimensions m × (method_width m receiver ≤ 255)) }
    ensures refused { (receiver : Bool) (bytes : List ℕ) (e : NameFault)
        → (method_answer receiver bytes ≡ Err e) ↔ IsMethodFault receiver bytes e }
{}
