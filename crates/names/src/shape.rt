//! The shape of a method: what its descriptor says without a list of its types (JVMS 4.3.3).

ghost use Rattle.std.specs.Prelude.{◌≡◌, ◌≤◌, ◌<◌, List, length, MatchResult, IfSome};
ghost use Rattle.std.specs.List.{list_any};
ghost use Rattle.std.specs.Option.{option_map};
ghost use Rattle.names.specs.Descriptors.{FieldDescriptor, field_width, result_types};
ghost use Rattle.names.specs.Reading.{outside, is_deep, read_params, read_method, method_type};
ghost use Rattle.names.specs.ReadTypes.{type_read};
ghost use Rattle.names.specs.Shapes.{Sums, OneMore, SumsParams, SumsMethod, IsShapeWithin, HasShape, IsShapeAnswer};
ghost use Rattle.names.specs.private.TypeEnds.{AreStopsUpTo, SeesParams, SeesResult};

use crate::base::{Base, Primitive};
use crate::fault::NameFault;
use crate::name_run::stops_in_front;
use crate::reading::{FieldRead, Outside, bad_descriptor, is_first, read_field, read_result};
use crate::text::Text;
use crate::type_end::{type_end, units_of};

/// The parameters and the result of a method's descriptor, without their types (JVMS 4.3.3).
#[derive(Clone, Copy, Debug, PartialEq, Eq)]
pub struct MethodShape {
    /// How many units the parameters take, with the receiver if there is one: 255 at most.
    pub units: u16,
    /// Whether there is a result: `V` stands for none.
    pub has_result: bool,
}

/// The shape that a method descriptor tells (JVMS 4.3.3); `receiver` where the method has one. Takes no memory.
///
/// Refuses as [`method_type`](crate::method_type), by 4, 5 and 6; it is never 1.
pub fn method_shape(text: Text<'_>, receiver: bool) -> Result<MethodShape, NameFault>
    // A shape exactly where `method_type` has types, which are of this shape; and otherwise its refusal.
    ensures { IsShapeAnswer receiver text.entry.bytes.now result }
{
    let bytes = text.bytes();
    match shape_seen(bytes, receiver) {
        Some(shape) => Ok(shape),
        None => judge_shape(bytes, receiver),
    }
}

/// The place of the `)` after parameters, and their units, where each of them is seen.
fn params_seen(bytes: &[u8], stops: u64) -> Option<(usize, usize)>
    requires some { 1 ≤ length bytes.now }
    requires stops { 16 < length bytes.now → AreStopsUpTo bytes.now (length bytes.now) stops }
    ensures { IfSome result (λ x. SeesParams bytes.now x.0 x.1) }
{
    let mut at = 1;
    let mut units = 0;
    'types: loop {
        if at == bytes.len() {
            return None;
        }
        let first = bytes[at];
        if first == b')' {
            return Some((at, units));
        }
        let end = type_end(bytes, at, stops);
        if end == at {
            return None;
        }
        units += units_of(first);
        at = end;
    }
}

/// Whether there is a result, where it or a `V` is seen from this place up to the end.
fn result_seen(bytes: &[u8], at: usize, stops: u64) -> Option<bool>
    requires there { at ≤ length bytes.now }
    requires stops { 16 < length bytes.now → AreStopsUpTo bytes.now (length bytes.now) stops }
    ensures { IfSome result (λ has_result. SeesResult bytes.now at has_result) }
{
    if at == bytes.len() {
        return None;
    }
    let has_result = bytes[at] != b'V';
    let end = if has_result {
        type_end(bytes, at, stops)
    } else {
        at + 1
    };
    if end == at || end != bytes.len() {
        return None;
    }
    Some(has_result)
}

/// The shape of a method within the limits, by the places where its types end.
fn shape_seen(bytes: &[u8], receiver: bool) -> Option<MethodShape>
    ensures { IfSome result (λ s. HasShape receiver bytes.now s) }
{
    if !is_first(bytes, b'(') {
        return None;
    }
    let stops = stops_in_front(bytes);
    let (end, units) = params_seen(bytes, stops)?;
    let has_result = result_seen(bytes, end + 1, stops)?;
    let units = units + usize::from(receiver);
    if units > 255 {
        return None;
    }
    Some(MethodShape {
        units: units as u16,
        has_result,
    })
}

/// The parameters so far, while they are read.
#[derive(Clone, Copy)]
struct Measured {
    /// Their units, if these are at most 255.
    units: u16,
    /// Whether one of the types has more than 255 dimensions.
    deep: bool,
}

impl FieldRead<'_> {
    /// How many units a value of the type takes (JVMS 2.6.1).
    fn width(&self) -> u16
        ensures { result ≡ field_width (type_read self.now) }
    {
        match self {
            FieldRead {
                dims: 0,
                base: Base::Primitive(Primitive::Long | Primitive::Double),
            } => 2,
            _ => 1,
        }
    }
}

impl Measured {
    /// With one more parameter.
    fn with(self, field: FieldRead<'_>) -> Measured
        ensures { OneMore self (type_read field.entry) result }
    {
        let deep = self.deep | (field.dims > 255);
        if self.units > 255 {
            return Measured {
                units: self.units,
                deep,
            };
        }
        Measured {
            units: self.units + field.width(),
            deep,
        }
    }
}

/// Field types up to a `)`, which are measured, and what stands after that.
fn measure_params(bytes: &[u8]) -> Result<(Measured, &[u8]), Outside<'_>>
    ensures { MatchResult result (λ x. SumsParams bytes.now x.0 x.1.now)
        (λ e. read_params (length bytes.now) bytes.now ≡ outside e.rest.now) }
{
    let mut measured = Measured {
        units: 0,
        deep: false,
    };
    let mut rest = bytes;
    'types: loop {
        if is_first(rest, b')') {
            let (_, after) = rest.split_at(1);
            return Ok((measured, after));
        }
        match read_field(rest) {
            Ok((field, after)) => {
                measured = measured.with(field);
                rest = after;
            }
            Err(stop) => return Err(stop),
        }
    }
}

/// Parameters, which are measured, and a result, and what stands after them.
fn measure_method(bytes: &[u8]) -> Result<(Measured, Option<FieldRead<'_>>, &[u8]), Outside<'_>>
    ensures { MatchResult result (λ x. SumsMethod bytes.now x.0 x.1 x.2.now)
        (λ e. read_method bytes.now ≡ outside e.rest.now) }
{
    if !is_first(bytes, b'(') {
        return Err(Outside { rest: bytes });
    }
    let (_, inside) = bytes.split_at(1);
    match measure_params(inside) {
        Ok((measured, rest)) => match read_result(rest) {
            Ok((returned, after)) => Ok((measured, returned, after)),
            Err(stop) => Err(stop),
        },
        Err(stop) => Err(stop),
    }
}

/// Whether the type has more than 255 dimensions.
fn is_deep(returned: Option<FieldRead<'_>>) -> bool
    ensures { result ≡ list_any is_deep (result_types (option_map type_read returned.entry)) }
{
    match returned {
        Some(field) => field.dims > 255,
        None => false,
    }
}

/// The shape that was measured, if it is within the limits.
fn shape_within(
    measured: Measured,
    returned: Option<FieldRead<'_>>,
    receiver: bool,
) -> Result<MethodShape, NameFault>
    requires { measured.units ≤ 257 }
    ensures { (types : List FieldDescriptor) → Sums measured types
        → IsShapeWithin receiver (method_type types (option_map type_read returned.entry)) result }
{
    let deep = measured.deep | is_deep(returned);
    if deep {
        return Err(NameFault::TooManyDimensions);
    }
    let units = measured.units + u16::from(receiver);
    if units > 255 {
        return Err(NameFault::TooWide);
    }
    Ok(MethodShape {
        units,
        has_result: returned.is_some(),
    })
}

fn judge_shape(bytes: &[u8], receiver: bool) -> Result<MethodShape, NameFault>
    ensures { IsShapeAnswer receiver bytes.now result }
{
    match measure_method(bytes) {
        Err(stop) => Err(bad_descriptor(bytes, stop.rest)),
        Ok((measured, returned, over)) => {
            if !over.is_empty() {
                return Err(bad_descriptor(bytes, over));
            }
            shape_within(measured, returned, receiver)
        }
    }
}
