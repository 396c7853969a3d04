// What is to be written of an argument.
ghost use Rattle.std.specs.Prelude.{[]};
ghost use Rattle.encode.specs.Field.{fixed_field, number_field};
ghost use Rattle.protocol.specs.Scalars as Scalars;
ghost use Rattle.protocol.specs.WireType as WireType;
ghost use Rattle.scalar.specs.declared.argument.Argument.{Argument};
ghost use Rattle.args_writer.specs.private.Form.{Forms, FormsBytes, Holds};

use encode::put::has_room;
use protocol::scalars;
use scalar::argument::Argument;
use scalar::zigzag::zigzag_encode;

// Field numbers as they are put.
const SINT_FIELD: u32 = scalars::SINT_FIELD as u32;

const UINT_FIELD: u32 = scalars::UINT_FIELD as u32;

const OCTETS_FIELD: u32 = scalars::OCTETS_FIELD as u32;

const BOOL_FIELD: u32 = scalars::BOOL_FIELD as u32;

const STRING_FIELD: u32 = scalars::STRING_FIELD as u32;

// A Scalar's type, and the field with its value.
#[derive(Clone, Copy)]
pub(crate) struct Form<'a> {
    pub(crate) kind: u64,
    pub(crate) value: Value<'a>,
}

// A null has no field with a value. A double and a float have one field each.
#[derive(Clone, Copy)]
pub(crate) enum Value<'a> {
    Absent,
    Number { num: u32, value: u64 },
    Double(u64),
    Float(u32),
    Bytes { num: u32, bytes: &'a [u8] },
}

fn number_form<'a>(kind: u64, num: u32, value: u64) -> Form<'a>
    ensures { Holds kind (number_field num value) result }
{
    Form {
        kind,
        value: Value::Number { num, value },
    }
}

// Bytes that stand in a source.
fn bytes_form(kind: u64, num: u32, src: &[u8], start: usize, len: usize) -> Option<Form<'_>>
    ensures { FormsBytes kind num src.now start len result }
{
    if !has_room(src.len(), start, len) {
        return None;
    }
    let end = start + len;
    Some(Form {
        kind,
        value: Value::Bytes {
            num,
            bytes: &src[start..end],
        },
    })
}

// Doubles and floats: the two types have the same few lines, which a trait would have once for each as well.
fn double_form<'a>(x: f64) -> Option<Form<'a>>
    ensures { Forms (Argument.Double x) [] result }
{
    if x.is_nan() {
        return None;
    }
    Some(of_double(x.to_bits()))
}

fn float_form<'a>(x: f32) -> Option<Form<'a>>
    ensures { Forms (Argument.Float x) [] result }
{
    if x.is_nan() {
        return None;
    }
    Some(of_float(x.to_bits()))
}

// With the sign taken off, a NaN's bits lie above the infinity's.
fn double_nan_form<'a>(bits: u64) -> Option<Form<'a>>
    ensures { Forms (Argument.DoubleNan bits) [] result }
{
    if bits % 0x8000_0000_0000_0000 <= 0x7ff0_0000_0000_0000 {
        return None;
    }
    Some(of_double(bits))
}

fn float_nan_form<'a>(bits: u32) -> Option<Form<'a>>
    ensures { Forms (Argument.FloatNan bits) [] result }
{
    if bits % 0x8000_0000 <= 0x7f80_0000 {
        return None;
    }
    Some(of_float(bits))
}

fn of_double<'a>(bits: u64) -> Form<'a>
    ensures { Holds Scalars.double (fixed_field Scalars.double_field WireType.i64 8 bits) result }
{
    Form {
        kind: scalars::DOUBLE,
        value: Value::Double(bits),
    }
}

fn of_float<'a>(bits: u32) -> Form<'a>
    ensures { Holds Scalars.float (fixed_field Scalars.float_field WireType.i32 4 bits) result }
{
    Form {
        kind: scalars::FLOAT,
        value: Value::Float(bits),
    }
}

// The form of an argument whose bytes, if it has any, stand in a source.
pub(crate) fn form_of(a: Argument, src: &[u8]) -> Option<Form<'_>>
    ensures { Forms a src.now result }
{
    match a {
        Argument::Signed(v) => Some(number_form(scalars::SINT, SINT_FIELD, zigzag_encode(v))),
        Argument::Unsigned(v) => Some(number_form(scalars::UINT, UINT_FIELD, v)),
        Argument::Null => Some(Form {
            kind: scalars::NULL,
            value: Value::Absent,
        }),
        Argument::Octets { start, len } => {
            bytes_form(scalars::OCTETS, OCTETS_FIELD, src, start, len)
        }
        Argument::Double(x) => double_form(x),
        Argument::DoubleNan(bits) => double_nan_form(bits),
        Argument::Float(x) => float_form(x),
        Argument::FloatNan(bits) => float_nan_form(bits),
        Argument::Bool(b) => Some(number_form(scalars::BOOL, BOOL_FIELD, u64::from(b))),
        Argument::String { start, len } => {
            bytes_form(scalars::STRING, STRING_FIELD, src, start, len)
        }
        Argument::Object => None,
        Argument::Array => None,
        Argument::Refused(_) => None,
    }
}
