// The args field of a form: its length, and its bytes put at a place of a buffer. What puts answers the place
// behind it.
ghost use Rattle.std.specs.Prelude.{◌≡◌, ◌+◌, ◌^◌, ◌<◌, length};
ghost use Rattle.encode.specs.Field.{bytes_field};
ghost use Rattle.encode.specs.Puts.{Puts};
ghost use Rattle.args_writer.specs.Scalar.{any_bytes, arg_bytes, scalar_bytes};
ghost use Rattle.args_writer.specs.private.Form.{value_in};

use crate::form::{Form, Value};
use encode::field::{
    number_len, prefix_len, put_bytes, put_fixed_field, put_number, put_prefix, tag_len,
};
use protocol::{anys, fields, scalars, wire_type};

// Fixed values: the wire type as it stands in a tag, and the bytes.
const I64: u8 = wire_type::I64 as u8;

const I64_BYTES: usize = 8;

const I32: u8 = wire_type::I32 as u8;

const I32_BYTES: usize = 4;

// Field numbers as they are put: the type of an Any and of a Scalar, an Any's scalar, the args of a message, the bytes
// in an octets or string value, and the values of a double and a float.
const TYPE: u32 = fields::TYPE as u32;

const SCALAR: u32 = anys::SCALAR_FIELD as u32;

const ARGS: u32 = fields::ARGS as u32;

const VALUE: u32 = fields::BYTES as u32;

const DOUBLE: u32 = scalars::DOUBLE_FIELD as u32;

const FLOAT: u32 = scalars::FLOAT_FIELD as u32;

// The type of an Any that is a scalar (L7).
const IS_SCALAR: u64 = anys::SCALAR;

pub(crate) fn field_len(f: Form<'_>) -> usize
    ensures { result ≡ length (arg_bytes f.entry.kind (value_in f.entry.value)) }
{
    let n = any_len(f);
    prefix_len(ARGS, n) + n
}

pub(crate) fn put_field(f: Form<'_>, buf: &mut [u8], at: usize) -> usize
    ensures { Puts buf.old at (arg_bytes f.entry.kind (value_in f.entry.value)) result buf.new }
{
    let p = put_prefix(buf, at, ARGS, any_len(f));
    put_any(f, buf, p)
}

fn any_len(f: Form<'_>) -> usize
    ensures short { result < 2 ^ 63 + 100 }
    ensures count { result ≡ length (any_bytes f.entry.kind (value_in f.entry.value)) }
{
    let n = scalar_len(f);
    number_len(TYPE, IS_SCALAR) + prefix_len(SCALAR, n) + n
}

fn put_any(f: Form<'_>, buf: &mut [u8], at: usize) -> usize
    ensures { Puts buf.old at (any_bytes f.entry.kind (value_in f.entry.value)) result buf.new }
{
    let p = put_number(buf, at, TYPE, IS_SCALAR);
    let q = put_prefix(buf, p, SCALAR, scalar_len(f));
    let value_at = put_number(buf, q, TYPE, f.kind);
    put_value(f.value, buf, value_at)
}

fn scalar_len(f: Form<'_>) -> usize
    ensures short { result < 2 ^ 63 + 60 }
    ensures count { result ≡ length (scalar_bytes f.entry.kind (value_in f.entry.value)) }
{
    number_len(TYPE, f.kind) + value_len(f.value)
}

fn value_len(value: Value<'_>) -> usize
    ensures short { result < 2 ^ 63 + 40 }
    ensures count { result ≡ length (value_in value.entry) }
{
    match value {
        Value::Absent => 0,
        Value::Number { num, value } => number_len(num, value),
        Value::Double(_) => tag_len(DOUBLE, I64) + I64_BYTES,
        Value::Float(_) => tag_len(FLOAT, I32) + I32_BYTES,
        Value::Bytes { num, bytes } => {
            let n = inner_len(bytes);
            prefix_len(num, n) + n
        }
    }
}

fn put_value(value: Value<'_>, buf: &mut [u8], at: usize) -> usize
    ensures { Puts buf.old at (value_in value.entry) result buf.new }
{
    match value {
        Value::Absent => at,
        Value::Number { num, value } => put_number(buf, at, num, value),
        Value::Double(bits) => put_fixed_field(buf, at, DOUBLE, I64, I64_BYTES, bits),
        Value::Float(bits) => put_fixed_field(buf, at, FLOAT, I32, I32_BYTES, u64::from(bits)),
        Value::Bytes { num, bytes } => put_message(buf, at, num, bytes),
    }
}

// A message with the bytes in its one field.
fn inner_len(bytes: &[u8]) -> usize
    ensures short { result < 2 ^ 63 + 20 }
    ensures count { result ≡ length (bytes_field 1 bytes.now) }
{
    prefix_len(VALUE, bytes.len()) + bytes.len()
}

fn put_message(buf: &mut [u8], at: usize, num: u32, bytes: &[u8]) -> usize
    ensures { Puts buf.old at (bytes_field num (bytes_field 1 bytes.now)) result buf.new }
{
    let p = put_prefix(buf, at, num, inner_len(bytes));
    put_bytes(buf, p, VALUE, bytes)
}
