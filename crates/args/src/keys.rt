// Args fields; and for the short ways the type of an Any or a Scalar and the tag of its value in one number.
use protocol::{anys, fields, scalars, wire_type};

// An args field: its number, its wire type (bytes), and both as its tag in one byte.
pub(crate) const ARGS: u64 = fields::ARGS as u64;

pub(crate) const ARGS_WIRE: u64 = wire_type::LEN;

pub(crate) const ARGS_TAG: u8 = (ARGS * 8 + ARGS_WIRE) as u8;

// A Scalar's type times 256, and the tag of the value that the type names.
pub(crate) const SINT_KEY: u64 = scalars::SINT * 256
    + scalars::SINT_FIELD as u64 * 8
    + wire_type::VARINT;

pub(crate) const UINT_KEY: u64 = scalars::UINT * 256
    + scalars::UINT_FIELD as u64 * 8
    + wire_type::VARINT;

pub(crate) const OCTETS_KEY: u64 = scalars::OCTETS * 256
    + scalars::OCTETS_FIELD as u64 * 8
    + wire_type::LEN;

pub(crate) const DOUBLE_KEY: u64 = scalars::DOUBLE * 256
    + scalars::DOUBLE_FIELD as u64 * 8
    + wire_type::I64;

pub(crate) const FLOAT_KEY: u64 = scalars::FLOAT * 256
    + scalars::FLOAT_FIELD as u64 * 8
    + wire_type::I32;

pub(crate) const BOOL_KEY: u64 = scalars::BOOL * 256
    + scalars::BOOL_FIELD as u64 * 8
    + wire_type::VARINT;

pub(crate) const STRING_KEY: u64 = scalars::STRING * 256
    + scalars::STRING_FIELD as u64 * 8
    + wire_type::LEN;

// The same for an Any with its scalar.
pub(crate) const SCALAR_KEY: u64 = anys::SCALAR * 256
    + anys::SCALAR_FIELD as u64 * 8
    + wire_type::LEN;
