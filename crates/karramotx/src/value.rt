// An argument as numbers, for hosts that have no enum.
ghost use Rattle.std.specs.Prelude.{◌≡◌};
ghost use Rattle.karramotx.specs.Value.{double_value, float_value, next_value_of, numbered, placed, refused_by};
ghost use Rattle.karramotx.specs.Value.{value_of};

use args::arguments::NextArgument;
use protocol::{reason, scalars};
use scalar::argument::Argument;

// `reason` is 0, or the number by which the argument is refused, and then all else but `next` is 0. `kind` is
// the Scalar type, 1 to 8. `value` holds a sint in two's complement, a uint, the bits of a double or a float,
// or a bool; octets and strings are a place and a length. `next` is the place behind an argument that is
// read in one pass, else 0.
#[repr(C)]
#[derive(Clone, Copy)]
pub struct Value {
    pub reason: u64,
    pub kind: u64,
    pub value: u64,
    pub start: usize,
    pub len: usize,
    pub next: usize,
}

// A scalar that is a number.
fn numbered(kind: u64, value: u64) -> Value
    ensures { result ≡ numbered kind value }
{
    Value {
        reason: reason::ACCEPTED,
        kind,
        value,
        start: 0,
        len: 0,
        next: 0,
    }
}

// A scalar that is bytes of the frame.
fn placed(kind: u64, start: usize, len: usize) -> Value
    ensures { result ≡ placed kind start len }
{
    Value {
        reason: reason::ACCEPTED,
        kind,
        value: 0,
        start,
        len,
        next: 0,
    }
}

fn refused(reason: u64) -> Value
    ensures { result ≡ refused_by reason }
{
    Value {
        reason,
        kind: 0,
        value: 0,
        start: 0,
        len: 0,
        next: 0,
    }
}

// A double that is no NaN. (The reader hands a NaN out as its bits; this is refused for whoever builds one.) Apart from
// the float below, since std has no trait of the floats with their bits.
fn double_value(d: f64) -> Value
    ensures { result ≡ double_value d }
{
    if d.is_nan() {
        return refused(reason::BAD_PAYLOAD);
    }
    numbered(scalars::DOUBLE, d.to_bits())
}

// A float, as the double above.
fn float_value(d: f32) -> Value
    ensures { result ≡ float_value d }
{
    if d.is_nan() {
        return refused(reason::BAD_PAYLOAD);
    }
    numbered(scalars::FLOAT, u64::from(d.to_bits()))
}

impl From<Argument> for Value {
    ghost from_gives = { λ a v. v ≡ value_of a };

    fn from(a: Argument) -> Value {
        match a {
            Argument::Signed(v) => numbered(scalars::SINT, scalar::zigzag::to_bits(v)),
            Argument::Unsigned(n) => numbered(scalars::UINT, n),
            Argument::Null => numbered(scalars::NULL, 0),
            Argument::Octets { start, len } => placed(scalars::OCTETS, start, len),
            Argument::Double(d) => double_value(d),
            Argument::DoubleNan(bits) => numbered(scalars::DOUBLE, bits),
            Argument::Float(d) => float_value(d),
            Argument::FloatNan(bits) => numbered(scalars::FLOAT, bits as u64),
            Argument::Bool(b) => numbered(scalars::BOOL, b as u64),
            Argument::String { start, len } => placed(scalars::STRING, start, len),
            Argument::Object | Argument::Array => refused(reason::NOT_SCALAR),
            Argument::Refused(reason) => refused(reason),
        }
    }
}

// The same of the next argument, with the place behind it; 9 where there is none.
impl From<Option<NextArgument>> for Value {
    ghost from_gives = { λ found v. v ≡ next_value_of found };

    fn from(found: Option<NextArgument>) -> Value {
        match found {
            Some(found) => {
                let mut v = Value::from(found.value);
                v.next = found.next;
                v
            }
            None => refused(reason::FEW_ARGUMENTS),
        }
    }
}
