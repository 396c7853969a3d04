// A scalar that a host gives as numbers, as the argument it stands for.
ghost use Rattle.std.specs.Prelude.{◌≡◌};
ghost use Rattle.karramotx.specs.Given.{float_of_bits, given_argument, signed_of_bits};

use protocol::{reason, scalars, uint32};
use scalar::argument::Argument;

// `kind` is the Scalar type, 1 to 8. `value` is as `Value` tells it.
#[repr(C)]
#[derive(Clone, Copy)]
pub struct Scalar {
    pub kind: u64,
    pub value: u64,
}

// A sint of its two's complement bits.
fn signed_of_bits(bits: u64) -> Argument
    ensures { result ≡ signed_of_bits bits }
{
    Argument::Signed(scalar::zigzag::of_bits(bits))
}

// A float has 32 bits; a larger number is none.
fn float_of_bits(bits: u64) -> Argument
    ensures { result ≡ float_of_bits bits }
{
    if uint32::COUNT <= bits {
        return Argument::Refused(reason::BAD_PAYLOAD);
    }
    scalar::argument::float_argument(bits as u32)
}

// The argument, with its bytes, if it has any, the first n of a source.
#[tactic(auto, unfolding(crate::specs::Given::of_kind))]
pub fn argument_of(scalar: Scalar, n: usize) -> Argument
    ensures { result ≡ given_argument scalar n }
{
    let kind = scalar.kind;
    let value = scalar.value;
    match kind {
        scalars::SINT => signed_of_bits(value),
        scalars::UINT => Argument::Unsigned(value),
        scalars::NULL => Argument::Null,
        scalars::OCTETS => Argument::Octets { start: 0, len: n },
        scalars::DOUBLE => scalar::argument::double_argument(value),
        scalars::FLOAT => float_of_bits(value),
        scalars::BOOL => Argument::Bool(value != 0),
        scalars::STRING => Argument::String { start: 0, len: n },
        _ => Argument::Refused(reason::BAD_PAYLOAD),
    }
}
