// Argument values.
ghost use Rattle.std.specs.Prelude.{◌≡◌};
ghost use Rattle.scalar.specs.Argument.{double_of, float_of, signed_of};

// One argument of an Execute, an Open or a StmtExecute. Bytes are a place in the frame and a length. The logic has one
// NaN, so that a NaN is kept as its bits, in a case of its own. A refusal has any number, and no Reason:
// `append_argument` (args_writer) takes an argument refused by any, and a narrower type would ask more of its callers.
#[derive(Clone, Copy)]
pub enum Argument {
    Signed(i64),
    Unsigned(u64),
    Null,
    Octets { start: usize, len: usize },
    Double(f64),
    DoubleNan(u64),
    Float(f32),
    FloatNan(u32),
    Bool(bool),
    String { start: usize, len: usize },
    Object,
    Array,
    Refused(u64),
}

// The double of these bits. With the sign taken off, a NaN's bits lie above the infinity's.
pub fn double_argument(bits: u64) -> Argument
    ensures { result ≡ double_of bits }
{
    let unsigned = bits % 0x8000_0000_0000_0000;
    if 0x7ff0_0000_0000_0000 < unsigned {
        Argument::DoubleNan(bits)
    } else {
        Argument::Double(f64::from_bits(bits))
    }
}

// The float of these bits, as the double above. One function for both would take the format's numbers and its two cases
// of an argument, which is all that either says.
pub fn float_argument(bits: u32) -> Argument
    ensures { result ≡ float_of bits }
{
    let unsigned = bits % 0x8000_0000;
    if 0x7f80_0000 < unsigned {
        Argument::FloatNan(bits)
    } else {
        Argument::Float(f32::from_bits(bits))
    }
}

// The signed argument of a zigzag number.
pub fn signed_argument(n: u64) -> Argument
    ensures { result ≡ signed_of n }
{
    Argument::Signed(crate::zigzag::zigzag_decode(n))
}
