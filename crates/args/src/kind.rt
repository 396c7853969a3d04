// The Any type of an argument. It is found as the argument is, by the short ways or the long one, but no value is put
// together: what judges a frame asks for no more. (One function for both would be no plainer: a trait for what is made
// of a Scalar, with a method for each of its types.) Of a bad argument, whose frame is refused, the flag says nothing.
ghost use Rattle.std.specs.Prelude.{◌≡◌, ◌||◌, ◌<◌};
ghost use Rattle.layout.specs.Merged.{one_part};
ghost use Rattle.args.specs.Arguments.{any_type_of, number_of, type_number};
ghost use Rattle.args.specs.Value.{argument_in, scalar_in};
ghost use Rattle.args.specs.Padded.{argument_padded, scalar_padded};

use crate::arguments::any_type;
use crate::keys;
use crate::pair::Pair;
use crate::value::Bytes;
use protocol::{anys, scalars};

#[derive(Clone, Copy, Debug, PartialEq, Eq)]
pub enum AnyType {
    Scalar,
    Object,
    Array,
}

impl From<AnyType> for u64 {
    ghost from_gives = { λ any n. n ≡ number_of any };

    fn from(any: AnyType) -> u64 {
        match any {
            AnyType::Scalar => anys::SCALAR,
            AnyType::Object => anys::OBJECT,
            AnyType::Array => anys::ARRAY,
        }
    }
}

// The Any type of the argument whose Any stands in `n` bytes of s from `at` on; a bad one has none.
pub fn argument_type(s: &[u8], at: usize, n: usize, padded: &mut bool) -> Option<AnyType>
    ensures answer { type_number result ≡ any_type_of (argument_in s.now at n) }
    ensures told { 0 < type_number result → padded.new ≡ (padded.old || argument_padded s.now at n) }
{
    let all = s.len();
    match crate::pair::read_lone(s, at, n) {
        Some(anys::OBJECT) => return Some(AnyType::Object),
        Some(anys::ARRAY) => return Some(AnyType::Array),
        _ => {}
    }
    if let Some(Pair { key, value, start }) = crate::pair::read_pair(s, at, n, padded) {
        if key == keys::SCALAR_KEY {
            return scalar_type(s, start, value as usize, padded);
        }
    }
    any_type(crate::value::long_argument(&s[..all], at, n, padded))
}

// The Any type of the Scalar in `n` bytes of s from `at` on, a scalar; a bad one has none. As read_scalar reads it, but
// its value is not put together.
fn scalar_type(s: &[u8], at: usize, n: usize, padded: &mut bool) -> Option<AnyType>
    ensures answer { type_number result ≡ any_type_of (scalar_in s.now (one_part at n)) }
    ensures told { 0 < type_number result → padded.new ≡ (padded.old || scalar_padded s.now (one_part at n)) }
{
    let all = s.len();
    if let Some(scalars::NULL) = crate::pair::read_lone(s, at, n) {
        return Some(AnyType::Scalar);
    }
    if let Some(Pair { key, value, start }) = crate::pair::read_pair(s, at, n, padded) {
        match key {
            keys::SINT_KEY => return Some(AnyType::Scalar),
            keys::UINT_KEY => return Some(AnyType::Scalar),
            keys::OCTETS_KEY => return any_type(crate::value::read_bytes(
                &s[..all],
                start,
                value as usize,
                Bytes::Octets,
                padded,
            )),
            keys::DOUBLE_KEY => return Some(AnyType::Scalar),
            keys::FLOAT_KEY => return Some(AnyType::Scalar),
            keys::BOOL_KEY => return Some(AnyType::Scalar),
            keys::STRING_KEY => return any_type(crate::value::read_bytes(
                &s[..all],
                start,
                value as usize,
                Bytes::String,
                padded,
            )),
            _ => {}
        }
    }
    any_type(crate::value::long_scalar(&s[..all], at, n, padded))
}
