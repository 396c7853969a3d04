// The value behind a tag, by its wire type.
ghost use Rattle.std.specs.Prelude.{◌≡◌, ◌||◌};
ghost use Rattle.varint.specs.Padded.{padded_at};
ghost use Rattle.wire.specs.Value.{as_length, as_number, of_fixed, value_at};
ghost use Rattle.wire.specs.Padded.{value_padded};

use protocol::wire_type;
use varint::Number;

// A number (of bytes that follow, for wire type 2), the place and length of the value's bytes, and the place behind
// them.
#[derive(Clone, Copy)]
pub struct Value {
    pub number: u64,
    pub start: usize,
    pub len: usize,
    pub next: usize,
}

// A varint.
pub fn number_value(s: &[u8], at: usize, padded: &mut bool) -> Option<Value>
    ensures answer { result ≡ as_number s.now at }
    ensures told { padded.new ≡ (padded.old || padded_at s.now at) }
{
    let read = varint::read_varint(s, at, padded)?;
    Some(Value {
        number: read.value,
        start: at,
        len: read.next - at,
        next: read.next,
    })
}

// A length and as many bytes.
pub fn length_value(s: &[u8], at: usize, padded: &mut bool) -> Option<Value>
    ensures answer { result ≡ as_length s.now at }
    ensures told { padded.new ≡ (padded.old || padded_at s.now at) }
{
    let length = varint::read_varint(s, at, padded)?;
    let len = length.value as usize;
    if s.len() - length.next < len {
        return None;
    }
    Some(Value {
        number: length.value,
        start: length.next,
        len,
        next: length.next + len,
    })
}

fn fixed_value(read: Option<Number>, width: usize, at: usize) -> Option<Value>
    ensures { result ≡ of_fixed width at read }
{
    let fixed = read?;
    Some(Value {
        number: fixed.value,
        start: at,
        len: width,
        next: fixed.next,
    })
}

pub fn read_value(s: &[u8], wire: u64, at: usize, padded: &mut bool) -> Option<Value>
    ensures answer { result ≡ value_at s.now wire at }
    ensures told { padded.new ≡ (padded.old || value_padded s.now wire at) }
{
    if wire == wire_type::VARINT {
        return number_value(s, at, padded);
    }
    if wire == wire_type::I64 {
        return fixed_value(scalar::fixed::read_fixed64(s, at), 8, at);
    }
    if wire == wire_type::LEN {
        return length_value(s, at, padded);
    }
    if wire == wire_type::I32 {
        return fixed_value(scalar::fixed::read_fixed32(s, at), 4, at);
    }
    None
}
