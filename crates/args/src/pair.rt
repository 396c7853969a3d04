// The short ways for a message of two fields, as an Any with its scalar, a Scalar with its value and a Prepare's
// statement mostly are, and of one, as an Any or a Scalar that holds only its type and a string are. They are here for
// speed: they note no fields and look up no rows. The rows decide all the same: laws say what a message's rows make of
// one field or two that fill it, and the callers answer by those laws.
ghost use Rattle.std.specs.Prelude.{◌≡◌, ◌||◌};
ghost use Rattle.wire.specs.Value.{value_at};
ghost use Rattle.wire.specs.Padded.{value_padded};
ghost use Rattle.args.specs.private.Pair.{lone_in, pair_at, pair_in, pair_of, text_at, text_in, text_of};
ghost use Rattle.args.specs.private.Pair.{pair_flag, pair_padded, text_flag, text_padded};

use layout::part::Part;
use protocol::{fields, wire_type};
use wire::value::Value;

// Two fields that fill the message: number 1, a varint of one byte; and one with a tag of one byte, its value and its
// place. `key` is the first one's value times 256, and that tag.
#[derive(Clone, Copy)]
pub struct Pair {
    pub key: u64,
    pub value: u64,
    pub start: usize,
}

// The tag of a type.
const FIRST_TAG: u8 = (fields::TYPE as u64 * 8 + wire_type::VARINT) as u8;

// The bytes of that field with a value of one byte.
const LONE_BYTES: usize = 2;

// A value, with a short way for a number or a length of one byte.
fn value_at(s: &[u8], wire: u64, at: usize, padded: &mut bool) -> Option<Value>
    ensures answer { result ≡ value_at s.now wire at }
    ensures told { padded.new ≡ (padded.old || value_padded s.now wire at) }
{
    let n = s.len();
    if at < n {
        let v = u64::from(s[at]);
        if v < 128 {
            if wire == wire_type::VARINT {
                return Some(Value {
                    number: v,
                    start: at,
                    len: 1,
                    next: at + 1,
                });
            }
            if wire == wire_type::LEN {
                let len = v as usize;
                if len <= n - (at + 1) {
                    return Some(Value {
                        number: v,
                        start: at + 1,
                        len,
                        next: at + 1 + len,
                    });
                }
            }
        }
    }
    wire::value::read_value(&s[..n], wire, at, padded)
}

// The pair, if the second field's value ends where the message does.
fn paired(key: u64, read: Option<Value>, end: usize) -> Option<Pair>
    ensures { result ≡ pair_of key end read }
{
    let value = read?;
    if value.next != end {
        return None;
    }
    Some(Pair {
        key,
        value: value.number,
        start: value.start,
    })
}

// The pair in the bytes from `at` to the end of s.
fn pair_at(s: &[u8], at: usize, padded: &mut bool) -> Option<Pair>
    ensures answer { result ≡ pair_at s.now at }
    ensures told { padded.new ≡ (padded.old || pair_flag s.now at) }
{
    let end = s.len();
    if end < at {
        return None;
    }
    if end - at < 3 {
        return None;
    }
    if s[at] != FIRST_TAG {
        return None;
    }
    let first = u64::from(s[at + 1]);
    if 128 <= first {
        return None;
    }
    let tag = u64::from(s[at + 2]);
    if 128 <= tag {
        return None;
    }
    paired(first * 256 + tag, value_at(s, tag % 8, at + 3, padded), end)
}

// The pair in `n` bytes of s from `at` on. Where there is none, the long way reads the message.
// Inlined into each caller: as a call it takes a fifth of the time of an argument.
#[inline(always)]
pub fn read_pair(s: &[u8], at: usize, n: usize, padded: &mut bool) -> Option<Pair>
    ensures answer { result ≡ pair_in s.now at n }
    ensures told { padded.new ≡ (padded.old || pair_padded s.now at n) }
{
    if s.len() < at {
        return None;
    }
    if s.len() - at < n {
        return None;
    }
    let end = at + n;
    pair_at(&s[..end], at, padded)
}

// The value of field 1, a varint of one byte, if the field fills the `n` bytes of s from `at` on.
pub fn read_lone(s: &[u8], at: usize, n: usize) -> Option<u64>
    ensures { result ≡ lone_in s.now at n }
{
    if n != LONE_BYTES {
        return None;
    }
    if s.len() < at {
        return None;
    }
    if s.len() - at < LONE_BYTES {
        return None;
    }
    if s[at] != FIRST_TAG {
        return None;
    }
    let first = u64::from(s[at + 1]);
    if 128 <= first {
        return None;
    }
    Some(first)
}

// The tag of the bytes.
const TEXT_TAG: u8 = (fields::BYTES as u64 * 8 + wire_type::LEN) as u8;

// The place and length of the bytes, if they end where the message does.
fn alone(read: Option<Value>, end: usize) -> Option<Part>
    ensures { result ≡ text_of end read }
{
    let value = read?;
    if value.next != end {
        return None;
    }
    Some(Part {
        start: value.start,
        len: value.len,
    })
}

// The bytes from `at` to the end of s.
fn text_at(s: &[u8], at: usize, padded: &mut bool) -> Option<Part>
    ensures answer { result ≡ text_at s.now at }
    ensures told { padded.new ≡ (padded.old || text_flag s.now at) }
{
    let end = s.len();
    if end <= at {
        return None;
    }
    if s[at] != TEXT_TAG {
        return None;
    }
    alone(wire::value::length_value(s, at + 1, padded), end)
}

// Field 1 with bytes, if it fills the `n` bytes of s from `at` on: the place and length of the bytes.
pub fn read_text(s: &[u8], at: usize, n: usize, padded: &mut bool) -> Option<Part>
    ensures answer { result ≡ text_in s.now at n }
    ensures told { padded.new ≡ (padded.old || text_padded s.now at n) }
{
    if s.len() < at {
        return None;
    }
    if s.len() - at < n {
        return None;
    }
    let end = at + n;
    text_at(&s[..end], at, padded)
}
