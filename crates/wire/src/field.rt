// One field of a message: a tag and its value, or a whole group.
ghost use Rattle.std.specs.Prelude.{◌≡◌, ◌||◌};
ghost use Rattle.wire.specs.Field.{field_at, field_of, of_value};
ghost use Rattle.wire.specs.Padded.{field_padded, value_padded};

use crate::value::Value;
use protocol::wire_type;

// How many groups may stand one in another.
const MAX_DEPTH: u64 = 32;

// A field's number, wire type and value, the place and length of the value's bytes, and the place behind them.
#[derive(Clone, Copy)]
pub struct Field {
    pub number: u64,
    pub wire: u64,
    pub value: u64,
    pub start: usize,
    pub len: usize,
    pub next: usize,
}

// The field at a place, with a short way for a tag of one byte and a varint or bytes behind it, as most fields have.
// For its one caller, into which it is inlined; others go the long way.
pub fn read_field(s: &[u8], at: usize, padded: &mut bool) -> Option<Field>
    ensures answer { result ≡ field_at s.now at }
    ensures told { padded.new ≡ (padded.old || field_padded s.now at) }
{
    let n = s.len();
    if n <= at {
        return None;
    }
    let tag = u64::from(s[at]);
    if tag < 8 {
        return None;
    }
    if tag < 128 {
        let wire = tag % 8;
        if wire == wire_type::VARINT {
            return valued(
                tag / 8,
                wire_type::VARINT,
                crate::value::number_value(s, at + 1, padded),
            );
        }
        if wire == wire_type::LEN {
            return valued(
                tag / 8,
                wire_type::LEN,
                crate::value::length_value(s, at + 1, padded),
            );
        }
    }
    long_field(&s[..n], at, padded)
}

// The long way, of any tag. Each call is lent the slice anew: one that is handed on whole is copied right after it was
// written in two parts, for which a processor waits.
pub fn long_field(s: &[u8], at: usize, padded: &mut bool) -> Option<Field>
    ensures answer { result ≡ field_at s.now at }
    ensures told { padded.new ≡ (padded.old || field_padded s.now at) }
{
    let n = s.len();
    let tag = crate::tag::read_tag(&s[..n], at, padded)?;
    tagged(&s[..n], tag.number, tag.wire, tag.next, padded)
}

// The field of a value that was read.
pub fn valued(n: u64, wire: u64, read: Option<Value>) -> Option<Field>
    ensures { result ≡ of_value n wire read }
{
    let value = read?;
    Some(Field {
        number: n,
        wire,
        value: value.number,
        start: value.start,
        len: value.len,
        next: value.next,
    })
}

fn tagged(s: &[u8], n: u64, wire: u64, at: usize, padded: &mut bool) -> Option<Field>
    ensures answer { result ≡ field_of s.now n wire at }
    ensures told { padded.new ≡ (padded.old || value_padded s.now wire at) }
{
    if wire == wire_type::GROUP_START {
        let mut unread = false;
        let next = crate::group::skip_group(s, at, n, MAX_DEPTH, &mut unread)?;
        return Some(Field {
            number: n,
            wire: wire_type::GROUP_START,
            value: 0,
            start: at,
            len: next - at,
            next,
        });
    }
    if wire == wire_type::VARINT {
        return valued(
            n,
            wire_type::VARINT,
            crate::value::number_value(s, at, padded),
        );
    }
    valued(n, wire, crate::value::read_value(s, wire, at, padded))
}
