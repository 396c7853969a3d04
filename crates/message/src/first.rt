// The short way for the id that stands first in a Fetch, a Prepare and an Open, and for the tag of the field that
// mostly follows it. Like args `Pair` it notes no fields and looks up no rows.
ghost use Rattle.std.specs.Prelude.{◌≡◌};
ghost use Rattle.message.specs.private.First.{Begins};
ghost use Rattle.message.specs.private.Marks.{TellsFirst};

use crate::payload::PAYLOAD;
use protocol::{fields, wire_type};

// The id, and the place behind the tag that follows it.
#[derive(Clone, Copy)]
pub struct First {
    pub id: u64,
    pub next: usize,
}

const ID_TAG: u8 = (fields::ID as u64 * 8 + wire_type::VARINT) as u8;

// The id where this tag follows it. None: the long way reads the message.
pub fn read_first(s: &[u8], tag: u8, padded: &mut bool) -> Option<First>
    ensures answer { Begins s.now tag result }
    ensures told { TellsFirst s.now result padded.old padded.new }
{
    let n = s.len();
    if n <= PAYLOAD {
        return None;
    }
    if s[PAYLOAD] != ID_TAG {
        return None;
    }
    let id = varint::read_short(s, PAYLOAD + 1, padded)?;
    if n <= id.next {
        return None;
    }
    if s[id.next] != tag {
        return None;
    }
    Some(First {
        id: id.value,
        next: id.next + 1,
    })
}
