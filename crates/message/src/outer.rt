// The short way for an Open's own fields in their order, as they mostly come: cursor_id, the statement, and fetch_rows
// where it is there. Like args `Pair` it notes no fields and looks up no rows.
ghost use Rattle.std.specs.Prelude.{◌≡◌};
ghost use Rattle.message.specs.private.Marks.{TellsOuter};
ghost use Rattle.message.specs.private.Outer.{Says};

use layout::part::Part;
use protocol::{fields, wire_type};

// The cursor id, where the statement stands, and fetch_rows.
#[derive(Clone, Copy)]
pub struct Outer {
    pub id: u64,
    pub part: Part,
    pub rows: Option<u64>,
}

// The tags of the statement and of fetch_rows.
const STMT_TAG: u8 = (fields::OPEN_STMT as u64 * 8 + wire_type::LEN) as u8;

const ROWS_TAG: u8 = (fields::OPEN_ROWS as u64 * 8 + wire_type::VARINT) as u8;

// None: the long way reads the message.
pub fn read_outer(s: &[u8], padded: &mut bool) -> Option<Outer>
    ensures answer { Says s.now result }
    ensures told { TellsOuter s.now result padded.old padded.new }
{
    let first = crate::first::read_first(s, STMT_TAG, padded)?;
    let stmt = wire::value::length_value(s, first.next, padded)?;
    let part = Part {
        start: stmt.start,
        len: stmt.len,
    };
    if s.len() <= stmt.next {
        return Some(Outer {
            id: first.id,
            part,
            rows: None,
        });
    }
    if s[stmt.next] != ROWS_TAG {
        return None;
    }
    let n = s.len();
    let rows = varint::read_varint(&s[..n], stmt.next + 1, padded)?;
    if rows.next != s.len() {
        return None;
    }
    Some(Outer {
        id: first.id,
        part,
        rows: Some(rows.value),
    })
}
