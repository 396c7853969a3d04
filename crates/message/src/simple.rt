// The messages with no message inside: Reset, Session close, Deallocate, Close, Fetch. Each sets the flag anew; where a
// short way gives up, what it has set is forgotten.
ghost use Rattle.std.specs.Prelude.{◌≡◌, ◌||◌, []};
ghost use Rattle.layout.specs.Fields.{fields_at};
ghost use Rattle.layout.specs.Row.{columns_of};
ghost use Rattle.message.specs.Padded.{own_padded};
ghost use Rattle.message.specs.Payload.{payload};
ghost use Rattle.message.specs.Simple.{close_frame, deallocate_frame, fetch_frame, id_in, plain_in};
ghost use Rattle.message.specs.Simple.{reset_frame, session_close_frame};
ghost use Rattle.message.specs.private.Marks.{Tells};
ghost use Rattle.message.specs.private.Parts.{fetch_of};

use crate::payload::{fill_payload, low, optional};
use crate::request::{Fetch, Frame, Request};
use layout::found::Found;
use layout::row::Row;
use protocol::{client, fields, wire_type};

// A message with no fields of its own.
fn read_plain(s: &[u8], kind: u64, request: Request, padded: &mut bool) -> Frame
    ensures answer { result ≡ plain_in s.now kind request (fields_at [] s.now payload) }
    ensures told { Tells result padded.new (own_padded s.now) }
{
    *padded = false;
    let rows = layout::rows::close_rows();
    let mut found = Found::new();
    if !fill_payload(&rows[..0], s, &mut found, padded) {
        return Frame::BadPayload {
            used: s.len(),
            kind,
        };
    }
    Frame::Good {
        used: s.len(),
        request,
    }
}

pub fn read_reset(s: &[u8], padded: &mut bool) -> Frame
    ensures answer { result ≡ reset_frame s.now }
    ensures told { Tells result padded.new (own_padded s.now) }
{
    read_plain(s, client::RESET, Request::Reset, padded)
}

pub fn read_session_close(s: &[u8], padded: &mut bool) -> Frame
    ensures answer { result ≡ session_close_frame s.now }
    ensures told { Tells result padded.new (own_padded s.now) }
{
    read_plain(s, client::SESSION_CLOSE, Request::SessionClose, padded)
}

// The id of a message with these rows that has no other field. None where the message is bad.
fn read_id(s: &[u8], rows: &[Row], padded: &mut bool) -> Option<u32>
    ensures answer { result ≡ id_in (fields_at (columns_of rows.now) s.now payload) }
    ensures told { padded.new ≡ own_padded s.now }
{
    *padded = false;
    let mut found = Found::new();
    if !fill_payload(rows, s, &mut found, padded) {
        return None;
    }
    Some(low(found.slots[fields::ID].value))
}

pub fn read_deallocate(s: &[u8], padded: &mut bool) -> Frame
    ensures answer { result ≡ deallocate_frame s.now }
    ensures told { Tells result padded.new (own_padded s.now) }
{
    match read_id(s, &layout::rows::deallocate_rows(), padded) {
        Some(id) => Frame::Good {
            used: s.len(),
            request: Request::Deallocate(id),
        },
        None => Frame::BadPayload {
            used: s.len(),
            kind: client::DEALLOCATE,
        },
    }
}

pub fn read_close(s: &[u8], padded: &mut bool) -> Frame
    ensures answer { result ≡ close_frame s.now }
    ensures told { Tells result padded.new (own_padded s.now) }
{
    match read_id(s, &layout::rows::close_rows(), padded) {
        Some(id) => Frame::Good {
            used: s.len(),
            request: Request::Close(id),
        },
        None => Frame::BadPayload {
            used: s.len(),
            kind: client::CLOSE,
        },
    }
}

// A Fetch in `n` bytes.
fn fetch_of(n: usize, id: u64, rows: Option<u64>) -> Frame
    ensures { result ≡ fetch_of n id rows }
{
    let fetch = Fetch {
        cursor: low(id),
        rows,
    };
    Frame::Good {
        used: n,
        request: Request::Fetch(fetch),
    }
}

// The long way, by the rows.
fn long_fetch(s: &[u8], padded: &mut bool) -> Frame
    ensures answer { result ≡ fetch_frame s.now }
    ensures told { Tells result padded.new (padded.old || own_padded s.now) }
{
    let rows = layout::rows::fetch_rows();
    let mut found = Found::new();
    if !fill_payload(&rows, s, &mut found, padded) {
        return Frame::BadPayload {
            used: s.len(),
            kind: client::FETCH,
        };
    }
    fetch_of(
        s.len(),
        found.slots[fields::ID].value,
        optional(found.slots[fields::FETCH_ROWS]),
    )
}

// The tag of fetch_rows.
const ROWS_TAG: u8 = (fields::FETCH_ROWS as u64 * 8 + wire_type::VARINT) as u8;

// With a short way for a Fetch of its two fields alone, as most are.
pub fn read_fetch(s: &[u8], padded: &mut bool) -> Frame
    ensures answer { result ≡ fetch_frame s.now }
    ensures told { Tells result padded.new (own_padded s.now) }
{
    *padded = false;
    let n = s.len();
    if let Some(first) = crate::first::read_first(s, ROWS_TAG, padded) {
        if let Some(rows) = varint::read_short(s, first.next, padded) {
            if rows.next == n {
                return fetch_of(n, first.id, Some(rows.value));
            }
        }
    }
    *padded = false;
    long_fetch(&s[..n], padded)
}
