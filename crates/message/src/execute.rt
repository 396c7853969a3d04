// Execute, and Open with the Execute in it. Where an Open's parts stand is found first, as in a Prepare.
ghost use Rattle.std.specs.Prelude.{◌≡◌, ◌||◌, false, true, ◌-◌, length};
ghost use Rattle.protocol.specs.Fields as Fields;
ghost use Rattle.args.specs.Padded.{execute_padded};
ghost use Rattle.message.specs.Execute.{execute_frame, execute_from, execute_in, execute_parts, executes_good};
ghost use Rattle.message.specs.Execute.{open_frame, open_from, open_inside, open_parts};
ghost use Rattle.message.specs.Padded.{executes_padded, open_padded, open_stmt_padded};
ghost use Rattle.message.specs.Payload.{payload};
ghost use Rattle.message.specs.private.Marks.{Tells, TellsInner, TellsOpening};
ghost use Rattle.message.specs.private.Parts.{FindsOpening, Runs, Whole, execute_by, inner_of};

use crate::payload::{PAYLOAD, fill_payload, fill_stmt, low, once, optional, read_truth};
use crate::request::{Execute, Frame, Open, Request};
use crate::twice::{good_arguments, is_message};
use args::bound::{Bound, Message};
use args::pair::Pair;
use layout::found::Found;
use layout::part::Part;
use protocol::{client, fields, wire_type};

// An Open's cursor id, where its statement stands, if it is whole and does not come in parts, and fetch_rows.
#[derive(Clone, Copy)]
pub struct Opening {
    pub id: u64,
    pub part: Option<Part>,
    pub rows: Option<u64>,
}

// Where the Execute of an Open's statement stands, or that it stands there more than once.
#[derive(Clone, Copy)]
pub enum Inner {
    Once(Part),
    Twice,
}

pub fn read_execute(s: &[u8], padded: &mut bool) -> Frame
    ensures answer { result ≡ execute_frame s.now }
    ensures told { Tells result padded.new (execute_padded s.now payload (length s.now - payload)) }
{
    *padded = false;
    execute_from(s, rest(s), padded)
}

// The bytes of the payload; none where the frame is shorter than its head.
fn rest(s: &[u8]) -> usize
    ensures { result ≡ length s.now - payload }
{
    if s.len() < PAYLOAD {
        return 0;
    }
    s.len() - PAYLOAD
}

// An Execute in the `n` bytes of the payload.
fn execute_from(s: &[u8], n: usize, padded: &mut bool) -> Frame
    ensures answer { result ≡ execute_from s.now (execute_in s.now payload n) }
    ensures told { Tells result padded.new (padded.old || execute_padded s.now payload n) }
{
    let Some(b) = args::bound::read_bound(s, PAYLOAD, n, Message::Execute, padded) else {
        return Frame::BadPayload {
            used: s.len(),
            kind: client::EXECUTE,
        };
    };
    let Some(id) = b.one else {
        return Frame::BadPayload {
            used: s.len(),
            kind: client::EXECUTE,
        };
    };
    let execute = execute_of(b, id, PAYLOAD, PAYLOAD + n);
    Frame::Good {
        used: s.len(),
        request: Request::Execute(execute),
    }
}

// A good Execute in the bytes from `start` to `end`. Field 1 is stmt_id, 3 compact_metadata.
fn execute_of(b: Bound, id: u64, start: usize, end: usize) -> Execute
    ensures { result ≡ execute_by b id start end }
{
    Execute {
        stmt: low(id),
        compact: read_truth(b.three),
        args: b.arguments(start, end),
    }
}

pub fn read_open(s: &[u8], padded: &mut bool) -> Frame
    ensures answer { result ≡ open_frame s.now }
    ensures told { Tells result padded.new (open_padded s.now) }
{
    match find_opening(s, padded) {
        Some(opening) => open_inside(s, opening, padded),
        None => Frame::BadPayload {
            used: s.len(),
            kind: client::OPEN,
        },
    }
}

// An Open with this cursor id and fetch_rows, and its statement.
fn open_inside(s: &[u8], opening: Opening, padded: &mut bool) -> Frame
    requires { Whole Fields.open_stmt s.now opening.part }
    ensures answer { result ≡ open_inside s.now opening.id opening.rows (open_parts s.now) }
    ensures told { Tells result padded.new
        (padded.old || open_stmt_padded s.now (open_parts s.now)) }
{
    match find_execute(s, opening.part, padded) {
        Some(Inner::Once(body)) => open_from(s, opening.id, opening.rows, body, padded),
        Some(Inner::Twice) => {
            crate::twice::refused(s.len(), client::OPEN, good_executes(s, padded))
        }
        None => Frame::BadPayload {
            used: s.len(),
            kind: client::OPEN,
        },
    }
}

// Whether an Execute that occurs more than once is good in every part.
fn good_executes(s: &[u8], padded: &mut bool) -> bool
    ensures answer { result ≡ executes_good s.now (execute_parts s.now) }
    ensures told { result ≡ true →
        padded.new
        ≡ (padded.old || executes_padded s.now (execute_parts s.now)) }
{
    let rows = layout::rows::execute_rows();
    if !is_message(&rows, s, STMT_NUMBER, EXECUTE_NUMBER) {
        return false;
    }
    good_arguments(s, STMT_NUMBER, EXECUTE_NUMBER, padded)
}

// An Open with this cursor id and fetch_rows, and its Execute in this part of s.
fn open_from(s: &[u8], id: u64, rows: Option<u64>, body: Part, padded: &mut bool) -> Frame
    ensures answer { result
        ≡ open_from s.now id rows body (execute_in s.now body.start body.len) }
    ensures told { Tells result padded.new
        (padded.old || execute_padded s.now body.start body.len) }
{
    let Some(b) = args::bound::read_bound(s, body.start, body.len, Message::Execute, padded) else {
        return Frame::BadPayload {
            used: s.len(),
            kind: client::OPEN,
        };
    };
    let Some(stmt) = b.one else {
        return Frame::BadPayload {
            used: s.len(),
            kind: client::OPEN,
        };
    };
    let open = Open {
        cursor: low(id),
        rows,
        body,
        execute: execute_of(b, stmt, body.start, body.start + body.len),
    };
    Frame::Good {
        used: s.len(),
        request: Request::Open(open),
    }
}

// The long way, by the rows.
fn long_opening(s: &[u8], padded: &mut bool) -> Option<Opening>
    requires { padded.old ≡ false }
    ensures answer { FindsOpening s.now result }
    ensures told { TellsOpening s.now result padded.new }
{
    let rows = layout::rows::open_rows();
    let mut found = Found::new();
    if !fill_payload(&rows, s, &mut found, padded) {
        return None;
    }
    Some(Opening {
        id: found.slots[fields::ID].value,
        part: once(found.slots[fields::OPEN_STMT]),
        rows: optional(found.slots[fields::OPEN_ROWS]),
    })
}

// With the short way for its own fields.
fn find_opening(s: &[u8], padded: &mut bool) -> Option<Opening>
    ensures answer { FindsOpening s.now result }
    ensures told { TellsOpening s.now result padded.new }
{
    *padded = false;
    let n = s.len();
    if let Some(outer) = crate::outer::read_outer(s, padded) {
        return Some(Opening {
            id: outer.id,
            part: Some(outer.part),
            rows: outer.rows,
        });
    }
    *padded = false;
    long_opening(&s[..n], padded)
}

// The Execute of a good statement.
fn inner_of(found: &Found) -> Option<Inner>
    ensures { result ≡ inner_of found.now }
{
    let slot = found.slots[fields::OPEN_EXECUTE];
    if slot.times == 0 {
        return None;
    }
    match once(slot) {
        Some(body) => Some(Inner::Once(body)),
        None => Some(Inner::Twice),
    }
}

// The long way, by the rows.
fn long_inner(s: &[u8], part: Option<Part>, padded: &mut bool) -> Option<Inner>
    requires { Whole Fields.open_stmt s.now part }
    ensures answer { Runs s.now (open_parts s.now) result }
    ensures told { TellsInner s.now (open_parts s.now) result padded.old padded.new }
{
    let rows = layout::rows::open_stmt_rows();
    let mut found = Found::new();
    if !fill_stmt(&rows, s, STMT_NUMBER, part, &mut found, padded) {
        return None;
    }
    inner_of(&found)
}

// The numbers of the statement and of its Execute.
const STMT_NUMBER: u64 = fields::OPEN_STMT as u64;

const EXECUTE_NUMBER: u64 = fields::OPEN_EXECUTE as u64;

// The type and the tag of an Open's statement of two fields, in one number: type 0, and its Execute in field 2.
const CHOSEN_EXECUTE: u64 = EXECUTE_NUMBER * 8 + wire_type::LEN;

// The Execute of the statement, with a short way for a whole one of two fields, its type and its Execute. None where
// the statement is bad.
fn find_execute(s: &[u8], part: Option<Part>, padded: &mut bool) -> Option<Inner>
    requires { Whole Fields.open_stmt s.now part }
    ensures answer { Runs s.now (open_parts s.now) result }
    ensures told { TellsInner s.now (open_parts s.now) result padded.old padded.new }
{
    let all = s.len();
    let Some(whole) = part else {
        return long_inner(&s[..all], None, padded);
    };
    if let Some(Pair { key, value, start }) = args::pair::read_pair(
        s,
        whole.start,
        whole.len,
        padded,
    ) {
        if key == CHOSEN_EXECUTE {
            return Some(Inner::Once(Part {
                start,
                len: value as usize,
            }));
        }
    }
    long_inner(&s[..all], part, padded)
}
