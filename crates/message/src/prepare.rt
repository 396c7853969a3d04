// Prepare, with the body that its type chooses. Where its parts stand is found first, by the short ways or the rows,
// and the frame is put together in one place: one that comes back from a call is copied whole, for which a processor
// waits. Padded varints in the body do not count: there `unread` is a flag that nobody looks at.
ghost use Rattle.std.specs.Prelude.{◌≡◌, ◌||◌, false};
ghost use Rattle.protocol.specs.Fields as Fields;
ghost use Rattle.layout.specs.Padded.{parts_padded};
ghost use Rattle.message.specs.Padded.{prepare_padded};
ghost use Rattle.message.specs.Prepare.{bodies_good, body_in, body_parts, prepare_frame, prepare_from};
ghost use Rattle.message.specs.Prepare.{prepare_inside, stmt_parts};
ghost use Rattle.message.specs.private.Marks.{Tells, TellsChosen, TellsStmt};
ghost use Rattle.message.specs.private.Parts.{Chooses, FindsStmt, Whole, chosen_of};

use crate::operation;
use crate::payload::{PAYLOAD, fill_payload, fill_stmt, low, once};
use crate::request::{Frame, Prepare, Request};
use crate::twice::{good_arguments, is_message};
use args::arguments::Arguments;
use args::bound::Message;
use args::pair::Pair;
use layout::found::Found;
use layout::part::Part;
use protocol::{client, fields, uint32, wire_type};

// A Prepare's id, and where its statement stands, if it is whole and does not come in parts.
#[derive(Clone, Copy)]
pub struct Stmt {
    pub id: u64,
    pub part: Option<Part>,
}

// A statement's type, and where the body that it chooses stands, or that it stands there more than once.
#[derive(Clone, Copy)]
pub enum Chosen {
    Once { operation: u64, body: Part },
    Twice { operation: u64 },
}

pub fn read_prepare(s: &[u8], padded: &mut bool) -> Frame
    ensures answer { result ≡ prepare_frame s.now }
    ensures told { Tells result padded.new (prepare_padded s.now) }
{
    match find_stmt(s, padded) {
        Some(stmt) => prepare_inside(s, stmt, padded),
        None => Frame::BadPayload {
            used: s.len(),
            kind: client::PREPARE,
        },
    }
}

// A Prepare with this id, and its statement.
fn prepare_inside(s: &[u8], stmt: Stmt, padded: &mut bool) -> Frame
    requires { Whole Fields.prepare_stmt s.now stmt.part }
    ensures answer { result ≡ prepare_inside s.now stmt.id (stmt_parts s.now) }
    ensures told { Tells result padded.new (padded.old || parts_padded s.now (stmt_parts s.now)) }
{
    match find_body(s, stmt.part, padded) {
        Some(Chosen::Once { operation, body }) => prepare_from(s, stmt.id, operation, body),
        Some(Chosen::Twice { operation }) => {
            crate::twice::refused(s.len(), client::PREPARE, good_bodies(s, operation))
        }
        None => Frame::BadPayload {
            used: s.len(),
            kind: client::PREPARE,
        },
    }
}

// A Prepare with this id and type, and its body in this part of s.
fn prepare_from(s: &[u8], id: u64, operation: u64, body: Part) -> Frame
    ensures { result
        ≡ prepare_from s.now id operation body (body_in s.now operation body.start body.len) }
{
    let args = read_body(s, operation, body.start, body.len);
    if !args.good {
        return Frame::BadPayload {
            used: s.len(),
            kind: client::PREPARE,
        };
    }
    let prepare = Prepare {
        stmt: low(id),
        operation,
        body,
        args: args.same(),
    };
    Frame::Good {
        used: s.len(),
        request: Request::Prepare(prepare),
    }
}

// The long way, by the rows.
fn long_stmt(s: &[u8], padded: &mut bool) -> Option<Stmt>
    requires { padded.old ≡ false }
    ensures answer { FindsStmt s.now result }
    ensures told { TellsStmt s.now result padded.new }
{
    let rows = layout::rows::prepare_rows();
    let mut found = Found::new();
    if !fill_payload(&rows, s, &mut found, padded) {
        return None;
    }
    Some(Stmt {
        id: found.slots[fields::ID].value,
        part: once(found.slots[fields::PREPARE_STMT]),
    })
}

// The number and the tag of the statement.
const STMT_NUMBER: u64 = fields::PREPARE_STMT as u64;

const STMT_TAG: u8 = (fields::PREPARE_STMT as u64 * 8 + wire_type::LEN) as u8;

// With a short way for a Prepare of its two fields alone, as most are.
fn find_stmt(s: &[u8], padded: &mut bool) -> Option<Stmt>
    ensures answer { FindsStmt s.now result }
    ensures told { TellsStmt s.now result padded.new }
{
    *padded = false;
    let n = s.len();
    if let Some(first) = crate::first::read_first(s, STMT_TAG, padded) {
        if let Some(stmt) = wire::value::length_value(s, first.next, padded) {
            if stmt.next == n {
                let part = Part {
                    start: stmt.start,
                    len: stmt.len,
                };
                return Some(Stmt {
                    id: first.id,
                    part: Some(part),
                });
            }
        }
    }
    *padded = false;
    long_stmt(&s[..n], padded)
}

// What a good statement chooses.
fn chosen_of(found: &Found) -> Option<Chosen>
    ensures { result ≡ chosen_of found.now }
{
    let operation = found.slots[fields::TYPE].value % uint32::COUNT;
    let slot = found.slots[operation::field_of(operation)];
    if slot.times == 0 {
        return None;
    }
    match once(slot) {
        Some(body) => Some(Chosen::Once { operation, body }),
        None => Some(Chosen::Twice { operation }),
    }
}

// The long way, by the rows.
fn long_chosen(s: &[u8], part: Option<Part>, padded: &mut bool) -> Option<Chosen>
    requires { Whole Fields.prepare_stmt s.now part }
    ensures answer { Chooses s.now (stmt_parts s.now) result }
    ensures told { TellsChosen s.now (stmt_parts s.now) result padded.old padded.new }
{
    let rows = layout::rows::prepare_stmt_rows();
    let mut found = Found::new();
    if !fill_stmt(&rows, s, STMT_NUMBER, part, &mut found, padded) {
        return None;
    }
    chosen_of(&found)
}

// A statement's type StmtExecute, and the tag of the body that it chooses (field 6, wire type 2), in one number.
const CHOSEN_EXECUTE: u64 = operation::STMT_EXECUTE * 256
    + operation::STMT_EXECUTE_FIELD as u64 * 8
    + wire_type::LEN;

// The body that the statement chooses, with a short way for a whole one of two fields, its type and its body, a
// StmtExecute. None where the statement is bad. Its twin for an Open tells another answer by other rows: one function
// for both would take the rows, the key and what to make of a part, and be longer than either.
fn find_body(s: &[u8], part: Option<Part>, padded: &mut bool) -> Option<Chosen>
    requires { Whole Fields.prepare_stmt s.now part }
    ensures answer { Chooses s.now (stmt_parts s.now) result }
    ensures told { TellsChosen s.now (stmt_parts s.now) result padded.old padded.new }
{
    let all = s.len();
    let Some(whole) = part else {
        return long_chosen(&s[..all], None, padded);
    };
    if let Some(Pair { key, value, start }) = args::pair::read_pair(
        s,
        whole.start,
        whole.len,
        padded,
    ) {
        if key == CHOSEN_EXECUTE {
            return Some(Chosen::Once {
                operation: operation::STMT_EXECUTE,
                body: Part {
                    start,
                    len: value as usize,
                },
            });
        }
    }
    long_chosen(&s[..all], part, padded)
}

// Whether a body of this type that occurs more than once is good in every part.
fn good_bodies(s: &[u8], operation: u64) -> bool
    ensures { result ≡ bodies_good s.now operation (body_parts s.now operation) }
{
    let rows = layout::rows::stmt_execute_rows();
    let k = operation::field_of(operation) as u64;
    if operation != operation::STMT_EXECUTE {
        return is_message(&rows[..0], s, STMT_NUMBER, k);
    }
    if !is_message(&rows, s, STMT_NUMBER, k) {
        return false;
    }
    let mut unread = false;
    good_arguments(s, STMT_NUMBER, k, &mut unread)
}

// The long way, in one pass or by the rows.
pub fn long_body(s: &[u8], operation: u64, at: usize, n: usize) -> Arguments
    ensures { result ≡ body_in s.now operation at n }
{
    let mut unread = false;
    if operation == operation::STMT_EXECUTE {
        let Some(b) = args::bound::read_bound(s, at, n, Message::StmtExecute, &mut unread) else {
            return Arguments::bad();
        };
        let Some(_text) = b.one else {
            return Arguments::bad();
        };
        return b.arguments(at, at + n);
    }
    let rows = layout::rows::stmt_execute_rows();
    let mut found = Found::new();
    if !found.fill_part(&rows[..0], s, at, n, &mut unread) {
        return Arguments::bad();
    }
    Arguments::none(0, 0)
}

// The arguments of a body of this type in `n` bytes of s from `at` on, bad ones where the body is; with a short way for
// a StmtExecute of its text alone, as most are.
fn read_body(s: &[u8], operation: u64, at: usize, n: usize) -> Arguments
    ensures { result ≡ body_in s.now operation at n }
{
    let all = s.len();
    let mut unread = false;
    if operation == operation::STMT_EXECUTE {
        if let Some(_) = args::pair::read_text(s, at, n, &mut unread) {
            return Arguments::none(at, at + n);
        }
    }
    let args = long_body(&s[..all], operation, at, n);
    args.same()
}
