// The payload of each message: its length, and its fields put at a place of a buffer. What puts answers the place
// behind it.
ghost use Rattle.std.specs.Prelude.{◌≡◌, Some, None, cond, length};
ghost use Rattle.encode.specs.Puts.{Puts};
ghost use Rattle.writer.specs.Payload.{execute_payload, open_payload, open_stmt_payload};
ghost use Rattle.writer.specs.Payload.{fetch_payload, payload_as, prepare_payload, prepare_stmt_payload};
ghost use Rattle.writer.specs.private.Kind.{type_of};

use crate::Draft;
use crate::kind::Kind;
use encode::field::{
    number_len, optional_len, prefix_len, put_bytes, put_number, put_optional, put_prefix,
};
use encode::put::put_slice;
use message::operation::field_of;
use protocol::fields;

// Field numbers as they are put.
const ID: u32 = fields::ID as u32;

const TYPE: u32 = fields::TYPE as u32;

const PREPARE_STMT: u32 = fields::PREPARE_STMT as u32;

const COMPACT: u32 = fields::COMPACT as u32;

const OPEN_EXECUTE: u32 = fields::OPEN_EXECUTE as u32;

const OPEN_STMT: u32 = fields::OPEN_STMT as u32;

const OPEN_ROWS: u32 = fields::OPEN_ROWS as u32;

const FETCH_ROWS: u32 = fields::FETCH_ROWS as u32;

// The one type of an Open's statement.
const OPENS_PREPARED: u64 = 0;

// What a draft has by a flag and a value: fetch_rows, and compact_metadata as 1 or 0.
fn rows_of(draft: Draft) -> Option<u64>
    ensures { result ≡ cond draft.hasrows (Some draft.rows) None }
{
    if draft.hasrows {
        return Some(draft.rows);
    }
    None
}

fn compact_of(draft: Draft) -> Option<u64>
    ensures { result ≡ cond draft.hascompact (Some (cond draft.compact 1 0)) None }
{
    if draft.hascompact {
        return Some(u64::from(draft.compact));
    }
    None
}

fn execute_len(draft: Draft, args: &[u8]) -> usize
    ensures { result ≡ length (execute_payload draft args.now) }
{
    number_len(ID, draft.stmt as u64) + args.len() + optional_len(COMPACT, compact_of(draft))
}

fn open_stmt_len(draft: Draft, args: &[u8]) -> usize
    ensures { result ≡ length (open_stmt_payload draft args.now) }
{
    let n = execute_len(draft, args);
    number_len(TYPE, OPENS_PREPARED) + prefix_len(OPEN_EXECUTE, n) + n
}

fn open_len(draft: Draft, args: &[u8]) -> usize
    ensures { result ≡ length (open_payload draft args.now) }
{
    let n = open_stmt_len(draft, args);
    number_len(ID, draft.cursor as u64)
        + prefix_len(OPEN_STMT, n)
        + n
        + optional_len(OPEN_ROWS, rows_of(draft))
}

fn prepare_stmt_len(draft: Draft, body: &[u8]) -> usize
    ensures { result ≡ length (prepare_stmt_payload draft body.now) }
{
    let body_field = field_of(draft.operation) as u32;
    number_len(TYPE, draft.operation) + prefix_len(body_field, body.len()) + body.len()
}

fn prepare_len(draft: Draft, body: &[u8]) -> usize
    ensures { result ≡ length (prepare_payload draft body.now) }
{
    let n = prepare_stmt_len(draft, body);
    number_len(ID, draft.stmt as u64) + prefix_len(PREPARE_STMT, n) + n
}

fn fetch_len(draft: Draft) -> usize
    ensures { result ≡ length (fetch_payload draft) }
{
    number_len(ID, draft.cursor as u64) + optional_len(FETCH_ROWS, rows_of(draft))
}

pub(crate) fn payload_len(kind: Kind, draft: Draft, body: &[u8], args: &[u8]) -> usize
    ensures { result ≡ length (payload_as (type_of kind) draft body.now args.now) }
{
    match kind {
        Kind::Prepare => prepare_len(draft, body),
        Kind::Execute => execute_len(draft, args),
        Kind::Deallocate => number_len(ID, draft.stmt as u64),
        Kind::Open => open_len(draft, args),
        Kind::Close => number_len(ID, draft.cursor as u64),
        Kind::Fetch => fetch_len(draft),
        Kind::Reset => 0,
        Kind::SessionClose => 0,
    }
}

fn put_execute(draft: Draft, args: &[u8], buf: &mut [u8], at: usize) -> usize
    ensures { Puts buf.old at (execute_payload draft args.now) result buf.new }
{
    let p = put_number(buf, at, ID, draft.stmt as u64);
    let q = put_slice(buf, p, args);
    put_optional(buf, q, COMPACT, compact_of(draft))
}

fn put_open_stmt(draft: Draft, args: &[u8], buf: &mut [u8], at: usize) -> usize
    ensures { Puts buf.old at (open_stmt_payload draft args.now) result buf.new }
{
    let p = put_number(buf, at, TYPE, OPENS_PREPARED);
    let q = put_prefix(buf, p, OPEN_EXECUTE, execute_len(draft, args));
    put_execute(draft, args, buf, q)
}

fn put_open(draft: Draft, args: &[u8], buf: &mut [u8], at: usize) -> usize
    ensures { Puts buf.old at (open_payload draft args.now) result buf.new }
{
    let p = put_number(buf, at, ID, draft.cursor as u64);
    let q = put_prefix(buf, p, OPEN_STMT, open_stmt_len(draft, args));
    let rows_at = put_open_stmt(draft, args, buf, q);
    put_optional(buf, rows_at, OPEN_ROWS, rows_of(draft))
}

fn put_prepare_stmt(draft: Draft, body: &[u8], buf: &mut [u8], at: usize) -> usize
    ensures { Puts buf.old at (prepare_stmt_payload draft body.now) result buf.new }
{
    let body_field = field_of(draft.operation) as u32;
    let p = put_number(buf, at, TYPE, draft.operation);
    put_bytes(buf, p, body_field, body)
}

fn put_prepare(draft: Draft, body: &[u8], buf: &mut [u8], at: usize) -> usize
    ensures { Puts buf.old at (prepare_payload draft body.now) result buf.new }
{
    let p = put_number(buf, at, ID, draft.stmt as u64);
    let q = put_prefix(buf, p, PREPARE_STMT, prepare_stmt_len(draft, body));
    put_prepare_stmt(draft, body, buf, q)
}

fn put_fetch(draft: Draft, buf: &mut [u8], at: usize) -> usize
    ensures { Puts buf.old at (fetch_payload draft) result buf.new }
{
    let p = put_number(buf, at, ID, draft.cursor as u64);
    put_optional(buf, p, FETCH_ROWS, rows_of(draft))
}

pub(crate) fn put_payload(
    kind: Kind,
    draft: Draft,
    body: &[u8],
    args: &[u8],
    buf: &mut [u8],
    at: usize,
) -> usize
    ensures { Puts buf.old at (payload_as (type_of kind) draft body.now args.now) result buf.new }
{
    match kind {
        Kind::Prepare => put_prepare(draft, body, buf, at),
        Kind::Execute => put_execute(draft, args, buf, at),
        Kind::Deallocate => put_number(buf, at, ID, draft.stmt as u64),
        Kind::Open => put_open(draft, args, buf, at),
        Kind::Close => put_number(buf, at, ID, draft.cursor as u64),
        Kind::Fetch => put_fetch(draft, buf, at),
        Kind::Reset => at,
        Kind::SessionClose => at,
    }
}
