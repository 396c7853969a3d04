// Frames: empty ones, the two that end a stretch of rows, and Error.
ghost use Rattle.std.specs.Prelude.{[], ◌++◌};
ghost use Rattle.encode.specs.Frame.{frame};
ghost use Rattle.encode.specs.Puts.{Puts, PutsIfRoom};
ghost use Rattle.reply.specs.Frame.{error_frame, error_payload, stmt_execute_ok};

use encode::field::{put_bytes, put_number};
use encode::head::put_head;
use encode::number::varint_len;
use protocol::server;

// The length of a frame without payload.
const EMPTY: usize = 5;

// What its four bytes of length say: the type byte alone.
const TYPE_BYTE: u64 = 1;

// The fields of an Error.
const SEVERITY: u32 = 1;

const CODE: u32 = 2;

const MESSAGE: u32 = 3;

const SQL_STATE: u32 = 4;

// The severity, of one byte, the SQL state, the tags of all four, the lengths of the message and the state, and the
// type byte: what an Error's size counts beside the code's varint, that of the message's length, and the message.
const AROUND_MESSAGE: usize = 12;

// A frame with no payload.
pub(crate) fn write_empty(buf: &mut [u8], kind: u8) -> Option<usize>
    ensures { PutsIfRoom buf.old 0 (frame kind []) result buf.new }
{
    if buf.len() < EMPTY {
        return None;
    }
    Some(put_head(buf, 0, TYPE_BYTE, kind))
}

// The frame that ends a stretch of rows, and StmtExecuteOk in the part of the buffer behind it.
pub(crate) fn write_end(buf: &mut [u8], kind: u8) -> Option<usize>
    ensures { PutsIfRoom buf.old 0 (frame kind [] ++ stmt_execute_ok) result buf.new }
{
    if buf.len() < 2 * EMPTY {
        return None;
    }
    let n = put_head(buf, 0, TYPE_BYTE, kind);
    let m = put_head(&mut buf[n..], 0, TYPE_BYTE, server::STMT_EXECUTE_OK);
    Some(n + m)
}

// The payload of an Error: severity 0, code, message and SQL state.
fn put_error(buf: &mut [u8], at: usize, code: u64, message: &[u8]) -> usize
    ensures { Puts buf.old at (error_payload code message.now) result buf.new }
{
    let code_at = put_number(buf, at, SEVERITY, 0);
    let message_at = put_number(buf, code_at, CODE, code);
    let state_at = put_bytes(buf, message_at, MESSAGE, message);
    put_bytes(buf, state_at, SQL_STATE, b"HY000")
}

// An Error frame. Its length is counted first.
pub(crate) fn write_error(buf: &mut [u8], code: u64, message: &[u8]) -> Option<usize>
    ensures { PutsIfRoom buf.old 0 (error_frame code message.now) result buf.new }
{
    let n = message.len();
    let size = AROUND_MESSAGE + varint_len(code) + varint_len(n as u64) + n;
    if buf.len() < 4 + size {
        return None;
    }
    let at = put_head(buf, 0, size as u64, server::ERROR);
    Some(put_error(buf, at, code, message))
}
