// Client messages written into a lent buffer.
#![tactic(auto)]

ghost use Rattle.std.specs.Prelude.{◌≡◌, length};
ghost use Rattle.writer.specs.Write.{left_of, sent_by, sent_of};

use encode::head::put_head;
use judge::is_accepted;
use kind::kind_of;
use message::head::MAX_LENGTH;
use message::payload::PAYLOAD;
use payload::{payload_len, put_payload};
use protocol::reason;
use protocol::reason::Reason;

mod judge;
mod kind;
mod payload;

// One of the eight client messages. `kind` is its message type. What a kind does not have is ignored:
// `stmt` counts for Prepare, Execute, Deallocate and Open, `cursor` for Open, Close and Fetch, `rows`
// (fetch_rows, where `hasrows`) for Open and Fetch, `compact` (compact_metadata, where `hascompact`) for
// Execute and Open, `operation` (the type of the statement) for Prepare.
#[repr(C)]
#[derive(Clone, Copy)]
pub struct Draft {
    pub kind: u64,
    pub stmt: u32,
    pub cursor: u32,
    pub hasrows: bool,
    pub rows: u64,
    pub hascompact: bool,
    pub compact: bool,
    pub operation: u64,
}

// The reason by which a draft is refused, or 0 and the length of the frame that was written.
#[repr(C)]
#[derive(Clone, Copy)]
pub struct Sent {
    pub reason: u64,
    pub len: usize,
}

impl From<Result<usize, Reason>> for Sent {
    ghost from_gives = { λ outcome sent. sent ≡ sent_by outcome };

    fn from(outcome: Result<usize, Reason>) -> Sent {
        match outcome {
            Ok(len) => Sent {
                reason: reason::ACCEPTED,
                len,
            },
            Err(reason) => Sent {
                reason: u64::from(reason),
                len: 0,
            },
        }
    }
}

// The draft as a frame at the front of `buf`. `body` is the encoded body of a Prepare, `args` the args
// fields of an Execute or an Open, tags included; other kinds ignore them.
pub fn write_message(draft: Draft, body: &[u8], args: &[u8], buf: &mut [u8]) -> Sent
    ensures { (result ≡ sent_of draft body.now args.now (length buf.old))
        × (buf.new ≡ left_of draft body.now args.now buf.old) }
{
    Sent::from(write_frame(draft, body, args, buf))
}

// The same, with the frame's length or the reason as a result.
fn write_frame(draft: Draft, body: &[u8], args: &[u8], buf: &mut [u8]) -> Result<usize, Reason>
    ensures { (sent_by result ≡ sent_of draft body.now args.now (length buf.old))
        × (buf.new ≡ left_of draft body.now args.now buf.old) }
{
    let kind = kind_of(draft.kind)?;
    if !is_accepted(kind, draft.operation, body, args) {
        return Err(Reason::BadPayload);
    }
    let n = payload_len(kind, draft, body, args);
    if MAX_LENGTH <= n as u64 {
        return Err(Reason::BadLength);
    }
    if buf.len() < n + PAYLOAD {
        return Err(Reason::NoRoom);
    }
    let at = put_head(buf, 0, n as u64 + 1, (draft.kind % 256) as u8);
    Ok(put_payload(kind, draft, body, args, buf, at))
}
