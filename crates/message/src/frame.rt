// A frame by itself: the request it holds, its chosen body, its arguments.
ghost use Rattle.std.specs.Prelude.{◌≡◌, ◌+◌, length};
ghost use Rattle.message.specs.Padded.{kind_padded, padded_of};
ghost use Rattle.message.specs.private.Marks.{Tells};
ghost use Rattle.message.specs.Frame.{argument_of, body_of, chosen_part, frame_in, frame_of, refused_head};

use crate::request::Frame;
use layout::part::Part;
use protocol::client;
use protocol::reason::{self, Reason};
use scalar::argument::Argument;

// The frame s, whole and with nothing behind it, by its message type: the byte goes into this one match, out of which
// comes a case of the enum Request.
fn read_kind(s: &[u8], kind: u64, padded: &mut bool) -> Frame
    ensures answer { result ≡ frame_in s.now kind }
    ensures told { Tells result padded.new (kind_padded s.now kind) }
{
    match kind {
        client::RESET => crate::simple::read_reset(s, padded),
        client::SESSION_CLOSE => crate::simple::read_session_close(s, padded),
        client::PREPARE => crate::prepare::read_prepare(s, padded),
        client::EXECUTE => crate::execute::read_execute(s, padded),
        client::DEALLOCATE => crate::simple::read_deallocate(s, padded),
        client::OPEN => crate::execute::read_open(s, padded),
        client::CLOSE => crate::simple::read_close(s, padded),
        client::FETCH => crate::simple::read_fetch(s, padded),
        _ => Frame::UnknownType { used: s.len() },
    }
}

// A head that is refused, as a frame.
fn refused_head(reason: Reason) -> Frame
    ensures { result ≡ refused_head reason }
{
    match reason {
        Reason::BadLength => Frame::BadLength,
        _ => Frame::NotAllThere,
    }
}

// The frame that a byte string begins with; bytes past it are not read. Where it holds a request, or a body
// twice, the flag says whether a varint that was read in its payload is padded, whatever it said before; else nothing
// is said of it.
pub fn read_frame(s: &[u8], padded: &mut bool) -> Frame
    ensures answer { result ≡ frame_of s.now }
    ensures told { Tells result padded.new (padded_of s.now) }
{
    match crate::head::read_head(s) {
        Ok(head) => read_kind(&s[..head.end], u64::from(head.kind), padded),
        Err(reason) => refused_head(reason),
    }
}

// Where the chosen body stands: a Prepare's body, an Open's Execute. Empty, and at the frame's start, where the
// frame is refused or has no chosen body.
pub fn chosen_part(s: &[u8]) -> Part
    ensures { result ≡ chosen_part s.now }
{
    let mut unread = false;
    match read_frame(s, &mut unread) {
        Frame::NotAllThere => Part { start: 0, len: 0 },
        Frame::BadLength => Part { start: 0, len: 0 },
        Frame::UnknownType { used: _ } => Part { start: 0, len: 0 },
        Frame::BadPayload { used: _, kind: _ } => Part { start: 0, len: 0 },
        Frame::BodyTwice { used: _, kind: _ } => Part { start: 0, len: 0 },
        Frame::Good { used: _, request } => crate::request::body_of(request),
    }
}

// The chosen body as that part of the caller's own bytes: it starts at the chosen part's place, also where it is
// empty, and has its length.
pub fn chosen_body(s: &[u8]) -> &[u8]
    ensures bytes { result.now ≡ body_of s.now }
    ensures place { result.ref_ptr ≡ (s.entry.ref_ptr.0, (chosen_part s.now).start + s.entry.ref_ptr.1) }
    ensures size { length result.now ≡ (chosen_part s.now).len }
{
    let body = chosen_part(s);
    let start = body.start;
    let end = start + body.len;
    &s[start..end]
}

// One argument by its index from 0.
pub fn argument(s: &[u8], index: usize) -> Argument
    ensures { result ≡ argument_of s.now index }
{
    let mut unread = false;
    match read_frame(s, &mut unread) {
        Frame::NotAllThere => Argument::Refused(reason::NOT_ALL_THERE),
        Frame::BadLength => Argument::Refused(reason::BAD_LENGTH),
        Frame::UnknownType { used: _ } => Argument::Refused(reason::UNKNOWN_TYPE),
        Frame::BadPayload { used: _, kind: _ } => Argument::Refused(reason::BAD_PAYLOAD),
        Frame::BodyTwice { used: _, kind: _ } => Argument::Refused(reason::BODY_TWICE),
        Frame::Good { used: _, request } => {
            let args = crate::request::args_of(request);
            let start = args.start;
            let end = args.end;
            args::arguments::nth_argument(&s[..end], start, index)
        }
    }
}
