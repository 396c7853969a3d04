// All that a host needs to know of a frame before its step, from one reading.
ghost use Rattle.std.specs.Prelude.{◌≡◌};
ghost use Rattle.message.specs.Padded.{where_read};
ghost use Rattle.session.specs.Words.{session_of};
ghost use Rattle.karramotx.specs.private.Inspected.{inspected};

use crate::told::Message;
use keeper::padded::said;
use message::request::Frame;
use rules::Look;
use session::WORDS;

// `look` and `message` are what a look and a read answer. `stmt_place` and `cursor_place` are the places of the tables
// where the request's statement and cursor stand, or are put by a Prepare and an Open; the number of places where there
// is none. `ends` has a bit for each place of a cursor that the request ends once it is accepted, the lowest for place
// 0.
#[repr(C)]
#[derive(Clone, Copy)]
pub struct Inspection {
    pub look: Look,
    pub message: Message,
    pub stmt_place: usize,
    pub cursor_place: usize,
    pub ends: u64,
}

// Of a frame that is read already, with what its reading told of padding.
pub fn inspect(session: &[u32; WORDS], frame: Frame, padded: bool) -> Inspection
    ensures { result ≡ inspected (session_of session.now) frame (where_read frame padded) }
{
    let found = keeper::inspect::inspect(session, frame);
    let mut message = Message::from(frame);
    message.padded = said(message.reason, padded);
    let mut look = found.look;
    look.padded = said(look.reason, message.padded);
    let touches = found.touches;
    Inspection {
        look,
        message,
        stmt_place: touches.stmt,
        cursor_place: touches.cursor,
        ends: touches.ends,
    }
}
