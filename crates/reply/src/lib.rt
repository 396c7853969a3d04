// Replies of the server: which frames each is made of, written into a lent buffer.
#![tactic(auto)]

ghost use Rattle.std.specs.Prelude.{◌≡◌};
ghost use Rattle.encode.specs.Put.{put_at, written};
ghost use Rattle.reply.specs.Frame.{error_frame};
ghost use Rattle.encode.specs.Puts.{PutsIfRoom};
ghost use Rattle.reply.specs.Reply.{code_of, message_of, reply_bytes};

use protocol::{reason, server};

pub mod decimal;
mod frame;
mod text;

// The refusal that an Error tells: its number, its wire code, and what its text names: an id, index or count and, for
// an argument, the type of its Any. They are numbers since `write_reply` says what it writes of each, a reason or not.
#[derive(Clone, Copy)]
pub struct Refusal {
    pub reason: u64,
    pub code: u64,
    pub number: u64,
    pub kind: u64,
}

// What is replied: no frame; Ok; FetchSuspended or FetchDone, and StmtExecuteOk behind it; StmtExecuteOk alone; an
// Error.
#[derive(Clone, Copy)]
pub enum Reply {
    Nothing,
    Ok,
    Suspended,
    Done,
    Executed,
    Error(Refusal),
}

const CODES: [u64; 18] = [
    0, 0, 0, 0, 6004, 6005, 5000, 5110, 6008, 6009, 5111, 6011, 6012, 6013, 6014, 6015, 0, 6017,
];

// The wire code of a refusal: 0 for those that send none, and for 16, which has the engine's own.
pub fn code_of(reason: u64) -> u64
    ensures { result ≡ code_of reason }
{
    if reason::BODY_TWICE < reason {
        return 0;
    }
    CODES[reason as usize]
}

// An Error. Its text is made in an array, since the text's length stands before it in the frame.
fn write_refusal(buf: &mut [u8], refusal: Refusal) -> Option<usize>
    ensures { PutsIfRoom buf.old 0 (error_frame refusal.code (message_of refusal)) result buf.new }
{
    let mut text = [0u8; 128];
    let n = text::put_text(&mut text, refusal.reason, refusal.number, refusal.kind);
    frame::write_error(buf, refusal.code, &text[..n])
}

// The reply's bytes put at the front of the buffer, where they fit; else the buffer stays as it was.
pub fn write_reply(buf: &mut [u8], reply: Reply) -> Option<usize>
    ensures { (result ≡ put_at buf.old 0 (reply_bytes reply))
        × (buf.new ≡ written buf.old 0 (reply_bytes reply)) }
{
    match reply {
        Reply::Nothing => Some(0),
        Reply::Ok => frame::write_empty(buf, server::OK),
        Reply::Suspended => frame::write_end(buf, server::FETCH_SUSPENDED),
        Reply::Done => frame::write_end(buf, server::FETCH_DONE),
        Reply::Executed => frame::write_empty(buf, server::STMT_EXECUTE_OK),
        Reply::Error(refusal) => write_refusal(buf, refusal),
    }
}
