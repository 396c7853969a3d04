// A frame as one struct, for hosts that have no enum.
ghost use Rattle.std.specs.Prelude.{◌≡◌};
ghost use Rattle.message.specs.declared.request.Frame.{Frame};
ghost use Rattle.message.specs.declared.request.Request.{Request};
ghost use Rattle.protocol.specs.Reason.{number_of};
ghost use Rattle.karramotx.specs.Message.{args_told, bare, blank, message_of, optional_told, refused};

use args::arguments::Arguments;
use layout::part::Part;
use message::request::{Execute, Fetch, Frame, Open, Prepare, Request};
use protocol::reason::Reason;
use protocol::{client, reason};

// `reason` is 0, or the number by which the frame is refused by itself, and then all else but `used`, and for 17
// `padded`, is 0. `used` is the frame's length, 0 where it is refused 1 or 2. What the message's type does not have is
// 0 or absent. `padded` says whether a varint read in the frame is padded.
#[repr(C)]
#[derive(Clone, Copy)]
pub struct Message {
    pub reason: u64,
    pub used: usize,
    // The message type of the frame.
    pub kind: u64,
    pub stmt: u64,
    pub cursor: u64,
    // fetch_rows and compact_metadata.
    pub rows: Optional,
    pub compact: Optional,
    // The type of a Prepare's statement, and the chosen body.
    pub operation: u64,
    pub body: Part,
    pub args: Args,
    pub padded: bool,
}

// An optional field: whether it is present, and its value (0 where it is not).
#[repr(C)]
#[derive(Clone, Copy)]
pub struct Optional {
    pub present: bool,
    pub value: u64,
}

impl From<Option<u64>> for Optional {
    ghost from_gives = { λ field told. told ≡ optional_told field };

    fn from(field: Option<u64>) -> Optional {
        match field {
            Some(value) => Optional {
                present: true,
                value,
            },
            None => Optional {
                present: false,
                value: 0,
            },
        }
    }
}

// The arguments, as `Arguments` has them.
#[repr(C)]
#[derive(Clone, Copy)]
pub struct Args {
    pub good: bool,
    pub count: usize,
    pub kind: u64,
    pub index: usize,
    pub start: usize,
    pub end: usize,
}

// Nothing is said of padding yet.
impl From<Frame> for Message {
    ghost from_gives = { λ frame m. m ≡ message_of frame };

    fn from(frame: Frame) -> Message {
        match frame {
            Frame::NotAllThere => refused(Reason::NotAllThere, 0),
            Frame::BadLength => refused(Reason::BadLength, 0),
            Frame::UnknownType { used } => refused(Reason::UnknownType, used),
            Frame::BadPayload { used, kind: _ } => refused(Reason::BadPayload, used),
            Frame::BodyTwice { used, kind: _ } => refused(Reason::BodyTwice, used),
            Frame::Good { used, request } => told(used, request),
        }
    }
}

impl From<Arguments> for Args {
    ghost from_gives = { λ arguments args. args ≡ args_told arguments };

    fn from(arguments: Arguments) -> Args {
        Args {
            good: arguments.good,
            count: arguments.count,
            kind: arguments.kind,
            index: arguments.index,
            start: arguments.start,
            end: arguments.end,
        }
    }
}

// A message of this type with nothing in it.
fn bare(reason: u64, used: usize, kind: u64) -> Message
    ensures { result ≡ bare reason used kind }
{
    Message {
        reason,
        used,
        kind,
        stmt: 0,
        cursor: 0,
        rows: None.into(),
        compact: None.into(),
        operation: 0,
        body: Part { start: 0, len: 0 },
        args: Arguments::none(0, 0).into(),
        padded: false,
    }
}

// A frame refused by itself.
fn refused(reason: Reason, used: usize) -> Message
    ensures { result ≡ refused (number_of reason) used }
{
    bare(reason.into(), used, 0)
}

// A message of this type with nothing in it yet.
fn blank(used: usize, kind: u64) -> Message
    ensures { result ≡ blank used kind }
{
    bare(reason::ACCEPTED, used, kind)
}

// A request, by what its message has.
fn told(used: usize, request: Request) -> Message
    ensures { result ≡ message_of (Frame.Good used request) }
{
    match request {
        Request::Reset => blank(used, client::RESET),
        Request::SessionClose => blank(used, client::SESSION_CLOSE),
        Request::Prepare(p) => prepare_told(used, p),
        Request::Execute(x) => execute_told(used, x),
        Request::Deallocate(stmt) => deallocate_told(used, stmt),
        Request::Open(o) => open_told(used, o),
        Request::Close(cursor) => close_told(used, cursor),
        Request::Fetch(f) => fetch_told(used, f),
    }
}

// Arguments are copied number by number: a struct that is copied as one takes the bytes between its
// fields along, and a processor waits for them.
fn prepare_told(used: usize, p: Prepare) -> Message
    ensures { result ≡ message_of (Frame.Good used (Request.Prepare p)) }
{
    let args = p.args;
    let body = p.body;
    let mut m = blank(used, client::PREPARE);
    m.stmt = p.stmt as u64;
    m.operation = p.operation;
    m.body = body;
    m.args = args.into();
    m
}

fn execute_told(used: usize, x: Execute) -> Message
    ensures { result ≡ message_of (Frame.Good used (Request.Execute x)) }
{
    let args = x.args;
    let compact = x.compact;
    let mut m = blank(used, client::EXECUTE);
    m.stmt = x.stmt as u64;
    m.compact = compact.into();
    m.args = args.into();
    m
}

fn deallocate_told(used: usize, stmt: u32) -> Message
    ensures { result ≡ message_of (Frame.Good used (Request.Deallocate stmt)) }
{
    let mut m = blank(used, client::DEALLOCATE);
    m.stmt = stmt as u64;
    m
}

fn open_told(used: usize, o: Open) -> Message
    ensures { result ≡ message_of (Frame.Good used (Request.Open o)) }
{
    let body = o.body;
    let rows = o.rows;
    let x = o.execute;
    let mut m = execute_told(used, x);
    m.kind = client::OPEN;
    m.cursor = o.cursor as u64;
    m.rows = rows.into();
    m.body = body;
    m
}

fn close_told(used: usize, cursor: u32) -> Message
    ensures { result ≡ message_of (Frame.Good used (Request.Close cursor)) }
{
    let mut m = blank(used, client::CLOSE);
    m.cursor = cursor as u64;
    m
}

fn fetch_told(used: usize, f: Fetch) -> Message
    ensures { result ≡ message_of (Frame.Good used (Request.Fetch f)) }
{
    let rows = f.rows;
    let mut m = blank(used, client::FETCH);
    m.cursor = f.cursor as u64;
    m.rows = rows.into();
    m
}
