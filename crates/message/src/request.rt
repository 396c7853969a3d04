// What a client message asks, a case for each message; and what a frame is by itself.
ghost use Rattle.std.specs.Prelude.{◌≡◌};
ghost use Rattle.message.specs.Request.{args_of, body_of};

use args::arguments::Arguments;
use layout::part::Part;

// The fields of the messages below stand in such an order that a flag of one shares its bytes with flags of the others,
// and hardly with their numbers: a number that is put together with a flag goes to memory in pieces.

// A statement to prepare. `operation` is the type of its body, which stands at `body`.
#[derive(Clone, Copy)]
pub struct Prepare {
    pub args: Arguments,
    pub stmt: u32,
    pub operation: u64,
    pub body: Part,
}

// A statement to run, also the one of an Open. `compact` is compact_metadata.
#[derive(Clone, Copy)]
pub struct Execute {
    pub args: Arguments,
    pub stmt: u32,
    pub compact: Option<u64>,
}

// A cursor to open on the statement that `execute` runs; `rows` is fetch_rows, `body` is where the Execute stands.
#[derive(Clone, Copy)]
pub struct Open {
    pub execute: Execute,
    pub body: Part,
    pub cursor: u32,
    pub rows: Option<u64>,
}

// Rows to send of a cursor; `rows` is fetch_rows.
#[derive(Clone, Copy)]
pub struct Fetch {
    pub rows: Option<u64>,
    pub cursor: u32,
}

#[derive(Clone, Copy)]
pub enum Request {
    Reset,
    SessionClose,
    Prepare(Prepare),
    Execute(Execute),
    Deallocate(u32),
    Open(Open),
    Close(u32),
    Fetch(Fetch),
}

// What the bytes of a frame hold. `used` is the frame's length. Not a Result: most refusals tell that length too, as a
// good frame does, and each caller answers every refusal in its own way, so that an Err would be taken apart there
// again.
#[derive(Clone, Copy)]
pub enum Frame {
    NotAllThere,
    BadLength,
    UnknownType { used: usize },
    // `kind` is the message type, by its number: which messages there are says the enum above.
    BadPayload { used: usize, kind: u64 },
    // The chosen body, or an Open's Execute, occurs more than once.
    BodyTwice { used: usize, kind: u64 },
    Good { used: usize, request: Request },
}

// The chosen body: a Prepare's body, an Open's Execute.
pub fn body_of(q: Request) -> Part
    ensures { result ≡ body_of q }
{
    match q {
        Request::Reset => Part { start: 0, len: 0 },
        Request::SessionClose => Part { start: 0, len: 0 },
        Request::Prepare(p) => p.body,
        Request::Execute(_) => Part { start: 0, len: 0 },
        Request::Deallocate(_) => Part { start: 0, len: 0 },
        Request::Open(o) => o.body,
        Request::Close(_) => Part { start: 0, len: 0 },
        Request::Fetch(_) => Part { start: 0, len: 0 },
    }
}

pub fn args_of(q: Request) -> Arguments
    ensures { result ≡ args_of q }
{
    match q {
        Request::Reset => Arguments::none(0, 0),
        Request::SessionClose => Arguments::none(0, 0),
        Request::Prepare(p) => p.args,
        Request::Execute(x) => x.args,
        Request::Deallocate(_) => Arguments::none(0, 0),
        Request::Open(o) => o.execute.args,
        Request::Close(_) => Arguments::none(0, 0),
        Request::Fetch(_) => Arguments::none(0, 0),
    }
}
