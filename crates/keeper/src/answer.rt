// The answer of a step, with its reply put at the front of the buffer.
ghost use Rattle.std.specs.Prelude.{◌≡◌, false};
ghost use Rattle.protocol.specs.Reason.{number_of};
ghost use Rattle.reply.specs.declared.Reply.{Reply};
ghost use Rattle.rules.specs.Decision.{wire_code};
ghost use Rattle.keeper.specs.private.Does.{Answers, Replies, accepting, error_of, kind_named, names_by};
ghost use Rattle.keeper.specs.private.Does.{names_of, number_named, refusing};

use args::arguments::Arguments;
use message::request::{Fetch, Request};
use protocol::reason;
use protocol::reason::Reason;
use reply::{Refusal, Reply};
use rules::{Answer, Report};

// What is sent: whether columns go out, which rows, and how the reply ends.
#[derive(Clone, Copy)]
pub(crate) struct Sends {
    pub columns: bool,
    pub first: u64,
    pub count: u64,
    pub reply: Reply,
}

// What an Error may name: ids, the index of the first argument that is an object or array, the count of arguments, and
// the type of that argument.
#[derive(Clone, Copy)]
pub(crate) struct Names {
    pub stmt: u64,
    pub cursor: u64,
    pub index: u64,
    pub count: u64,
    pub kind: u64,
}

// A frame that holds no request names nothing.
pub(crate) const NO_NAMES: Names = Names {
    stmt: 0,
    cursor: 0,
    index: 0,
    count: 0,
    kind: 0,
};

// Ok, and no rows.
pub(crate) const JUST_OK: Sends = Sends {
    columns: false,
    first: 0,
    count: 0,
    reply: Reply::Ok,
};

impl Names {
    pub fn of(request: &Request) -> Names
        ensures { result ≡ names_of request.now }
    {
        match *request {
            Request::Reset | Request::SessionClose => NO_NAMES,
            Request::Prepare(p) => Names::bound(p.stmt, 0, p.args),
            Request::Execute(x) => Names::bound(x.stmt, 0, x.args),
            Request::Deallocate(stmt) => Names {
                stmt: u64::from(stmt),
                ..NO_NAMES
            },
            Request::Open(o) => Names::bound(o.execute.stmt, o.cursor, o.execute.args),
            Request::Close(cursor) | Request::Fetch(Fetch { cursor, .. }) => Names {
                cursor: u64::from(cursor),
                ..NO_NAMES
            },
        }
    }

    // Of a message with arguments.
    fn bound(stmt: u32, cursor: u32, args: Arguments) -> Names
        ensures { result ≡ names_by stmt cursor args }
    {
        Names {
            stmt: u64::from(stmt),
            cursor: u64::from(cursor),
            index: args.index as u64,
            count: args.count as u64,
            kind: args.kind,
        }
    }
}

// The reply put at the front of the buffer, where it fits. Answers its length.
fn put_reply(buf: &mut [u8], what: Reply) -> usize
    ensures { Replies what buf.old result buf.new }
{
    reply::write_reply(buf, what).unwrap_or(0)
}

// An accepted step.
pub(crate) fn accept(buf: &mut [u8], used: usize, sends: Sends) -> Answer
    ensures { Answers (accepting used sends) sends.reply buf.old result buf.new }
{
    let what = sends.reply;
    let n = put_reply(buf, what);
    Answer {
        reason: reason::ACCEPTED,
        used,
        reply: n,
        columns: sends.columns,
        padded: false,
        first: sends.first,
        count: sends.count,
    }
}

// A step that is refused for want of room or before anything is read of the frame: nothing is written or used.
pub(crate) fn refuse_silently(reason: Reason) -> Answer
    ensures { result ≡ refusing 0 (number_of reason) }
{
    Answer {
        reason: u64::from(reason),
        used: 0,
        reply: 0,
        columns: false,
        padded: false,
        first: 0,
        count: 0,
    }
}

// The wire code of a refusal: for a failure the engine's own.
fn wire_code(report: Report, reason: Reason) -> u64
    ensures { result ≡ wire_code report (number_of reason) }
{
    match reason {
        Reason::EngineFailed => report.code,
        _ => reply::code_of(u64::from(reason)),
    }
}

// The id, index or count that an Error's text names.
fn number_named(reason: Reason, names: Names) -> u64
    ensures { result ≡ number_named (number_of reason) names }
{
    match reason {
        Reason::NoStmt => names.stmt,
        Reason::NotScalar => names.index,
        Reason::FewArguments => names.count,
        Reason::NoCursor | Reason::AllSent => names.cursor,
        _ => 0,
    }
}

// The type of the argument that an Error's text names.
fn kind_named(reason: Reason, names: Names) -> u64
    ensures { result ≡ kind_named (number_of reason) names }
{
    match reason {
        Reason::NotScalar => names.kind,
        _ => 0,
    }
}

// A step that is refused with an Error.
pub(crate) fn refuse(
    buf: &mut [u8],
    used: usize,
    reason: Reason,
    names: Names,
    report: Report,
) -> Answer
    ensures { Answers (refusing used (number_of reason)) (Reply.Error (error_of (number_of reason) names report))
        buf.old result buf.new }
{
    let refusal = Refusal {
        reason: u64::from(reason),
        code: wire_code(report, reason),
        number: number_named(reason, names),
        kind: kind_named(reason, names),
    };
    let n = put_reply(buf, Reply::Error(refusal));
    Answer {
        reason: refusal.reason,
        used,
        reply: n,
        columns: false,
        padded: false,
        first: 0,
        count: 0,
    }
}
