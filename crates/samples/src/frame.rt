// A frame as it is read: its request, the chosen body and each argument.
use args::arguments::NextArgument;
use message::request::{Frame, Request};
use protocol::{client, reason};
use scalar::argument::Argument;
use std::io::Write;
use std::{fmt, io};

// A double or a float that the samples use, its name and a space in one piece; of any other nothing is printed. A zero
// has a text of its own, in one piece whatever its sign.
fn real<T: Copy + PartialEq + fmt::Debug>(
    output: &mut impl Write,
    name: &str,
    value: T,
    used: &[T],
) -> io::Result<()> {
    match used.iter().find(|known| **known == value) {
        Some(known) => write!(output, "{name}{known:?}"),
        None => Ok(()),
    }
}

fn value(output: &mut impl Write, a: Argument) -> io::Result<()> {
    match a {
        Argument::Signed(v) => write!(output, "sint {v}"),
        Argument::Unsigned(n) => write!(output, "uint {n}"),
        Argument::Null => write!(output, "null"),
        Argument::Octets { start, len } => write!(output, "octets {start}+{len}"),
        Argument::Double(d) if d == 0.0 => write!(output, "double 0.0"),
        Argument::Double(d) => real(output, "double ", d, &[1.0, -2.5, 25.4]),
        Argument::DoubleNan(n) => write!(output, "double nan {n}"),
        Argument::Float(d) if d == 0.0 => write!(output, "float 0.0"),
        Argument::Float(d) => real(output, "float ", d, &[1.0, -2.5]),
        Argument::FloatNan(n) => write!(output, "float nan {n}"),
        Argument::Bool(b) => write!(output, "bool {b}"),
        Argument::String { start, len } => write!(output, "string {start}+{len}"),
        Argument::Object => write!(output, "object"),
        Argument::Array => write!(output, "array"),
        Argument::Refused(n) => write!(output, "refused {n}"),
    }
}

// The argument of this index, behind a value or where none is.
fn beside(output: &mut impl Write, frame: &[u8], k: usize) -> io::Result<()> {
    write!(output, " / ")?;
    value(output, message::frame::argument(frame, k))?;
    writeln!(output)
}

// The arguments one after the other, and again by index, up to the first past the last. They are fewer than
// the bytes of the frame.
fn values(output: &mut impl Write, s: &[u8], frame: &[u8], from: usize) -> io::Result<()> {
    let mut p = from;
    for k in 0..frame.len() {
        match args::arguments::next_argument(s, p) {
            Some(NextArgument { value: a, next }) => {
                write!(output, "  ")?;
                value(output, a)?;
                beside(output, frame, k)?;
                p = next;
            }
            None => {
                write!(output, "  end")?;
                return beside(output, frame, k);
            }
        }
    }
    Ok(())
}

// The type and the ids; what a message does not have is 0.
fn ids(output: &mut impl Write, kind: u64, stmt: u32, cursor: u32) -> io::Result<()> {
    write!(output, " kind {kind} stmt {stmt} cursor {cursor}")
}

fn optional(output: &mut impl Write, name: &str, field: Option<u64>) -> io::Result<()> {
    if let Some(value) = field {
        write!(output, " {name} {value}")?;
    }
    Ok(())
}

// What a request has but the body and the arguments. Behind it stands the type of a Prepare's statement, 0 for any
// other message.
fn fields(output: &mut impl Write, q: Request) -> io::Result<()> {
    let mut operation = 0;
    match q {
        Request::Reset => ids(output, client::RESET, 0, 0)?,
        Request::SessionClose => ids(output, client::SESSION_CLOSE, 0, 0)?,
        Request::Prepare(p) => {
            ids(output, client::PREPARE, p.stmt, 0)?;
            operation = p.operation;
        }
        Request::Execute(x) => {
            ids(output, client::EXECUTE, x.stmt, 0)?;
            optional(output, "compact", x.compact)?;
        }
        Request::Deallocate(stmt) => ids(output, client::DEALLOCATE, stmt, 0)?,
        Request::Open(o) => {
            let x = o.execute;
            ids(output, client::OPEN, x.stmt, o.cursor)?;
            optional(output, "rows", o.rows)?;
            optional(output, "compact", x.compact)?;
        }
        Request::Close(cursor) => ids(output, client::CLOSE, 0, cursor)?,
        Request::Fetch(f) => {
            ids(output, client::FETCH, 0, f.cursor)?;
            optional(output, "rows", f.rows)?;
        }
    }
    write!(output, " operation {operation}")
}

fn accepted(output: &mut impl Write, s: &[u8], used: usize, q: Request) -> io::Result<()> {
    write!(output, " {} used {used}", reason::ACCEPTED)?;
    fields(output, q)?;
    let body = message::frame::chosen_part(s);
    let part = message::frame::chosen_body(s);
    write!(output, " body {}+{}", body.start, part.len())?;
    let a = message::request::args_of(q);
    writeln!(output, " args {} first {}@{}", a.count, a.kind, a.index)?;
    values(output, s.get(..a.end).unwrap_or(b""), s, a.start)
}

fn refused(output: &mut impl Write, s: &[u8], reason: u64, used: usize) -> io::Result<()> {
    write!(output, " {reason} used {used}\n  0")?;
    beside(output, s, 0)
}

pub fn print(output: &mut impl Write, s: &[u8]) -> io::Result<()> {
    let mut unread = false;
    match message::frame::read_frame(s, &mut unread) {
        Frame::NotAllThere => refused(output, s, reason::NOT_ALL_THERE, 0),
        Frame::BadLength => refused(output, s, reason::BAD_LENGTH, 0),
        Frame::UnknownType { used } => refused(output, s, reason::UNKNOWN_TYPE, used),
        Frame::BadPayload { used, kind: _ } => refused(output, s, reason::BAD_PAYLOAD, used),
        Frame::BodyTwice { used, kind: _ } => refused(output, s, reason::BODY_TWICE, used),
        Frame::Good { used, request } => accepted(output, s, used, request),
    }
}
