// What is written of a record: the length, and the bytes in hex. In front of them stands the reason for a message and
// for an argument, which may be refused.
use crate::given::{Given, Key};
use crate::out;
use protocol::{scalars, server};
use reply::{Refusal, Reply};
use scalar::argument::{Argument, double_argument, float_argument, signed_argument};
use std::io;
use std::io::Write;
use writer::{Draft, Sent};

// The cases of an argument, which are numbers in a record and here alone, beside the types of a Scalar: no scalar, a
// double that is a NaN, and the bits of one.
const OBJECT: u64 = 9;

const ARRAY: u64 = 10;

const NAN: u64 = 11;

const DOUBLE_NAN: u64 = 12;

const FLOAT_NAN: u64 = 13;

// As long as the longest body.
const BODY_SPACE: usize = 65536;

// As long as a uint below 128 and a null.
const PAIR: usize = 18;

fn refusal(given: Given<'_>) -> Refusal {
    let reason = given.number(Key::Reason);
    Refusal {
        reason,
        code: reply::code_of(reason),
        number: given.number(Key::Number),
        kind: given.number(Key::Kind),
    }
}

fn reply(given: Given<'_>) -> Reply {
    match (given.number(Key::Case) % 256) as u8 {
        server::OK => Reply::Ok,
        server::ERROR => Reply::Error(refusal(given)),
        server::FETCH_SUSPENDED => Reply::Suspended,
        server::FETCH_DONE => Reply::Done,
        server::STMT_EXECUTE_OK => Reply::Executed,
        _ => Reply::Nothing,
    }
}

// A reply that finds no room leaves the buffer as it was.
pub fn print_reply(output: &mut impl Write, given: Given<'_>, buf: &mut [u8]) -> io::Result<()> {
    match reply::write_reply(buf, reply(given)) {
        Some(n) => out::front(output, buf, n, n),
        None => {
            writeln!(output, "full")?;
            out::front(output, buf, buf.len(), buf.len())
        }
    }
}

fn print_sent(output: &mut impl Write, given: Given<'_>, r: Sent, buf: &[u8]) -> io::Result<()> {
    write!(output, "{} ", r.reason)?;
    out::front(output, buf, r.len, given.size(Key::Shown))?;
    if given.is_set(Key::Whole) {
        out::line(output, buf, buf.len())?;
    }
    Ok(())
}

fn print_draft(
    output: &mut impl Write,
    given: Given<'_>,
    body: &[u8],
    args: &[u8],
    buf: &mut [u8],
) -> io::Result<()> {
    let draft = Draft {
        kind: given.number(Key::Case),
        stmt: given.small(Key::Stmt),
        cursor: given.small(Key::Cursor),
        hasrows: given.is_set(Key::HasRows),
        rows: given.number(Key::Rows),
        hascompact: given.is_set(Key::HasCompact),
        compact: given.is_set(Key::Compact),
        operation: given.number(Key::Operation),
    };
    let r = writer::write_message(draft, body, args, buf);
    print_sent(output, given, r, buf)
}

// The body is put in front of zeros.
fn print_with(
    output: &mut impl Write,
    given: Given<'_>,
    body: &mut [u8],
    buf: &mut [u8],
) -> io::Result<()> {
    encode::put::put_slice(body, 0, given.bytes(Key::Body));
    match body.get(..given.size(Key::Size)) {
        Some(body) => print_draft(output, given, body, given.bytes(Key::Args), buf),
        None => Ok(()),
    }
}

pub fn print_message(output: &mut impl Write, given: Given<'_>, buf: &mut [u8]) -> io::Result<()> {
    let mut body = [0u8; BODY_SPACE];
    print_with(output, given, &mut body, buf)
}

fn argument(given: Given<'_>) -> Argument {
    let n = given.number(Key::Value);
    let start = given.size(Key::Start);
    let len = given.size(Key::Len);
    match given.number(Key::Case) {
        scalars::SINT => signed_argument(n),
        scalars::UINT => Argument::Unsigned(n),
        scalars::NULL => Argument::Null,
        scalars::OCTETS => Argument::Octets { start, len },
        scalars::DOUBLE => double_argument(n),
        scalars::FLOAT => float_argument(given.small(Key::Value)),
        scalars::BOOL => Argument::Bool(n == 1),
        scalars::STRING => Argument::String { start, len },
        OBJECT => Argument::Object,
        ARRAY => Argument::Array,
        NAN => Argument::Double(0.0 / 0.0),
        DOUBLE_NAN => Argument::DoubleNan(n),
        FLOAT_NAN => Argument::FloatNan(given.small(Key::Value)),
        _ => Argument::Refused(n),
    }
}

fn append(given: Given<'_>, buf: &mut [u8], at: usize) -> Sent {
    args_writer::append_argument(argument(given), given.bytes(Key::Source), buf, at)
}

pub fn print_argument(output: &mut impl Write, given: Given<'_>, buf: &mut [u8]) -> io::Result<()> {
    let r = append(given, buf, given.size(Key::At));
    print_sent(output, given, r, buf)
}

// Two arguments are appended, the second behind the first, and fill the stretch.
pub fn print_pair(output: &mut impl Write, given: Given<'_>, buf: &mut [u8]) -> io::Result<()> {
    let mut args = [0u8; PAIR];
    let first = append(given.within(Key::First), &mut args, 0);
    append(given.within(Key::Second), &mut args, first.len);
    print_draft(output, given, b"", &args, buf)
}
