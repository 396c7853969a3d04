// A line of the trace.
ghost use Rattle.std.specs.Prelude.{◌≡◌};
ghost use Rattle.encode.specs.Put.{put_at, written};
ghost use Rattle.encode.specs.Puts.{Puts};
ghost use Rattle.trace_line.specs.Line.{column, letter_of, line_of, mark_of};

use encode::put::{put_byte, write_bytes};
use message::head::LENGTH_BYTES;
use protocol::server;
use reply::decimal::put_decimal;

// What a line prints, in this order. The mark is a letter of the text, not a code for something else.
#[derive(Clone, Copy)]
pub struct Line {
    pub n: u64,
    pub reason: u64,
    pub first: u64,
    pub rows: u64,
    pub mark: u8,
    pub stmts: u64,
    pub cursors: u64,
    pub owed: u64,
}

// The letter of a frame's type.
fn letter_of(kind: u8) -> u8
    ensures { result ≡ letter_of kind }
{
    match kind {
        server::OK => b'O',
        server::FETCH_SUSPENDED => b'S',
        server::FETCH_DONE => b'D',
        server::STMT_EXECUTE_OK => b'X',
        server::ERROR => b'E',
        _ => b'N',
    }
}

// The mark of a reply of n bytes, by the type of its first frame.
#[tactic(auto, unfolding(crate::specs::Line::mark_of))]
pub fn mark_of(reply: &[u8; rules::MIN_BUFFER], n: usize) -> u8
    ensures { result ≡ mark_of reply.now n }
{
    if n == 0 {
        return b'N';
    }
    letter_of(reply[LENGTH_BYTES])
}

// The decimal of v and a space behind it.
fn put_column(t: &mut [u8], at: usize, v: u64) -> usize
    ensures { Puts t.old at (column v) result t.new }
{
    let p = put_decimal(t, at, v);
    put_byte(t, p, b' ')
}

// The line at the front. Answers its length. Not by `write!`, which promises its text only where it answers `Ok`:
// `write_line` promises the line wherever it fits.
fn put_line(t: &mut [u8], l: Line) -> usize
    ensures { Puts t.old 0 (line_of l) result t.new }
{
    let at = put_column(t, 0, l.n);
    let at = put_column(t, at, l.reason);
    let at = put_column(t, at, l.first);
    let at = put_column(t, at, l.rows);
    let at = put_byte(t, at, l.mark);
    let at = put_byte(t, at, b' ');
    let at = put_column(t, at, l.stmts);
    let at = put_column(t, at, l.cursors);
    let at = put_decimal(t, at, l.owed);
    put_byte(t, at, b'\n')
}

// The line put at the place `at`, where it fits; else the buffer stays as it was.
pub fn write_line(buf: &mut [u8], at: usize, l: Line) -> Option<usize>
    ensures { (result ≡ put_at buf.old at (line_of l))
        × (buf.new ≡ written buf.old at (line_of l)) }
{
    let mut text = [0u8; 160];
    let n = put_line(&mut text, l);
    write_bytes(buf, at, &text[..n])
}
