// The trace of an input that comes in chunks: the header, a line for each record, and the end's text.
ghost use Rattle.std.specs.Prelude.{◌≡◌, length};
ghost use Rattle.encode.specs.Put.{put_at, written};
ghost use Rattle.session.specs.Words.{session_of};
ghost use Rattle.trace_line.specs.private.Walk.{Walks};
ghost use Rattle.trace_line.specs.End.{end_text};
ghost use Rattle.trace_line.specs.Output.{header};
ghost use Rattle.trace_line.specs.Printer.{from_start, lines_within, print_of, stands_first};

use crate::record;
use crate::record::RecordError;
use encode::put::write_bytes;
use encode::shift::move_front;
use session::WORDS;

// The longest line: seven numbers of 20 digits with a byte behind each, the mark and its space.
pub const MAX_LINE: usize = 149;

// The longest record: 65,536 bytes of frame and four numbers of ten bytes.
pub const MAX_RECORD: usize = 65576;

// The next record is the n-th, and the first `held` bytes of the store are not printed yet. The caller lends the store
// (fixed memory), and gets back a printer to keep beside it.
#[derive(Clone, Copy)]
pub struct Printer {
    pub n: u64,
    pub held: usize,
}

// The printer after a call; how many bytes of the chunk were taken, and how many bytes of lines were put; and
// whether a whole record stands first in the store then.
#[derive(Clone, Copy)]
pub struct Printed {
    pub printer: Printer,
    pub taken: usize,
    pub put: usize,
    pub first: Result<(), RecordError>,
}

// Behind some lines: the number of the next record, its place, and the place behind the lines.
#[derive(Clone, Copy)]
pub(crate) struct Walk {
    n: u64,
    at: usize,
    to: usize,
}

pub fn start() -> Printer
    ensures { result ≡ from_start }
{
    Printer { n: 1, held: 0 }
}

// The header put at the place `at`, where it fits.
#[tactic(auto, unfolding(crate::specs::Output::header))]
pub fn put_header(out: &mut [u8], at: usize) -> Option<usize>
    ensures { (result ≡ put_at out.old at header)
        × (out.new ≡ written out.old at header) }
{
    write_bytes(out, at, b"n reason first rows mark stmts cursors owed\n")
}

// The end's text put at the place `at`, where it fits: `cut` if a record is held that is not whole.
#[tactic(auto, unfolding(crate::specs::End::end_text))]
pub fn put_end(p: Printer, out: &mut [u8], at: usize) -> Option<usize>
    ensures { (result ≡ put_at out.old at (end_text p.held))
        × (out.new ≡ written out.old at (end_text p.held)) }
{
    if p.held == 0 {
        return write_bytes(out, at, b"");
    }
    write_bytes(out, at, b"cut\n")
}

// A whole record, or why none stands first.
#[tactic(auto, unfolding(crate::specs::Printer::stands_first))]
fn stands_first(s: &[u8]) -> Result<(), RecordError>
    ensures { result ≡ stands_first s.now }
{
    record::read_record(s, 0)?;
    Ok(())
}

// The lines of the records in s, each begun where the longest line fits.
fn put_lines(words: &mut [u32; WORDS], first: u64, s: &[u8], out: &mut [u8]) -> Walk
    ensures { Walks s.now out.old
        (lines_within (length s.now) (length out.old) (session_of words.old) first
        s.now) result (session_of words.new) out.new }
{
    let mut n = first;
    let mut at = 0;
    let mut to = 0;
    while at < s.len() {
        if out.len() - to < MAX_LINE {
            return Walk { n, at, to };
        }
        match crate::trace_record(words, n, &s[at..], 0, out, to) {
            Ok(traced) => {
                n = std::num::wrapping_add_u64(n, 1);
                at += traced.next;
                to = traced.put.unwrap_or(0);
            }
            Err(_) => return Walk { n, at, to },
        }
    }
    Walk { n, at, to }
}

// The next chunk: as much of it as there is room for goes into the store behind the bytes held, and the lines of
// whole records to the front of `out`, as far as there is room for them; what is left goes to the front of the
// store. A caller offers again what was not taken. Where a whole record still stands first, `out` was full.
pub fn print_chunk(
    p: Printer,
    words: &mut [u32; WORDS],
    store: &mut [u8],
    chunk: &[u8],
    out: &mut [u8],
) -> Printed
    ensures answer { result ≡ (print_of p (session_of words.old) store.old chunk.now
        (length out.old)).answer }
    ensures session { session_of words.new ≡ (print_of p (session_of words.old)
        store.old chunk.now (length out.old)).session }
    ensures store { store.new ≡ (print_of p (session_of words.old) store.old
        chunk.now (length out.old)).store }
    ensures out { out.new ≡ written out.old 0 (print_of p (session_of words.old)
        store.old chunk.now (length out.old)).lines }
{
    let have = p.held.min(store.len());
    let count = chunk.len().min(store.len() - have);
    write_bytes(store, have, &chunk[..count]);
    let end = have + count;
    let w = put_lines(words, p.n, &store[..end], out);
    let at = w.at;
    let held = end - at;
    let first = stands_first(&store[at..end]);
    move_front(store, at, held);
    Printed {
        printer: Printer { n: w.n, held },
        taken: count,
        put: w.to,
        first,
    }
}
