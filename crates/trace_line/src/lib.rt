// The trace printer's work: a record in, a line out.
#![tactic(auto)]

ghost use Rattle.std.specs.Prelude.{◌≡◌, Ok};
ghost use Rattle.session.specs.Words.{session_of};
ghost use Rattle.rules.specs.Step.{step_of};
ghost use Rattle.trace_line.specs.Trace.{line_to, reply_buffer, trace_at};

use line::Line;
use record::{Record, RecordError};
use session::WORDS;

pub mod line;
pub mod printer;
pub mod record;

// The place behind a record, and the place behind its line.
#[derive(Clone, Copy)]
pub struct Traced {
    pub next: usize,
    pub put: Option<usize>,
}

// The step on the frame of the n-th record, and its line put at the place `to`.
fn trace_frame(
    words: &mut [u32; WORDS],
    n: u64,
    frame: &[u8],
    whole: Record,
    out: &mut [u8],
    to: usize,
) -> Traced
    ensures answer { Ok result ≡ (line_to n whole.next out.old to
        (step_of (session_of words.old) frame.now whole.report reply_buffer)).back }
    ensures session { session_of words.new ≡ (line_to n whole.next out.old to
        (step_of (session_of words.old) frame.now whole.report reply_buffer)).session }
    ensures out { out.new ≡ (line_to n whole.next out.old to
        (step_of (session_of words.old) frame.now whole.report reply_buffer)).out }
{
    let mut reply = [0u8; rules::MIN_BUFFER];
    let answer = keeper::step::step(words, frame, whole.report, &mut reply);
    let line = Line {
        n,
        reason: answer.reason,
        first: answer.first,
        rows: answer.count,
        mark: line::mark_of(&reply, answer.reply),
        stmts: session::count::stmt_count(words),
        cursors: session::count::cursor_count(words),
        owed: session::count::owed(words),
    };
    let put = line::write_line(out, to, line);
    Traced {
        next: whole.next,
        put,
    }
}

// The n-th record, at the place `at` of s: a step on its frame, and its line put at the place `to` of
// the output, where it fits. Where no whole record stands, nothing changes.
#[tactic(auto, using(crate::proofs::TraceLaws::whole_within), unfolding(crate::specs::Trace::trace_at))]
pub fn trace_record(
    words: &mut [u32; WORDS],
    n: u64,
    s: &[u8],
    at: usize,
    out: &mut [u8],
    to: usize,
) -> Result<Traced, RecordError>
    ensures answer { result ≡
        (trace_at (session_of words.old) n s.now at out.old to).back }
    ensures session { session_of words.new ≡
        (trace_at (session_of words.old) n s.now at out.old to).session }
    ensures out { out.new ≡
        (trace_at (session_of words.old) n s.now at out.old to).out }
{
    let record = record::read_record(s, at)?;
    let end = record.start + record.len;
    Ok(trace_frame(words, n, &s[record.start..end], record, out, to))
}
