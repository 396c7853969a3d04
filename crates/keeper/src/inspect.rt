// A look at a frame that is read already, and what the frame touches in the tables, for a host that keeps something of
// its own for each entry. A place serves both; the statement that arguments are bound to is looked up for each.
ghost use Rattle.std.specs.Prelude.{◌≡◌, None};
ghost use Rattle.protocol.specs.Reason.{number_of, outcome_number};
ghost use Rattle.message.specs.declared.request.Frame.{Frame};
ghost use Rattle.message.specs.declared.request.Request.{Request};
ghost use Rattle.session.specs.Entry.{on_stmt};
ghost use Rattle.session.specs.Lists.{mask_of};
ghost use Rattle.session.specs.Session.{is_closed};
ghost use Rattle.session.specs.Words.{session_of};
ghost use Rattle.rules.specs.Decision.{look_of, look_refused};
ghost use Rattle.rules.specs.Inspect.{touches, touches_in, touches_of};
ghost use Rattle.keeper.specs.Work.{work_number};
ghost use Rattle.keeper.specs.private.Reasons.{closed_or, look_or, look_work};

use crate::work::Work;
use crate::{look, refusal};
use message::request::{Fetch, Frame, Open, Request};
use protocol::reason::Reason;
use rules::{Look, Touches};
use session::{MAX_CURSORS, MAX_STMTS, WORDS, Which, find, mask};

#[derive(Clone, Copy)]
pub struct Inspected {
    pub look: Look,
    pub touches: Touches,
}

// A frame that holds no request touches nothing. Of padding the look says nothing yet: that is in the bytes.
pub fn inspect(words: &[u32; WORDS], frame: Frame) -> Inspected
    ensures look { result.look ≡ look_of (session_of words.now) frame }
    ensures touches { result.touches ≡ touches_in (session_of words.now) frame }
{
    match frame {
        Frame::NotAllThere => refused(Reason::NotAllThere),
        Frame::BadLength => refused(Reason::BadLength),
        Frame::UnknownType { .. } => refused(refusal::closed_or(words, Reason::UnknownType)),
        Frame::BadPayload { .. } => refused(refusal::closed_or(words, Reason::BadPayload)),
        Frame::BodyTwice { .. } => refused(refusal::closed_or(words, Reason::BodyTwice)),
        Frame::Good { request, .. } => inspect_at(words, request),
    }
}

// A request: its own entries, and the cursors that it ends.
fn inspect_at(words: &[u32; WORDS], request: Request) -> Inspected
    ensures look { result.look ≡ look_of (session_of words.now) (Frame.Good 0 request) }
    ensures touches { result.touches ≡ touches_of (session_of words.now) request }
{
    match request {
        Request::Reset | Request::SessionClose => all_end(words),
        Request::Prepare(p) => {
            let place = find::stmt_place(words, p.stmt);
            let outcome = refusal::room(place, Reason::StmtsFull);
            told(words, outcome, Work::Prepare, on_stmt(words, place, p.stmt))
        }
        Request::Execute(x) => {
            let place = find::find_stmt(words, x.stmt);
            let outcome = refusal::execute(words, x);
            told(words, outcome, Work::Execute, on_stmt(words, place, x.stmt))
        }
        Request::Deallocate(stmt) => {
            let place = find::find_stmt(words, stmt);
            let entry = session::words::stmt_at(words, place);
            let outcome = refusal::live(entry.live, Reason::NoStmt);
            told(words, outcome, Work::Nothing, on_stmt(words, place, stmt))
        }
        Request::Open(o) => inspect_open(words, o),
        Request::Close(cursor) => {
            let place = find::find_cursor(words, cursor);
            let entry = session::words::cursor_at(words, place);
            let outcome = refusal::live(entry.live, Reason::NoCursor);
            let ends = mask::passing(words, Which::Id(cursor));
            told(words, outcome, Work::Nothing, touches(None, place, ends))
        }
        Request::Fetch(f) => inspect_fetch(words, f),
    }
}

// Nothing is refused but by a closed session, and every cursor ends.
fn all_end(words: &[u32; WORDS]) -> Inspected
    ensures look { result.look ≡ look_of (session_of words.now) (Frame.Good 0 Request.Reset) }
    ensures touches { result.touches ≡ touches_of (session_of words.now) Request.Reset }
{
    let all = touches(None, None, mask::passing(words, Which::Live));
    told(words, Ok(()), Work::Nothing, all)
}

fn inspect_open(words: &[u32; WORDS], o: Open) -> Inspected
    ensures look { result.look ≡ look_of (session_of words.now) (Frame.Good 0 (Request.Open o)) }
    ensures touches { result.touches ≡ touches_of (session_of words.now) (Request.Open o) }
{
    let x = o.execute;
    let stmt = find::find_stmt(words, x.stmt);
    let place = find::cursor_place(words, o.cursor);
    let outcome = refusal::open(words, o, place);
    let ends = mask::passing(words, Which::Id(o.cursor));
    told(words, outcome, Work::Open, touches(stmt, place, ends))
}

// Of a Fetch also the rows to send. It ends nothing.
fn inspect_fetch(words: &[u32; WORDS], f: Fetch) -> Inspected
    ensures look { result.look ≡ look_of (session_of words.now) (Frame.Good 0 (Request.Fetch f)) }
    ensures touches { result.touches ≡ touches_of (session_of words.now) (Request.Fetch f) }
{
    let place = find::find_cursor(words, f.cursor);
    let cursor = session::words::cursor_at(words, place);
    let outcome = refusal::unclosed(words).and(refusal::fetch(cursor));
    Inspected {
        look: look::found_rows(outcome, cursor, f.rows),
        touches: touches(None, place, 0),
    }
}

// Refused, or this work is wanted; closed comes first.
fn told(
    words: &[u32; WORDS],
    outcome: Result<(), Reason>,
    work: Work,
    touches: Touches,
) -> Inspected
    ensures look { result.look ≡ look_or (closed_or (is_closed (session_of words.now)) (outcome_number outcome))
        (look_work (work_number work)) }
    ensures touches { result.touches ≡ touches }
{
    Inspected {
        look: look::found(refusal::unclosed(words).and(outcome), work),
        touches,
    }
}

fn refused(reason: Reason) -> Inspected
    ensures look { result.look ≡ look_refused (number_of reason) }
    ensures touches { result.touches ≡ touches None None 0 }
{
    Inspected {
        look: look::refused(reason),
        touches: touches(None, None, 0),
    }
}

// A statement at a place, whose cursor ends.
fn on_stmt(words: &[u32; WORDS], place: Option<usize>, stmt: u32) -> Touches
    ensures { result ≡ touches place None (mask_of (on_stmt stmt) (session_of words.now).cursors) }
{
    touches(place, None, mask::passing(words, Which::On(stmt)))
}

fn touches(stmt: Option<usize>, cursor: Option<usize>, ends: u64) -> Touches
    ensures { result ≡ touches stmt cursor ends }
{
    Touches {
        stmt: stmt.unwrap_or(MAX_STMTS),
        cursor: cursor.unwrap_or(MAX_CURSORS),
        ends,
    }
}
