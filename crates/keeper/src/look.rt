// A look at a frame: a refusal, or the work wanted of the engine. It changes nothing.
ghost use Rattle.std.specs.Prelude.{◌≡◌};
ghost use Rattle.protocol.specs.Reason.{number_of, outcome_number};
ghost use Rattle.message.specs.declared.request.Frame.{Frame};
ghost use Rattle.message.specs.declared.request.Request.{Request};
ghost use Rattle.session.specs.Words.{session_of};
ghost use Rattle.rules.specs.Decision.{look_of, look_refused};
ghost use Rattle.rules.specs.Step.{look_at};
ghost use Rattle.keeper.specs.Work.{work_number};
ghost use Rattle.keeper.specs.private.Reasons.{look_or, look_rows, look_work};

use crate::work::Work;
use crate::{padded, refusal, rows};
use message::request::{Frame, Request};
use protocol::reason;
use protocol::reason::Reason;
use rules::Look;
use session::{Cursor, WORDS};

pub fn look(words: &[u32; WORDS], frame: &[u8]) -> Look
    ensures { result ≡ look_at (session_of words.now) frame.now }
{
    let mut padded = false;
    match message::frame::read_frame(frame, &mut padded) {
        Frame::NotAllThere => refused(Reason::NotAllThere),
        Frame::BadLength => refused(Reason::BadLength),
        Frame::UnknownType { .. } => refused(refusal::closed_or(words, Reason::UnknownType)),
        Frame::BadPayload { .. } => refused(refusal::closed_or(words, Reason::BadPayload)),
        Frame::BodyTwice { .. } => {
            let mut look = refused(refusal::closed_or(words, Reason::BodyTwice));
            look.padded = padded::said(look.reason, padded);
            look
        }
        Frame::Good { request, .. } => {
            let mut look = look_at(words, request);
            look.padded = padded::said(look.reason, padded);
            look
        }
    }
}

// The look at a request, of whatever frame; nothing is said of padding yet.
fn look_at(words: &[u32; WORDS], request: Request) -> Look
    ensures { result ≡ look_of (session_of words.now) (Frame.Good 0 request) }
{
    if session::words::is_closed(words) {
        return refused(Reason::Closed);
    }
    match request {
        Request::Reset | Request::SessionClose => found(Ok(()), Work::Nothing),
        Request::Prepare(p) => {
            let place = session::find::stmt_place(words, p.stmt);
            found(refusal::room(place, Reason::StmtsFull), Work::Prepare)
        }
        Request::Execute(x) => found(refusal::execute(words, x), Work::Execute),
        Request::Deallocate(stmt) => {
            let place = session::find::find_stmt(words, stmt);
            let entry = session::words::stmt_at(words, place);
            found(refusal::live(entry.live, Reason::NoStmt), Work::Nothing)
        }
        Request::Open(o) => {
            let place = session::find::cursor_place(words, o.cursor);
            found(refusal::open(words, o, place), Work::Open)
        }
        Request::Close(cursor) => {
            let place = session::find::find_cursor(words, cursor);
            let entry = session::words::cursor_at(words, place);
            found(refusal::live(entry.live, Reason::NoCursor), Work::Nothing)
        }
        Request::Fetch(f) => {
            let place = session::find::find_cursor(words, f.cursor);
            let cursor = session::words::cursor_at(words, place);
            found_rows(refusal::fetch(cursor), cursor, f.rows)
        }
    }
}

pub(crate) fn refused(reason: Reason) -> Look
    ensures { result ≡ look_refused (number_of reason) }
{
    Look {
        reason: u64::from(reason),
        work: u64::from(Work::Nothing),
        first: 0,
        count: 0,
        padded: false,
    }
}

// Refused, or this work is wanted, and no rows are to be sent.
pub(crate) fn found(outcome: Result<(), Reason>, work: Work) -> Look
    ensures { result ≡ look_or (outcome_number outcome) (look_work (work_number work)) }
{
    if let Err(reason) = outcome {
        return refused(reason);
    }
    Look {
        reason: reason::ACCEPTED,
        work: u64::from(work),
        first: 0,
        count: 0,
        padded: false,
    }
}

// Refused, or the rows of a Fetch are wanted, and those asked for are to be sent.
pub(crate) fn found_rows(outcome: Result<(), Reason>, cursor: Cursor, asked: Option<u64>) -> Look
    ensures { result ≡ look_or (outcome_number outcome) (look_rows cursor asked) }
{
    if let Err(reason) = outcome {
        return refused(reason);
    }
    Look {
        reason: reason::ACCEPTED,
        work: u64::from(Work::Fetch),
        first: u64::from(cursor.sent),
        count: u64::from(rows::fetch_count(cursor, asked)),
        padded: false,
    }
}
