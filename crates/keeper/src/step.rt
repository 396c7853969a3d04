// A step on a frame, under an engine report: the session after it stands in the same words, the reply's bytes at the
// front of the buffer.
ghost use Rattle.std.specs.Prelude.{◌≡◌, false};
ghost use Rattle.message.specs.declared.request.Request.{Request};
ghost use Rattle.session.specs.Session.{is_closed};
ghost use Rattle.session.specs.Words.{session_of};
ghost use Rattle.rules.specs.declared.Report.{Report};
ghost use Rattle.rules.specs.Step.{step_of};
ghost use Rattle.keeper.specs.private.Does.{Decides, Readable, Steps};

use crate::answer::{JUST_OK, NO_NAMES, Names, Sends};
use crate::{answer, padded, refusal, report, rows};
use message::request::{Execute, Fetch, Frame, Open, Prepare, Request};
use protocol::reason::Reason;
use rules::{Answer, Report};
use session::{WORDS, Which};

pub fn step(words: &mut [u32; WORDS], frame: &[u8], report: Report, reply: &mut [u8]) -> Answer
    ensures answer { result ≡ (step_of (session_of words.old) frame.now report reply.old).answer }
    ensures session { session_of words.new
        ≡ (step_of (session_of words.old) frame.now report reply.old).session }
    ensures buffer { reply.new
        ≡ (step_of (session_of words.old) frame.now report reply.old).buffer }
{
    if reply.len() < rules::MIN_BUFFER {
        return answer::refuse_silently(Reason::NoRoom);
    }
    let mut padded = false;
    match message::frame::read_frame(frame, &mut padded) {
        Frame::NotAllThere => answer::refuse_silently(Reason::NotAllThere),
        Frame::BadLength => answer::refuse_silently(Reason::BadLength),
        Frame::UnknownType { used } => {
            let reason = refusal::closed_or(words, Reason::UnknownType);
            answer::refuse(reply, used, reason, NO_NAMES, report)
        }
        Frame::BadPayload { used, .. } => {
            let reason = refusal::closed_or(words, Reason::BadPayload);
            answer::refuse(reply, used, reason, NO_NAMES, report)
        }
        Frame::BodyTwice { used, .. } => {
            let reason = refusal::closed_or(words, Reason::BodyTwice);
            let mut answer = answer::refuse(reply, used, reason, NO_NAMES, report);
            answer.padded = padded::said(answer.reason, padded);
            answer
        }
        Frame::Good { used, request } => {
            let mut answer = step_on(words, used, request, report, reply);
            answer.padded = padded::said(answer.reason, padded);
            answer
        }
    }
}

// The step on a request; nothing is said of padding yet.
fn step_on(
    words: &mut [u32; WORDS],
    used: usize,
    request: Request,
    report: Report,
    buf: &mut [u8],
) -> Answer
    requires { Readable request buf.old }
    ensures { Steps used request report result words.old buf.old words.new
        buf.new }
{
    match decide(words, &request, report) {
        Ok(sends) => answer::accept(buf, used, sends),
        Err(reason) => answer::refuse(buf, used, reason, Names::of(&request), report),
    }
}

// What an accepted request sends; it changes the session. One that is refused leaves it as it was.
fn decide(words: &mut [u32; WORDS], request: &Request, report: Report) -> Result<Sends, Reason>
    ensures { Decides (session_of words.old) request.now report result (session_of words.new) }
{
    refusal::unclosed(words)?;
    match *request {
        Request::Fetch(f) => fetch(words, f, report),
        Request::Execute(x) => execute(words, x, report),
        Request::Prepare(p) => prepare(words, p, report),
        Request::Open(o) => open(words, o, report),
        Request::Close(cursor) => close(words, cursor),
        Request::Deallocate(stmt) => deallocate(words, stmt),
        Request::Reset => {
            session::words::clear(words);
            Ok(JUST_OK)
        }
        Request::SessionClose => {
            session::words::close(words);
            Ok(JUST_OK)
        }
    }
}

fn prepare(words: &mut [u32; WORDS], p: Prepare, report: Report) -> Result<Sends, Reason>
    requires { is_closed (session_of words.old) ≡ false }
    ensures { Decides (session_of words.old) (Request.Prepare p) report result (session_of words.new) }
{
    let place = session::find::stmt_place(words, p.stmt);
    refusal::room(place, Reason::StmtsFull)?;
    let placeholders = report::prepared(report)?;
    session::change::prepare(words, place, p.stmt, placeholders);
    Ok(JUST_OK)
}

fn execute(words: &mut [u32; WORDS], x: Execute, report: Report) -> Result<Sends, Reason>
    requires { is_closed (session_of words.old) ≡ false }
    ensures { Decides (session_of words.old) (Request.Execute x) report result (session_of words.new) }
{
    refusal::execute(words, x)?;
    let set = report::result_set(report)?;
    session::change::end(words, Which::On(x.stmt));
    Ok(rows::all(set))
}

fn open(words: &mut [u32; WORDS], o: Open, report: Report) -> Result<Sends, Reason>
    requires { is_closed (session_of words.old) ≡ false }
    ensures { Decides (session_of words.old) (Request.Open o) report result (session_of words.new) }
{
    let place = session::find::cursor_place(words, o.cursor);
    refusal::open(words, o, place)?;
    let set = report::result_set(report)?;
    let count = rows::open_count(o.rows, set.rows);
    session::change::open(words, place, o.cursor, o.execute.stmt, set.rows, count);
    Ok(rows::opened(set, count))
}

fn fetch(words: &mut [u32; WORDS], f: Fetch, report: Report) -> Result<Sends, Reason>
    requires { is_closed (session_of words.old) ≡ false }
    ensures { Decides (session_of words.old) (Request.Fetch f) report result (session_of words.new) }
{
    let place = session::find::find_cursor(words, f.cursor);
    let cursor = session::words::cursor_at(words, place);
    refusal::fetch(cursor)?;
    report::done(report)?;
    let count = rows::fetch_count(cursor, f.rows);
    session::words::put_sent(words, place, cursor.sent + count);
    Ok(rows::fetched(cursor, count))
}

fn deallocate(words: &mut [u32; WORDS], stmt: u32) -> Result<Sends, Reason>
    requires { is_closed (session_of words.old) ≡ false }
    ensures { (report : Report) →
        Decides (session_of words.old) (Request.Deallocate stmt) report result (session_of words.new) }
{
    let place = session::find::find_stmt(words, stmt);
    refusal::live(session::words::stmt_at(words, place).live, Reason::NoStmt)?;
    session::change::free(words, place, stmt);
    Ok(JUST_OK)
}

fn close(words: &mut [u32; WORDS], cursor: u32) -> Result<Sends, Reason>
    requires { is_closed (session_of words.old) ≡ false }
    ensures { (report : Report) →
        Decides (session_of words.old) (Request.Close cursor) report result (session_of words.new) }
{
    let place = session::find::find_cursor(words, cursor);
    refusal::live(
        session::words::cursor_at(words, place).live,
        Reason::NoCursor,
    )?;
    session::change::end(words, Which::Id(cursor));
    Ok(JUST_OK)
}
