// Why a request is refused, by the entries that were looked up.
ghost use Rattle.std.specs.Prelude.{◌≡◌, not, is_none};
ghost use Rattle.protocol.specs.Reason.{accepted, number_of, outcome_number};
ghost use Rattle.message.specs.declared.request.Request.{Request};
ghost use Rattle.session.specs.Session.{flag, is_closed};
ghost use Rattle.session.specs.Tables.{cursor_place};
ghost use Rattle.session.specs.Words.{session_of};
ghost use Rattle.keeper.specs.private.Reasons.{binding_reason, closed_or, cursor_reason, fetch_reason};
ghost use Rattle.keeper.specs.private.Reasons.{request_reason, unless};

use args::arguments::Arguments;
use message::request::{Execute, Open};
use protocol::anys;
use protocol::reason::Reason;
use session::{Cursor, Stmt, WORDS};

// A closed session refuses a frame before what is wrong with the frame itself.
pub(crate) fn closed_or(words: &[u32; WORDS], other: Reason) -> Reason
    ensures { number_of result ≡ closed_or (is_closed (session_of words.now)) (number_of other) }
{
    if session::words::is_closed(words) {
        return Reason::Closed;
    }
    other
}

// And before what the request is refused for.
pub(crate) fn unclosed(words: &[u32; WORDS]) -> Result<(), Reason>
    ensures { outcome_number result ≡ closed_or (is_closed (session_of words.now)) accepted }
{
    if session::words::is_closed(words) {
        return Err(Reason::Closed);
    }
    Ok(())
}

// A table has a place for a new entry.
pub(crate) fn room(place: Option<usize>, full: Reason) -> Result<(), Reason>
    ensures { outcome_number result ≡ unless (not (is_none place)) (number_of full) }
{
    match place {
        Some(_) => Ok(()),
        None => Err(full),
    }
}

// An entry is live, by its flag.
pub(crate) fn live(mark: u32, dead: Reason) -> Result<(), Reason>
    ensures { outcome_number result ≡ unless (flag mark) (number_of dead) }
{
    if mark == 0 {
        return Err(dead);
    }
    Ok(())
}

// A statement that arguments are bound to.
fn binding(stmt: Stmt, args: Arguments) -> Result<(), Reason>
    ensures { outcome_number result ≡ binding_reason stmt args }
{
    live(stmt.live, Reason::NoStmt)?;
    if args.kind != anys::NONE {
        return Err(Reason::NotScalar);
    }
    if args.count < stmt.placeholders as usize {
        return Err(Reason::FewArguments);
    }
    Ok(())
}

pub(crate) fn execute(words: &[u32; WORDS], x: Execute) -> Result<(), Reason>
    ensures { outcome_number result ≡ request_reason (session_of words.now) (Request.Execute x) }
{
    let place = session::find::find_stmt(words, x.stmt);
    let args = x.args;
    binding(session::words::stmt_at(words, place), args)
}

// A cursor to open: the cursor that its statement carries, and the place that it takes.
fn opening(id: u32, carried: Cursor, place: Option<usize>) -> Result<(), Reason>
    ensures { outcome_number result ≡ cursor_reason id carried place }
{
    if carried.live != 0 && carried.id != id {
        return Err(Reason::OtherCursor);
    }
    room(place, Reason::CursorsFull)
}

pub(crate) fn open(words: &[u32; WORDS], o: Open, place: Option<usize>) -> Result<(), Reason>
    requires { place ≡ cursor_place (session_of words.now) o.cursor }
    ensures { outcome_number result ≡ request_reason (session_of words.now) (Request.Open o) }
{
    let x = o.execute;
    let args = x.args;
    let at = session::find::find_stmt(words, x.stmt);
    binding(session::words::stmt_at(words, at), args)?;
    let on = session::find::find_on(words, x.stmt);
    opening(o.cursor, session::words::cursor_at(words, on), place)
}

// A cursor that is to send rows.
pub(crate) fn fetch(cursor: Cursor) -> Result<(), Reason>
    ensures { outcome_number result ≡ fetch_reason cursor }
{
    live(cursor.live, Reason::NoCursor)?;
    if cursor.rows <= cursor.sent {
        return Err(Reason::AllSent);
    }
    Ok(())
}
