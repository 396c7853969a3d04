// What each operation does to a session, in place.
ghost use Rattle.std.specs.Prelude.{◌≡◌, ◌+◌, ◌-◌, min};
ghost use Rattle.session.specs.Entry.{passes};
ghost use Rattle.session.specs.Tables.{ended_by, prepared_at, freed_at, opened_at, fetched_at};
ghost use Rattle.session.specs.Words.{session_of};

use crate::{Cursor, MAX_CURSORS, NO_CURSOR, NO_STMT, Stmt, WORDS, Which, find, words};

const LIVE: u32 = 1;

// Every cursor that passes the test ends. Mostly none does, so nothing else is stored.
pub fn end(words: &mut [u32; WORDS], which: Which)
    ensures { session_of words.new ≡ ended_by (passes which) (session_of words.old) }
{
    for i in 0..MAX_CURSORS {
        if find::passes(words, i, which) {
            words::put_cursor(words, Some(i), NO_CURSOR);
        }
    }
}

// Stores a statement at a place, which `stmt_place` finds for its id; its cursor ends.
pub fn prepare(words: &mut [u32; WORDS], place: Option<usize>, id: u32, placeholders: u32)
    ensures { session_of words.new ≡
        prepared_at (session_of words.old) place id placeholders }
{
    end(words, Which::On(id));
    words::put_stmt(
        words,
        place,
        Stmt {
            id,
            placeholders,
            live: LIVE,
        },
    );
}

// Frees the statement at a place, which `find_stmt` finds for its id; its cursor ends.
pub fn free(words: &mut [u32; WORDS], place: Option<usize>, id: u32)
    ensures { session_of words.new ≡ freed_at (session_of words.old) place id }
{
    end(words, Which::On(id));
    words::put_stmt(words, place, NO_STMT);
}

// Stores a cursor at a place, which `cursor_place` finds for its id.
pub fn open(
    words: &mut [u32; WORDS],
    place: Option<usize>,
    id: u32,
    stmt: u32,
    rows: u32,
    sent: u32,
)
    ensures { session_of words.new ≡
        opened_at (session_of words.old) place id stmt rows sent }
{
    words::put_cursor(
        words,
        place,
        Cursor {
            id,
            stmt,
            rows,
            sent,
            live: LIVE,
        },
    );
}

// The rows sent after `count` more, and no more than there are.
fn raised(rows: u32, sent: u32, count: u32) -> u32
    ensures { result ≡ sent + min count (rows - sent) }
{
    sent + count.min(rows.saturating_sub(sent))
}

// The cursor at a place, which `find_cursor` finds for its id, sends `count` more rows.
pub fn fetch(words: &mut [u32; WORDS], place: Option<usize>, count: u32)
    ensures { session_of words.new ≡ fetched_at (session_of words.old) place count }
{
    let c = words::cursor_at(words, place);
    words::put_sent(words, place, raised(c.rows, c.sent, count));
}
