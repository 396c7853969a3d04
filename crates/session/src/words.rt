// Where the parts of a session stand among its words, as specs/Words says. No other file knows these places.
ghost use Rattle.std.specs.Prelude.{◌≡◌, ◌<◌, length, set};
ghost use Rattle.session.specs.Session.{with_stmts, with_cursors, with_closed, is_closed};
ghost use Rattle.session.specs.Lists.{entry_at};
ghost use Rattle.session.specs.Entry.{no_stmt, no_cursor, with_sent};
ghost use Rattle.session.specs.Tables.{max_stmts, max_cursors, stored_stmt, stored_cursor, reset, closed_now};
ghost use Rattle.session.specs.Words.{word_count, stmt_in, cursor_in, stmts_in, cursors_in, session_of};

use crate::{CURSOR_WORDS, Cursor, MAX_CURSORS, MAX_STMTS, NO_CURSOR, NO_STMT, Stmt, WORDS};

// The words of a statement's row.
const STMT_WORDS: usize = 2;

// Where rows and the flag stand; the ids of the statements stand in front.
const STMT_ROWS: usize = MAX_STMTS;

const CURSOR_ROWS: usize = STMT_ROWS + STMT_WORDS * MAX_STMTS;

pub(crate) const CLOSED: usize = CURSOR_ROWS + CURSOR_WORDS * MAX_CURSORS;

// The words of a statement's row; its placeholders stand first.
const STMT_LIVE: usize = 1;

// The words of a cursor's row; its id stands first.
const CURSOR_STMT: usize = 1;

const CURSOR_REPORTED: usize = 2;

const CURSOR_SENT: usize = 3;

const CURSOR_LIVE: usize = 4;

// One word of an entry.
pub(crate) fn stmt_id(words: &[u32; WORDS], i: usize) -> u32
    requires { i < max_stmts }
    ensures { result ≡ (stmt_in words.now i).id }
{
    words[i]
}

fn stmt_placeholders(words: &[u32; WORDS], i: usize) -> u32
    requires { i < max_stmts }
    ensures { result ≡ (stmt_in words.now i).placeholders }
{
    words[STMT_ROWS + STMT_WORDS * i]
}

pub(crate) fn stmt_live(words: &[u32; WORDS], i: usize) -> u32
    requires { i < max_stmts }
    ensures { result ≡ (stmt_in words.now i).live }
{
    words[STMT_ROWS + STMT_WORDS * i + STMT_LIVE]
}

pub(crate) fn cursor_id(words: &[u32; WORDS], i: usize) -> u32
    requires { i < max_cursors }
    ensures { result ≡ (cursor_in words.now i).id }
{
    words[CURSOR_ROWS + CURSOR_WORDS * i]
}

pub(crate) fn cursor_stmt(words: &[u32; WORDS], i: usize) -> u32
    requires { i < max_cursors }
    ensures { result ≡ (cursor_in words.now i).stmt }
{
    words[CURSOR_ROWS + CURSOR_WORDS * i + CURSOR_STMT]
}

pub(crate) fn cursor_rows(words: &[u32; WORDS], i: usize) -> u32
    requires { i < max_cursors }
    ensures { result ≡ (cursor_in words.now i).rows }
{
    words[CURSOR_ROWS + CURSOR_WORDS * i + CURSOR_REPORTED]
}

pub(crate) fn cursor_sent(words: &[u32; WORDS], i: usize) -> u32
    requires { i < max_cursors }
    ensures { result ≡ (cursor_in words.now i).sent }
{
    words[CURSOR_ROWS + CURSOR_WORDS * i + CURSOR_SENT]
}

pub(crate) fn cursor_live(words: &[u32; WORDS], i: usize) -> u32
    requires { i < max_cursors }
    ensures { result ≡ (cursor_in words.now i).live }
{
    words[CURSOR_ROWS + CURSOR_WORDS * i + CURSOR_LIVE]
}

// The entry at a place, the empty one past the table.
pub fn stmt_at(words: &[u32; WORDS], place: Option<usize>) -> Stmt
    ensures { result ≡ entry_at (stmts_in words.now) place no_stmt }
{
    let i = place.unwrap_or(MAX_STMTS);
    if i < MAX_STMTS {
        return Stmt {
            id: stmt_id(words, i),
            placeholders: stmt_placeholders(words, i),
            live: stmt_live(words, i),
        };
    }
    NO_STMT
}

pub fn cursor_at(words: &[u32; WORDS], place: Option<usize>) -> Cursor
    ensures { result ≡ entry_at (cursors_in words.now) place no_cursor }
{
    let i = place.unwrap_or(MAX_CURSORS);
    if i < MAX_CURSORS {
        return Cursor {
            id: cursor_id(words, i),
            stmt: cursor_stmt(words, i),
            rows: cursor_rows(words, i),
            sent: cursor_sent(words, i),
            live: cursor_live(words, i),
        };
    }
    NO_CURSOR
}

pub fn is_closed(words: &[u32; WORDS]) -> bool
    ensures { result ≡ is_closed (session_of words.now) }
{
    words[CLOSED] != 0
}

// Stores go through slices: a function is told the length of a slice that it requires, not that of a `&mut [u32;
// WORDS]`.
fn store_stmt(words: &mut [u32], i: usize, t: Stmt)
    requires words_len { length words.old ≡ word_count }
    requires i_lt_max_stmts { i < max_stmts }
    ensures { session_of words.new ≡
        with_stmts (session_of words.old) (set (stmts_in words.old) i t) }
{
    let at = STMT_ROWS + STMT_WORDS * i;
    words[i] = t.id;
    words[at] = t.placeholders;
    words[at + STMT_LIVE] = t.live;
}

// A statement stored at a place; nothing is stored past the table.
pub fn put_stmt(words: &mut [u32; WORDS], place: Option<usize>, t: Stmt)
    ensures { session_of words.new ≡ stored_stmt (session_of words.old) place t }
{
    let i = place.unwrap_or(MAX_STMTS);
    if i < MAX_STMTS {
        store_stmt(words, i, t);
    }
}

fn store_cursor(words: &mut [u32], i: usize, c: Cursor)
    requires words_len { length words.old ≡ word_count }
    requires i_lt_max_cursors { i < max_cursors }
    ensures { session_of words.new ≡
        with_cursors (session_of words.old) (set (cursors_in words.old) i c) }
{
    let at = CURSOR_ROWS + CURSOR_WORDS * i;
    words[at] = c.id;
    words[at + CURSOR_STMT] = c.stmt;
    words[at + CURSOR_REPORTED] = c.rows;
    words[at + CURSOR_SENT] = c.sent;
    words[at + CURSOR_LIVE] = c.live;
}

// A cursor stored at a place.
pub fn put_cursor(words: &mut [u32; WORDS], place: Option<usize>, c: Cursor)
    ensures { session_of words.new ≡ stored_cursor (session_of words.old) place c }
{
    let i = place.unwrap_or(MAX_CURSORS);
    if i < MAX_CURSORS {
        store_cursor(words, i, c);
    }
}

fn store_sent(words: &mut [u32], i: usize, sent: u32)
    requires words_len { length words.old ≡ word_count }
    requires i_lt_max_cursors { i < max_cursors }
    ensures { session_of words.new ≡
        with_cursors (session_of words.old)
        (set (cursors_in words.old) i (with_sent (cursor_in words.old i) sent)) }
{
    words[CURSOR_ROWS + CURSOR_WORDS * i + CURSOR_SENT] = sent;
}

// The rows sent of the cursor at a place: one word.
pub fn put_sent(words: &mut [u32; WORDS], place: Option<usize>, sent: u32)
    ensures { session_of words.new ≡
        stored_cursor (session_of words.old) place
        (with_sent (entry_at (cursors_in words.old) place no_cursor) sent) }
{
    let i = place.unwrap_or(MAX_CURSORS);
    if i < MAX_CURSORS {
        store_sent(words, i, sent);
    }
}

// Every word before the flag becomes 0.
fn wipe(words: &mut [u32])
    requires { length words.old ≡ word_count }
    ensures { session_of words.new ≡ reset (session_of words.old) }
{
    words[..CLOSED].fill(0);
}

fn set_closed(words: &mut [u32])
    requires { length words.old ≡ word_count }
    ensures { session_of words.new ≡ with_closed (session_of words.old) 1 }
{
    words[CLOSED] = 1;
}

// Everything ends.
pub fn clear(words: &mut [u32; WORDS])
    ensures { session_of words.new ≡ reset (session_of words.old) }
{
    wipe(words);
}

// Everything ends, and the session is closed.
pub fn close(words: &mut [u32; WORDS])
    ensures { session_of words.new ≡ closed_now (session_of words.old) }
{
    wipe(words);
    set_closed(words);
}
