// Reading an image into a session that has no entries.
ghost use Rattle.std.specs.Prelude.{◌≡◌, false, ℕ, [], ◌∷◌, is_none};
ghost use Rattle.session.specs.Entry.{is_cursor, is_stmt, on_stmt, passes};
ghost use Rattle.session.specs.Lists.{how_many};
ghost use Rattle.session.specs.Tables.{fresh, place_of, stmt_at};
ghost use Rattle.session.specs.Words.{session_of};
ghost use Rattle.image_rules.specs.Restore.{begun, cursor_table, cursors_at, entries_at, head_good, reading_of};
ghost use Rattle.image_rules.specs.Restore.{rises, stmt_table};
ghost use Rattle.image.specs.private.Ends.{read_to};

use crate::numbers::{MOST, read_numbers};
use image_rules::{CursorEntry, StmtEntry};
use session::{Cursor, MAX_CURSORS, MAX_STMTS, Stmt, WORDS, Which, find, words};

const FORM: u32 = 1;

// The numbers of the head, of a statement and of a cursor.
const HEAD: usize = 3;

const STMT: usize = 3;

const CURSOR: usize = 5;

// Where they stand in the head: the form first, then
const CLOSED: usize = 1;

const STMTS: usize = 2;

// and in an entry: the place first, then
const ID: usize = 1;

const PLACEHOLDERS: usize = 2;

const CURSOR_STMT: usize = 2;

const ROWS: usize = 3;

const SENT: usize = 4;

const LIVE: u32 = 1;

const MAX_PLACEHOLDERS: u32 = 65535;

// The slots that ids fall into while they are read: more than there are statements, so that few meet.
const SLOTS: usize = 256;

// The whole image, into a session that has no entries.
pub(crate) fn take_image(words: &mut [u32; WORDS], image: &[u8]) -> Option<usize>
    requires { session_of words.old ≡ fresh }
    ensures { read_to result (session_of words.new) ≡ reading_of image.now }
{
    let mut head = [0; HEAD];
    let at = read_numbers(image, 0, HEAD, &mut head)?;
    if !is_head(head[0], head[CLOSED], head[STMTS]) {
        return None;
    }
    begin(words, head[CLOSED]);
    let after = take_stmts(words, image, at, head[STMTS])?;
    take_rest(words, image, after)
}

// The form, and no statements if closed.
fn is_head(form: u32, closed: u32, stmts: u32) -> bool
    ensures { result ≡ head_good (form ∷ closed ∷ stmts ∷ []) }
{
    form == FORM && closed <= 1 && (closed == 0 || stmts == 0)
}

// The session that is closed, or not, and has no entries.
fn begin(words: &mut [u32; WORDS], closed: u32)
    requires { session_of words.old ≡ fresh }
    ensures { session_of words.new ≡ begun closed }
{
    if closed != 0 {
        words::close(words);
    }
}

// The cursors, with their count in front and nothing behind them, into a session that has none.
fn take_rest(words: &mut [u32; WORDS], image: &[u8], at: usize) -> Option<usize>
    requires by_index { (id : ℕ) → how_many (is_cursor id) (session_of words.old).cursors ≡ 0 }
    requires by_index_2 { (id : ℕ) → how_many (on_stmt id) (session_of words.old).cursors ≡ 0 }
    ensures { read_to result (session_of words.new) ≡ cursors_at image.now at (session_of words.old) }
{
    let mut count = [0];
    let behind = read_numbers(image, at, 1, &mut count)?;
    let end = take_cursors(words, image, behind, count[0])?;
    (end == image.len()).then_some(end)
}

// The statements from the place `at` on, one after the other, into a session that has none. Their numbers are read in
// one go. Ids that differ in their last bits, as most do, are told apart by `seen`: only where it has an id's slot is
// that id looked up. One loop for both tables would be handed the width, the limit, and how an entry is made, tested
// and put, with one array of slots or two: more than the loop.
fn take_stmts(words: &mut [u32; WORDS], image: &[u8], at: usize, count: u32) -> Option<usize>
    requires { (id : ℕ) → how_many (is_stmt id) (session_of words.old).stmts ≡ 0 }
    ensures read { read_to result (session_of words.new) ≡
        entries_at stmt_table count 0 image.now at (session_of words.old) }
    ensures kept { (session_of words.new).cursors ≡ (session_of words.old).cursors }
{
    if MAX_STMTS < count as usize {
        return None;
    }
    let mut numbers = [0; MOST];
    let end = read_numbers(image, at, STMT * count as usize, &mut numbers)?;
    let mut seen = [false; SLOTS];
    let mut next = 0;
    for i in 0..count as usize {
        let first = STMT * i;
        let e = StmtEntry {
            place: numbers[first],
            id: numbers[first + ID],
            placeholders: numbers[first + PLACEHOLDERS],
        };
        let slot = e.id as usize % SLOTS;
        if !takes_stmt(words, next, e, seen[slot]) {
            return None;
        }
        seen[slot] = true;
        put_stmt(words, e);
        next = e.place + 1;
    }
    Some(end)
}

// A statement whose id was not seen is not looked up.
fn takes_stmt(words: &[u32; WORDS], next: u32, e: StmtEntry, seen: bool) -> bool
    requires { seen ≡ false → how_many (is_stmt e.id) (session_of words.now).stmts ≡ 0 }
    ensures { result ≡ stmt_table.takes next e (session_of words.now) }
{
    rises(MAX_STMTS, next, e.place)
        && e.placeholders <= MAX_PLACEHOLDERS
        && is_new_stmt(words, e.id, seen)
}

// Whether no statement has the id; where none can, there is no search.
fn is_new_stmt(words: &[u32; WORDS], id: u32, seen: bool) -> bool
    requires { seen ≡ false → how_many (is_stmt id) (session_of words.now).stmts ≡ 0 }
    ensures { result ≡ is_none (stmt_at (session_of words.now) id) }
{
    !seen || find::find_stmt(words, id).is_none()
}

// Whether a place lies behind those below `next` and within the limit.
fn rises(limit: usize, next: u32, place: u32) -> bool
    ensures { result ≡ rises limit next place }
{
    next <= place && (place as usize) < limit
}

fn put_stmt(words: &mut [u32; WORDS], e: StmtEntry)
    ensures { session_of words.new ≡ stmt_table.taken e (session_of words.old) }
{
    words::put_stmt(
        words,
        Some(e.place as usize),
        Stmt {
            id: e.id,
            placeholders: e.placeholders,
            live: LIVE,
        },
    );
}

// The cursors from the place `at` on, into a session that has none.
fn take_cursors(words: &mut [u32; WORDS], image: &[u8], at: usize, count: u32) -> Option<usize>
    requires by_index { (id : ℕ) → how_many (is_cursor id) (session_of words.old).cursors ≡ 0 }
    requires by_index_2 { (id : ℕ) → how_many (on_stmt id) (session_of words.old).cursors ≡ 0 }
    ensures { read_to result (session_of words.new) ≡
        entries_at cursor_table count 0 image.now at (session_of words.old) }
{
    if MAX_CURSORS < count as usize {
        return None;
    }
    let mut numbers = [0; MOST];
    let end = read_numbers(image, at, CURSOR * count as usize, &mut numbers)?;
    let mut ids = [false; SLOTS];
    let mut stmts = [false; SLOTS];
    let mut next = 0;
    for i in 0..count as usize {
        let first = CURSOR * i;
        let e = CursorEntry {
            place: numbers[first],
            id: numbers[first + ID],
            stmt: numbers[first + CURSOR_STMT],
            rows: numbers[first + ROWS],
            sent: numbers[first + SENT],
        };
        let own = e.id as usize % SLOTS;
        let on = e.stmt as usize % SLOTS;
        if !takes_cursor(words, next, e, ids[own], stmts[on]) {
            return None;
        }
        ids[own] = true;
        stmts[on] = true;
        put_cursor(words, e);
        next = e.place + 1;
    }
    Some(end)
}

// A cursor whose id was not seen is not looked up, nor is one on a statement that was not seen.
fn takes_cursor(words: &[u32; WORDS], next: u32, e: CursorEntry, seen: bool, carries: bool) -> bool
    requires words_value { seen ≡ false → how_many (is_cursor e.id) (session_of words.now).cursors ≡ 0 }
    requires words_value_2 { carries ≡ false → how_many (on_stmt e.stmt) (session_of words.now).cursors ≡ 0 }
    ensures { result ≡ cursor_table.takes next e (session_of words.now) }
{
    rises(MAX_CURSORS, next, e.place)
        && e.sent <= e.rows
        && find::find_stmt(words, e.stmt).is_some()
        && is_new(words, Which::Id(e.id), seen)
        && is_new(words, Which::On(e.stmt), carries)
}

// Whether no cursor passes the test; where none can, there is no search.
fn is_new(words: &[u32; WORDS], which: Which, seen: bool) -> bool
    requires { seen ≡ false → how_many (passes which) (session_of words.now).cursors ≡ 0 }
    ensures { result ≡ is_none (place_of (passes which) (session_of words.now)) }
{
    !seen || find::first_place(words, which).is_none()
}

fn put_cursor(words: &mut [u32; WORDS], e: CursorEntry)
    ensures { session_of words.new ≡ cursor_table.taken e (session_of words.old) }
{
    words::put_cursor(
        words,
        Some(e.place as usize),
        Cursor {
            id: e.id,
            stmt: e.stmt,
            rows: e.rows,
            sent: e.sent,
            live: LIVE,
        },
    );
}
