// The first places that pass a test.
ghost use Rattle.std.specs.Prelude.{◌≡◌, ◌+◌, ◌<◌, ◌≤◌};
ghost use Rattle.session.specs.Lists.{first};
ghost use Rattle.session.specs.Entry.{is_stmt, free_stmt, free_cursor, passes};
ghost use Rattle.session.specs.Tables.{max_stmts, max_cursors};
ghost use Rattle.session.specs.Tables.{stmt_at, cursor_at, cursor_on, stmt_place, cursor_place, place_of};
ghost use Rattle.session.specs.Words.{cursor_in, stmt_in, stmts_in, session_of};
ghost use Rattle.session.specs.private.Search.{FirstBlock, any_in, block_ids};

use crate::{MAX_CURSORS, MAX_STMTS, WORDS, Which, words};

// Ids that are compared at once: without a way out of the loop the compiler makes vector compares of it.
const BLOCK: usize = 16;

const BLOCKS: usize = MAX_STMTS / BLOCK;

// Whether one of the statements of a block has the id, live or not.
fn has(words: &[u32; WORDS], at: usize, id: u32) -> bool
    requires { at + block_ids ≤ max_stmts }
    ensures { result ≡ any_in id words.now at block_ids }
{
    let mut hit = false;
    for k in 0..BLOCK {
        hit |= words::stmt_id(words, at + k) == id;
    }
    hit
}

// The first block that has the id.
fn first_block(words: &[u32; WORDS], id: u32) -> Option<usize>
    ensures { FirstBlock id words.now result }
{
    (0..BLOCKS).find(|b| has(words, BLOCK * *b, id))
}

// Whether the statement at a place is the live one of an id.
fn is_stmt(words: &[u32; WORDS], i: usize, id: u32) -> bool
    requires { i < max_stmts }
    ensures { result ≡ is_stmt id (stmt_in words.now i) }
{
    words::stmt_live(words, i) != 0 && words::stmt_id(words, i) == id
}

// The place of the live statement of an id: blocks without the id are passed.
pub fn find_stmt(words: &[u32; WORDS], id: u32) -> Option<usize>
    ensures { result ≡ stmt_at (session_of words.now) id }
{
    let block = first_block(words, id)?;
    (BLOCK * block..MAX_STMTS).find(|i| is_stmt(words, *i, id))
}

fn free_stmt(words: &[u32; WORDS]) -> Option<usize>
    ensures { result ≡ first free_stmt (stmts_in words.now) 0 }
{
    (0..MAX_STMTS).find(|i| words::stmt_live(words, *i) == 0)
}

// The place that a statement of an id takes: its own, or the lowest free one.
pub fn stmt_place(words: &[u32; WORDS], id: u32) -> Option<usize>
    ensures { result ≡ stmt_place (session_of words.now) id }
{
    find_stmt(words, id).or_else(|| free_stmt(words))
}

// Whether the cursor at a place passes the test.
pub(crate) fn passes(words: &[u32; WORDS], i: usize, which: Which) -> bool
    requires { i < max_cursors }
    ensures { result ≡ passes which (cursor_in words.now i) }
{
    let live = words::cursor_live(words, i) != 0;
    match which {
        Which::Id(id) => live && words::cursor_id(words, i) == id,
        Which::On(id) => live && words::cursor_stmt(words, i) == id,
        Which::Live => live,
    }
}

// The first place whose cursor passes.
pub fn first_place(words: &[u32; WORDS], which: Which) -> Option<usize>
    ensures { result ≡ place_of (passes which) (session_of words.now) }
{
    (0..MAX_CURSORS).find(|i| passes(words, *i, which))
}

// The place of the live cursor of an id.
pub fn find_cursor(words: &[u32; WORDS], id: u32) -> Option<usize>
    ensures { result ≡ cursor_at (session_of words.now) id }
{
    first_place(words, Which::Id(id))
}

// The place of the live cursor on a statement.
pub fn find_on(words: &[u32; WORDS], stmt: u32) -> Option<usize>
    ensures { result ≡ cursor_on (session_of words.now) stmt }
{
    first_place(words, Which::On(stmt))
}

fn free_cursor(words: &[u32; WORDS]) -> Option<usize>
    ensures { result ≡ place_of free_cursor (session_of words.now) }
{
    (0..MAX_CURSORS).find(|i| words::cursor_live(words, *i) == 0)
}

// The place that a cursor of an id takes: its own, or the lowest free one.
pub fn cursor_place(words: &[u32; WORDS], id: u32) -> Option<usize>
    ensures { result ≡ cursor_place (session_of words.now) id }
{
    find_cursor(words, id).or_else(|| free_cursor(words))
}
