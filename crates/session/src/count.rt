// Sums over the tables.
ghost use Rattle.std.specs.Prelude.{◌≡◌, ◌<◌, ◌≤◌};
ghost use Rattle.session.specs.Entry.{owes};
ghost use Rattle.session.specs.Sound.{max_number};
ghost use Rattle.session.specs.Tables.{max_cursors, owed, stmt_count, cursor_count};
ghost use Rattle.session.specs.Words.{cursor_in, session_of};

use crate::{MAX_CURSORS, MAX_STMTS, WORDS, words};

// The rows that the cursor at a place has still to send.
fn owes(words: &[u32; WORDS], i: usize) -> u64
    requires { i < max_cursors }
    ensures { (result ≡ owes (cursor_in words.now i)) × (result ≤ max_number) }
{
    if words::cursor_live(words, i) == 0 {
        return 0;
    }
    u64::from(words::cursor_rows(words, i).saturating_sub(words::cursor_sent(words, i)))
}

// The rows that the live cursors have still to send.
pub fn owed(words: &[u32; WORDS]) -> u64
    ensures { result ≡ owed (session_of words.now) }
{
    let mut sum = 0;
    for i in 0..MAX_CURSORS {
        sum += owes(words, i);
    }
    sum
}

// The live statements; below, the live cursors. One function of a test on places would be as long as both loops.
pub fn stmt_count(words: &[u32; WORDS]) -> u64
    ensures { result ≡ stmt_count (session_of words.now) }
{
    let mut sum = 0;
    for i in 0..MAX_STMTS {
        sum += u64::from(words::stmt_live(words, i) != 0);
    }
    sum
}

pub fn cursor_count(words: &[u32; WORDS]) -> u64
    ensures { result ≡ cursor_count (session_of words.now) }
{
    let mut sum = 0;
    for i in 0..MAX_CURSORS {
        sum += u64::from(words::cursor_live(words, i) != 0);
    }
    sum
}
