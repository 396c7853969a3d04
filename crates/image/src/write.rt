// Writing the image of a session: into a buffer that any fits, and from there into the one that is lent.
ghost use Rattle.std.specs.Prelude.{◌≡◌, cond, ◌*◌, ◌<◌, ◌≤◌, length};
ghost use Rattle.session.specs.Session.{is_closed};
ghost use Rattle.session.specs.Tables.{cursor_count, max_cursors, max_stmts, stmt_count};
ghost use Rattle.session.specs.Words.{session_of};
ghost use Rattle.encode.specs.Put.{written};
ghost use Rattle.encode.specs.Puts.{Puts};
ghost use Rattle.image_rules.specs.Image.{image_of, max_image};
ghost use Rattle.image_rules.specs.Image.{most_cursor, most_stmt};
ghost use Rattle.image_rules.specs.private.Parts.{cursor_bytes, cursor_bytes_at, stmt_bytes, stmt_bytes_at};
ghost use Rattle.image.specs.private.Handed.{handed};

use crate::put::put_number;
use encode::number::put_varint;
use encode::put::write_bytes;
use image_rules::Written;
use protocol::reason;
use session::{Cursor, MAX_CURSORS, MAX_STMTS, Stmt, WORDS, count, words};

const FORM: u64 = 1;

// The whole image, from the front of the buffer on.
pub(crate) fn put_image(buf: &mut [u8], words: &[u32; WORDS]) -> usize
    ensures put { Puts buf.old 0 (image_of (session_of words.now)) result buf.new }
    ensures short { length (image_of (session_of words.now)) ≤ max_image }
{
    let at = put_varint(buf, 0, FORM);
    let at = put_varint(buf, at, closed(words));
    let stmts = count::stmt_count(words);
    let at = put_varint(buf, at, stmts);
    let at = put_stmts(buf, at, words, stmts);
    let cursors = count::cursor_count(words);
    let at = put_varint(buf, at, cursors);
    put_cursors(buf, at, words, cursors)
}

fn closed(words: &[u32; WORDS]) -> u64
    ensures { result ≡ cond (is_closed (session_of words.now)) 1 0 }
{
    u64::from(words::is_closed(words))
}

// The n live statements, in place order: the places behind the last one are not looked at. One loop for both tables
// would be handed how an entry is read, put and told live: more than the loop.
fn put_stmts(buf: &mut [u8], at: usize, words: &[u32; WORDS], n: u64) -> usize
    requires { n ≡ stmt_count (session_of words.now) }
    ensures put { Puts buf.old at (stmt_bytes (session_of words.now)) result buf.new }
    ensures short { length (stmt_bytes (session_of words.now)) ≤ max_stmts * most_stmt }
{
    let mut p = at;
    let mut left = n;
    for i in 0..MAX_STMTS {
        if left == 0 {
            return p;
        }
        let t = words::stmt_at(words, Some(i));
        p = put_stmt(buf, p, i, t);
        left -= u64::from(t.live != 0);
    }
    p
}

// The statement at a place, where it is live.
fn put_stmt(buf: &mut [u8], at: usize, place: usize, t: Stmt) -> usize
    requires { place < max_stmts }
    ensures put { Puts buf.old at (stmt_bytes_at place t) result buf.new }
    ensures short { length (stmt_bytes_at place t) ≤ most_stmt }
{
    if t.live == 0 {
        return at;
    }
    let at = put_number(buf, at, place as u32);
    let at = put_number(buf, at, t.id);
    put_number(buf, at, t.placeholders)
}

// The n live cursors, in place order.
fn put_cursors(buf: &mut [u8], at: usize, words: &[u32; WORDS], n: u64) -> usize
    requires { n ≡ cursor_count (session_of words.now) }
    ensures put { Puts buf.old at (cursor_bytes (session_of words.now)) result buf.new }
    ensures short { length (cursor_bytes (session_of words.now)) ≤ max_cursors * most_cursor }
{
    let mut p = at;
    let mut left = n;
    for i in 0..MAX_CURSORS {
        if left == 0 {
            return p;
        }
        let c = words::cursor_at(words, Some(i));
        p = put_cursor(buf, p, i, c);
        left -= u64::from(c.live != 0);
    }
    p
}

// The cursor at a place, where it is live.
fn put_cursor(buf: &mut [u8], at: usize, place: usize, c: Cursor) -> usize
    requires { place < max_cursors }
    ensures put { Puts buf.old at (cursor_bytes_at place c) result buf.new }
    ensures short { length (cursor_bytes_at place c) ≤ most_cursor }
{
    if c.live == 0 {
        return at;
    }
    let at = put_number(buf, at, place as u32);
    let at = put_number(buf, at, c.id);
    let at = put_number(buf, at, c.stmt);
    let at = put_number(buf, at, c.rows);
    put_number(buf, at, c.sent)
}

// An image at the front of `buf`, where it fits.
pub(crate) fn hand_over(image: &[u8], buf: &mut [u8]) -> Written
    ensures answer { result ≡ handed image.now buf.old }
    ensures buffer { buf.new ≡ written buf.old 0 image.now }
{
    match write_bytes(buf, 0, image) {
        Some(n) => Written {
            reason: reason::ACCEPTED,
            len: n,
        },
        None => Written {
            reason: reason::NO_ROOM,
            len: 0,
        },
    }
}
