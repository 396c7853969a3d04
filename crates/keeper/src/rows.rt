// Which rows an accepted Open or Fetch sends, and how the reply ends.
ghost use Rattle.std.specs.Prelude.{◌≡◌, ◌+◌, ◌≤◌, min, cond};
ghost use Rattle.reply.specs.declared.Reply.{Reply};
ghost use Rattle.rules.specs.Decision.{end_of};
ghost use Rattle.rules.specs.Rows.{asked, fetch_count, open_count, remaining};
ghost use Rattle.keeper.specs.private.Does.{sends_all, sends_first, sends_next};

use crate::answer::Sends;
use crate::report::ResultSet;
use reply::Reply;
use session::Cursor;

// What the cursor has still to send.
fn remaining(cursor: Cursor) -> u32
    ensures { result ≡ remaining cursor }
{
    if cursor.rows <= cursor.sent {
        return 0;
    }
    cursor.rows - cursor.sent
}

// fetch_rows, or what its absence means, but no more than there are.
fn at_most(rows: Option<u64>, absent: u32, limit: u32) -> u32
    ensures { result ≡ min (asked rows absent) limit }
{
    match rows {
        Some(asked) => asked.min(u64::from(limit)) as u32,
        None => absent.min(limit),
    }
}

// The rows that a Fetch sends of this cursor; without fetch_rows all that remain.
pub(crate) fn fetch_count(cursor: Cursor, rows: Option<u64>) -> u32
    ensures { result ≡ fetch_count cursor rows }
{
    let left = remaining(cursor);
    at_most(rows, left, left)
}

// The rows that an Open sends of those that were reported; without fetch_rows none.
pub(crate) fn open_count(rows: Option<u64>, reported: u32) -> u32
    ensures { result ≡ open_count rows reported }
{
    at_most(rows, 0, reported)
}

// How a reply ends whose opening has so many rows left.
fn end_of(left: u32) -> Reply
    ensures { result ≡ end_of left }
{
    if left == 0 {
        Reply::Done
    } else {
        Reply::Suspended
    }
}

// How the reply to an Execute ends, by whether there are columns.
fn run_end(columns: bool) -> Reply
    ensures { result ≡ cond columns Reply.Done Reply.Executed }
{
    if columns {
        Reply::Done
    } else {
        Reply::Executed
    }
}

// What an Execute sends: all rows.
pub(crate) fn all(set: ResultSet) -> Sends
    ensures { result ≡ sends_all set }
{
    Sends {
        columns: set.columns,
        first: 0,
        count: u64::from(set.rows),
        reply: run_end(set.columns),
    }
}

// What an Open sends: the first `count` of the rows reported.
pub(crate) fn opened(set: ResultSet, count: u32) -> Sends
    requires { count ≤ set.rows }
    ensures { result ≡ sends_first set count }
{
    Sends {
        columns: set.columns,
        first: 0,
        count: u64::from(count),
        reply: end_of(set.rows - count),
    }
}

// What a Fetch sends: the next `count` rows of the cursor.
pub(crate) fn fetched(cursor: Cursor, count: u32) -> Sends
    requires { cursor.sent + count ≤ cursor.rows }
    ensures { result ≡ sends_next cursor count }
{
    Sends {
        columns: false,
        first: u64::from(cursor.sent),
        count: u64::from(count),
        reply: end_of(cursor.rows - (cursor.sent + count)),
    }
}
