// A chosen body that occurs more than once. Every part of it is read before it is refused: it must be a good message in
// parts, with good arguments.
ghost use Rattle.std.specs.Prelude.{◌≡◌, ◌||◌, true};
ghost use Rattle.layout.specs.Row.{columns_of};
ghost use Rattle.layout.specs.Merged.{merged, parts_in, parts_of};
ghost use Rattle.message.specs.Execute.{arguments_good};
ghost use Rattle.message.specs.Padded.{executes_padded};
ghost use Rattle.message.specs.Payload.{payload};
ghost use Rattle.message.specs.Payload.{twice};

use crate::payload::PAYLOAD;
use crate::request::Frame;
use layout::found::Found;
use layout::parts::Parts;
use layout::row::Row;

// Whether the message with these rows in field k of each part of the statement, field `stmt` of the payload, is good.
// Its own varints are read again with its arguments, so that their flag is not looked at.
pub(crate) fn is_message(rows: &[Row], s: &[u8], stmt: u64, k: u64) -> bool
    ensures { result
        ≡ (merged (columns_of rows.now) s.now
        (parts_in k s.now (parts_of stmt s.now payload))).good }
{
    let mut unread = false;
    let mut found = Found::new();
    found.merge(rows, Parts::of_parts(s, PAYLOAD, stmt, k), &mut unread)
}

// Whether the arguments in field k of each part of the statement, field `stmt` of the payload, are all good.
pub(crate) fn good_arguments(s: &[u8], stmt: u64, k: u64, padded: &mut bool) -> bool
    ensures answer { result ≡ arguments_good s.now (parts_in k s.now (parts_of stmt s.now payload)) }
    ensures told { result ≡ true →
        padded.new
        ≡ (padded.old
        || executes_padded s.now (parts_in k s.now (parts_of stmt s.now payload))) }
{
    for part in Parts::of_parts(s, PAYLOAD, stmt, k) {
        let end = part.start + part.len;
        if !args::judge::judge_arguments(&s[..end], part.start, padded) {
            return false;
        }
    }
    true
}

// A frame of this type and length whose body occurs more than once, and is good or not.
pub(crate) fn refused(used: usize, kind: u64, good: bool) -> Frame
    ensures { result ≡ twice used kind good }
{
    if good {
        return Frame::BodyTwice { used, kind };
    }
    Frame::BadPayload { used, kind }
}
