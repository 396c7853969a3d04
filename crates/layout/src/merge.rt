// Messages in parts: the fields of one number with bytes. What each part holds is noted behind the part before.
ghost use Rattle.std.specs.Prelude.{◌≡◌, ◌||◌, true};
ghost use Rattle.std.specs.Iterator.{YieldsFirst, item_count};
ghost use Rattle.layout.specs.Row.{columns_of};
ghost use Rattle.layout.specs.Merged.{is_part, merged, parts_in, parts_of, parts_onto};
ghost use Rattle.layout.specs.Padded.{parts_padded};
ghost use Rattle.layout.specs.private.Found.{Adds, Holds};
ghost use Rattle.layout.specs.private.Parts.{Tells, left};

use crate::fields::ByCall;
use crate::found::Found;
use crate::part::Part;
use crate::parts::Parts;
use crate::row::Row;
use protocol::wire_type;

// A part, and the place behind it.
#[derive(Clone, Copy)]
pub struct NextPart {
    pub part: Part,
    pub next: usize,
}

// Whether a field is a part of the message in field k.
fn is_part(k: u64, number: u64, wire: u64) -> bool
    ensures { result ≡ is_part k number wire }
{
    if number != k {
        return false;
    }
    wire == wire_type::LEN
}

// The next part in field k at or behind a place. The fields between the parts were read before, so that their flag,
// `unread`, is not looked at; behind a bad one there is no part.
pub fn next_part(s: &[u8], at: usize, k: u64) -> Option<NextPart>
    ensures { Tells k s.now at result }
{
    let mut unread = false;
    let mut p = at;
    // From field to field: no index is counted.
    while p < s.len() {
        let field = wire::field::long_field(s, p, &mut unread)?;
        if is_part(k, field.number, field.wire) {
            return Some(NextPart {
                part: Part {
                    start: field.start,
                    len: field.len,
                },
                next: field.next,
            });
        }
        p = field.next;
    }
    None
}

impl<'a> Parts<'a> {
    // The parts in field `number` of the message that goes from `from` to the end of s.
    pub fn of_message(s: &'a [u8], from: usize, number: u64) -> Parts<'a>
        ensures of { result.s.now ≡ s.now }
        ensures parts { left result ≡ parts_of number s.now from }
    {
        Parts {
            s,
            number,
            at: from,
            end: s.len(),
            outer: number,
            next: s.len(),
        }
    }

    // Those in field `number` of each part in field `outer` of that message.
    pub fn of_parts(s: &'a [u8], from: usize, outer: u64, number: u64) -> Parts<'a>
        ensures of { result.s.now ≡ s.now }
        ensures parts { left result ≡ parts_in number s.now (parts_of outer s.now from) }
    {
        Parts {
            s,
            number,
            at: s.len(),
            end: s.len(),
            outer,
            next: from,
        }
    }
}

impl<'a> Iterator for Parts<'a> {
    type Item = Part;

    ghost next_gives = { YieldsFirst left };

    ghost remaining = { item_count left };

    fn next(&mut self) -> Option<Part> {
        loop {
            if let Some(found) = next_part(&self.s[..self.end], self.at, self.number) {
                self.at = found.next;
                return Some(found.part);
            }
            let found = next_part(self.s, self.next, self.outer)?;
            self.at = found.part.start;
            self.end = found.part.start + found.part.len;
            self.next = found.next;
        }
    }
}

impl Found {
    // The message with these rows that has these parts. Answers as fill_fields does; of a bad message the flag says
    // nothing.
    pub fn merge(&mut self, rows: &[Row], parts: Parts<'_>, padded: &mut bool) -> bool
        ensures holds { Holds (merged (columns_of rows.now) parts.entry.s.now (left parts.entry)) result self.new }
        ensures told { result ≡ true →
            padded.new ≡ (padded.old || parts_padded parts.entry.s.now (left parts.entry)) }
    {
        self.clear();
        let good = self.list_parts(rows, parts, padded);
        self.settle(rows, good)
    }

    // The fields of each part, noted behind what was found; answers whether all are good.
    fn list_parts(&mut self, rows: &[Row], parts: Parts<'_>, padded: &mut bool) -> bool
        ensures listed { Adds (parts_onto (columns_of rows.now) parts.entry.s.now (left parts.entry)) self.old
            result self.new }
        ensures told { result ≡ true →
            padded.new ≡ (padded.old || parts_padded parts.entry.s.now (left parts.entry)) }
    {
        let s = parts.s;
        for part in parts {
            let end = part.start + part.len;
            if !self.list_fields::<ByCall>(rows, &s[..end], part.start, padded) {
                return false;
            }
        }
        true
    }
}
