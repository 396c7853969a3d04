// The one field-list reader, driven by a message's rows.
ghost use Rattle.std.specs.Prelude.{◌≡◌, ◌||◌, ◌+◌, ◌<◌};
ghost use Rattle.layout.specs.Row.{columns, columns_of};
ghost use Rattle.layout.specs.Fields.{fields_onto, fields_to, has_required, met, use_by, use_of};
ghost use Rattle.layout.specs.Padded.{list_padded, padded_to};
ghost use Rattle.wire.specs.Field.{field_at};
ghost use Rattle.wire.specs.Padded.{field_padded};
ghost use Rattle.layout.specs.private.Found.{Adds, Holds, Settles, found_times};

use crate::found::Found;
use crate::row::{MANY, MUST, Row};
use wire::field::Field;

// What a message makes of a field: it is skipped, only counted (a repeated field, whose occurrences are
// read one by one elsewhere), or kept in the place of an earlier one.
#[derive(Clone, Copy)]
pub enum Use {
    Unknown,
    Counted,
    Kept,
}

// By the row of the field's number.
fn use_by(row: Row, number: u64, wire: u64, value: u64) -> Use
    ensures { result ≡ use_by (columns row) number wire value }
{
    if !row.takes(number, wire, value) {
        return Use::Unknown;
    }
    if row.repeated == MANY {
        return Use::Counted;
    }
    Use::Kept
}

// By the message's rows; a number that no row has, and no field has the number 0, is unknown at once.
fn use_of(rows: &[Row], number: u64, wire: u64, value: u64) -> Use
    requires { 0 < number }
    ensures { result ≡ use_of (columns_of rows.now) number wire value }
{
    for row in rows {
        if u64::from(row.number) == number {
            return use_by(*row, number, wire, value);
        }
    }
    Use::Unknown
}

// Whether a row's field occurs, if it is required.
fn row_met(row: Row, found: &Found) -> bool
    ensures { result ≡ met (columns row) (found_times found.now) }
{
    if row.required != MUST {
        return true;
    }
    match found.slots.get(usize::from(row.number)) {
        Some(slot) => slot.times != 0,
        None => false,
    }
}

// How a list reads a field. For each way `list_fields` is compiled by itself, so that a message of one part, its only
// caller that way, has it inlined: with two callers reading a list takes a fifth longer.
pub(crate) trait FieldReader {
    fn read(s: &[u8], at: usize, padded: &mut bool) -> Option<Field>
        ensures answer { result ≡ field_at s.now at }
        ensures told { padded.new ≡ (padded.old || field_padded s.now at) };
}

// With the short ways, for messages of one part.
pub(crate) struct InPlace;

impl FieldReader for InPlace {
    fn read(s: &[u8], at: usize, padded: &mut bool) -> Option<Field> {
        wire::field::read_field(s, at, padded)
    }
}

// The long way, for parts.
pub(crate) struct ByCall;

impl FieldReader for ByCall {
    fn read(s: &[u8], at: usize, padded: &mut bool) -> Option<Field> {
        wire::field::long_field(s, at, padded)
    }
}

impl Found {
    // The fields of s from `from` on, noted behind what was found; answers whether all are good.
    pub(crate) fn list_fields<R: FieldReader>(
        &mut self,
        rows: &[Row],
        s: &[u8],
        from: usize,
        padded: &mut bool,
    ) -> bool
        ensures listed { Adds (fields_onto (columns_of rows.now) s.now from) self.old result self.new }
        ensures told { padded.new ≡ (padded.old || list_padded s.now from) }
    {
        // No index is counted: p goes on by what was read.
        let mut p = from;
        while p < s.len() {
            let Some(field) = R::read(s, p, padded) else {
                return false;
            };
            let k = field.number as usize;
            match use_of(rows, field.number, field.wire, field.value) {
                Use::Unknown => {}
                Use::Counted => self.count(k),
                Use::Kept => self.keep(k, field.value, field.start),
            }
            p = field.next;
        }
        true
    }

    // Whether each required field of the message occurs.
    fn has_required(&self, rows: &[Row]) -> bool
        ensures { result ≡ has_required (columns_of rows.now) (found_times self.now) }
    {
        for row in rows {
            if !row_met(*row, self) {
                return false;
            }
        }
        true
    }

    // The list that was found as a message with these rows: it must be good and have each required field, and else
    // nothing is found.
    pub(crate) fn settle(&mut self, rows: &[Row], good: bool) -> bool
        ensures { Settles (columns_of rows.now) good self.old result self.new }
    {
        if !good {
            self.clear();
            return false;
        }
        if !self.has_required(rows) {
            self.clear();
            return false;
        }
        true
    }

    // The message with these rows whose bytes go from `from` to `end`. Answers whether it is good; where it is not,
    // nothing is found.
    pub fn fill_fields(
        &mut self,
        rows: &[Row],
        s: &[u8],
        from: usize,
        end: usize,
        padded: &mut bool,
    ) -> bool
        ensures holds { Holds (fields_to (columns_of rows.now) s.now from end) result self.new }
        ensures told { padded.new ≡ (padded.old || padded_to s.now from end) }
    {
        self.clear();
        if s.len() < end {
            return false;
        }
        let good = self.list_fields::<InPlace>(rows, &s[..end], from, padded);
        self.settle(rows, good)
    }
}
