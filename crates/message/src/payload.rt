// What every payload needs: its place, ids of 32 bits, optional fields.
ghost use Rattle.std.specs.Prelude.{◌≡◌, ◌||◌, true};
ghost use Rattle.layout.specs.Row.{columns_of};
ghost use Rattle.layout.specs.Fields.{fields_at};
ghost use Rattle.layout.specs.private.Found.{Holds};
ghost use Rattle.layout.specs.Merged.{merged, parts_of};
ghost use Rattle.layout.specs.Padded.{parts_padded};
ghost use Rattle.layout.specs.Part.{low32};
ghost use Rattle.message.specs.Padded.{own_padded};
ghost use Rattle.message.specs.Payload.{optional, payload, truth_of};
ghost use Rattle.message.specs.private.Parts.{Whole, once};

use layout::found::{Found, Slot};
use layout::part::Part;
use layout::parts::Parts;
use layout::row::Row;
use protocol::uint32;

// Where a payload begins, behind the length and the type.
pub const PAYLOAD: usize = 5;

// The message with these rows that is the payload of the frame s. Answers as fill_fields does.
pub(crate) fn fill_payload(rows: &[Row], s: &[u8], found: &mut Found, padded: &mut bool) -> bool
    ensures holds { Holds (fields_at (columns_of rows.now) s.now payload) result found.new }
    ensures told { padded.new ≡ (padded.old || own_padded s.now) }
{
    found.fill_fields(rows, s, PAYLOAD, s.len(), padded)
}

// The statement with these rows in field k of the payload: whole in this part, or in parts.
pub(crate) fn fill_stmt(
    rows: &[Row],
    s: &[u8],
    k: u64,
    part: Option<Part>,
    found: &mut Found,
    padded: &mut bool,
) -> bool
    requires { Whole k s.now part }
    ensures holds { Holds (merged (columns_of rows.now) s.now (parts_of k s.now payload)) result found.new }
    ensures told { result ≡ true →
        padded.new ≡ (padded.old || parts_padded s.now (parts_of k s.now payload)) }
{
    match part {
        Some(whole) => found.fill_part(rows, s, whole.start, whole.len, padded),
        None => found.merge(rows, Parts::of_message(s, PAYLOAD, k), padded),
    }
}

// Where the message in a field stands, if it comes once and not in parts.
pub(crate) fn once(slot: Slot) -> Option<Part>
    ensures { result ≡ once slot }
{
    if slot.times == 1 {
        return Some(Part {
            start: slot.start,
            len: slot.value as usize,
        });
    }
    None
}

// The lowest 32 bits.
pub(crate) fn low(v: u64) -> u32
    ensures { result ≡ low32 v }
{
    (v % uint32::COUNT) as u32
}

// An optional field: its value, if it occurs.
pub(crate) fn optional(slot: Slot) -> Option<u64>
    ensures { result ≡ optional slot.times slot.value }
{
    if slot.times == 0 {
        None
    } else {
        Some(slot.value)
    }
}

// A bool as 0 or 1.
pub(crate) fn read_truth(field: Option<u64>) -> Option<u64>
    ensures { result ≡ truth_of field }
{
    match field {
        Some(0) => Some(0),
        Some(_) => Some(1),
        None => None,
    }
}
