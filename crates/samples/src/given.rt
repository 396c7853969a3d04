// What a record gives to write or to step on: a list of fields, by their keys. A number that is not given is 0, and
// bytes that are not given are none.
use protocol::uint32;
use wire::field::Field;

// What each field gives, by its number.
#[derive(Clone, Copy)]
pub enum Key {
    // The type of a message, a Scalar or a report, or the first message type of a reply.
    Case = 1,
    Stmt = 2,
    Cursor = 3,
    HasRows = 4,
    Rows = 5,
    HasCompact = 6,
    Compact = 7,
    Operation = 8,
    // The body up to its last byte that is not zero, and the length of all of it.
    Body = 9,
    Size = 10,
    Args = 11,
    // The length of the buffer, how many bytes of what was written are printed, and whether the whole buffer is, too.
    Room = 12,
    Shown = 13,
    Whole = 14,
    // An argument's number, or its place in the source bytes.
    Value = 15,
    Start = 16,
    Len = 17,
    Source = 18,
    // Where an argument is appended.
    At = 19,
    // Two arguments, each a list of fields.
    First = 20,
    Second = 21,
    Reason = 22,
    Number = 23,
    Kind = 24,
    Placeholders = 25,
    Columns = 26,
    Code = 27,
    Frame = 28,
    Text = 29,
}

// The fields, read once for each key that is asked for.
#[derive(Clone, Copy)]
pub struct Given<'a> {
    pub fields: &'a [u8],
}

impl<'a> Given<'a> {
    fn find(self, key: Key) -> Option<Field> {
        let mut unread = false;
        let mut p = 0;
        for _ in 0..self.fields.len() {
            let field = wire::field::long_field(self.fields, p, &mut unread)?;
            if field.number == key as u64 {
                return Some(field);
            }
            p = field.next;
        }
        None
    }

    pub fn number(self, key: Key) -> u64 {
        match self.find(key) {
            Some(field) => field.value,
            None => 0,
        }
    }

    pub fn small(self, key: Key) -> u32 {
        (self.number(key) % uint32::COUNT) as u32
    }

    pub fn size(self, key: Key) -> usize {
        self.number(key) as usize
    }

    pub fn is_set(self, key: Key) -> bool {
        self.number(key) == 1
    }

    // None where they are not all there.
    pub fn bytes(self, key: Key) -> &'a [u8] {
        let Some(field) = self.find(key) else {
            return b"";
        };
        match self.fields.get(field.start..) {
            Some(rest) => rest.get(..field.len).unwrap_or(b""),
            None => b"",
        }
    }

    // A list of fields within this one.
    pub fn within(self, key: Key) -> Given<'a> {
        Given {
            fields: self.bytes(key),
        }
    }
}
