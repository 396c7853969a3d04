// What a message's field list holds, by field number. The definitions speak of it; the reader notes as much of it as
// matters in a Found, and no function passes it.

// The known field numbers of every message are below this.
pub const SLOTS: usize = 10;

// For each known field number: how often it occurs, and of the occurrence that counts the value and the place and
// length of its bytes. `good` says that the list is one.
#[derive(Clone, Copy)]
pub struct Slots {
    pub good: bool,
    pub count: [u64; SLOTS],
    pub value: [u64; SLOTS],
    pub start: [usize; SLOTS],
    pub len: [usize; SLOTS],
}
