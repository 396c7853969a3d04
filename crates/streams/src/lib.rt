// A reader of arrivals: its types here, what it does and what holds of every list of operations in specs/. The
// functions are those of crate arrivals.
#![tactic(auto)]

// The bytes of a store: the longest frame fills it.
pub const STORE: usize = 65536;

// The bytes held are those of the store from `start` up to `end`. Two numbers that are no such part hold nothing.
#[repr(C)]
#[derive(Clone, Copy)]
pub struct Reader {
    pub start: usize,
    pub end: usize,
}

// What a push answers: the reader after it, what stands first then, and how many bytes were taken.
#[repr(C)]
#[derive(Clone, Copy)]
pub struct Pushed {
    pub reader: Reader,
    pub reason: u64,
    pub count: usize,
}

// A frame handed out, with its place in the store, its length and its type byte; or the reason that there is none.
#[repr(C)]
#[derive(Clone, Copy)]
pub struct NextFrame {
    pub reader: Reader,
    pub reason: u64,
    pub start: usize,
    pub len: usize,
    pub kind: u64,
}
