// What a look and a step take and what they answer. Every struct is of numbers and bools, so that a
// host can pass it.
#![tactic(auto)]

// The kinds of an engine report.
pub const NONE: u64 = 0;

pub const PREPARED: u64 = 1;

pub const RESULT: u64 = 2;

pub const DONE: u64 = 3;

pub const FAILED: u64 = 4;

// The limits of what a report says.
pub const MAX_PLACEHOLDERS: u64 = 65535;

pub const MAX_COLUMNS: u64 = 4096;

pub const MAX_NUMBER: u64 = 0xffff_ffff;

// The shortest reply buffer that a step takes.
pub const MIN_BUFFER: usize = 128;

// An engine report. `placeholders` counts where it is prepared, `columns` and `rows` where it is a result, `code` where
// it failed. The kind is a number, as hosts in C give it: one that is not listed is refused.
#[repr(C)]
#[derive(Clone, Copy)]
pub struct Report {
    pub kind: u64,
    pub placeholders: u64,
    pub columns: u64,
    pub rows: u64,
    pub code: u64,
}

// What a look answers: a refusal, or the work wanted, of a Fetch the rows to send, and whether a varint read in the
// frame is padded.
#[repr(C)]
#[derive(Clone, Copy)]
pub struct Look {
    pub reason: u64,
    pub work: u64,
    pub first: u64,
    pub count: u64,
    pub padded: bool,
}

// What a step answers: the refusal or 0, the bytes used, the reply's length, whether columns go out, whether a varint
// read in the frame is padded, and which rows.
#[repr(C)]
#[derive(Clone, Copy)]
pub struct Answer {
    pub reason: u64,
    pub used: usize,
    pub reply: usize,
    pub columns: bool,
    pub padded: bool,
    pub first: u64,
    pub count: u64,
}

// What a request touches in the tables: the place of its statement and of its cursor, the number of places where there
// is none, and as bits the places of the cursors that it ends once it is accepted.
#[repr(C)]
#[derive(Clone, Copy)]
pub struct Touches {
    pub stmt: usize,
    pub cursor: usize,
    pub ends: u64,
}
