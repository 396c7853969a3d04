// The types of the client's messages.
pub const RESET: u64 = 6;

pub const SESSION_CLOSE: u64 = 7;

pub const PREPARE: u64 = 40;

pub const EXECUTE: u64 = 41;

pub const DEALLOCATE: u64 = 42;

pub const OPEN: u64 = 43;

pub const CLOSE: u64 = 44;

pub const FETCH: u64 = 45;
