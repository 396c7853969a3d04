// The wire types of a field (W7).
pub const VARINT: u64 = 0;

pub const I64: u64 = 1;

pub const LEN: u64 = 2;

pub const GROUP_START: u64 = 3;

pub const GROUP_END: u64 = 4;

pub const I32: u64 = 5;
