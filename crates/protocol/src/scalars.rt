// The types of a Scalar (L8).
pub const SINT: u64 = 1;

pub const UINT: u64 = 2;

pub const NULL: u64 = 3;

pub const OCTETS: u64 = 4;

pub const DOUBLE: u64 = 5;

pub const FLOAT: u64 = 6;

pub const BOOL: u64 = 7;

pub const STRING: u64 = 8;

// The fields of a Scalar that hold the values.
pub const SINT_FIELD: usize = 2;

pub const UINT_FIELD: usize = 3;

pub const OCTETS_FIELD: usize = 5;

pub const DOUBLE_FIELD: usize = 6;

pub const FLOAT_FIELD: usize = 7;

pub const BOOL_FIELD: usize = 8;

pub const STRING_FIELD: usize = 9;
