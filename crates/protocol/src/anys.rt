// The types of an Any (L7). What is no Any has no type.
pub const NONE: u64 = 0;

pub const SCALAR: u64 = 1;

pub const OBJECT: u64 = 2;

pub const ARRAY: u64 = 3;

// The field of an Any that holds its scalar.
pub const SCALAR_FIELD: usize = 2;
