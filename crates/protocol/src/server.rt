// The types of the server's messages that are written here.
pub const OK: u8 = 0;

pub const ERROR: u8 = 1;

pub const FETCH_DONE: u8 = 14;

pub const FETCH_SUSPENDED: u8 = 15;

pub const STMT_EXECUTE_OK: u8 = 17;
