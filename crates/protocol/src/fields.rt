// The field numbers of the messages that are read and written by name (L1). The id stands first in each message of the
// client, the type in each statement, Any and Scalar.
pub const ID: usize = 1;

pub const TYPE: usize = 1;

// Of an Execute and a StmtExecute.
pub const ARGS: usize = 2;

pub const COMPACT: usize = 3;

pub const PREPARE_STMT: usize = 2;

pub const OPEN_STMT: usize = 4;

pub const OPEN_ROWS: usize = 5;

// Of an Open's statement.
pub const OPEN_EXECUTE: usize = 2;

pub const FETCH_ROWS: usize = 2;

// Of an octets or a string.
pub const BYTES: usize = 1;
