// The layout table: a row for each message and field number.
use crate::row::{MANY, MAY, MUST, ONCE, Row};
use protocol::{client, wire_type};

// Messages: the client messages by their type, the embedded ones by numbers of our own that no
// type byte has.
pub const PREPARE: u16 = client::PREPARE as u16;

pub const EXECUTE: u16 = client::EXECUTE as u16;

pub const DEALLOCATE: u16 = client::DEALLOCATE as u16;

pub const OPEN: u16 = client::OPEN as u16;

pub const CLOSE: u16 = client::CLOSE as u16;

pub const FETCH: u16 = client::FETCH as u16;

pub const PREPARE_STMT: u16 = 256;

pub const STMT_EXECUTE: u16 = 257;

pub const OPEN_STMT: u16 = 258;

pub const ANY: u16 = 259;

pub const SCALAR: u16 = 260;

pub const BYTES: u16 = 261;

// Wire types.
const NUM: u16 = wire_type::VARINT as u16;

const F64: u16 = wire_type::I64 as u16;

const LEN: u16 = wire_type::LEN as u16;

const F32: u16 = wire_type::I32 as u16;

// Listed values of the enums: types of a prepared statement, of an Open's statement, of an Any and of a
// Scalar.
const STMTS: u16 = 0b11_0111;

const ZERO: u16 = 0b1;

const ANYS: u16 = 0b1110;

const SCALARS: u16 = 0b1_1111_1110;

// A row on a line.
macro_rules! row {
    [$message:expr, $number:expr, $wire:expr, $required:expr, $repeated:expr, $listed:expr] => {
        Row {
            message: $message,
            listed: $listed,
            number: $number,
            wire: $wire,
            required: $required,
            repeated: $repeated,
        }
    };
}

pub const PREPARE_ROWS: [Row; 2] = [
    row![PREPARE, 1, NUM, MUST, ONCE, 0],
    row![PREPARE, 2, LEN, MUST, ONCE, 0],
];

pub const PREPARE_STMT_ROWS: [Row; 6] = [
    row![PREPARE_STMT, 1, NUM, MUST, ONCE, STMTS],
    row![PREPARE_STMT, 2, LEN, MAY, ONCE, 0],
    row![PREPARE_STMT, 3, LEN, MAY, ONCE, 0],
    row![PREPARE_STMT, 4, LEN, MAY, ONCE, 0],
    row![PREPARE_STMT, 5, LEN, MAY, ONCE, 0],
    row![PREPARE_STMT, 6, LEN, MAY, ONCE, 0],
];

pub const STMT_EXECUTE_ROWS: [Row; 4] = [
    row![STMT_EXECUTE, 1, LEN, MUST, ONCE, 0],
    row![STMT_EXECUTE, 2, LEN, MAY, MANY, 0],
    row![STMT_EXECUTE, 3, LEN, MAY, ONCE, 0],
    row![STMT_EXECUTE, 4, NUM, MAY, ONCE, 0],
];

pub const EXECUTE_ROWS: [Row; 3] = [
    row![EXECUTE, 1, NUM, MUST, ONCE, 0],
    row![EXECUTE, 2, LEN, MAY, MANY, 0],
    row![EXECUTE, 3, NUM, MAY, ONCE, 0],
];

pub const DEALLOCATE_ROWS: [Row; 1] = [row![DEALLOCATE, 1, NUM, MUST, ONCE, 0]];

pub const OPEN_ROWS: [Row; 3] = [
    row![OPEN, 1, NUM, MUST, ONCE, 0],
    row![OPEN, 4, LEN, MUST, ONCE, 0],
    row![OPEN, 5, NUM, MAY, ONCE, 0],
];

pub const OPEN_STMT_ROWS: [Row; 2] = [
    row![OPEN_STMT, 1, NUM, MUST, ONCE, ZERO],
    row![OPEN_STMT, 2, LEN, MAY, ONCE, 0],
];

pub const FETCH_ROWS: [Row; 2] = [
    row![FETCH, 1, NUM, MUST, ONCE, 0],
    row![FETCH, 2, NUM, MAY, ONCE, 0],
];

pub const CLOSE_ROWS: [Row; 1] = [row![CLOSE, 1, NUM, MUST, ONCE, 0]];

pub const ANY_ROWS: [Row; 2] = [
    row![ANY, 1, NUM, MUST, ONCE, ANYS],
    row![ANY, 2, LEN, MAY, ONCE, 0],
];

pub const SCALAR_ROWS: [Row; 8] = [
    row![SCALAR, 1, NUM, MUST, ONCE, SCALARS],
    row![SCALAR, 2, NUM, MAY, ONCE, 0],
    row![SCALAR, 3, NUM, MAY, ONCE, 0],
    row![SCALAR, 5, LEN, MAY, ONCE, 0],
    row![SCALAR, 6, F64, MAY, ONCE, 0],
    row![SCALAR, 7, F32, MAY, ONCE, 0],
    row![SCALAR, 8, NUM, MAY, ONCE, 0],
    row![SCALAR, 9, LEN, MAY, ONCE, 0],
];

pub const BYTES_ROWS: [Row; 1] = [row![BYTES, 1, LEN, MUST, ONCE, 0]];
