// Fields put at a place, and their lengths. A field's number is at most 2^32 - 1, so that its tag is a number of 64
// bits.
ghost use Rattle.std.specs.Prelude.{◌≡◌, length, ◌*◌, ◌+◌};
ghost use Rattle.varint.specs.Shortest.{varint_bytes};
ghost use Rattle.encode.specs.Field.{bytes_field, fixed_field, number_field, optional_number, prefix_of};
ghost use Rattle.encode.specs.Puts.{Puts};

use crate::number::{put_varint, varint_len};
use crate::put::{put_fixed, put_slice};

// The wire types of a number and of bytes with their count before them (W7).
const NUMBER: u8 = 0;

const COUNTED: u8 = 2;

fn tag_of(num: u32, wire: u8) -> u64
    ensures { result ≡ num * 8 + wire }
{
    u64::from(num) * 8 + u64::from(wire)
}

pub fn tag_len(num: u32, wire: u8) -> usize
    ensures { result ≡ length (varint_bytes (num * 8 + wire)) }
{
    varint_len(tag_of(num, wire))
}

fn put_tag(buf: &mut [u8], at: usize, num: u32, wire: u8) -> usize
    ensures { Puts buf.old at (varint_bytes (num * 8 + wire)) result buf.new }
{
    put_varint(buf, at, tag_of(num, wire))
}

pub fn number_len(num: u32, v: u64) -> usize
    ensures { result ≡ length (number_field num v) }
{
    tag_len(num, NUMBER) + varint_len(v)
}

pub fn optional_len(num: u32, value: Option<u64>) -> usize
    ensures { result ≡ length (optional_number num value) }
{
    match value {
        Some(v) => number_len(num, v),
        None => 0,
    }
}

// What stands before the n bytes of a field.
pub fn prefix_len(num: u32, n: usize) -> usize
    ensures { result ≡ length (prefix_of num n) }
{
    tag_len(num, COUNTED) + varint_len(n as u64)
}

pub fn put_number(buf: &mut [u8], at: usize, num: u32, v: u64) -> usize
    ensures { Puts buf.old at (number_field num v) result buf.new }
{
    let next = put_tag(buf, at, num, NUMBER);
    put_varint(buf, next, v)
}

pub fn put_optional(buf: &mut [u8], at: usize, num: u32, value: Option<u64>) -> usize
    ensures { Puts buf.old at (optional_number num value) result buf.new }
{
    match value {
        Some(v) => put_number(buf, at, num, v),
        None => at,
    }
}

pub fn put_prefix(buf: &mut [u8], at: usize, num: u32, n: usize) -> usize
    ensures { Puts buf.old at (prefix_of num n) result buf.new }
{
    let next = put_tag(buf, at, num, COUNTED);
    put_varint(buf, next, n as u64)
}

pub fn put_bytes(buf: &mut [u8], at: usize, num: u32, src: &[u8]) -> usize
    ensures { Puts buf.old at (bytes_field num src.now) result buf.new }
{
    let next = put_prefix(buf, at, num, src.len());
    put_slice(buf, next, src)
}

// A value of k bytes, whose wire type is 1 (8 bytes) or 5 (4 bytes).
pub fn put_fixed_field(buf: &mut [u8], at: usize, num: u32, wire: u8, k: usize, v: u64) -> usize
    ensures { Puts buf.old at (fixed_field num wire k v) result buf.new }
{
    let next = put_tag(buf, at, num, wire);
    put_fixed(buf, next, k, v)
}
