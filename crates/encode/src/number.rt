// Varints written in the shortest form: how many bytes a number takes, and its bytes put at a place.
ghost use Rattle.std.specs.Prelude.{◌≡◌, length};
ghost use Rattle.varint.specs.Shortest.{varint_bytes};
ghost use Rattle.encode.specs.Puts.{Puts};

use crate::put::put_byte;

// The bytes that v takes: one for each seven bits begun, from the count of its leading zeros.
pub fn varint_len(v: u64) -> usize
    ensures { result ≡ length (varint_bytes v) }
{
    if v == 0 {
        return 1;
    }
    ((70 - u64::leading_zeros(v)) / 7) as usize
}

pub fn put_varint(buf: &mut [u8], at: usize, v: u64) -> usize
    ensures { Puts buf.old at (varint_bytes v) result buf.new }
{
    let mut x = v;
    let mut p = at;
    while 128 <= x {
        p = put_byte(buf, p, (128 + x % 128) as u8);
        x /= 128;
    }
    put_byte(buf, p, (x % 128) as u8)
}
