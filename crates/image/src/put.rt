// A number of 32 bits put at a place: the bytes of `encode::number::put_varint`, with one test for room.
ghost use Rattle.std.specs.Prelude.{◌≡◌, ◌+◌, ◌^◌, ◌≤◌, leb, length};
ghost use Rattle.varint.specs.Shortest.{varint_bytes};
ghost use Rattle.encode.specs.Puts.{Puts};
ghost use Rattle.image_rules.specs.Image.{most_number};

use encode::number::put_varint;

// The most bytes that a number takes.
const LONGEST: usize = 5;

// What the seven bits of a byte hold, and what is added to each byte but the last.
const GROUP: u32 = 128;

// What two, three and four bytes hold.
const TWO: u32 = GROUP * GROUP;

const THREE: u32 = TWO * GROUP;

const FOUR: u32 = THREE * GROUP;

// Ids are small numbers, or spread over all of 32 bits: one byte is asked for first, then five.
pub(crate) fn put_number(buf: &mut [u8], at: usize, v: u32) -> usize
    ensures { Puts buf.old at (varint_bytes v) result buf.new }
{
    if !has_longest(buf.len(), at) {
        return put_varint(buf, at, u64::from(v));
    }
    if v < GROUP {
        buf[at] = v as u8;
        return at + 1;
    }
    if FOUR <= v {
        return put_longest(buf, at, v);
    }
    buf[at] = (GROUP + v % GROUP) as u8;
    if v < TWO {
        buf[at + 1] = (v / GROUP) as u8;
        return at + 2;
    }
    buf[at + 1] = (GROUP + v / GROUP % GROUP) as u8;
    if v < THREE {
        buf[at + 2] = (v / GROUP / GROUP) as u8;
        return at + 3;
    }
    buf[at + 2] = (GROUP + v / GROUP / GROUP % GROUP) as u8;
    buf[at + 3] = (v / GROUP / GROUP / GROUP) as u8;
    at + 4
}

// Unlike `encode::put::has_room`, one compare where the length is known.
fn has_longest(size: usize, at: usize) -> bool
    ensures { result ≡ leb (at + most_number) size }
{
    if size < LONGEST {
        return false;
    }
    at <= size - LONGEST
}

// Five bytes, where there is room.
fn put_longest(buf: &mut [u8], at: usize, v: u32) -> usize
    requires most_number_in_bounds { at + most_number ≤ length buf.old }
    requires bound { 128 ^ 4 ≤ v }
    ensures { Puts buf.old at (varint_bytes v) result buf.new }
{
    let second = v / GROUP;
    let third = second / GROUP;
    let fourth = third / GROUP;
    buf[at] = (GROUP + v % GROUP) as u8;
    buf[at + 1] = (GROUP + second % GROUP) as u8;
    buf[at + 2] = (GROUP + third % GROUP) as u8;
    buf[at + 3] = (GROUP + fourth % GROUP) as u8;
    buf[at + 4] = (fourth / GROUP) as u8;
    at + 5
}
