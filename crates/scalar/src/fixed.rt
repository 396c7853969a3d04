// Fixed values: four or eight bytes, least first, read at a place of a byte string.
ghost use Rattle.std.specs.Prelude.{◌≡◌, ◌+◌, ◌^◌, ◌<◌, ◌≤◌, length};
ghost use Rattle.scalar.specs.Fixed.{little, fixed_at};

use protocol::uint32;
use varint::Number;

// The number of the four bytes from `at` on.
fn four(s: &[u8], at: usize) -> u64
    requires { at + 4 ≤ length s.now }
    ensures { (result ≡ little 4 s.now at) × (result < 2 ^ 32) }
{
    let low = u64::from(s[at]) + 0x100 * u64::from(s[at + 1]);
    let high = u64::from(s[at + 2]) + 0x100 * u64::from(s[at + 3]);
    low + 0x1_0000 * high
}

// The fixed value of four bytes at a place.
pub fn read_fixed32(s: &[u8], at: usize) -> Option<Number>
    ensures { result ≡ fixed_at 4 s.now at }
{
    if s.len() < 4 {
        return None;
    }
    if s.len() - 4 < at {
        return None;
    }
    Some(Number {
        value: four(s, at),
        next: at + 4,
    })
}

// The fixed value of eight bytes at a place: two of four.
pub fn read_fixed64(s: &[u8], at: usize) -> Option<Number>
    ensures { result ≡ fixed_at 8 s.now at }
{
    let low = read_fixed32(s, at)?;
    let high = read_fixed32(s, low.next)?;
    Some(Number {
        value: low.value + uint32::COUNT * high.value,
        next: high.next,
    })
}
