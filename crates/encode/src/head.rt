// The head of a frame.
ghost use Rattle.std.specs.Prelude.{[], ◌∷◌, ◌++◌};
ghost use Rattle.encode.specs.Frame.{four_bytes};
ghost use Rattle.encode.specs.Puts.{Puts};

use crate::put::{put_byte, put_slice};

const LENGTH_BYTES: usize = 4;

// The length of the type byte and the payload in four bytes, least first, and the type byte.
pub fn put_head(buf: &mut [u8], at: usize, size: u64, kind: u8) -> usize
    ensures { Puts buf.old at (four_bytes size ++ (kind ∷ [])) result buf.new }
{
    let length = size.to_le_bytes();
    let kind_at = put_slice(buf, at, &length[..LENGTH_BYTES]);
    put_byte(buf, kind_at, kind)
}
