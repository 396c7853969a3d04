// A frame's head: four bytes of length, least first, and the type byte.
ghost use Rattle.std.specs.Prelude.{◌≡◌};
ghost use Rattle.message.specs.Head.{head_of};

use protocol::reason::Reason;

// The length's bytes, which it does not count.
pub const LENGTH_BYTES: usize = 4;

// The largest length of a frame.
pub const MAX_LENGTH: u64 = 65532;

// A whole frame's type, and the place behind its last byte.
#[derive(Clone, Copy)]
pub struct Head {
    pub kind: u8,
    pub end: usize,
}

pub fn read_head(s: &[u8]) -> Result<Head, Reason>
    ensures { result ≡ head_of s.now }
{
    let Some(length) = scalar::fixed::read_fixed32(s, 0) else {
        return Err(Reason::NotAllThere);
    };
    if length.value == 0 {
        return Err(Reason::BadLength);
    }
    if MAX_LENGTH < length.value {
        return Err(Reason::BadLength);
    }
    let end = LENGTH_BYTES + length.value as usize;
    if s.len() < end {
        return Err(Reason::NotAllThere);
    }
    Ok(Head {
        kind: s[LENGTH_BYTES],
        end,
    })
}
