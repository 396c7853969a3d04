// Bytes moved within a buffer.
ghost use Rattle.std.specs.Prelude.{◌≡◌};
ghost use Rattle.encode.specs.Put.{moved_front};

use crate::put::has_room;

// The `len` bytes from `start` on, moved to the front, the first one first: each is read before it is written over.
// Where they end past the buffer nothing is moved.
pub fn move_front(buf: &mut [u8], start: usize, len: usize)
    ensures { buf.new ≡ moved_front buf.old start len }
{
    if !has_room(buf.len(), start, len) {
        return;
    }
    buf.copy_within(start..start + len, 0);
}
