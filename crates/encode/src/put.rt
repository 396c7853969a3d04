// Bytes put from a place on, as far as the buffer goes. What puts answers the place behind its bytes, where the next
// one goes on; who needs all or nothing counts first.
ghost use Rattle.std.specs.Prelude.{◌≡◌, [], ◌∷◌, ◌+◌, ◌<◌, leb, length};
ghost use Rattle.encode.specs.Fixed.{fixed_bytes};
ghost use Rattle.encode.specs.Put.{put_at, written};
ghost use Rattle.encode.specs.Puts.{Puts};

pub fn put_byte(buf: &mut [u8], at: usize, b: u8) -> usize
    ensures { Puts buf.old at (b ∷ []) result buf.new }
{
    if buf.len() <= at {
        return at;
    }
    buf[at] = b;
    at + 1
}

// Where all of it fits, what is copied has the length of `src`, which the compiler often knows.
pub fn put_slice(buf: &mut [u8], at: usize, src: &[u8]) -> usize
    ensures { Puts buf.old at src.now result buf.new }
{
    if !has_room(buf.len(), at, src.len()) {
        return put_front(buf, at, src);
    }
    let end = at + src.len();
    copy_over(&mut buf[at..end], src);
    end
}

// Of bytes that do not all fit those that do.
fn put_front(buf: &mut [u8], at: usize, src: &[u8]) -> usize
    requires { length buf.old < at + length src.now }
    ensures { Puts buf.old at src.now result buf.new }
{
    if buf.len() <= at {
        return at;
    }
    let room = buf.len() - at;
    copy_over(&mut buf[at..], &src[..room]);
    at + room
}

// Byte by byte, and not by the slice's own method, of which the compiler makes a memmove: the archive asks a host for
// memcpy and memset alone.
fn copy_over(to: &mut [u8], from: &[u8])
    requires { length to.old ≡ length from.now }
    ensures { to.new ≡ from.now }
{
    for i in 0..from.len() {
        to[i] = from[i];
    }
}

// The k bytes of v, least first.
pub fn put_fixed(buf: &mut [u8], at: usize, k: usize, v: u64) -> usize
    ensures { Puts buf.old at (fixed_bytes k v) result buf.new }
{
    let mut x = v;
    let mut p = at;
    for _ in 0..k {
        p = put_byte(buf, p, (x % 256) as u8);
        x /= 256;
    }
    p
}

// The bytes of `src` put at the place `at`, where they all fit, and the place behind them; else the buffer stays as it
// was.
pub fn write_bytes(buf: &mut [u8], at: usize, src: &[u8]) -> Option<usize>
    ensures { (result ≡ put_at buf.old at src.now)
        × (buf.new ≡ written buf.old at src.now) }
{
    if !has_room(buf.len(), at, src.len()) {
        return None;
    }
    Some(put_slice(buf, at, src))
}

// Whether n bytes from the place `at` on end within a buffer of this size.
pub fn has_room(size: usize, at: usize, n: usize) -> bool
    ensures { result ≡ leb (at + n) size }
{
    at <= size && n <= size - at
}
