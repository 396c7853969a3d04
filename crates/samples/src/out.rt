// Bytes as they are printed.
use std::io;
use std::io::Write;

// A line of the first n bytes of a buffer, in hex.
pub fn line(output: &mut impl Write, buf: &[u8], n: usize) -> io::Result<()> {
    for byte in buf.iter().take(n) {
        write!(output, "{byte:02x}")?;
    }
    writeln!(output)
}

// The length of what was written, and its bytes, at most `shown`.
pub fn front(output: &mut impl Write, buf: &[u8], len: usize, shown: usize) -> io::Result<()> {
    write!(output, "{len} ")?;
    line(output, buf, len.min(shown))
}
