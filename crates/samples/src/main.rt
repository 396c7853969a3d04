// The samples that are run: each record of standard input is read, written or stepped on, as its letter says.
// What is printed is compared with `stdout`.
#![tactic(auto)]

ghost use Rattle.std.specs.Prelude.{◌≤◌, length};

mod frame;
mod given;
mod out;
mod reading;
mod record;
mod steps;
mod writing;

use std::io;
use std::io::Read;

// What stands behind these bytes is not read.
const LONGEST_INPUT: usize = 65536;

// Reads up to the end, a failure, or where there is no room, and answers how many bytes came.
fn read_full(input: &mut impl Read, buf: &mut [u8]) -> usize
    ensures { result ≤ length buf.old }
{
    let mut n = 0;
    while n < buf.len() {
        match input.read(&mut buf[n..]) {
            Ok(0) | Err(_) => break,
            Ok(more) => n += more,
        }
    }
    n
}

fn main(rt: HostRuntime) -> io::Result<()> {
    let mut input = [0u8; LONGEST_INPUT];
    let n = read_full(&mut rt.stdin(), &mut input);
    record::print_records(&mut rt.stdout(), &input[..n])
}
