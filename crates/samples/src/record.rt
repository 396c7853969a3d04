// The records of the input, one after the other. A record is a letter, two bytes of length, least first, and its
// bytes.
use crate::given::{Given, Key};
use crate::{reading, steps, writing};
use session::{Session, WORDS};
use std::io;
use std::io::Write;

// The largest buffer, with room for a frame of the greatest length, and what it holds before.
const SPACE: usize = 65540;

const FILL: u8 = 7;

// A heading, a step, a look, a reply, a message, an argument or two.
fn print(
    output: &mut impl Write,
    letter: u8,
    given: Given<'_>,
    words: &mut [u32; WORDS],
    buf: &mut [u8],
) -> io::Result<()> {
    match letter {
        b'h' => output.write_all(given.bytes(Key::Text)),
        b's' => steps::print_step(output, given, words, buf),
        b'l' => steps::print_look(output, given, words),
        b'r' => writing::print_reply(output, given, buf),
        b'm' => writing::print_message(output, given, buf),
        b'a' => writing::print_argument(output, given, buf),
        b'p' => writing::print_pair(output, given, buf),
        _ => Ok(()),
    }
}

// In as much room as is given, if there is so much.
fn print_in(
    output: &mut impl Write,
    letter: u8,
    given: Given<'_>,
    words: &mut [u32; WORDS],
    space: &mut [u8],
) -> io::Result<()> {
    match space.get_mut(..given.size(Key::Room)) {
        Some(buf) => print(output, letter, given, words, buf),
        None => Ok(()),
    }
}

// Capital letters stand for what is read. The session goes on from one record to the next, until one that starts
// another.
fn print_record(
    output: &mut impl Write,
    letter: u8,
    s: &[u8],
    session: &mut Session,
) -> io::Result<()> {
    if letter < b'a' {
        return reading::print(output, letter, s);
    }
    if letter == b'n' {
        *session = Session::fresh();
        return Ok(());
    }
    let mut space = [FILL; SPACE];
    print_in(
        output,
        letter,
        Given { fields: s },
        &mut session.words,
        &mut space,
    )
}

pub fn print_records(output: &mut impl Write, s: &[u8]) -> io::Result<()> {
    let mut session = Session::fresh();
    let mut rest = s;
    while let [letter, low, high, behind @ ..] = rest {
        let len = usize::from(u16::from_le_bytes([*low, *high]));
        let Some((record, next)) = behind.split_at_checked(len) else {
            break;
        };
        print_record(output, *letter, record, &mut session)?;
        rest = next;
    }
    Ok(())
}
