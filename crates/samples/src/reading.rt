// What reading makes of a record: V a varint, Z a zigzag number, F a list of fields, M a frame.
use crate::frame;
use std::io;
use std::io::Write;
use varint::Number;
use wire::field::Field;

fn print_varint(output: &mut impl Write, s: &[u8]) -> io::Result<()> {
    let mut unread = false;
    match varint::read_varint(s, 0, &mut unread) {
        Some(Number { value, next }) => writeln!(output, " {value} next {next}"),
        None => writeln!(output, " bad"),
    }
}

fn print_zigzag(output: &mut impl Write, s: &[u8]) -> io::Result<()> {
    let mut unread = false;
    match varint::read_varint(s, 0, &mut unread) {
        Some(Number { value, .. }) => {
            writeln!(output, " {}", scalar::zigzag::zigzag_decode(value))
        }
        None => writeln!(output, " bad"),
    }
}

// Each field of the list: number, wire type, value, place and length.
fn print_fields(output: &mut impl Write, s: &[u8]) -> io::Result<()> {
    let mut unread = false;
    let mut p = 0;
    for _ in 0..s.len() {
        if s.len() <= p {
            break;
        }
        match wire::field::long_field(s, p, &mut unread) {
            Some(
                Field {
                    number,
                    wire,
                    value,
                    start,
                    len,
                    next,
                },
            ) => {
                write!(output, " {number}:{wire}={value}@{start}+{len}")?;
                p = next;
            }
            None => return writeln!(output, " bad"),
        }
    }
    writeln!(output)
}

pub fn print(output: &mut impl Write, letter: u8, s: &[u8]) -> io::Result<()> {
    output.write_all(&[letter])?;
    match letter {
        b'V' => print_varint(output, s),
        b'Z' => print_zigzag(output, s),
        b'F' => print_fields(output, s),
        b'M' => frame::print(output, s),
        _ => Ok(()),
    }
}
