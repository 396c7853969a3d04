// Steps as a host takes them. A line for each: reason, bytes used, reply length, columns, first row, row
// count, and the reply in hex. A line of a look: reason, work, first row, row count.
use crate::given::{Given, Key};
use crate::out;
use rules::{Answer, Report};
use session::WORDS;
use std::io;
use std::io::Write;

fn print_answer(output: &mut impl Write, a: Answer, buf: &[u8]) -> io::Result<()> {
    let columns = a.columns as u64;
    write!(output, "{} {} {} {columns} ", a.reason, a.used, a.reply)?;
    write!(output, "{} {} ", a.first, a.count)?;
    out::line(output, buf, a.reply)
}

pub fn print_step(
    output: &mut impl Write,
    given: Given<'_>,
    words: &mut [u32; WORDS],
    buf: &mut [u8],
) -> io::Result<()> {
    let report = Report {
        kind: given.number(Key::Case),
        placeholders: given.number(Key::Placeholders),
        columns: given.number(Key::Columns),
        rows: given.number(Key::Rows),
        code: given.number(Key::Code),
    };
    let a = keeper::step::step(words, given.bytes(Key::Frame), report, buf);
    print_answer(output, a, buf)
}

pub fn print_look(
    output: &mut impl Write,
    given: Given<'_>,
    words: &[u32; WORDS],
) -> io::Result<()> {
    let l = keeper::look::look(words, given.bytes(Key::Frame));
    writeln!(output, "{} {} {} {}", l.reason, l.work, l.first, l.count)
}
