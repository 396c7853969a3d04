// The trace printer: reads standard input, however it arrives, and writes what `trace_line::printer` puts: the
// header, a line for each record and the end's text. Here bytes are moved, and nothing else.
#![tactic(auto)]

use session::Session;
use std::io;
use std::io::{Read, Write};
use std::process::ExitCode;
use trace_line::printer::{MAX_RECORD, Printer};
use trace_line::record::RecordError;

const CHUNK: usize = 65536;

// A chunk fits beside a record that is cut short.
const STORE: usize = MAX_RECORD + CHUNK;

const OUTPUT: usize = 65536;

// The call that failed, and why.
#[derive(Clone, Copy)]
enum Failure {
    Read(io::Error),
    Write(io::Error),
}

// The session that the records step on; the printer, with the bytes that it has not printed yet and what stands first
// among them; and the lines that go out.
#[derive(Drop)]
struct Trace {
    session: Session,
    printer: Printer,
    first: Result<(), RecordError>,
    store: [u8; STORE],
    lines: [u8; OUTPUT],
}

impl Trace {
    fn new() -> Trace {
        Trace {
            session: Session::fresh(),
            printer: trace_line::printer::start(),
            first: Err(RecordError::Short),
            store: [0; STORE],
            lines: [0; OUTPUT],
        }
    }

    // Writes the first n bytes of what was put, which are never more than there is room for.
    fn write_lines(&self, output: &mut impl Write, n: usize) -> Result<(), Failure> {
        let n = n.min(self.lines.len());
        output.write_all(&self.lines[..n]).map_err(Failure::Write)
    }

    fn write_put(&self, output: &mut impl Write, put: Option<usize>) -> Result<(), Failure> {
        self.write_lines(output, put.unwrap_or(0))
    }

    fn start(&mut self, output: &mut impl Write) -> Result<(), Failure> {
        let put = trace_line::printer::put_header(&mut self.lines, 0);
        self.write_put(output, put)
    }

    // A chunk into the store, and the lines out.
    fn feed(&mut self, output: &mut impl Write, chunk: &[u8]) -> Result<(), Failure> {
        let printed = trace_line::printer::print_chunk(
            self.printer,
            &mut self.session.words,
            &mut self.store,
            chunk,
            &mut self.lines,
        );
        self.printer = printed.printer;
        self.first = printed.first;
        self.write_lines(output, printed.put)
    }

    fn finish(&mut self, output: &mut impl Write) -> Result<(), Failure> {
        let put = trace_line::printer::put_end(self.printer, &mut self.lines, 0);
        self.write_put(output, put)
    }
}

// The chunk to go on with: an empty one where a whole record is held, else the next of the input. `None` where the
// input is at its end, or a bad record stands first. An error is not the end: the end's text is not written.
fn next_chunk<'a>(
    input: &mut impl Read,
    first: Result<(), RecordError>,
    chunk: &'a mut [u8],
) -> Result<Option<&'a [u8]>, Failure> {
    match first {
        Ok(()) => Ok(Some(b"")),
        Err(RecordError::Short) => {
            let n = input.read(chunk).map_err(Failure::Read)?;
            Ok(if n == 0 { None } else { Some(&chunk[..n]) })
        }
        Err(RecordError::Bad) => Ok(None),
    }
}

fn print_trace(input: &mut impl Read, output: &mut impl Write) -> Result<(), Failure> {
    let mut chunk = [0u8; CHUNK];
    let mut trace = Trace::new();
    trace.start(output)?;
    for _ in 0..u64::MAX {
        let Some(bytes) = next_chunk(input, trace.first, &mut chunk)? else {
            return trace.finish(output);
        };
        trace.feed(output, bytes)?;
    }
    Ok(())
}

// The system's text of an error, without its number, which std writes behind it.
fn without_number(text: &str) -> &str {
    match text.split_once(" (os error ") {
        Some((reason, _)) => reason,
        None => text,
    }
}

fn tell(rt: &(impl Eprint + AllocGlobal), call: &str, error: io::Error) -> io::Result<()> {
    let text = format!(in rt.alloc(); "{error}")?;
    eprintln!(rt; "trace: {call}: {}", without_number(text.as_str()))
}

fn main(rt: HostRuntime) -> io::Result<ExitCode> {
    match print_trace(&mut rt.stdin(), &mut rt.stdout()) {
        Ok(()) => return Ok(ExitCode::SUCCESS),
        Err(Failure::Read(error)) => tell(&rt, "read", error)?,
        Err(Failure::Write(error)) => tell(&rt, "write", error)?,
    }
    Ok(ExitCode::FAILURE)
}
