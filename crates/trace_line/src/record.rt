// A record of the input: a frame and an engine report.
ghost use Rattle.std.specs.Prelude.{◌≡◌, Err};
ghost use Rattle.trace_line.specs.Record.{bare_report, frame_at, number_at, record_at, unended};
ghost use Rattle.trace_line.specs.private.Told.{told_at};

use rules::Report;
use varint::Number;

// The longest frame of a record.
pub const MAX_FRAME: u64 = 65536;

// Why no number, or no whole record, stands at a place: the bytes end before it does, or it is bad.
#[derive(Clone, Copy, Debug, PartialEq, Eq)]
pub enum RecordError {
    Short,
    Bad,
}

// A whole record: where its frame stands, its report, and the place behind it. The frame is a place and not a slice,
// since `ReadsAlike` says how the places move with the bytes.
#[derive(Clone, Copy)]
pub struct Record {
    pub start: usize,
    pub len: usize,
    pub report: Report,
    pub next: usize,
}

// A report, and the place behind it.
#[derive(Clone, Copy)]
pub(crate) struct Told {
    report: Report,
    next: usize,
}

// Where no varint stands.
fn why_unended(s: &[u8], at: usize) -> RecordError
    ensures { Err result ≡ unended s.now at }
{
    if s.len() < at || s.len() - at < 10 {
        return RecordError::Short;
    }
    RecordError::Bad
}

#[tactic(auto, unfolding(crate::specs::Record::number_at))]
pub fn read_number(s: &[u8], at: usize) -> Result<Number, RecordError>
    ensures { result ≡ number_at s.now at }
{
    // A flag that nobody looks at: a record may be padded.
    let mut unread = false;
    match varint::read_varint(s, at, &mut unread) {
        Some(number) => Ok(number),
        None => Err(why_unended(s, at)),
    }
}

// A report with no numbers.
fn bare(kind: u64) -> Report
    ensures { result ≡ bare_report kind }
{
    Report {
        kind,
        placeholders: 0,
        columns: 0,
        rows: 0,
        code: 0,
    }
}

// A report of this kind, with its numbers. The kind is a number, as in `Report`, which hosts in C fill in.
#[tactic(auto, unfolding(crate::specs::private::Told::told_at))]
fn read_report(s: &[u8], kind: u64, at: usize) -> Result<Told, RecordError>
    ensures { result ≡ told_at s.now kind at }
{
    if rules::FAILED < kind {
        return Err(RecordError::Bad);
    }
    match kind {
        rules::PREPARED => {
            let placeholders = read_number(s, at)?;
            let report = Report {
                placeholders: placeholders.value,
                ..bare(kind)
            };
            Ok(Told {
                report,
                next: placeholders.next,
            })
        }
        rules::RESULT => {
            let columns = read_number(s, at)?;
            let rows = read_number(s, columns.next)?;
            let report = Report {
                columns: columns.value,
                rows: rows.value,
                ..bare(kind)
            };
            Ok(Told {
                report,
                next: rows.next,
            })
        }
        rules::FAILED => {
            let code = read_number(s, at)?;
            let report = Report {
                code: code.value,
                ..bare(kind)
            };
            Ok(Told {
                report,
                next: code.next,
            })
        }
        _ => Ok(Told {
            report: bare(kind),
            next: at,
        }),
    }
}

// A frame of this length, all there, and the report behind it.
#[tactic(auto, unfolding(crate::specs::Record::frame_at, crate::specs::Record::kind_at))]
fn read_frame(s: &[u8], len: u64, start: usize) -> Result<Record, RecordError>
    ensures { result ≡ frame_at s.now len start }
{
    if MAX_FRAME < len {
        return Err(RecordError::Bad);
    }
    let len = len as usize;
    if s.len() < start || s.len() - start < len {
        return Err(RecordError::Short);
    }
    let kind = read_number(s, start + len)?;
    let told = read_report(s, kind.value, kind.next)?;
    Ok(Record {
        start,
        len,
        report: told.report,
        next: told.next,
    })
}

#[tactic(auto, unfolding(crate::specs::Record::record_at))]
pub fn read_record(s: &[u8], at: usize) -> Result<Record, RecordError>
    ensures { result ≡ record_at s.now at }
{
    let len = read_number(s, at)?;
    read_frame(s, len.value, len.next)
}
