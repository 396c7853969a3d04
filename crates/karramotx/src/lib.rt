// The library for hosts in C and Rust: numbers, slices, `#[repr(C)]` structs and references to a session's words only.
// A slice is passed as a pointer and a length, a reference as a pointer. Nothing is asked of a caller: every bit
// pattern is a session, and a report kind or a message type that is not listed is refused.
#![tactic(auto)]

ghost use Rattle.std.specs.Prelude.{◌≡◌, length};
ghost use Rattle.args.specs.Arguments.{next_argument};
ghost use Rattle.args_writer.specs.Append.{appended_of, left_by};
ghost use Rattle.streams.specs.Reader.{next_of, push_of, start_over, store_size};
ghost use Rattle.message.specs.Frame.{argument_of, frame_of, part_of};
ghost use Rattle.history.specs.Calls.{Contract, call};
ghost use Rattle.history.specs.Handover.{Restores};
ghost use Rattle.image_rules.specs.Image.{buffer_with, written_of};
ghost use Rattle.rules.specs.Step.{look_at};
ghost use Rattle.session.specs.Tables.{fresh};
ghost use Rattle.session.specs.Words.{session_of};
ghost use Rattle.writer.specs.Write.{left_of, sent_of};
ghost use Rattle.karramotx.specs.Counts.{counts_of};
ghost use Rattle.karramotx.specs.Given.{given_argument};
ghost use Rattle.karramotx.specs.Inspection.{inspection_of};
ghost use Rattle.karramotx.specs.Message.{message_at};
ghost use Rattle.karramotx.specs.Value.{next_value_of, value_of};

use given::Scalar;
use image_rules::Written;
use inspection::Inspection;
use keeper::padded::said;
use layout::part::Part;
use protocol::reason;
use rules::{Answer, Look, Report};
use session::{Session, WORDS};
use streams::{NextFrame, Pushed, Reader, STORE};
use told::Message;
use value::Value;
use writer::{Draft, Sent};

pub mod given;
pub mod inspection;
pub mod told;
pub mod value;

// The live statements, the live cursors, and the rows that these have still to send.
#[repr(C)]
#[derive(Clone, Copy)]
pub struct Counts {
    pub stmts: u64,
    pub cursors: u64,
    pub owed: u64,
}

// A session with nothing in it.
#[unsafe(no_mangle)]
pub extern "C" fn karramotx_fresh() -> Session
    ensures { session_of result.words ≡ fresh }
{
    Session::fresh()
}

// What the frame means by itself. Its arguments lie from `args.start` to `args.end`.
#[unsafe(no_mangle)]
pub extern "C" fn karramotx_read(frame: &[u8]) -> Message
    ensures { result ≡ message_at frame.now }
{
    let mut padded = false;
    let mut m = Message::from(message::frame::read_frame(frame, &mut padded));
    m.padded = said(m.reason, padded);
    m
}

// A refusal, or the work that the frame wants of the engine. The host's own session is only read.
#[unsafe(no_mangle)]
pub extern "C" fn karramotx_look(session: &[u32; WORDS], frame: &[u8]) -> Look
    ensures { result ≡ look_at (session_of session.now) frame.now }
{
    keeper::look::look(session, frame)
}

// The look and the message of one reading, with the places of the tables that the frame touches and the cursors that it
// ends. The host's own session is only read.
#[unsafe(no_mangle)]
pub extern "C" fn karramotx_inspect(session: &[u32; WORDS], frame: &[u8]) -> Inspection
    ensures { result ≡ inspection_of (session_of session.now) frame.now }
{
    let mut padded = false;
    let read = message::frame::read_frame(frame, &mut padded);
    inspection::inspect(session, read, padded)
}

// The step on the host's own session, in place: its words become those of the session after the step, the reply stands
// at the front of `reply`, and the answer comes back.
#[unsafe(no_mangle)]
pub extern "C" fn karramotx_step(
    session: &mut [u32; WORDS],
    frame: &[u8],
    report: Report,
    reply: &mut [u8],
) -> Answer
    ensures { Contract session.old
        (call frame.now report reply.old result session.new reply.new) }
{
    keeper::step::step(session, frame, report, reply)
}

// The image of the host's own session, at the front of `buf`, by which another server takes it over.
#[unsafe(no_mangle)]
pub extern "C" fn karramotx_image(session: &[u32; WORDS], buf: &mut [u8]) -> Written
    ensures answer { result ≡ written_of (session_of session.now) buf.old }
    ensures buffer { buf.new ≡ buffer_with (session_of session.now) buf.old }
{
    image::write_image(session, buf)
}

// The session of an image in the place of the host's own one, which stays as it was where the image is not acceptable.
#[unsafe(no_mangle)]
pub extern "C" fn karramotx_restore(session: &mut [u32; WORDS], image: &[u8]) -> u64
    ensures { Restores session.old image.now result session.new }
{
    match image::restore(session, image) {
        Ok(()) => reason::ACCEPTED,
        Err(refusal) => u64::from(refusal),
    }
}

// A reader of arrivals that holds nothing.
#[unsafe(no_mangle)]
pub extern "C" fn karramotx_start_over() -> Reader
    ensures { result ≡ start_over }
{
    arrivals::start_over()
}

// An arrival, taken as far as there is room in the store beside the bytes held.
#[unsafe(no_mangle)]
pub extern "C" fn karramotx_push(reader: Reader, arrival: &[u8], store: &mut [u8; STORE]) -> Pushed
    ensures answer { result ≡ (push_of reader arrival.now store.old).answer }
    ensures stored { store.new ≡ (push_of reader arrival.now store.old).store }
    ensures size { length store.old ≡ store_size }
{
    arrivals::push(reader, arrival, store)
}

// The frame that stands first, handed out.
#[unsafe(no_mangle)]
pub extern "C" fn karramotx_next_frame(reader: Reader, store: &[u8; STORE]) -> NextFrame
    ensures answer { result ≡ next_of reader store.now }
    ensures size { length store.now ≡ store_size }
{
    arrivals::next_frame(reader, store)
}

// The argument with this index, counted from 0.
#[unsafe(no_mangle)]
pub extern "C" fn karramotx_argument(frame: &[u8], index: usize) -> Value
    ensures { result ≡ value_of (argument_of frame.now index) }
{
    message::frame::argument(frame, index).into()
}

// The next argument at or behind the place `at`. In one pass: s is the frame up to its `args.end`, `at` is
// first its `args.start` and then the `next` of the argument before, until the reason is 9.
#[unsafe(no_mangle)]
pub extern "C" fn karramotx_next_argument(s: &[u8], at: usize) -> Value
    ensures { result ≡ next_value_of (next_argument s.now at) }
{
    args::arguments::next_argument(s, at).into()
}

// Where the chosen body lies in the frame; 0 and 0 where there is none.
#[unsafe(no_mangle)]
pub extern "C" fn karramotx_body(frame: &[u8]) -> Part
    ensures { result ≡ part_of (frame_of frame.now) }
{
    message::frame::chosen_part(frame)
}

// The draft as a frame at the front of `buf`.
#[unsafe(no_mangle)]
pub extern "C" fn karramotx_write(draft: Draft, body: &[u8], args: &[u8], buf: &mut [u8]) -> Sent
    ensures { (result ≡ sent_of draft body.now args.now (length buf.old))
        × (buf.new ≡ left_of draft body.now args.now buf.old) }
{
    writer::write_message(draft, body, args, buf)
}

// One scalar as an args field behind the first `at` bytes of `buf`. `bytes` are those of octets and strings;
// other scalars ignore them.
#[unsafe(no_mangle)]
pub extern "C" fn karramotx_append(scalar: Scalar, bytes: &[u8], buf: &mut [u8], at: usize) -> Sent
    ensures { (result
        ≡ appended_of (given_argument scalar (length bytes.now)) bytes.now
        (length buf.old) at)
        × (buf.new
        ≡ left_by (given_argument scalar (length bytes.now)) bytes.now buf.old at) }
{
    let a = given::argument_of(scalar, bytes.len());
    args_writer::append_argument(a, bytes, buf, at)
}

// What the host's own session holds and owes.
#[unsafe(no_mangle)]
pub extern "C" fn karramotx_counts(session: &[u32; WORDS]) -> Counts
    ensures { result ≡ counts_of (session_of session.now) }
{
    Counts {
        stmts: session::count::stmt_count(session),
        cursors: session::count::cursor_count(session),
        owed: session::count::owed(session),
    }
}
