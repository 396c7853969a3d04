// Frames as they arrive: bytes come in, cut anywhere, and whole frames go out. What has come in and has not gone
// out is held in a store that the caller lends and that only these functions write.
#![tactic(auto)]

ghost use Rattle.std.specs.Prelude.{◌≡◌, ◌-◌, ◌≤◌, [], false, length};
ghost use Rattle.streams.specs.Reader.{bad_first, next_at, next_of, part, push_at, push_of, settled};
ghost use Rattle.streams.specs.Reader.{stands_first, start_over, store_size, taken_count, usable};

use encode::put::write_bytes;
use message::head::{LENGTH_BYTES, read_head};
use protocol::reason;
use protocol::reason::Reason;
use room::make_room;
use streams::{NextFrame, Pushed, Reader, STORE};

mod room;

// A reader that holds nothing.
pub fn start_over() -> Reader
    ensures { result ≡ start_over }
{
    Reader { start: 0, end: 0 }
}

// An arrival, taken as far as there is room beside the bytes held. The clause `size` ties the store of the code to
// that of the definitions.
#[tactic(auto, unfolding(streams::specs::Reader::push_of))]
pub fn push(reader: Reader, arrival: &[u8], store: &mut [u8; STORE]) -> Pushed
    ensures answer { result ≡ (push_of reader arrival.now store.old).answer }
    ensures stored { store.new ≡ (push_of reader arrival.now store.old).store }
    ensures size { length store.old ≡ store_size }
{
    push_at(usable_reader(reader, STORE), arrival, store)
}

// The frame that stands first, handed out. Not by `usable_reader`: a reader that is no part of its store is seldom, and
// the early return keeps a frame from waiting for the one before.
#[tactic(auto, unfolding(streams::specs::Reader::next_of))]
pub fn next_frame(reader: Reader, store: &[u8; STORE]) -> NextFrame
    ensures answer { result ≡ next_of reader store.now }
    ensures size { length store.now ≡ store_size }
{
    if reader.end < reader.start || store.len() < reader.end {
        return waiting();
    }
    match read_head(&store[reader.start..reader.end]) {
        Ok(head) => NextFrame {
            reader: settle(
                store,
                Reader {
                    start: reader.start + head.end,
                    ..reader
                },
            ),
            reason: reason::ACCEPTED,
            start: reader.start,
            len: head.end,
            kind: u64::from(head.kind),
        },
        Err(reason) => NextFrame {
            reader: settle(store, reader),
            reason: reason.into(),
            start: 0,
            len: 0,
            kind: 0,
        },
    }
}

// The reason told of what stands first: none of a whole frame.
#[tactic(auto, unfolding(streams::specs::Reader::stands_first))]
fn stands_first(s: &[u8]) -> u64
    ensures { result ≡ stands_first s.now }
{
    match read_head(s) {
        Ok(_) => reason::ACCEPTED,
        Err(reason) => reason.into(),
    }
}

// Whether a bad length stands first.
#[tactic(auto, unfolding(streams::specs::Reader::stands_first))]
fn is_bad_first(s: &[u8]) -> bool
    ensures { result ≡ bad_first s.now }
{
    matches!(read_head(s), Err(Reason::BadLength))
}

// These bytes are held, but of a bad length that stands first only its four bytes.
fn settle(store: &[u8], held: Reader) -> Reader
    requires { (held.start ≤ held.end) × (held.end ≤ length store.now) }
    ensures { result ≡ settled store.now held }
{
    if is_bad_first(&store[held.start..held.end]) {
        return Reader {
            end: held.start + LENGTH_BYTES,
            ..held
        };
    }
    held
}

// Nothing is handed out, since nothing is held.
#[tactic(auto, unfolding(streams::specs::Reader::stands_first))]
fn waiting() -> NextFrame
    ensures { result ≡ next_at [] start_over }
{
    NextFrame {
        reader: start_over(),
        reason: reason::NOT_ALL_THERE,
        start: 0,
        len: 0,
        kind: 0,
    }
}

// The room beside the bytes held in a store of this size: in front of them, too.
fn room_beside(held: Reader, size: usize) -> usize
    requires { (held.start ≤ held.end) × (held.end ≤ size) }
    ensures { result ≡ size - (held.end - held.start) }
{
    size - (held.end - held.start)
}

// How much of an arrival is taken, where no bad length stands first.
fn taken(held: Reader, arrival: &[u8], store: &[u8]) -> usize
    requires inside { (held.start ≤ held.end) × (held.end ≤ length store.now) }
    requires good { bad_first (part store.now held) ≡ false }
    ensures count { result ≡ taken_count (length store.now) (part store.now held) arrival.now }
    ensures arrived { result ≤ length arrival.now }
    ensures room { result ≤ length store.now - (held.end - held.start) }
{
    arrival.len().min(room_beside(held, store.len()))
}

// An arrival behind the bytes held, which are a part of the store.
#[tactic(auto, unfolding(streams::specs::Reader::push_at))]
fn push_at(held: Reader, arrival: &[u8], store: &mut [u8]) -> Pushed
    requires { (held.start ≤ held.end) × (held.end ≤ length store.old) }
    ensures answer { result ≡ (push_at store.old held arrival.now).answer }
    ensures stored { store.new ≡ (push_at store.old held arrival.now).store }
{
    if is_bad_first(&store[held.start..held.end]) {
        return Pushed {
            reader: Reader {
                end: held.start + LENGTH_BYTES,
                ..held
            },
            reason: Reason::BadLength.into(),
            count: 0,
        };
    }
    let n = taken(held, arrival, store);
    let room = make_room(held, n, store);
    write_bytes(store, room.end, &arrival[..n]);
    let filled = Reader {
        end: room.end + n,
        ..room
    };
    Pushed {
        reader: settle(store, filled),
        reason: stands_first(&store[filled.start..filled.end]),
        count: n,
    }
}

// The reader itself, or an empty one where it is no part of a store of this size.
fn usable_reader(r: Reader, size: usize) -> Reader
    ensures { result ≡ usable size r }
{
    if r.end < r.start || size < r.end {
        return start_over();
    }
    r
}
