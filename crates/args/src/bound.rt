// A message with arguments, an Execute or a StmtExecute, in one pass: its fields 1 and 3 and all its arguments.
ghost use Rattle.std.specs.Prelude.{IsSome, ◌≡◌, ◌||◌, true, ◌^◌, ◌<◌};
ghost use Rattle.wire.specs.Field.{field_at};
ghost use Rattle.wire.specs.Padded.{field_padded};
ghost use Rattle.args.specs.Padded.{bound_padded, execute_padded};
ghost use Rattle.args.specs.private.Bound.{args_of, bound_at, bound_in, found, is_text, tests_args, wire_by};
ghost use Rattle.args.specs.private.Bound.{with_field};

use crate::arguments::Arguments;
use crate::keys;
use protocol::{fields, wire_type};
use wire::field::Field;

// What is kept of a message's own fields: the values of field 1 and field 3, where they occur.
#[derive(Clone, Copy)]
pub struct Own {
    pub one: Option<u64>,
    pub three: Option<u64>,
}

// A message whose fields and arguments are good: field 1, which is required, and field 3, beside the arguments, as they
// are in `Arguments`. The numbers stand in such an order that no two are copied at once right after they were written
// one by one, for which a processor waits.
#[derive(Clone, Copy)]
pub struct Bound {
    pub count: usize,
    pub one: Option<u64>,
    pub kind: u64,
    pub three: Option<u64>,
    pub index: usize,
}

// The messages with arguments. Field 1 is the id of an Execute, and the text of a StmtExecute.
#[derive(Clone, Copy)]
pub enum Message {
    Execute,
    StmtExecute,
}

// The message in `n` bytes of s from `at` on, if its fields and arguments are good. Whether field 1 is there is asked
// of the answer.
pub fn read_bound(
    s: &[u8],
    at: usize,
    n: usize,
    message: Message,
    padded: &mut bool,
) -> Option<Bound>
    ensures answer { result ≡ bound_in (is_text message) s.now at n }
    ensures told { IsSome result → padded.new ≡ (padded.old || execute_padded s.now at n) }
{
    if s.len() < at {
        return None;
    }
    if s.len() - at < n {
        return None;
    }
    let end = at + n;
    bound_at(&s[..end], at, message, padded)
}

// Fields 1 and 3: stmt_id and compact_metadata of an Execute, the text and the namespace of a StmtExecute.
const SUBJECT: u64 = fields::ID as u64;

const OPTION: u64 = fields::COMPACT as u64;

// Their wire types: of a StmtExecute bytes, of an Execute numbers.
const BYTES: u64 = wire_type::LEN;

const NUMBER: u64 = wire_type::VARINT;

fn wire_by(message: Message) -> u64
    ensures { result ≡ wire_by (is_text message) }
{
    match message {
        Message::Execute => NUMBER,
        Message::StmtExecute => BYTES,
    }
}

pub(crate) fn is_args(number: u64, wire: u64) -> bool
    ensures { result ≡ tests_args number wire }
{
    if number != keys::ARGS {
        return false;
    }
    wire == keys::ARGS_WIRE
}

// The field at a place, with a short way for an args field, as most are.
fn field_at(s: &[u8], at: usize, padded: &mut bool) -> Option<Field>
    ensures answer { result ≡ field_at s.now at }
    ensures told { padded.new ≡ (padded.old || field_padded s.now at) }
{
    let n = s.len();
    if at < n {
        if s[at] == keys::ARGS_TAG {
            return wire::field::valued(
                keys::ARGS,
                keys::ARGS_WIRE,
                wire::value::length_value(s, at + 1, padded),
            );
        }
    }
    wire::field::long_field(&s[..n], at, padded)
}

impl Own {
    // One field more, of a message whose fields 1 and 3 have the wire type `own`.
    fn with_field(self, own: u64, number: u64, wire: u64, value: u64) -> Own
        ensures { result ≡ with_field self own number wire value }
    {
        let mut k = self;
        if wire != own {
            return k;
        }
        if number == SUBJECT {
            k.one = Some(value);
            return k;
        }
        if number == OPTION {
            k.three = Some(value);
            return k;
        }
        k
    }
}

fn bound_of(k: Own, x: Arguments) -> Bound
    ensures { result ≡ found k x }
{
    Bound {
        count: x.count,
        one: k.one,
        kind: x.kind,
        three: k.three,
        index: x.index,
    }
}

// The message whose bytes go from `from` to the end of s.
fn bound_at(s: &[u8], from: usize, message: Message, padded: &mut bool) -> Option<Bound>
    ensures answer { result ≡ bound_at (is_text message) s.now from }
    ensures told { IsSome result → padded.new ≡ (padded.old || bound_padded s.now from) }
{
    let own = wire_by(message);
    let mut k = Own {
        one: None,
        three: None,
    };
    let mut x = Arguments::none(from, s.len());
    let mut p = from;
    // From field to field: no index is counted.
    while p < s.len() {
        let field = field_at(s, p, padded)?;
        if is_args(field.number, field.wire) {
            let any = crate::kind::argument_type(s, field.start, field.len, padded)?;
            x = x.with_type(any);
            p = field.next;
        } else {
            k = k.with_field(own, field.number, field.wire, field.value);
            p = field.next;
        }
    }
    Some(bound_of(k, x))
}

impl Bound {
    // The arguments of a good message in the bytes from `start` to `end`.
    pub fn arguments(self, start: usize, end: usize) -> Arguments
        ensures { result ≡ args_of self start end }
    {
        Arguments {
            good: true,
            count: self.count,
            kind: self.kind,
            index: self.index,
            start,
            end,
        }
    }
}
