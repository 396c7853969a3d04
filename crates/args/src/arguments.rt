// The way through the arguments of a message, and what all of them together say. Whether a varint is padded is asked
// where the message is judged, and not here: `unread` is a flag that nobody looks at.
ghost use Rattle.std.specs.Prelude.{◌≡◌, ◌^◌, ◌<◌};
ghost use Rattle.args.specs.Arguments.{
  any_type_of,
  arg_place,
  handed_out,
  bad_arguments,
  next_argument,
  no_arguments,
  nth_argument,
  number_of,
  place_of,
  type_number,
  with_type,
};

use crate::keys;
use crate::kind::AnyType;
use protocol::reason::Reason;
use protocol::{anys, reason};
use scalar::argument::Argument;
use wire::value::Value;

// Where an args field stands: its value's place and length, and the place behind it.
#[derive(Clone, Copy)]
pub struct ArgPlace {
    pub start: usize,
    pub len: usize,
    pub next: usize,
}

// An argument and the place behind it.
#[derive(Clone, Copy)]
pub struct NextArgument {
    pub value: Argument,
    pub next: usize,
}

// The arguments in the bytes from `start` to `end`: how many there are, and the first object (kind 2) or array (kind 3)
// among them with its index (kind 0: none). `good` says that each one is; it and `kind` stay as they are, since
// `together` and `FirstTold` speak of them, and a host is told the kind as this number. No two of the numbers stand
// side by side as in what hosts are told: such two are copied at once, right after they were written one by one, for
// which a processor waits.
#[derive(Clone, Copy)]
pub struct Arguments {
    pub good: bool,
    pub kind: u64,
    pub start: usize,
    pub count: usize,
    pub end: usize,
    pub index: usize,
}

impl Arguments {
    pub fn none(start: usize, end: usize) -> Arguments
        ensures { result ≡ no_arguments start end }
    {
        Arguments {
            good: true,
            count: 0,
            kind: anys::NONE,
            index: 0,
            start,
            end,
        }
    }

    pub fn bad() -> Arguments
        ensures { result ≡ bad_arguments }
    {
        Arguments {
            good: false,
            count: 0,
            kind: anys::NONE,
            index: 0,
            start: 0,
            end: 0,
        }
    }

    // The same, number by number. Copied as one, a struct takes the bytes between its fields along, and a processor
    // waits where these were not written with them.
    pub fn same(self) -> Arguments
        ensures { result ≡ self }
    {
        Arguments {
            good: self.good,
            count: self.count,
            kind: self.kind,
            index: self.index,
            start: self.start,
            end: self.end,
        }
    }

    // One argument more, of this Any type.
    pub(crate) fn with_type(self, any: AnyType) -> Arguments
        requires { self.count < 2 ^ 63 }
        ensures { result ≡ with_type self (number_of any) }
    {
        let mut x = self;
        x.count += 1;
        if let AnyType::Scalar = any {
            return x;
        }
        if x.kind != anys::NONE {
            return x;
        }
        x.kind = u64::from(any);
        x.index = x.count - 1;
        x
    }
}

// The first args field at or behind the place `at`, none where none is left, or refused for a bad field on the way.
fn seek_place(s: &[u8], at: usize, unread: &mut bool) -> Result<Option<ArgPlace>, Reason>
    ensures { result ≡ arg_place s.now at }
{
    let mut p = at;
    // From field to field: no index is counted.
    while p < s.len() {
        let Some(field) = wire::field::long_field(s, p, unread) else {
            return Err(Reason::BadPayload);
        };
        if field.number == keys::ARGS {
            if field.wire == keys::ARGS_WIRE {
                return Ok(Some(ArgPlace {
                    start: field.start,
                    len: field.len,
                    next: field.next,
                }));
            }
        }
        p = field.next;
    }
    Ok(None)
}

// An args field whose value was read.
fn place_of(read: Option<Value>) -> Result<Option<ArgPlace>, Reason>
    ensures { result ≡ place_of read }
{
    match read {
        Some(value) => Ok(Some(ArgPlace {
            start: value.start,
            len: value.len,
            next: value.next,
        })),
        None => Err(Reason::BadPayload),
    }
}

// The same, with a short way for an args field at the very place, as the next one mostly is.
fn next_place(s: &[u8], at: usize, unread: &mut bool) -> Result<Option<ArgPlace>, Reason>
    ensures { result ≡ arg_place s.now at }
{
    let n = s.len();
    if n <= at {
        return Ok(None);
    }
    if s[at] == keys::ARGS_TAG {
        return place_of(wire::value::length_value(s, at + 1, unread));
    }
    seek_place(&s[..n], at, unread)
}

// The next argument of a message whose bytes end with s, at or behind the place `at`.
pub fn next_argument(s: &[u8], at: usize) -> Option<NextArgument>
    ensures { result ≡ next_argument s.now at }
{
    let mut unread = false;
    match next_place(s, at, &mut unread) {
        Ok(Some(ArgPlace { start, len, next })) => Some(NextArgument {
            value: crate::value::read_argument(s, start, len, &mut unread),
            next,
        }),
        Ok(None) => None,
        Err(_) => Some(NextArgument {
            value: Argument::Refused(reason::BAD_PAYLOAD),
            next: s.len(),
        }),
    }
}

// The Any type of an argument; a bad one has none.
pub fn any_type(a: Argument) -> Option<AnyType>
    ensures { type_number result ≡ any_type_of a }
{
    match a {
        Argument::Signed(_) => Some(AnyType::Scalar),
        Argument::Unsigned(_) => Some(AnyType::Scalar),
        Argument::Null => Some(AnyType::Scalar),
        Argument::Octets { start: _, len: _ } => Some(AnyType::Scalar),
        Argument::Double(_) => Some(AnyType::Scalar),
        Argument::DoubleNan(_) => Some(AnyType::Scalar),
        Argument::Float(_) => Some(AnyType::Scalar),
        Argument::FloatNan(_) => Some(AnyType::Scalar),
        Argument::Bool(_) => Some(AnyType::Scalar),
        Argument::String { start: _, len: _ } => Some(AnyType::Scalar),
        Argument::Object => Some(AnyType::Object),
        Argument::Array => Some(AnyType::Array),
        Argument::Refused(_) => None,
    }
}

// An argument as it is handed out: an object or array is refused 8.
fn handed_out(a: Argument) -> Argument
    ensures { result ≡ handed_out a }
{
    match any_type(a) {
        Some(AnyType::Object) => Argument::Refused(reason::NOT_SCALAR),
        Some(AnyType::Array) => Argument::Refused(reason::NOT_SCALAR),
        Some(AnyType::Scalar) => a,
        None => a,
    }
}

// The argument with this index, counted from 0, of a message whose bytes go from `from` to the end of s.
pub fn nth_argument(s: &[u8], from: usize, index: usize) -> Argument
    ensures { result ≡ nth_argument s.now from index }
{
    let mut p = from;
    let mut left = index;
    // From argument to argument. An iterator over them would need laws of its own, for this one caller.
    while p < s.len() {
        let Some(NextArgument { value, next }) = next_argument(s, p) else {
            return Argument::Refused(reason::FEW_ARGUMENTS);
        };
        if left == 0 {
            return handed_out(value);
        }
        left -= 1;
        p = next;
    }
    Argument::Refused(reason::FEW_ARGUMENTS)
}
