// The value of one argument: an Any, and the Scalar in it.
ghost use Rattle.std.specs.Prelude.{◌≡◌, ◌||◌, false, true, ◌+◌, ◌<◌, ◌≤◌, length};
ghost use Rattle.layout.specs.private.Found.{Holds};
ghost use Rattle.layout.specs.Table.{rows_of, scalar};
ghost use Rattle.layout.specs.Merged.{merged, one_part, parts_in};
ghost use Rattle.layout.specs.Padded.{part_padded, parts_padded};
ghost use Rattle.args.specs.Arguments.{any_type_of};
ghost use Rattle.args.specs.Value.{argument_in, bytes_in, present, scalar_in, scalar_parts};
ghost use Rattle.args.specs.Padded.{argument_padded, inside_scalar, scalar_padded};
ghost use Rattle.layout.specs.private.Counted.{Counted};
ghost use Rattle.layout.specs.private.Parts.{left};
ghost use Rattle.args.specs.private.Parts.{bytes_field, is_octets, is_whole, placed_bytes, scalar_by};

use crate::keys;
use crate::pair::Pair;
use layout::found::{Found, Slot};
use layout::part::Part;
use layout::parts::Parts;
use protocol::anys::SCALAR_FIELD;
use protocol::fields::{BYTES, TYPE};
use protocol::scalars::{
    BOOL_FIELD, DOUBLE_FIELD, FLOAT_FIELD, OCTETS_FIELD, SINT_FIELD, STRING_FIELD, UINT_FIELD,
};
use protocol::{anys, reason, scalars, uint32};
use scalar::argument::{Argument, double_argument, float_argument, signed_argument};

// The numbers of the fields whose messages may come in parts.
const SCALAR_NUMBER: u64 = SCALAR_FIELD as u64;

const OCTETS_NUMBER: u64 = OCTETS_FIELD as u64;

const STRING_NUMBER: u64 = STRING_FIELD as u64;

// The argument whose Any stands in `n` bytes of s from `at` on, with the short ways for an Any of one field, its type,
// and of two, its type and its scalar. For its one caller, into which it is inlined; others go the long way.
pub(crate) fn read_argument(s: &[u8], at: usize, n: usize, unread: &mut bool) -> Argument
    ensures { result ≡ argument_in s.now at n }
{
    let all = s.len();
    match crate::pair::read_lone(s, at, n) {
        Some(anys::OBJECT) => return Argument::Object,
        Some(anys::ARRAY) => return Argument::Array,
        _ => {}
    }
    if let Some(Pair { key, value, start }) = crate::pair::read_pair(s, at, n, unread) {
        if key == keys::SCALAR_KEY {
            return read_scalar(s, start, value as usize, unread);
        }
    }
    long_argument(&s[..all], at, n, unread)
}

// The long way, by the rows.
pub fn long_argument(s: &[u8], at: usize, n: usize, padded: &mut bool) -> Argument
    ensures answer { result ≡ argument_in s.now at n }
    ensures told { 0 < any_type_of result → padded.new ≡ (padded.old || argument_padded s.now at n) }
{
    let rows = layout::rows::any_rows();
    let mut found = Found::new();
    if !found.fill_part(&rows, s, at, n, padded) {
        return Argument::Refused(reason::BAD_PAYLOAD);
    }
    let t = found.slots[TYPE].value % uint32::COUNT;
    match t {
        anys::SCALAR => any_scalar(s, at, n, found.slots[SCALAR_FIELD], padded),
        anys::OBJECT => Argument::Object,
        anys::ARRAY => Argument::Array,
        _ => Argument::Refused(reason::BAD_PAYLOAD),
    }
}

// The scalar of the Any in `n` bytes of s from `at` on, of which this was found.
fn any_scalar(s: &[u8], at: usize, n: usize, slot: Slot, padded: &mut bool) -> Argument
    requires counted { Counted (scalar_parts s.now at n) slot }
    requires n_in_bounds { at + n ≤ length s.now }
    ensures answer { result ≡ present slot.times (scalar_in s.now (scalar_parts s.now at n)) }
    ensures told { 0 < any_type_of result →
        padded.new
        ≡ (padded.old || scalar_padded s.now (scalar_parts s.now at n)) }
{
    if slot.times == 0 {
        return Argument::Refused(reason::BAD_PAYLOAD);
    }
    if slot.times == 1 {
        return long_scalar(s, slot.start, slot.value as usize, padded);
    }
    let end = at + n;
    parted_scalar(&s[..end], at, padded)
}

// The named value must be present.
fn needed(times: u8, a: Argument) -> Argument
    ensures { result ≡ present times a }
{
    if times == 0 {
        return Argument::Refused(reason::BAD_PAYLOAD);
    }
    a
}

// How a Scalar stands from a place to the end of some bytes: as one message, or as the scalars of an Any that goes so
// far.
#[derive(Clone, Copy)]
pub(crate) enum Standing {
    Whole,
    InParts,
}

// The kinds of bytes that a Scalar has.
#[derive(Clone, Copy)]
pub(crate) enum Bytes {
    Octets,
    String,
}

impl Bytes {
    // The number of a Scalar's field that holds them.
    fn field(self) -> u64
        ensures { result ≡ bytes_field self }
    {
        match self {
            Bytes::Octets => OCTETS_NUMBER,
            Bytes::String => STRING_NUMBER,
        }
    }

    fn argument(self, start: usize, len: usize) -> Argument
        ensures { result ≡ placed_bytes (is_octets self) start len }
    {
        match self {
            Bytes::Octets => Argument::Octets { start, len },
            Bytes::String => Argument::String { start, len },
        }
    }

    // Those of an octets or a string message, of which this was found.
    fn found(self, slot: Slot) -> Argument
        ensures { result ≡ placed_bytes (is_octets self) slot.start slot.value }
    {
        self.argument(slot.start, slot.value as usize)
    }
}

// The bytes of an octets or a string message in one part, the long way.
fn long_bytes(s: &[u8], at: usize, n: usize, bytes: Bytes, padded: &mut bool) -> Argument
    ensures answer { result ≡ bytes_in (is_octets bytes) s.now (one_part at n) }
    ensures told { padded.new ≡ (padded.old || part_padded s.now at n) }
{
    let rows = layout::rows::bytes_rows();
    let mut found = Found::new();
    if !found.fill_part(&rows, s, at, n, padded) {
        return Argument::Refused(reason::BAD_PAYLOAD);
    }
    bytes.found(found.slots[BYTES])
}

// The same in parts, the fields of a Scalar that goes from `at` to the end of s; or, where that is itself in parts,
// of the scalars of an Any that does.
fn parted_bytes(s: &[u8], at: usize, stands: Standing, bytes: Bytes, padded: &mut bool) -> Argument
    requires { at ≤ length s.now }
    ensures answer { result
        ≡ bytes_in (is_octets bytes) s.now
        (parts_in (bytes_field bytes) s.now (scalar_by (is_whole stands) s.now at)) }
    ensures told { 0 < any_type_of result →
        padded.new
        ≡ (padded.old
        || parts_padded s.now (parts_in (bytes_field bytes) s.now (scalar_by (is_whole stands) s.now at))) }
{
    let rows = layout::rows::bytes_rows();
    let mut found = Found::new();
    if !found.merge(&rows, scalar_parts(s, at, stands, bytes.field()), padded) {
        return Argument::Refused(reason::BAD_PAYLOAD);
    }
    bytes.found(found.slots[BYTES])
}

// The parts in field k of that Scalar.
fn scalar_parts(s: &[u8], at: usize, stands: Standing, k: u64) -> Parts<'_>
    requires { at ≤ length s.now }
    ensures of { result.s.now ≡ s.now }
    ensures parts { left result ≡ parts_in k s.now (scalar_by (is_whole stands) s.now at) }
{
    match stands {
        Standing::Whole => Parts::of_message(s, at, k),
        Standing::InParts => Parts::of_parts(s, at, SCALAR_NUMBER, k),
    }
}

// The bytes of an octets or a string message, with a short way for one that holds nothing else.
pub(crate) fn read_bytes(s: &[u8], at: usize, n: usize, bytes: Bytes, padded: &mut bool) -> Argument
    ensures answer { result ≡ bytes_in (is_octets bytes) s.now (one_part at n) }
    ensures told { padded.new ≡ (padded.old || part_padded s.now at n) }
{
    let all = s.len();
    if let Some(Part { start, len }) = crate::pair::read_text(s, at, n, padded) {
        return bytes.argument(start, len);
    }
    long_bytes(&s[..all], at, n, bytes, padded)
}

// The octets or the string of a Scalar, of which this was found.
fn bytes_value(
    s: &[u8],
    at: usize,
    stands: Standing,
    bytes: Bytes,
    slot: Slot,
    padded: &mut bool,
) -> Argument
    requires at_in_bounds { at ≤ length s.now }
    requires counted { Counted (parts_in (bytes_field bytes) s.now (scalar_by (is_whole stands) s.now at)) slot }
    ensures answer { result
        ≡ present slot.times
        (bytes_in (is_octets bytes) s.now (parts_in (bytes_field bytes) s.now (scalar_by (is_whole stands) s.now at))) }
    ensures told { 0 < any_type_of result →
        padded.new
        ≡ (padded.old
        || parts_padded s.now (parts_in (bytes_field bytes) s.now (scalar_by (is_whole stands) s.now at))) }
{
    if slot.times == 0 {
        return Argument::Refused(reason::BAD_PAYLOAD);
    }
    if slot.times == 1 {
        return long_bytes(s, slot.start, slot.value as usize, bytes, padded);
    }
    parted_bytes(s, at, stands, bytes, padded)
}

// The value that a Scalar's type names.
fn scalar_value(s: &[u8], at: usize, stands: Standing, found: &Found, padded: &mut bool) -> Argument
    requires at_in_bounds { at ≤ length s.now }
    requires holds { Holds (merged (rows_of scalar) s.now (scalar_by (is_whole stands) s.now at)) true found.now }
    ensures answer { result ≡ scalar_in s.now (scalar_by (is_whole stands) s.now at) }
    ensures told { 0 < any_type_of result →
        padded.new
        ≡ (padded.old
        || inside_scalar s.now (scalar_by (is_whole stands) s.now at)
        (merged (rows_of scalar) s.now (scalar_by (is_whole stands) s.now at))) }
{
    let t = found.slots[TYPE].value % uint32::COUNT;
    match t {
        scalars::SINT => needed(
            found.slots[SINT_FIELD].times,
            signed_argument(found.slots[SINT_FIELD].value),
        ),
        scalars::UINT => needed(
            found.slots[UINT_FIELD].times,
            Argument::Unsigned(found.slots[UINT_FIELD].value),
        ),
        scalars::NULL => Argument::Null,
        scalars::OCTETS => bytes_value(
            s,
            at,
            stands,
            Bytes::Octets,
            found.slots[OCTETS_FIELD],
            padded,
        ),
        scalars::DOUBLE => needed(
            found.slots[DOUBLE_FIELD].times,
            double_argument(found.slots[DOUBLE_FIELD].value),
        ),
        scalars::FLOAT => needed(
            found.slots[FLOAT_FIELD].times,
            float_argument((found.slots[FLOAT_FIELD].value % uint32::COUNT) as u32),
        ),
        scalars::BOOL => needed(
            found.slots[BOOL_FIELD].times,
            Argument::Bool(found.slots[BOOL_FIELD].value != 0),
        ),
        scalars::STRING => bytes_value(
            s,
            at,
            stands,
            Bytes::String,
            found.slots[STRING_FIELD],
            padded,
        ),
        _ => Argument::Refused(reason::BAD_PAYLOAD),
    }
}

// The Scalar in `n` bytes of s from `at` on, the long way.
pub(crate) fn long_scalar(s: &[u8], at: usize, n: usize, padded: &mut bool) -> Argument
    ensures answer { result ≡ scalar_in s.now (one_part at n) }
    ensures told { 0 < any_type_of result →
        padded.new ≡ (padded.old || scalar_padded s.now (one_part at n)) }
{
    let rows = layout::rows::scalar_rows();
    let mut found = Found::new();
    if !found.fill_part(&rows, s, at, n, padded) {
        return Argument::Refused(reason::BAD_PAYLOAD);
    }
    let end = at + n;
    scalar_value(&s[..end], at, Standing::Whole, &found, padded)
}

// The Scalar whose parts are the scalars of an Any that goes from `at` to the end of s.
fn parted_scalar(s: &[u8], at: usize, padded: &mut bool) -> Argument
    requires { at ≤ length s.now }
    ensures answer { result ≡ scalar_in s.now (scalar_by false s.now at) }
    ensures told { 0 < any_type_of result →
        padded.new
        ≡ (padded.old || scalar_padded s.now (scalar_by false s.now at)) }
{
    let rows = layout::rows::scalar_rows();
    let mut found = Found::new();
    if !found.merge(&rows, Parts::of_message(s, at, SCALAR_NUMBER), padded) {
        return Argument::Refused(reason::BAD_PAYLOAD);
    }
    scalar_value(s, at, Standing::InParts, &found, padded)
}

// The Scalar, with the short ways for a Scalar of one field and of two. The slice is lent anew to what is
// not inlined, so that the short ways keep it in registers.
fn read_scalar(s: &[u8], at: usize, n: usize, unread: &mut bool) -> Argument
    ensures { result ≡ scalar_in s.now (one_part at n) }
{
    let all = s.len();
    if let Some(scalars::NULL) = crate::pair::read_lone(s, at, n) {
        return Argument::Null;
    }
    if let Some(Pair { key, value, start }) = crate::pair::read_pair(s, at, n, unread) {
        match key {
            keys::SINT_KEY => return signed_argument(value),
            keys::UINT_KEY => return Argument::Unsigned(value),
            keys::OCTETS_KEY => return read_bytes(
                &s[..all],
                start,
                value as usize,
                Bytes::Octets,
                unread,
            ),
            keys::DOUBLE_KEY => return double_argument(value),
            keys::FLOAT_KEY => return float_argument((value % uint32::COUNT) as u32),
            keys::BOOL_KEY => return Argument::Bool(value != 0),
            keys::STRING_KEY => return read_bytes(
                &s[..all],
                start,
                value as usize,
                Bytes::String,
                unread,
            ),
            _ => {}
        }
    }
    long_scalar(&s[..all], at, n, unread)
}
