// Whether a draft of a kind can be written: its arguments, its body and the type of its statement are good.
ghost use Rattle.std.specs.Prelude.{◌≡◌};
ghost use Rattle.writer.specs.Judge.{accepted_as, good_prepare, good_stretch, is_type};
ghost use Rattle.writer.specs.private.Kind.{type_of};

use crate::kind::Kind;
use message::operation;
use protocol::{fields, wire_type};

const ARGS: u64 = fields::ARGS as u64;

// Whether s is a stretch of good args fields and nothing else.
fn is_stretch(s: &[u8]) -> bool
    ensures { result ≡ good_stretch s.now }
{
    // A flag that nobody looks at: whether a stretch is padded is not asked here.
    let mut unread = false;
    let mut p = 0;
    // From field to field: no index is counted.
    while p < s.len() {
        let Some(field) = wire::field::long_field(s, p, &mut unread) else {
            return false;
        };
        if field.number != ARGS {
            return false;
        }
        if field.wire != wire_type::LEN {
            return false;
        }
        let a = args::value::long_argument(s, field.start, field.len, &mut unread);
        if args::arguments::any_type(a).is_none() {
            return false;
        }
        p = field.next;
    }
    true
}

// Whether the type of a Prepare's statement is listed.
fn is_type(t: u64) -> bool
    ensures { result ≡ is_type t }
{
    matches!(
        t,
        operation::FIND
            | operation::INSERT
            | operation::UPDATE
            | operation::DELETE
            | operation::STMT_EXECUTE
    )
}

// Whether a Prepare's type is listed and its body good.
fn is_prepare(operation: u64, body: &[u8]) -> bool
    ensures { result ≡ good_prepare operation body.now }
{
    if !is_type(operation) {
        return false;
    }
    let b = message::prepare::long_body(body, operation, 0, body.len());
    b.good
}

pub(crate) fn is_accepted(kind: Kind, operation: u64, body: &[u8], args: &[u8]) -> bool
    ensures { result ≡ accepted_as (type_of kind) operation body.now args.now }
{
    match kind {
        Kind::Prepare => is_prepare(operation, body),
        Kind::Execute => is_stretch(args),
        Kind::Open => is_stretch(args),
        Kind::Reset => true,
        Kind::SessionClose => true,
        Kind::Deallocate => true,
        Kind::Close => true,
        Kind::Fetch => true,
    }
}
