// The message texts of an Error.
ghost use Rattle.std.specs.Prelude.{◌++◌};
ghost use Rattle.reply.specs.Decimal.{decimal};
ghost use Rattle.encode.specs.Puts.{Puts};
ghost use Rattle.reply.specs.Text.{kind_name, text, unsupported};

use crate::decimal::put_decimal;
use encode::put::put_slice;
use protocol::{anys, reason};

// Text, a number, text.
fn put_numbered(t: &mut [u8], before: &[u8], n: u64, after: &[u8]) -> usize
    ensures { Puts t.old 0 (before.now ++ decimal n ++ after.now) result t.new }
{
    let at = put_slice(t, 0, before);
    let next = put_decimal(t, at, n);
    put_slice(t, next, after)
}

fn put_kind(t: &mut [u8], at: usize, kind: u64) -> usize
    ensures { Puts t.old at (kind_name kind) result t.new }
{
    if kind == anys::ARRAY {
        put_slice(t, at, b"ARRAY")
    } else {
        put_slice(t, at, b"OBJECT")
    }
}

fn put_unsupported(t: &mut [u8], number: u64, kind: u64) -> usize
    ensures { Puts t.old 0 (unsupported number kind) result t.new }
{
    let at = put_numbered(t, b"Argument at index '", number, b"' and of type '");
    let next = put_kind(t, at, kind);
    put_slice(
        t,
        next,
        b"' is not supported for binding to prepared statement",
    )
}

// The text of a refusal, at the front.
pub(crate) fn put_text(t: &mut [u8], reason: u64, number: u64, kind: u64) -> usize
    ensures { Puts t.old 0 (text reason number kind) result t.new }
{
    match reason {
        reason::NO_STMT => put_numbered(t, b"Statement with ID=", number, b" was not prepared."),
        reason::NOT_SCALAR => put_unsupported(t, number, kind),
        reason::FEW_ARGUMENTS => put_numbered(
            t,
            b"There is no argument for statement placeholder at position: ",
            number,
            b"",
        ),
        reason::NO_CURSOR => put_numbered(t, b"Cursor with ID=", number, b" was not opened."),
        reason::ALL_SENT => put_numbered(t, b"No more data in cursor (cursor id:'", number, b"')"),
        _ => put_numbered(t, b"Refused (", reason, b")."),
    }
}
