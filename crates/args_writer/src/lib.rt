// One argument appended as an args field to a lent buffer, so that a stretch of them is built without
// encoding by hand.
#![tactic(auto)]

ghost use Rattle.std.specs.Prelude.{◌≡◌, length};
ghost use Rattle.writer.specs.Write.{sent_by};
ghost use Rattle.args_writer.specs.Append.{appended_of, left_by};

use encode::put::has_room;
use field::{field_len, put_field};
use form::form_of;
use protocol::reason::Reason;
use scalar::argument::Argument;
use writer::Sent;

mod field;
mod form;

// The scalar `a` as an args field behind the first `at` bytes of `buf`. The bytes of an octets or string
// scalar are those of `src` at its place and length. Answers the reason by which it is refused, or 0 and
// the length of the stretch then.
pub fn append_argument(a: Argument, src: &[u8], buf: &mut [u8], at: usize) -> Sent
    ensures { (result ≡ appended_of a src.now (length buf.old) at)
        × (buf.new ≡ left_by a src.now buf.old at) }
{
    Sent::from(append(a, src, buf, at))
}

// The length of the stretch with the argument behind it.
fn append(a: Argument, src: &[u8], buf: &mut [u8], at: usize) -> Result<usize, Reason>
    ensures { (sent_by result ≡ appended_of a src.now (length buf.old) at)
        × (buf.new ≡ left_by a src.now buf.old at) }
{
    let Some(form) = form_of(a, src) else {
        return Err(Reason::BadPayload);
    };
    if !has_room(buf.len(), at, field_len(form)) {
        return Err(Reason::NoRoom);
    }
    Ok(put_field(form, buf, at))
}
