// Whether every argument of a message is good, where nothing else of the message is wanted: of a body that comes more
// than once, which is read in every part before it is refused.
ghost use Rattle.std.specs.Prelude.{◌≡◌, ◌||◌, true};
ghost use Rattle.args.specs.Arguments.{arguments_in};
ghost use Rattle.args.specs.Padded.{bound_padded};

use crate::arguments::any_type;
use crate::bound::is_args;

// The message goes from `from` to the end of s. Of a bad one the flag says nothing.
pub fn judge_arguments(s: &[u8], from: usize, padded: &mut bool) -> bool
    ensures answer { result ≡ (arguments_in s.now from).good }
    ensures told { result ≡ true → padded.new ≡ (padded.old || bound_padded s.now from) }
{
    let mut p = from;
    // From field to field: no index is counted.
    while p < s.len() {
        let Some(field) = wire::field::long_field(s, p, padded) else {
            return false;
        };
        if is_args(field.number, field.wire) {
            if any_type(crate::value::long_argument(s, field.start, field.len, padded)).is_none() {
                return false;
            }
        }
        p = field.next;
    }
    true
}
