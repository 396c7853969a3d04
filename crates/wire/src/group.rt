// Skipping a group: its fields up to the end tag that carries its number. Whether a varint in it is padded is not
// asked: `unread` is a flag that nobody looks at.
ghost use Rattle.std.specs.Prelude.{◌≡◌};
ghost use Rattle.wire.specs.Group.{group_end, skip_value};

use protocol::wire_type;

// What skips answers the place behind what was skipped, and none where there is a bad field on the way.
fn skip_value(s: &[u8], wire: u64, at: usize, unread: &mut bool) -> Option<usize>
    ensures { result ≡ skip_value s.now wire at }
{
    let value = crate::value::read_value(s, wire, at, unread)?;
    Some(value.next)
}

// Skips the group `number`, whose start tag ends at `at`, with at most `depth` groups one in another,
// itself among them.
pub(crate) fn skip_group(
    s: &[u8],
    at: usize,
    number: u64,
    depth: u64,
    unread: &mut bool,
) -> Option<usize>
    ensures { result ≡ group_end depth s.now at number }
{
    if depth == 0 {
        return None;
    }
    let mut p = at;
    // No index is counted: the place goes on by what was read.
    while p < s.len() {
        let tag = crate::tag::read_tag(s, p, unread)?;
        if tag.wire == wire_type::GROUP_END {
            if tag.number == number {
                return Some(tag.next);
            }
            return None;
        }
        let end = s.len();
        if tag.wire == wire_type::GROUP_START {
            p = skip_group(&s[..end], tag.next, tag.number, depth - 1, unread)?;
        } else {
            p = skip_value(&s[..end], tag.wire, tag.next, unread)?;
        }
    }
    None
}
