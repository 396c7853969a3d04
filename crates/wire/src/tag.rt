// A field's tag: its number and wire type.
ghost use Rattle.std.specs.Prelude.{◌≡◌, ◌||◌, ◌≤◌};
ghost use Rattle.varint.specs.Padded.{padded_at};
ghost use Rattle.varint.specs.private.Behind.{behind_first, padded_behind};
ghost use Rattle.wire.specs.Tag.{tag_at, tag_of};

use protocol::uint32;

// A field number, a wire type, and the place behind the tag. A wire type is a number here and in all that follows: it
// is what a tag leaves when it is divided by 8, a row of the layout has the same one, and no test asks for more; an
// enum would be turned back into it at each.
#[derive(Clone, Copy)]
pub struct Tag {
    pub number: u64,
    pub wire: u64,
    pub next: usize,
}

// With a short way for a tag of one byte. The slice is lent anew to the long way, so that the short one keeps its place
// and length in registers.
pub fn read_tag(s: &[u8], at: usize, padded: &mut bool) -> Option<Tag>
    ensures answer { result ≡ tag_at s.now at }
    ensures told { padded.new ≡ (padded.old || padded_at s.now at) }
{
    let n = s.len();
    if n <= at {
        return None;
    }
    let tag = u64::from(s[at]);
    if 128 <= tag {
        return long_tag(&s[..n], at + 1, s[at], padded);
    }
    if tag < 8 {
        return None;
    }
    if 6 <= tag % 8 {
        return None;
    }
    Some(Tag {
        number: tag / 8,
        wire: tag % 8,
        next: at + 1,
    })
}

// The long way, from the second byte on: `first` has others behind it.
fn long_tag(s: &[u8], at: usize, first: u8, padded: &mut bool) -> Option<Tag>
    ensures answer { result ≡ tag_of (behind_first first s.now at) }
    ensures told { 128 ≤ first → padded.new ≡ (padded.old || padded_behind first s.now at) }
{
    let tag = varint::read_behind(s, at, first, padded)?;
    if uint32::COUNT <= tag.value {
        return None;
    }
    if tag.value < 8 {
        return None;
    }
    if 6 <= tag.value % 8 {
        return None;
    }
    Some(Tag {
        number: tag.value / 8,
        wire: tag.value % 8,
        next: tag.next,
    })
}
