// Varints of the Protocol Buffers encoding: read at a place of a byte string. Whether one is padded goes into a flag
// that the caller lends: it is on afterwards where it was on before or the varint is padded. So a reader of many
// varints asks once, and what is read in one byte, as most are, costs nothing for it.
#![tactic(auto)]

ghost use Rattle.std.specs.Prelude.{◌≡◌, ◌||◌, ◌^◌, ◌<◌, ◌≤◌};
ghost use Rattle.varint.specs.Varint.{groups, low64, onto, varint_at};
ghost use Rattle.varint.specs.Padded.{padded_at};
ghost use Rattle.varint.specs.private.Behind.{behind_first, padded_behind, padded_tenth};

// A number that was read, and the place behind it.
#[derive(Clone, Copy)]
pub struct Number {
    pub value: u64,
    pub next: usize,
}

// With a short way for a number of one byte, which most are. The slice is lent anew to the long way, so that the short
// one keeps its place and length in registers.
pub fn read_varint(s: &[u8], at: usize, padded: &mut bool) -> Option<Number>
    ensures answer { result ≡ varint_at s.now at }
    ensures told { padded.new ≡ (padded.old || padded_at s.now at) }
{
    let n = s.len();
    if n <= at {
        return None;
    }
    let b = u64::from(s[at]);
    if b < 128 {
        return Some(Number {
            value: b,
            next: at + 1,
        });
    }
    read_behind(&s[..n], at + 1, s[at], padded)
}

// The same, with short ways for one byte and for two, which ids and counts of rows mostly have. Of the two functions
// one has the shorter code, which its callers take in.
pub fn read_short(s: &[u8], at: usize, padded: &mut bool) -> Option<Number>
    ensures answer { result ≡ varint_at s.now at }
    ensures told { padded.new ≡ (padded.old || padded_at s.now at) }
{
    let n = s.len();
    if n <= at {
        return None;
    }
    let low = u64::from(s[at]);
    if low < 128 {
        return Some(Number {
            value: low,
            next: at + 1,
        });
    }
    if n - at < 2 {
        return None;
    }
    let high = u64::from(s[at + 1]);
    if high < 128 {
        mark(high == 0, padded);
        return Some(Number {
            value: low % 128 + high * 128,
            next: at + 2,
        });
    }
    read_behind(&s[..n], at + 1, s[at], padded)
}

// The long way, from the second byte on: `first` has others behind it. Of a first byte that has none the flag says
// nothing.
pub fn read_behind(s: &[u8], at: usize, first: u8, padded: &mut bool) -> Option<Number>
    ensures answer { result ≡ behind_first first s.now at }
    ensures told { 128 ≤ first → padded.new ≡ (padded.old || padded_behind first s.now at) }
{
    let mut value: u64 = u64::from(first) % 128;
    let mut weight: u64 = 128;
    let mut i = at;
    for _ in 1..9usize {
        if s.len() <= i {
            return None;
        }
        let b = u64::from(s[i]);
        i += 1;
        if b < 128 {
            let v = value + b * weight;
            mark(v < weight, padded);
            return Some(Number { value: v, next: i });
        }
        value += b % 128 * weight;
        weight *= 128;
    }
    last_group(s, i, value, padded)
}

// The tenth group, on top of the 63 bits of the first nine: only its lowest bit is kept.
fn last_group(s: &[u8], at: usize, low: u64, padded: &mut bool) -> Option<Number>
    requires { low < 2 ^ 63 }
    ensures answer { result ≡ low64 (onto low (2 ^ 63) (groups 1 s.now at)) }
    ensures told { padded.new ≡ (padded.old || padded_tenth s.now at) }
{
    if s.len() <= at {
        return None;
    }
    let b = u64::from(s[at]);
    if 128 <= b {
        return None;
    }
    mark(b != 1, padded);
    Some(Number {
        value: low + b % 2 * 0x8000_0000_0000_0000,
        next: at + 1,
    })
}

// The flag goes on.
fn mark(on: bool, padded: &mut bool)
    ensures { padded.new ≡ (padded.old || on) }
{
    if on {
        *padded = true;
    }
}
