// The places of cursors that pass a test, as bits: the lowest is that of the first place.
ghost use Rattle.std.specs.Prelude.{◌≡◌};
ghost use Rattle.session.specs.Entry.{passes};
ghost use Rattle.session.specs.Lists.{mask_of};
ghost use Rattle.session.specs.Words.{cursors_in};

use crate::{MAX_CURSORS, WORDS, Which, find};

// The cursors that pass.
pub fn passing(words: &[u32; WORDS], which: Which) -> u64
    ensures { result ≡ mask_of (passes which) (cursors_in words.now) }
{
    let mut mask = 0;
    for i in (0..MAX_CURSORS).rev() {
        mask = 2 * mask + u64::from(find::passes(words, i, which));
    }
    mask
}
