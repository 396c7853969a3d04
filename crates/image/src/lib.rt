// A session handed to another server: written to an image, and read back from one. What an image is stands in crate
// image_rules.
#![tactic(auto)]

ghost use Rattle.std.specs.Prelude.{◌≡◌};
ghost use Rattle.session.specs.Words.{session_of};
ghost use Rattle.protocol.specs.Reason.{outcome_number};
ghost use Rattle.image_rules.specs.Image.{buffer_with, written_of};
ghost use Rattle.image_rules.specs.Restore.{restore_of};

use image_rules::Written;
use protocol::reason::Reason;
use session::{Session, WORDS};

mod numbers;
mod put;
mod read;
mod write;

// The bytes that the image of any session fits.
pub const MAX_IMAGE: usize = 1044;

// The image of a session, at the front of `buf`. Refused 3 exactly if the buffer is too small, and then nothing is
// written.
pub fn write_image(words: &[u32; WORDS], buf: &mut [u8]) -> Written
    ensures answer { result ≡ written_of (session_of words.now) buf.old }
    ensures buffer { buf.new ≡ buffer_with (session_of words.now) buf.old }
{
    let mut image = [0; MAX_IMAGE];
    let len = write::put_image(&mut image, words);
    write::hand_over(&image[..len], buf)
}

// The session of an image in the place of this one. Refused 18 where the image is not acceptable: the session then is
// as it was.
pub fn restore(words: &mut [u32; WORDS], image: &[u8]) -> Result<(), Reason>
    ensures answer { outcome_number result ≡ (restore_of (session_of words.old) image.now).reason }
    ensures session { session_of words.new ≡ (restore_of (session_of words.old) image.now).session }
{
    let mut restored = Session::fresh();
    if read::take_image(&mut restored.words, image).is_none() {
        return Err(Reason::BadImage);
    }
    *words = restored.words;
    Ok(())
}
