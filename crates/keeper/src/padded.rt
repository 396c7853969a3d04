// What a look and a step say of padded varints.
ghost use Rattle.std.specs.Prelude.{◌≡◌};
ghost use Rattle.rules.specs.Step.{said};

use protocol::reason;

// A frame refused 1 to 6 says no, any other what was read. It is asked about the number that a host is told.
pub fn said(reason: u64, padded: bool) -> bool
    ensures { result ≡ said reason padded }
{
    padded && !(reason::NOT_ALL_THERE..=reason::BAD_PAYLOAD).contains(&reason)
}
