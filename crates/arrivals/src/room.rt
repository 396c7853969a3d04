// Room behind the bytes held.
ghost use Rattle.std.specs.Prelude.{◌≡◌, ◌+◌, ◌-◌, ◌≤◌, length};
ghost use Rattle.streams.specs.Reader.{reader_for, store_for};

use encode::shift::move_front;
use streams::Reader;

// Where the bytes held stand once there is room for n more behind them. They are moved only where n more would not
// fit behind them as they stand.
pub(crate) fn make_room(held: Reader, n: usize, store: &mut [u8]) -> Reader
    requires start_le_end { (held.start ≤ held.end) × (held.end ≤ length store.old) }
    requires n_in_bounds { n ≤ length store.old - (held.end - held.start) }
    ensures place { result ≡ reader_for store.old held n }
    ensures stored { store.new ≡ store_for store.old held n }
    ensures fits { (result.start ≤ result.end) × (result.end + n ≤ length store.old) }
{
    let start = held.start;
    let end = held.end;
    if n <= store.len() - end {
        return held;
    }
    move_front(store, start, end - start);
    Reader {
        start: 0,
        end: end - start,
    }
}
