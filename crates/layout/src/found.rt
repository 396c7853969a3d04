// What is found of a message's field list, by field number, in a place that the caller of a reader lends.
ghost use Rattle.std.specs.Prelude.{ℕ, ◌≡◌, ◌+◌, ◌<◌};
ghost use Rattle.layout.specs.Row.{slot_count};
ghost use Rattle.layout.specs.Slots.{bad_slots};
ghost use Rattle.layout.specs.declared.fields.Use.{Use};
ghost use Rattle.layout.specs.private.Found.{Noted, Notes, up_to_two};

use crate::slots::SLOTS;

// Of a field number: whether it occurs never (0), once or more often (2), and of the occurrence that counts the value
// and the place of its bytes. These two stand apart, and not as in a `Field`: else they are copied from one at once,
// right after they were written one by one, for which a processor waits.
#[derive(Clone, Copy)]
pub struct Slot {
    pub value: u64,
    pub times: u8,
    pub start: usize,
}

const EMPTY: Slot = Slot {
    value: 0,
    times: 0,
    start: 0,
};

#[derive(Clone, Copy)]
pub struct Found {
    pub slots: [Slot; SLOTS],
}

impl Found {
    // Nothing.
    pub fn new() -> Found
        ensures { Noted bad_slots result }
    {
        Found {
            slots: [EMPTY; SLOTS],
        }
    }

    pub fn clear(&mut self)
        ensures { Noted bad_slots self.new }
    {
        self.slots = [EMPTY; SLOTS];
    }

    // One occurrence more of the number k.
    pub(crate) fn count(&mut self, k: usize)
        requires { k < slot_count }
        ensures { (value start : ℕ) → Notes Use.Counted k value start self.old self.new }
    {
        self.slots[k].times = once_more(self.slots[k].times);
    }

    // One more, which is kept in the place of an earlier one.
    pub(crate) fn keep(&mut self, k: usize, value: u64, start: usize)
        requires { k < slot_count }
        ensures { Notes Use.Kept k value start self.old self.new }
    {
        self.slots[k] = Slot {
            times: once_more(self.slots[k].times),
            value,
            start,
        };
    }
}

// Once more than this; 2 says twice or more.
fn once_more(times: u8) -> u8
    ensures { result ≡ up_to_two (times + 1) }
{
    if times == 0 { 1 } else { 2 }
}
