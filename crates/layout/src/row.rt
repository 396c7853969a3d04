// One row of the layout table, and whether it takes a field.
ghost use Rattle.std.specs.Prelude.{◌≡◌};
ghost use Rattle.layout.specs.Row.{columns, listed, takes};

use crate::slots::SLOTS;
use protocol::uint32;

// A known field of a message: its number and wire type, whether it must occur and whether it may occur more than once,
// and the listed values v of an enum as the sum of 2^v (0: no enum).
#[derive(Clone, Copy)]
pub struct Row {
    pub message: u16,
    pub listed: u16,
    pub number: u16,
    pub wire: u16,
    pub required: u16,
    pub repeated: u16,
}

// Required or optional; repeated or not. A column may hold any number, and what is not 1 is not required, not repeated.
pub(crate) const MUST: u16 = 1;

pub(crate) const MAY: u16 = 0;

pub(crate) const MANY: u16 = 1;

pub(crate) const ONCE: u16 = 0;

// The values that `listed` can list.
const LISTED_BITS: u64 = 16;

// Whether an enum's value is among the listed ones.
pub fn is_listed(values: u16, value: u64) -> bool
    ensures { result ≡ listed values value }
{
    if values == 0 {
        return true;
    }
    let v = value % uint32::COUNT;
    if LISTED_BITS <= v {
        return false;
    }
    (u64::from(values) >> v) % 2 == 1
}

impl Row {
    pub fn takes(self, number: u64, wire: u64, value: u64) -> bool
        ensures { result ≡ takes (columns self) number wire value }
    {
        if SLOTS as u64 <= number {
            return false;
        }
        if u64::from(self.number) != number {
            return false;
        }
        if u64::from(self.wire) != wire {
            return false;
        }
        is_listed(self.listed, value)
    }
}
