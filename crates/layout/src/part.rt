// A message embedded in another, and the places of its fields.
ghost use Rattle.std.specs.Prelude.{◌≡◌, ◌||◌};
ghost use Rattle.layout.specs.Row.{columns_of};
ghost use Rattle.layout.specs.private.Found.{Holds};
ghost use Rattle.layout.specs.Part.{embedded};
ghost use Rattle.layout.specs.Padded.{part_padded};

use crate::found::Found;
use crate::row::Row;

// The place and length of some bytes of a frame.
#[repr(C)]
#[derive(Clone, Copy)]
pub struct Part {
    pub start: usize,
    pub len: usize,
}

impl Found {
    // The message with these rows in `len` bytes of s from `start` on. Answers as fill_fields does.
    pub fn fill_part(
        &mut self,
        rows: &[Row],
        s: &[u8],
        start: usize,
        len: usize,
        padded: &mut bool,
    ) -> bool
        ensures holds { Holds (embedded (columns_of rows.now) s.now start len) result self.new }
        ensures told { padded.new ≡ (padded.old || part_padded s.now start len) }
    {
        if s.len() < start {
            self.clear();
            return false;
        }
        if s.len() - start < len {
            self.clear();
            return false;
        }
        self.fill_fields(rows, s, start, start + len, padded)
    }
}
