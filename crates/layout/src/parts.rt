// The parts of a message that comes in parts, as a walk over them stands. Its steps are in `merge`.
ghost use Rattle.std.specs.Prelude.{◌≤◌, length};

// The parts in field `number` of a message, or of each part of one: those from `at` on up to `end`, and then those of
// the parts in field `outer` from `next` on.
#[derive(Clone, Copy)]
pub struct Parts<'a> {
    pub s: &'a [u8],
    pub(crate) number: u64,
    pub(crate) at: usize,
    pub(crate) end: usize,
    pub(crate) outer: u64,
    pub(crate) next: usize,
    ghost inside: { end ≤ length s.now },
}
