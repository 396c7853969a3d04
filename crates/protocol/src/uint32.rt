// Numbers of 32 bits: a uint32 and an enum keep what is left of a number divided by this (W3).
pub const COUNT: u64 = 0x1_0000_0000;
