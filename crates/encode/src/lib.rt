// Bytes put into a lent buffer: single bytes, parts, fixed values, varints, fields and heads of frames.
#![tactic(auto)]

pub mod field;
pub mod head;
pub mod number;
pub mod put;
pub mod shift;
