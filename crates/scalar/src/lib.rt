// The values that fields carry: fixed values of four and eight bytes, zigzag numbers, and one argument of a statement.
#![tactic(auto)]

pub mod argument;
pub mod fixed;
pub mod zigzag;
