// The arguments of a message: one by one, and all together.
#![tactic(auto)]

pub mod arguments;
pub mod bound;
pub mod judge;
mod keys;
pub mod kind;
pub mod pair;
pub mod value;
