// Reading a message by the layout table: which fields it has, and where they stand.
#![tactic(auto)]

pub mod fields;
pub mod found;
pub mod merge;
pub mod part;
pub mod parts;
pub mod row;
pub mod rows;
pub mod slots;
mod table;
