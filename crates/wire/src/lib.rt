// The wire format of the Protocol Buffers encoding: tags, values by wire type, groups, fields.
#![tactic(auto)]

pub mod field;
pub mod group;
pub mod tag;
pub mod value;
