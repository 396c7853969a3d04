// The numbers of the protocol, each under its name.
#![tactic(auto)]

pub mod anys;
pub mod client;
pub mod fields;
pub mod reason;
pub mod scalars;
pub mod server;
pub mod uint32;
pub mod wire_type;
