// What a frame means: its head, the request that it holds, the chosen body and the arguments.
#![tactic(auto)]

pub mod execute;
mod first;
pub mod frame;
pub mod head;
pub mod operation;
mod outer;
pub mod payload;
pub mod prepare;
pub mod request;
pub mod simple;
mod twice;
