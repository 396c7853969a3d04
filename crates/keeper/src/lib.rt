// Look and step: what a session answers to a frame, on words that the host owns. `inspect` has what else a host needs
// to know before a step, `value` has look and step for a session by value.
#![tactic(auto)]

mod answer;
pub mod inspect;
pub mod look;
pub mod padded;
mod refusal;
mod report;
mod rows;
pub mod step;
pub mod value;
pub mod work;
