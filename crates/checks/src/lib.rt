// Why a host refuses a call, and the tests of each call in their order.
#![tactic(auto)]

pub mod calls;
pub mod host_lines;
pub mod refusal;
mod single;
pub mod state;
