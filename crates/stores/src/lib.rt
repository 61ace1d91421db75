// Stores: what keeps records over a loss of power.
#![tactic(auto)]

pub mod fault;
pub mod medium;
pub mod power;
pub mod record_store;
pub mod slots;
pub mod store;
