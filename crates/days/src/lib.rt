// A day at the wholesaler's: its lines, what is done with them, and what is told of it.
#![tactic(auto)]

pub mod entry;
pub mod event;
pub mod shop;
