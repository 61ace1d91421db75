// Reads a store's records back: the rows of all processes, and where the replay of one begins.
#![tactic(auto)]

pub mod checkpoint;
mod fetch;
pub mod loading;
pub mod replay;
