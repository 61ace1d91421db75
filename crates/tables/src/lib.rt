// The table of all processes, what waits between them, and the greatest line.
#![tactic(auto)]

pub mod channel;
pub mod entries;
pub mod line;
mod lowering;
pub mod table;
mod vector;
