// The row of a process, and what is read off its intervals.
#![tactic(auto)]

pub mod full;
mod output;
pub mod part;
pub mod row;
pub mod source;
