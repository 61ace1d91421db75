// What a program is, and the two programs of the house.
#![tactic(auto)]

pub mod orders;
pub mod program;
pub mod relay;
pub mod values;
