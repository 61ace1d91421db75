// Runs without failure, carried out step by step.
#![tactic(auto)]

pub mod runner;
