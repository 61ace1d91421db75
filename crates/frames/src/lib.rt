// The frames of records: bytes of a record that a power cut cannot mistake for another's.
#![tactic(auto)]

pub mod edge;
pub mod read;
pub mod write;
