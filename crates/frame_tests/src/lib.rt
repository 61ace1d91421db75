// Frames and the byte store, on examples.
#![tactic(auto)]

#[cfg(test)]
mod bytes;
#[cfg(test)]
mod frames_back;
#[cfg(test)]
mod samples;
