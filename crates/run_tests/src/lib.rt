// Tests of programs, runs and days on worked examples.
#![tactic(auto)]

#[cfg(test)]
mod building;
#[cfg(test)]
mod programs_alone;
#[cfg(test)]
mod runs_alone;
#[cfg(test)]
mod whole_days;
