// What can be read off a row.
ghost use Rattle.std.specs.Prelude.{◌≡◌, ◌≤◌, length, take};
ghost use Rattle.lines.specs.Intervals.{taken, next_input};
ghost use Rattle.rows.specs.Outputs.{nth_output};
ghost use Rattle.rows.specs.Rows.{standing, held};

use crate::output::nth_output;
use crate::part::first;
use crate::row::Row;
use crate::source::count_from;
use programs::values::{OUTSIDE, State};
use records::Interval;

impl Row {
    // The intervals that stand, in order.
    pub fn intervals(&self) -> &[Interval]
        ensures value { result.now ≡ standing self.now }
        ensures few { length result.now ≤ 96 }
    {
        &self.intervals[0..self.count as usize]
    }

    pub fn count(&self) -> u8
        ensures { result ≡ length (standing self.now) }
    {
        self.intervals().len() as u8
    }

    pub fn saved(&self) -> u8
        ensures { result ≡ (held self.now).saved }
    {
        self.saved
    }

    pub fn is_up(&self) -> bool
        ensures { result ≡ (held self.now).up }
    {
        self.up
    }

    // How many of the intervals began with a message from `source`.
    pub fn taken(&self, source: u8) -> u8
        ensures { result ≡ taken source (standing self.now) }
    {
        count_from(self.intervals(), source) as u8
    }

    // The number that the next input has.
    pub fn next_input(&self) -> u8
        ensures { result ≡ next_input (standing self.now) }
    {
        count_from(self.intervals(), OUTSIDE) as u8 + 1
    }

    // The `n`-th output, counted from 1, of the intervals up to the index `line`.
    pub fn output(&self, line: u8, n: u64) -> Option<u64>
        ensures { result ≡ nth_output n (take line (standing self.now)) }
    {
        nth_output(first(self.intervals(), line), n)
    }

    pub fn state(&self) -> State
        ensures { result ≡ (held self.now).state }
    {
        self.state
    }
}
