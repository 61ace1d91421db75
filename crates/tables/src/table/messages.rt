// The message that waits next between two processes, and the vectors of the intervals to come.
ghost use Rattle.std.specs.Prelude.{◌≡◌, ℕ};
ghost use Rattle.std.specs.List.{slice_get};
ghost use Rattle.std.specs.Option.{option_map};
ghost use Rattle.programs.specs.Program.{Meaning};
ghost use Rattle.programs.specs.declared.values.State.{State as Words};
ghost use Rattle.lines.specs.Intervals.{waiting, by_input, by_delivery};
ghost use Rattle.tables.specs.Answers.{as_message};
ghost use Rattle.tables.specs.Tables.{family};

use crate::channel::{Waiting, sent_after};
use crate::table::Table;
use crate::vector::{after_delivery, after_input};
use rows::part::first;
use rows::source::count_from;

impl Table {
    // The next message that waits from `source` to `target`.
    pub fn next_waiting(&self, source: u8, target: u8) -> Option<Waiting>
        ensures { option_map as_message result ≡ slice_get (waiting (family self.now) source target) 0 }
    {
        // as `Row::taken` counts; what is no process has no row but has taken none, so that this is the plainer
        let taken = count_from(self.intervals(target), source);
        sent_after(self.intervals(source), target, taken)
    }

    // The vector of the interval that an input would begin.
    pub fn input_vector(&self, process: u8) -> [u8; 8]
        ensures { (M : Meaning) (N v : ℕ) (s : Words) → result ≡ (by_input M N process s (family self.now process) v).vector }
    {
        after_input(self.intervals(process), process)
    }

    // The vector of the interval that the delivery of `message` would begin.
    pub fn delivery_vector(&self, source: u8, target: u8, message: Waiting) -> [u8; 8]
        ensures { (M : Meaning) (N : ℕ) (s : Words) → result ≡ (by_delivery M N s (family self.now) source target (as_message message)).vector }
    {
        let sending = first(self.intervals(source), message.sent_at);
        after_delivery(self.intervals(target), sending, target)
    }
}
