// What can be read off a run at all times.
ghost use Rattle.std.specs.Prelude.{◌≡◌, ◌<◌, ◌≤◌, MatchOption};
ghost use Rattle.runs.specs.Held.{count, configuration};

use crate::runner::{Message, Output, Runner};
use programs::values::State;

impl<P> Runner<P> {
    pub fn count(&self) -> u8
        ensures { result ≡ count self.now }
    {
        self.states.len() as u8
    }

    // All that waits, in the order in which it was sent.
    pub fn waiting(&self) -> &[Message]
        ensures { result.now ≡ self.now.waiting.items }
    {
        self.waiting.as_slice()
    }

    // All that was put out, in the order in which it came.
    pub fn outputs(&self) -> &[Output]
        ensures { result.now ≡ self.now.outputs.items }
    {
        self.outputs.as_slice()
    }

    // The state of a process, if there is one of that number.
    pub fn state(&self, process: u8) -> Option<State>
        ensures { MatchOption result (count self.now ≤ process) (λ s. (process < count self.now) × (s ≡ (configuration self.now).state process)) }
    {
        self.states.get(process as usize).copied()
    }
}
