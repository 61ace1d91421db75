// The two moves of a run.
ghost use Rattle.std.specs.Prelude.{◌≡◌, ◌+◌, ◌<◌, ◌≤◌, ◌==◌, ◌&&◌, ◌++◌, length, map, vec_len, vec_capacity};
ghost use Rattle.std.specs.List.{position};
ghost use Rattle.programs.specs.Values.{listed};
ghost use Rattle.runs.specs.Answers.{Takes, Moves};
ghost use Rattle.runs.specs.Held.{count};
ghost use Rattle.runs.specs.Inside.{message, StepsOrNot};

use crate::runner::{Message, Output, RunError, Runner};
use programs::program::Program;
use programs::values::{OUTSIDE, Sends};

// The sends of `source` join the ends of its channels.
fn post(waiting: &mut Vec<Message>, source: u8, sends: Sends)
    requires { vec_len waiting.old + length (listed sends) ≤ vec_capacity waiting.old }
    ensures { waiting.new.items ≡ waiting.old.items ++ map (message source) (listed sends) }
{
    for m in sends {
        waiting.push_reserved(Message {
            source,
            target: m.target,
            value: m.value,
        });
    }
}

// The place of the first message from `source` to `target`.
fn first(waiting: &[Message], source: u8, target: u8) -> Option<usize>
    ensures { result ≡ position (λ m. (m.source == source) && m.target == target) waiting.now }
{
    waiting
        .iter()
        .position(|m| m.source == source && m.target == target)
}

impl<P: Program> Runner<P> {
    // Process `process` steps with a value from `source`; without room for what it may add, nothing has changed.
    fn step(&mut self, process: u8, source: u8, value: u64) -> Result<(), RunError>
        requires { process < count self.old }
        ensures { StepsOrNot (P.Program.means self.old.program) process source value self.old self.new result }
    {
        self.waiting.reserve(2)?;
        self.outputs.reserve(1)?;
        let count = self.count();
        let at = process as usize;
        let (state, sends, output) = self.program.step(process, self.states[at], source, value);
        self.states[at] = state;
        post(&mut self.waiting, process, sends.within(count));
        if let Some(value) = output {
            self.outputs.push_reserved(Output { process, value });
        }
        Ok(())
    }

    // An input: the process steps with a value from outside.
    #[tactic(auto, using(crate::proofs::Moves::takes_or_not))]
    pub fn take(&mut self, process: u8, value: u64) -> Result<(), RunError>
        ensures { Takes (P.Program.means self.old.program) process value self.old self.new result }
    {
        if process >= self.count() {
            return Err(RunError::NoSuchProcess);
        }
        self.step(process, OUTSIDE, value)
    }

    // A delivery: the first message that waits from `source` to `target` is taken; answers its value.
    #[tactic(auto, using(crate::proofs::Channels::frees, crate::proofs::Channels::none_waits, crate::proofs::Moves::not_empty))]
    pub fn move_first(&mut self, source: u8, target: u8) -> Result<u64, RunError>
        ensures { Moves (P.Program.means self.old.program) source target self.old self.new result }
    {
        if source >= self.count() || target >= self.count() {
            return Err(RunError::NoSuchProcess);
        }
        let Some(at) = first(self.waiting.as_slice(), source, target) else {
            return Err(RunError::NothingWaiting);
        };
        let value = self.waiting[at].value;
        // what the step sends stands behind the message, so that it is still at its place
        self.step(target, source, value)?;
        self.waiting.remove(at);
        Ok(value)
    }
}
