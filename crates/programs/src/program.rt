// What a program is: anything with a start and a step that keeps to its meaning.
ghost use Rattle.std.specs.Prelude.{◌≡◌};
ghost use Rattle.programs.specs.Program.{Meaning, Targeted};

use crate::values::{Sends, State};

// What a step gives: the new state, the sends and the output.
pub type Step = (State, Sends, Option<u64>);

// Both functions take `&self`: a program stays as it is.
pub trait Program {
    ghost means: { Self → Meaning };

    // The first state of a process.
    fn start(&self, process: u8) -> State
        ensures { result ≡ (means self.now).start process };

    // The arguments are those that the rules name.
    // What a process does with a value from `source`, a process or `OUTSIDE`.
    fn step(&self, process: u8, state: State, source: u8, value: u64) -> Step
        ensures { result ≡ (means self.now).step process state source value };

    // Every target of a send is below 8.
    ghost targeted: { (x : Self) → Targeted (means x) };
}
