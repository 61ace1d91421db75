// The runner: a program's processes, what waits between them, and what they have put out.
ghost use Rattle.std.specs.Prelude.{◌≡◌, ◌<◌, ◌≤◌, Some, vec_len};
ghost use Rattle.std.specs.List.{All};
ghost use Rattle.runs.specs.declared.runner.RunError.TheVariants.{Memory};
ghost use Rattle.runs.specs.Texts.{error_text};

use programs::values::State;
use std::alloc::{AllocError, AllocFailed};
use std::error::Error;
use std::fmt;

mod making;
mod reading;
mod settling;
mod stepping;
mod texts;

// A value on its way from the process `source` to the process `target`.
#[derive(Clone, Copy, PartialEq, Eq, Debug)]
pub struct Message {
    pub source: u8,
    pub target: u8,
    pub value: u64,
}

#[derive(Clone, Copy, PartialEq, Eq, Debug)]
pub struct Output {
    pub process: u8,
    pub value: u64,
}

#[derive(Drop)]
pub struct Runner<P> {
    program: P,
    states: Vec<State>,
    // of all channels, in the order in which they were sent
    waiting: Vec<Message>,
    // of all processes, in the order in which they came
    outputs: Vec<Output>,
    ghost few: { vec_len states ≤ 8 },
    // what waits is between processes that exist
    ghost sources: { All (λ m. m.source < vec_len states) waiting.items },
    ghost targets: { All (λ m. m.target < vec_len states) waiting.items },
}

// Why a runner was not made, or did not move: it is then as it was.
#[derive(Clone, Copy, PartialEq, Eq, Debug)]
pub enum RunError {
    // a run has 1 to 8 processes
    ProcessCount,
    NoSuchProcess,
    NothingWaiting,
    // messages still wait after as many deliveries as were allowed
    Unsettled,
    Memory,
}

// By hand, as a derive's conversions and texts have no contract.
// `reserve` fails with an `AllocError` and `push` with the value that it refused; `?` converts each by an impl of its own
impl From<AllocError> for RunError {
    ghost from_gives = { λ _ r. r ≡ Memory };

    fn from(_e: AllocError) -> RunError {
        RunError::Memory
    }
}

impl<T: Drop> From<AllocFailed<T>> for RunError {
    ghost from_gives = { λ _ r. r ≡ Memory };

    fn from(_e: AllocFailed<T>) -> RunError {
        RunError::from(AllocError)
    }
}

impl fmt::Display for RunError {
    ghost output = { λ e. Some (error_text e) };

    fn fmt<W: fmt::Write>(&self, f: &mut fmt::Formatter<W>) -> fmt::Result {
        f.write_str(self.text())
    }
}

impl Error for RunError {}
