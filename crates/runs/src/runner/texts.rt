// The errors of a run in words.
ghost use Rattle.std.specs.Prelude.{◌≡◌};
ghost use Rattle.runs.specs.Texts.{error_text};

use crate::runner::RunError;

impl RunError {
    pub fn text(&self) -> &'static str
        ensures { result.now ≡ error_text self.now }
    {
        match self {
            RunError::ProcessCount => "a run has 1 to 8 processes",
            RunError::NoSuchProcess => "there is no such process",
            RunError::NothingWaiting => "no message waits there",
            RunError::Unsettled => "messages still wait",
            RunError::Memory => "out of memory",
        }
    }
}
