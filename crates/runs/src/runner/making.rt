// The beginning of a run.
ghost use Rattle.runs.specs.Answers.{Begins};

use crate::runner::{RunError, Runner};
use programs::program::Program;
use std::alloc::Global;

impl<P: Program + Drop> Runner<P> {
    // A run of `count` processes, 1 to 8, each at its start.
    pub fn new(heap: Global, program: P, count: u8) -> Result<Runner<P>, RunError>
        ensures { Begins (P.Program.means program) program count result }
    {
        if count < 1 || count > 8 {
            return Err(RunError::ProcessCount);
        }
        // a loop, since of a `collect` over the program's bound the proof finds the items, but not how many they are
        let mut states = Vec::new(heap);
        for p in 0..count {
            states.push(program.start(p))?;
        }
        Ok(Runner {
            program,
            states,
            waiting: Vec::new(heap),
            outputs: Vec::new(heap),
        })
    }
}
