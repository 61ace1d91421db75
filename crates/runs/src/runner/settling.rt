// Deliveries until nothing waits.
ghost use Rattle.runs.specs.Answers.{Settles};

use crate::runner::{RunError, Runner};
use programs::program::Program;

impl<P: Program> Runner<P> {
    // Delivers the oldest message again and again until nothing waits; refused if `limit` deliveries are too few for that.
    pub fn settle(&mut self, limit: u64) -> Result<(), RunError>
        ensures { Settles (P.Program.means self.old.program) limit self.old self.new result }
    {
        for _ in 0..limit {
            let Some(oldest) = self.waiting.first().copied() else {
                return Ok(());
            };
            self.move_first(oldest.source, oldest.target)?;
        }
        if self.waiting.is_empty() {
            Ok(())
        } else {
            Err(RunError::Unsettled)
        }
    }
}
