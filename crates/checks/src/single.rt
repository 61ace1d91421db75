// The single tests that the calls share.
ghost use Rattle.std.specs.Prelude.{◌≡◌, not, [], ◌∷◌, length, Some, ◌==◌, nat_le};
ghost use Rattle.std.specs.List.{slice_get};
ghost use Rattle.lines.specs.Intervals.{waiting};
ghost use Rattle.tables.specs.Answers.{as_message};
ghost use Rattle.tables.specs.Tables.{processes, row_of, family};
ghost use Rattle.histories.specs.Calls.{by_host};
ghost use Rattle.histories.specs.Tests.{absent, no_number, too_large};
ghost use Rattle.checks.specs.Checks.{Checked};

use crate::refusal::Refusal;
use crate::state::HostState;
use tables::channel::Waiting;

// The number of an input or an output: 1 to 96.
pub(crate) fn numbered(n: u64, position: u8) -> Result<(), Refusal>
    ensures { Checked (no_number n position ∷ []) (λ _. Unit {0}) result }
{
    if n == 0 || n > 96 {
        return Err(Refusal::OutOfRange(position));
    }
    Ok(())
}

// The number of a fuse or of a revive: at most 65,535.
pub(crate) fn limited(k: u64, position: u8) -> Result<(), Refusal>
    ensures { Checked (too_large k position ∷ []) (λ _. Unit {0}) result }
{
    if k > 65_535 {
        return Err(Refusal::OutOfRange(position));
    }
    Ok(())
}

impl HostState {
    // The process with this number, an argument at this position.
    pub(crate) fn existing(&self, process: u64, position: u8) -> Result<u8, Refusal>
        ensures { Checked (absent (processes self.now.table) process position ∷ []) (λ p. p ≡ process) result }
    {
        if process >= self.table.processes() as u64 {
            return Err(Refusal::NoProcess(position));
        }
        Ok(process as u8)
    }

    // The host is not dark.
    pub(crate) fn awake(&self) -> Result<(), Refusal>
        ensures { Checked ((self.now.dark, by_host 10 0) ∷ []) (λ _. Unit {0}) result }
    {
        if self.dark {
            return Err(Refusal::Dark);
        }
        Ok(())
    }

    // The host is not dark, and the process is up.
    pub(crate) fn standing(&self, process: u8) -> Result<(), Refusal>
        ensures { Checked ((self.now.dark, by_host 10 0) ∷ (not (row_of self.now.table process).up, by_host 12 0) ∷ []) (λ _. Unit {0}) result }
    {
        self.awake()?;
        if !self.table.is_up(process) {
            return Err(Refusal::Down);
        }
        Ok(())
    }

    // The next message that waits from `source` to `target`.
    pub(crate) fn first_waiting(&self, source: u8, target: u8) -> Result<Waiting, Refusal>
        ensures { Checked (((length (waiting (family self.now.table) source target) == 0), by_host 16 0) ∷ []) (λ m. slice_get (waiting (family self.now.table) source target) 0 ≡ Some (as_message m)) result }
    {
        self.table
            .next_waiting(source, target)
            .ok_or(Refusal::NoneWaits)
    }

    // The process has a place for one interval more.
    pub(crate) fn unfilled(&self, process: u8) -> Result<(), Refusal>
        ensures { Checked ((nat_le 96 (length (family self.now.table process)), by_host 17 0) ∷ []) (λ _. Unit {0}) result }
    {
        if self.table.intervals(process).len() >= 96 {
            return Err(Refusal::RowFull);
        }
        Ok(())
    }
}
