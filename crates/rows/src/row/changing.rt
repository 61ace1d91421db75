// What changes a row; each method says what the whole row then holds.
ghost use Rattle.std.specs.Prelude.{◌≡◌, ◌<◌};
ghost use Rattle.rows.specs.Rows.{held, fresh, pushed, cut_to, crashed, all_saved, resumed, at_state};

use crate::full::RowFull;
use crate::row::{MOST, Row};
use programs::values::State;
use records::Interval;

impl Row {
    // A process that is up, with no intervals.
    pub fn new(state: State) -> Row
        ensures { held result ≡ fresh state }
    {
        Row {
            intervals: [Interval::EMPTY; 96],
            count: 0,
            saved: 0,
            up: true,
            state,
        }
    }

    // One interval more; refused where 96 stand, and then nothing changes.
    pub fn push(&mut self, x: Interval) -> Result<(), RowFull>
        ensures { (result, held self.new) ≡ pushed x (held self.old) }
    {
        if self.count() >= MOST {
            return Err(RowFull);
        }
        self.intervals[self.count as usize] = x;
        self.count += 1;
        Ok(())
    }

    // Only the first `n` intervals stand, all of them if there are fewer; no more than that are saved.
    pub fn cut(&mut self, n: u8)
        ensures { held self.new ≡ cut_to n (held self.old) }
    {
        self.saved = self.saved.min(n);
        self.count = self.count.min(n);
    }

    // The process goes down and loses what it has not saved.
    pub fn crash(&mut self)
        ensures { held self.new ≡ crashed (held self.old) }
    {
        self.cut(self.saved);
        self.up = false;
    }

    // All that stand are saved.
    pub fn save(&mut self)
        ensures { held self.new ≡ all_saved (held self.old) }
    {
        self.saved = self.count();
    }

    // The process is up, in the state that its intervals led to.
    pub fn resume(&mut self, state: State)
        ensures { held self.new ≡ resumed state (held self.old) }
    {
        self.up = true;
        self.enter(state);
    }

    // A step led to this state.
    pub fn enter(&mut self, state: State)
        ensures { held self.new ≡ at_state state (held self.old) }
    {
        self.state = state;
    }
}
