// A process row: what one process has recorded, how much of it is saved, whether it is up, and its state.
ghost use Rattle.std.specs.Prelude.{◌≡◌, ◌≤◌, length};

use programs::values::State;
use records::Interval;

mod changing;
mod reading;

// The most intervals that a process has.
pub const MOST: u8 = 96;

// Contracts see it by `held`, and not by a model: a copy keeps the places that such a view would forget.
#[derive(Clone, Copy)]
pub struct Row {
    // of these only the first `count` stand: an array with a count, since there is no heap
    intervals: [Interval; 96],
    count: u8,
    // the first of them that are saved
    saved: u8,
    // beside a state that stays while the process is down, as the rules want
    up: bool,
    state: State,
    ghost long: { length intervals ≡ 96 },
    ghost few: { count ≤ 96 },
    ghost within: { saved ≤ count },
}
