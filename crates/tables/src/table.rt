// The table of all processes: eight rows, of which the first `count` are those of processes.
use rows::row::Row;

mod changing;
mod messages;
mod reading;

// A count above 8 means 8; the rules fix an array with a count. A row is changed by its own methods, in its place: of what `get_mut` lends the proof knows nothing after the change.
#[derive(Clone, Copy)]
pub struct Table {
    pub rows: [Row; 8],
    pub count: u8,
}
