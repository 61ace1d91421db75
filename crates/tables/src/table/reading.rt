// What can be read of a table's process, whatever its number.
ghost use Rattle.std.specs.Prelude.{◌≡◌, ◌<◌, ◌≤◌, length, MatchOption};
ghost use Rattle.rows.specs.Rows.{held, unsaved};
ghost use Rattle.tables.specs.Tables.{processes, row_of, family};

use crate::table::Table;
use programs::values::State;
use records::Interval;
use rows::part::rest;
use rows::row::Row;

impl Table {
    // How many processes there are, of the eight that there is a row for.
    pub fn processes(&self) -> u8
        ensures value { result ≡ processes self.now }
        ensures rows { length self.now.rows ≡ 8 }
    {
        self.count.min(self.rows.len() as u8)
    }

    // The row of a process; what is no process has none.
    pub fn row(&self, process: u8) -> Option<&Row>
        ensures { MatchOption result (processes self.now ≤ process) (λ row. (process < processes self.now) × (held row.now ≡ row_of self.now process)) }
    {
        self.rows[..self.processes() as usize].get(process as usize)
    }

    // The intervals of a process; what is no process has none.
    pub fn intervals(&self, process: u8) -> &[Interval]
        ensures value { result.now ≡ family self.now process }
        ensures few { length result.now ≤ 96 }
    {
        self.row(process).map_or(&[], Row::intervals)
    }

    // What is no process is down.
    pub fn is_up(&self, process: u8) -> bool
        ensures { result ≡ (row_of self.now process).up }
    {
        self.row(process).is_some_and(Row::is_up)
    }

    // How many intervals of a process are saved; what is no process saves nothing.
    pub fn saved(&self, process: u8) -> u8
        ensures { result ≡ (row_of self.now process).saved }
    {
        self.row(process).map_or(0, Row::saved)
    }

    // The intervals of a process that are not saved.
    pub fn unsaved_intervals(&self, process: u8) -> &[Interval]
        ensures value { result.now ≡ unsaved (row_of self.now process) }
        ensures few { length result.now ≤ 96 }
    {
        rest(self.intervals(process), self.saved(process))
    }

    // How many they are.
    pub fn unsaved(&self, process: u8) -> u64
        ensures value { result ≡ length (unsaved (row_of self.now process)) }
        ensures bound { result ≤ 96 }
    {
        self.unsaved_intervals(process).len() as u64
    }

    // The state of a process; zeros for what is none.
    pub fn state(&self, process: u8) -> State
        ensures { result ≡ (row_of self.now process).state }
    {
        self.row(process).map_or(State::ZERO, Row::state)
    }
}
