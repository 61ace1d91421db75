// Tables that the tests are made of.
use programs::values::{OUTSIDE, State};
use records::Interval;
use std::test::Fail;
use tables::table::Table;

pub(crate) fn empty(count: u8) -> Table {
    Table::new(count, State::ZERO)
}

// One more interval of `process`, of which only the source and the sent-at matter.
pub(crate) fn take(table: &mut Table, process: u8, source: u8, sent_at: u8) -> Result<(), Fail> {
    add(
        table,
        process,
        Interval {
            source,
            sent_at,
            ..Interval::EMPTY
        },
    )
}

pub(crate) fn take_input(table: &mut Table, process: u8) -> Result<(), Fail> {
    take(table, process, OUTSIDE, 0)
}

// One more interval of `process`, under its process and index.
pub(crate) fn add(table: &mut Table, process: u8, x: Interval) -> Result<(), Fail> {
    if process >= 8 {
        return Err(Fail::new("there are eight rows"));
    }
    let row = &mut table.rows[process as usize];
    let index = row.count() + 1;
    row.push(Interval {
        process,
        index,
        ..x
    })?;
    Ok(())
}
