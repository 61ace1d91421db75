// A line on its way down: process by process it is lowered until it is consistent.
ghost use Rattle.tables.specs.Lowering.{RowsHold, Known};
ghost use Rattle.tables.specs.Tables.{processes, family};

use crate::table::Table;

mod rounds;

#[derive(Clone, Copy)]
pub(crate) struct Lowering<'a> {
    table: &'a Table,
    line: [u8; 8],
    // for each process a line that its intervals up to its entry need, as far as that is known
    needs: [[u8; 8]; 8],
    ghost rows: { RowsHold (processes table.now) (family table.now) line },
    ghost known: { Known (processes table.now) (family table.now) line needs },
}

// The longest front of a process that a line backs: how many intervals, and a line that they need.
#[derive(Clone, Copy)]
struct Front {
    length: u8,
    needs: [u8; 8],
}
