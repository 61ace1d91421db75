// The greatest recovery line, by the sent-at of the records alone.
ghost use Rattle.tables.specs.Answers.{line_of, GreatestLine};
ghost use Rattle.tables.specs.Tables.{processes, family};

use crate::lowering::Lowering;
use crate::table::Table;

// The greatest line within the counts, one for each process; a count above a row's length means that length.
pub fn greatest_line(table: &Table, counts: &[u8; 8]) -> [u8; 8]
    ensures { GreatestLine (processes table.now) (family table.now) (line_of counts.now) (line_of result) }
{
    let mut lowering = Lowering::new(table, counts);
    while lowering.lower() {}
    lowering.line()
}
