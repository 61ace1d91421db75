// The lines that a host takes, and whether one has to be recorded.
ghost use Rattle.std.specs.Prelude.{◌≡◌, ℕ};
ghost use Rattle.lines.specs.Lines.{greatest_line};
ghost use Rattle.tables.specs.Answers.{line_of};
ghost use Rattle.tables.specs.Tables.{processes, family, row_of};
ghost use Rattle.histories.specs.Tests.{some_above, line_records, all_up};
ghost use Rattle.checks.specs.Worlds.{left_of};

use std::array;
use tables::entries::entry;
use tables::line::greatest_line;
use tables::table::Table;

// By process, how many of its intervals are saved.
fn saved_counts(table: &Table) -> [u8; 8]
    ensures { (p : ℕ) → line_of result p ≡ (row_of table.now p).saved }
{
    array::from_fn(|p| table.saved(p as u8))
}

// What a recovery may go back to: the saved count of a down process, the number of intervals of an up one.
fn left(table: &Table, process: u8) -> u8
    ensures { result ≡ left_of table.now process }
{
    if table.is_up(process) {
        table.intervals(process).len() as u8
    } else {
        table.saved(process)
    }
}

fn left_counts(table: &Table) -> [u8; 8]
    ensures { (p : ℕ) → line_of result p ≡ left_of table.now p }
{
    array::from_fn(|p| left(table, p as u8))
}

// The committed line: the greatest within the saved counts. It and the next, and their counts above, are no plainer as one: each would name the other's counts.
pub fn committed_line(table: &Table) -> [u8; 8]
    ensures { (p : ℕ) → line_of result p ≡ greatest_line (processes table.now) (family table.now) (λ q. (row_of table.now q).saved) p }
{
    greatest_line(table, &saved_counts(table))
}

// The line of a recovery: the greatest within what is left.
pub fn recovery_line(table: &Table) -> [u8; 8]
    ensures { (p : ℕ) → line_of result p ≡ greatest_line (processes table.now) (family table.now) (left_of table.now) p }
{
    greatest_line(table, &left_counts(table))
}

// Whether some saved count is above the line, so that it has to be recorded.
pub fn is_above(table: &Table, line: &[u8; 8]) -> bool
    ensures { result ≡ some_above (processes table.now) (λ p. (row_of table.now p).saved) (line_of line.now) }
{
    (0..table.processes()).any(|p| entry(line, p) < table.saved(p))
}

// How many records a recovery to the line appends.
pub fn line_records(table: &Table, line: &[u8; 8]) -> u64
    ensures { result ≡ line_records (processes table.now) (λ p. (row_of table.now p).saved) (line_of line.now) }
{
    u64::from(is_above(table, line))
}

pub(crate) fn are_all_up(table: &Table) -> bool
    ensures { result ≡ all_up (processes table.now) (λ p. (row_of table.now p).up) }
{
    (0..table.processes()).all(|p| table.is_up(p))
}
