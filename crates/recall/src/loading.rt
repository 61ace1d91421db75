// The rows of a table, read from a store.
ghost use Rattle.std.specs.Prelude.{◌≡◌};
ghost use Rattle.rows.specs.Rows.{held, all_saved};
ghost use Rattle.tables.specs.Tables.{Changes};
ghost use Rattle.recall.specs.Loaded.{Loaded, emptied, noted_row};

use crate::fetch::Records;
use records::Content;
use rows::row::Row;
use stores::store::Store;
use tables::table::Table;

// The process is down, and nothing stands.
fn clear(row: &mut Row)
    ensures { held row.new ≡ emptied (held row.old) }
{
    row.crash();
    row.cut(0);
}

// All processes are down, and nothing stands; their states stay.
pub fn clear_all(table: &mut Table)
    ensures { Changes (λ _ h. emptied h) table.old table.new }
{
    table.change_rows(|_, row| clear(row));
}

fn save_all(table: &mut Table)
    ensures { Changes (λ _ h. all_saved h) table.old table.new }
{
    table.change_rows(|_, row| row.save());
}

// One record: an interval goes to its row, and a line cuts all rows.
// An interval of no process, or beyond the 96th of its row, is passed over.
fn note(table: &mut Table, content: Content)
    ensures { Changes (noted_row content) table.old table.new }
{
    match content {
        Content::Interval(x) => {
            if x.process < table.processes() {
                // by its number: of what `get_mut` lends the proof knows nothing after the change
                let rows = &mut table.rows;
                let _ = rows[x.process as usize].push(x);
            }
        }
        Content::Checkpoint(_) => {}
        Content::Line(entries) => table.cut(&entries),
    }
}

// All processes are down, and hold what the store has of them, which is saved; their states stay.
// A dead store reads as empty.
pub fn load<S: Store>(store: &S, table: &mut Table)
    ensures { Loaded (S.Store.means store.now) table.old table.new }
{
    clear_all(table);
    for (_, record) in Records::of(store) {
        note(table, record.content);
    }
    save_all(table);
}
