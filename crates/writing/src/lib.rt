// What a host writes to its store: records appended in order, and then one sync.
#![tactic(auto)]

ghost use Rattle.std.specs.Prelude.{◌≡◌, [], ◌∷◌, ◌++◌, map, length};
ghost use Rattle.stores.specs.Faults.{answer};
ghost use Rattle.rows.specs.Rows.{unsaved};
ghost use Rattle.tables.specs.Tables.{row_of};
ghost use Rattle.histories.specs.Effects.{interval_record, checkpoint_record, written};
ghost use Rattle.writing.specs.Writing.{last_record, recorded_line};

use records::{Checkpoint, Content, Interval, Record};
use stores::fault::Fault;
use stores::store::Store;
use tables::table::Table;

// Each interval as a record, behind them one record more if there is one, and then the sync.
fn write<S: Store>(store: &mut S, xs: &[Interval], last: Option<Content>) -> Result<(), Fault>
    ensures { (answer result, S.Store.means store.new) ≡ written (map interval_record xs.now ++ last_record last) (S.Store.means store.old) }
{
    for x in xs {
        store.append(Record {
            content: Content::Interval(*x),
        })?;
    }
    if let Some(content) = last {
        store.append(Record { content })?;
    }
    store.sync()
}

// Saves a process: its intervals that are not saved yet.
pub fn write_unsaved<S: Store>(store: &mut S, table: &Table, process: u8) -> Result<(), Fault>
    ensures { (answer result, S.Store.means store.new) ≡ written (map interval_record (unsaved (row_of table.now process))) (S.Store.means store.old) }
{
    write(store, table.unsaved_intervals(process), None)
}

// Marks a process: the same, and behind them a checkpoint, its state after its last interval.
pub fn write_checkpoint<S: Store>(store: &mut S, table: &Table, process: u8) -> Result<(), Fault>
    ensures { (answer result, S.Store.means store.new) ≡ written (map interval_record (unsaved (row_of table.now process)) ++ (checkpoint_record process (length (row_of table.now process).intervals) (row_of table.now process).state ∷ [])) (S.Store.means store.old) }
{
    let checkpoint = Content::Checkpoint(Checkpoint {
        process,
        index: table.intervals(process).len() as u8,
        state: table.state(process),
    });
    write(store, table.unsaved_intervals(process), Some(checkpoint))
}

// The line of a recovery.
pub fn write_line<S: Store>(store: &mut S, line: &[u8; 8]) -> Result<(), Fault>
    ensures { (answer result, S.Store.means store.new) ≡ written (recorded_line line.now ∷ []) (S.Store.means store.old) }
{
    write(store, &[], Some(Content::Line(*line)))
}
