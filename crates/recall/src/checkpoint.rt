// The search for the checkpoint that the replay of a process begins at.
ghost use Rattle.std.specs.Prelude.{◌≡◌, ℕ, List, if◌then◌else◌, None, nat_le, slice_index_or};
ghost use Rattle.programs.specs.Program.{Meaning};
ghost use Rattle.histories.specs.Reading.{reading};
ghost use Rattle.recall.specs.Loaded.{readable};
ghost use Rattle.recall.specs.Standing.{Holds, marked, standing, highest, origin_within, begins};

use crate::fetch::Records;
use programs::values::State;
use records::Content;
use stores::store::Store;
use tables::entries::entry;

// A checkpoint: its index, its state, and the number of its record, counted from 1.
#[derive(Clone, Copy)]
pub struct Found {
    pub index: u8,
    pub state: State,
    pub record: u64,
}

// By index, the last checkpoint that stands: an array, since a host has no heap for a map.
type Slots = [Option<Found>; 256];

// What is above the limit stands no more.
fn drop_above(slots: &mut Slots, limit: u8)
    ensures { (k : ℕ) → slice_index_or slots.new k None ≡ (if nat_le k limit then slice_index_or slots.old k None else None) }
{
    slots[limit as usize + 1..].fill(None);
}

// One record more, with its number.
fn mark(slots: &mut Slots, process: u8, number: u64, content: Content)
    ensures { (cs : List Found) → Holds cs slots.old → Holds (marked process number cs content) slots.new }
{
    match content {
        Content::Interval(_) => {}
        Content::Checkpoint(c) => {
            if c.process == process {
                slots[c.index as usize] = Some(Found {
                    index: c.index,
                    state: c.state,
                    record: number,
                });
            }
        }
        Content::Line(entries) => drop_above(slots, entry(&entries, process)),
    }
}

// The highest at or below the entry. A loop: as a `fold` the proof didn't close.
fn highest(slots: &Slots, entry: u8) -> Option<Found>
    ensures { (cs : List Found) → Holds cs slots.now → result ≡ highest entry cs }
{
    let mut best = None;
    for slot in &slots[..=entry as usize] {
        best = slot.or(best);
    }
    best
}

// The highest checkpoint of the process at or below the line entry that stands, of equal ones the last.
// A dead store has none.
pub fn find_checkpoint<S: Store>(store: &S, process: u8, entry: u8) -> Option<Found>
    ensures value { result ≡ highest entry (standing process (readable (S.Store.means store.now))) }
    ensures begins { (M : Meaning) → origin_within M process entry ((reading (readable (S.Store.means store.now))).checkpoints process) ≡ begins M process result }
{
    let mut slots = [None; 256];
    for (number, record) in Records::of(store) {
        mark(&mut slots, process, number, record.content);
    }
    highest(&slots, entry)
}
