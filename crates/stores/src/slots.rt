// The slot store: records in the slots of a lent slice, one to a slot.
ghost use Rattle.std.specs.Prelude.{◌≡◌, ◌≤◌, length, min};

use crate::medium::{Medium, Over};
use crate::record_store::RecordStore;
use crate::store::MAX_CAPACITY;
use records::Record;

pub type SlotStore<'a> = RecordStore<Slots<'a>>;

// The records are in the first `count` slots; a count stands beside a lent slice, as there is no heap.
#[derive(Drop)]
pub struct Slots<'a> {
    slots: &'a mut [Record],
    count: usize,
    ghost within: { count ≤ length slots.now },
}

impl Medium for Slots<'_> {
    ghost use Rattle.std.proofs.Math.Nat.{min-le_right};
    ghost use Rattle.stores.specs.Slots.{listed, room_of, filled};

    ghost records = { listed };

    ghost capacity = { λ s. room_of (length s.slots.now) };

    ghost standing = { λ j xs. min j (length xs) };

    ghost grown = { λ s x t. t.slots.now ≡ filled s x };

    ghost shortened = { λ s t. t.slots.now ≡ s.slots.now };

    ghost bounded = { λ s. min-le_right (length s.slots.now) 4096 };

    fn len(&self) -> usize {
        self.count
    }

    fn capacity(&self) -> usize {
        self.slots.len().min(MAX_CAPACITY)
    }

    fn at(&self, i: usize) -> Record {
        self.slots[i]
    }

    // The first `j` of the others, or all of them.
    fn standing(&self, safe: usize, j: u64) -> usize {
        safe + j.min((self.count - safe) as u64) as usize
    }

    fn push(&mut self, record: Record) {
        self.slots[self.count] = record;
        self.count += 1;
    }

    fn cut(&mut self, n: usize) {
        self.count = n;
    }
}

// What the slots held is never read, and stays.
impl<'a> Over<&'a mut [Record]> for Slots<'a> {
    ghost use Rattle.stores.specs.Slots.{room_of};

    ghost room = { λ slots. room_of (length slots.now) };

    ghost begun = { λ slots s. s.slots.now ≡ slots.now };

    fn over(slots: &'a mut [Record]) -> Slots<'a> {
        Slots { slots, count: 0 }
    }
}
