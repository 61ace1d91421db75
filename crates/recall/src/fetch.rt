// The records of a store, one by one.
ghost use Rattle.std.specs.Prelude.{◌≡◌};
ghost use Rattle.std.specs.Iterator.{YieldsFirst, item_count};
ghost use Rattle.recall.specs.Loaded.{unread};

use records::Record;
use stores::store::Store;

// The records of a store that are still to be read, each with its number, counted from 1; none of a dead store.
#[derive(Drop)]
pub(crate) struct Records<'a, S> {
    store: &'a S,
    passed: u64,
}

impl<'a, S: Store> Records<'a, S> {
    // All records of the store.
    pub(crate) fn of(store: &'a S) -> Records<'a, S>
        ensures { unread (S.Store.means result.store.now) result.passed ≡ unread (S.Store.means store.now) 0 }
    {
        Records { store, passed: 0 }
    }
}

impl<'a, S: Store> Iterator for Records<'a, S> {
    type Item = (u64, Record);

    ghost next_gives = { YieldsFirst (λ s. unread (S.Store.means s.store.now) s.passed) };

    ghost remaining = { item_count (λ s. unread (S.Store.means s.store.now) s.passed) };

    fn next(&mut self) -> Option<(u64, Record)> {
        if self.passed >= self.store.count() {
            return None;
        }
        let number = self.passed + 1;
        let mut place = Record::EMPTY;
        self.store.read(number, &mut place).ok()?;
        self.passed = number;
        Some((number, place))
    }
}
