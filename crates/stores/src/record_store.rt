// A store over any medium: its records, how many of them are safe, and its power.
ghost use Rattle.std.specs.Prelude.{◌≡◌, ◌≤◌, length};

use crate::fault::Fault;
use crate::medium::{Medium, Over};
use crate::power::Power;
use crate::store::Store;
use records::Record;

#[derive(Drop)]
pub struct RecordStore<M: Medium> {
    medium: M,
    safe: usize,
    power: Power,
    ghost within: { safe ≤ length (M.records medium) },
}

impl<M: Medium> RecordStore<M> {
    ghost use Rattle.stores.specs.RecordStores.{means as meaning, empty};

    // An empty store with power and no fuse.
    pub fn new<L>(lent: L) -> RecordStore<M>
    where
        M: Over<L>,
        ensures value { meaning result ≡ empty (M.room lent) }
        ensures memory { M.begun lent result.medium }
    {
        RecordStore {
            medium: M::over(lent),
            safe: 0,
            power: Power::ON,
        }
    }

    // What the records lie in, as it is, whether there is power or not.
    pub fn medium(&self) -> &M
        ensures { result.now ≡ self.now.medium }
    {
        &self.medium
    }
}

impl<M: Medium> Store for RecordStore<M> {
    ghost use Rattle.std.specs.Prelude.{drop, OnOk, OnErr};
    ghost use Rattle.stores.specs.Calls.{appended, synced, armed, revived, kept, unsafe_count};
    ghost use Rattle.stores.specs.Faults.{answer};
    ghost use Rattle.stores.specs.RecordStores.{means as meaning};

    ghost means = { meaning };

    fn append(&mut self, record: Record) -> Result<(), Fault>
        ensures after { (answer result, meaning self.new) ≡ appended «record» (meaning self.old) }
        ensures memory { OnOk result (M.grown self.old.medium «record» self.new.medium) }
        ensures same { OnErr result (self.new.medium ≡ self.old.medium) }
    {
        if !self.power.alive {
            return Err(Fault::Dead);
        }
        if self.count() >= self.capacity() {
            return Err(Fault::Full);
        }
        self.power.spend()?;
        self.medium.push(record);
        Ok(())
    }

    fn sync(&mut self) -> Result<(), Fault>
        ensures after { (answer result, meaning self.new) ≡ synced (meaning self.old) }
        ensures same { self.new.medium ≡ self.old.medium }
    {
        if !self.power.alive {
            return Err(Fault::Dead);
        }
        self.power.spend()?;
        self.safe = self.medium.len();
        Ok(())
    }

    fn arm(&mut self, fuse: u64)
        ensures after { meaning self.new ≡ armed fuse (meaning self.old) }
        ensures same { self.new.medium ≡ self.old.medium }
    {
        self.power.fuse = Some(fuse);
    }

    fn read(&self, i: u64, place: &mut Record) -> Result<(), Fault> {
        if !self.power.alive {
            return Err(Fault::Dead);
        }
        if i == 0 || i > self.count() {
            return Err(Fault::NoRecord);
        }
        *place = self.medium.at(i as usize - 1);
        Ok(())
    }

    // What the medium makes of `j` says how many of the others remain.
    fn revive(&mut self, j: u64) -> Result<u64, Fault>
        ensures choice { kept result ≤ unsafe_count (meaning self.old) }
        ensures after { (answer result, meaning self.new) ≡ revived (kept result) (meaning self.old) }
        ensures pinned { (answer result, meaning self.new) ≡ revived (M.standing j (drop (meaning self.old).safe (meaning self.old).records)) (meaning self.old) }
        ensures memory { OnOk result (M.shortened self.old.medium self.new.medium) }
        ensures same { OnErr result (self.new.medium ≡ self.old.medium) }
    {
        if self.power.alive {
            return Err(Fault::Alive);
        }
        let stood = self.medium.standing(self.safe, j);
        let kept = stood - self.safe;
        self.medium.cut(stood);
        self.safe = stood;
        self.power.alive = true;
        Ok(kept as u64)
    }

    fn count(&self) -> u64 {
        self.medium.len() as u64
    }

    fn capacity(&self) -> u64 {
        self.medium.capacity() as u64
    }

    fn safe_count(&self) -> u64 {
        self.safe as u64
    }

    fn is_alive(&self) -> bool {
        self.power.alive
    }

    ghost sound = { λ s. record { bounded = M.bounded s.medium; within = s.within } };
}
