// What a store is: a list of records, the first of which are safe from a loss of power.
ghost use Rattle.std.specs.Prelude.{◌≡◌, ◌≤◌, length};
ghost use Rattle.stores.specs.Calls.{appended, synced, armed, fetched, revived, kept, unsafe_count, room};
ghost use Rattle.stores.specs.Faults.{answer};
ghost use Rattle.stores.specs.Laws.{Lasting, SafeRecordsLast};
ghost use Rattle.stores.specs.Meaning.{Meaning, Sound};

use crate::fault::Fault;
use records::Record;

// No store takes more records than this.
pub const MAX_CAPACITY: usize = 4096;

pub trait Store {
    ghost means: { Self → Meaning };

    // One record more, which is not safe yet.
    fn append(&mut self, record: Record) -> Result<(), Fault>
        ensures { (answer result, means self.new) ≡ appended «record» (means self.old) };

    // Makes all records safe.
    fn sync(&mut self) -> Result<(), Fault>
        ensures { (answer result, means self.new) ≡ synced (means self.old) };

    // Sets the fuse: the store takes `fuse` writes more, and dies at the next.
    fn arm(&mut self, fuse: u64)
        ensures { means self.new ≡ armed fuse (means self.old) };

    // Reads record `i`, counted from 1, into `place`, which a refusal leaves as it was.
    fn read(&self, i: u64, place: &mut Record) -> Result<(), Fault>
        ensures { (answer result, place.new) ≡ fetched i (means self.now) place.old };

    // Gives a dead store power again. `j` says how much of what was not safe had been written;
    // the answer is how many records of it remain.
    fn revive(&mut self, j: u64) -> Result<u64, Fault>
        ensures choice { kept result ≤ unsafe_count (means self.old) }
        ensures after { (answer result, means self.new) ≡ revived (kept result) (means self.old) };

    fn count(&self) -> u64
        ensures { result ≡ length (means self.now).records };

    fn capacity(&self) -> u64
        ensures { result ≡ (means self.now).capacity };

    fn safe_count(&self) -> u64
        ensures { result ≡ (means self.now).safe };

    fn is_alive(&self) -> bool
        ensures { result ≡ (means self.now).alive };

    // How many records there is room for yet.
    fn free_slots(&self) -> u64
        ensures { result ≡ room (means self.now) }
    {
        self.capacity().saturating_sub(self.count())
    }

    // How many records stand whatever is called and whenever the power goes.
    fn lasting_count(&self) -> u64
        ensures value { result ≡ (means self.now).safe }
        ensures lasting { Lasting (means self.now) }
        ensures law { SafeRecordsLast }
    {
        self.safe_count()
    }

    ghost sound: { (s : Self) → Sound (means s) };
}
