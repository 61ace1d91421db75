// What the records of a store lie in: a list that grows at its end, is read by index and is cut.
ghost use Rattle.std.specs.Prelude.{◌≡◌, ℕ, ◌+◌, ◌<◌, ◌≤◌, List, [], ◌∷◌, ◌++◌, length, take, drop, slice_get};
ghost use Rattle.records.specs.declared.Record.{Record as Row};

use records::Record;

pub trait Medium: Sized {
    ghost records: { Self → List Row };

    ghost capacity: { Self → ℕ };

    // of the records that were not safe, how many stand where `j` says how much of them was written
    ghost standing: { ℕ → List Row → ℕ };

    // what the memory holds after a record more, and after a cut
    ghost grown: { Self → Row → Self → Type 0 };

    ghost shortened: { Self → Self → Type 0 };

    fn len(&self) -> usize
        ensures { result ≡ length (records self.now) };

    fn capacity(&self) -> usize
        ensures { result ≡ capacity self.now };

    // The record behind `i` others.
    fn at(&self, i: usize) -> Record
        requires { i < length (records self.now) }
        ensures { slice_get (records self.now) i ≡ Some result };

    // How many records stand where the first `safe` of them were safe.
    fn standing(&self, safe: usize, j: u64) -> usize
        requires { safe ≤ length (records self.now) }
        ensures value { result ≡ safe + standing j (drop safe (records self.now)) }
        ensures bound { result ≤ length (records self.now) };

    // One record more, behind the others.
    fn push(&mut self, record: Record)
        requires { length (records self.old) < capacity self.old }
        ensures records { records self.new ≡ records self.old ++ «record» ∷ [] }
        ensures capacity { capacity self.new ≡ capacity self.old }
        ensures memory { grown self.old «record» self.new };

    // Leaves the first `n` records.
    fn cut(&mut self, n: usize)
        requires { n ≤ length (records self.old) }
        ensures records { records self.new ≡ take n (records self.old) }
        ensures capacity { capacity self.new ≡ capacity self.old }
        ensures memory { shortened self.old self.new };

    ghost bounded: { (m : Self) → capacity m ≤ 4096 };
}

// A medium over lent memory, which holds no record at first.
pub trait Over<L>: Medium {
    // how many records there is room for in some memory
    ghost room: { L → ℕ };

    // what the memory holds at first
    ghost begun: { L → Self → Type 0 };

    fn over(lent: L) -> Self
        ensures records { Self.records result ≡ [] }
        ensures capacity { Self.capacity result ≡ room lent }
        ensures memory { begun lent result };
}
