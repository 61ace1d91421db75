// Frames in lent bytes, one behind the other, and where each of them ends.
ghost use Rattle.std.specs.Prelude.{◌≡◌, ◌≤◌, length};
ghost use Rattle.frames.specs.Reads.{reading};
ghost use Rattle.byte_store.specs.Journals.{Exact, exact_prop, zeroed};

use frames::read::read_frame;
use frames::write::{LARGEST, write_frame};
use records::Record;
use stores::medium::{Medium, Over};
use stores::store::MAX_CAPACITY;

// One more than there are frames: the first entry is where no frames end, 0.
const ENDS: usize = MAX_CAPACITY + 1;

// The records are the first `count` frames; an array with a count, as there is no heap.
#[derive(Drop)]
pub struct Journal<'a> {
    bytes: &'a mut [u8],
    // at `k`, where the first `k` frames end
    ends: [u32; ENDS],
    count: usize,
    ghost bounded: { count ≤ 4096 },
    ghost exact: { Exact bytes.now ends count (reading count bytes.now) } by { exact_prop bytes.now ends count (reading count bytes.now) },
}

impl Journal<'_> {
    ghost use Rattle.byte_store.specs.Bytes.{listed, extent};
    ghost use Rattle.std.specs.Prelude.{◌+◌, drop};
    ghost use Rattle.byte_store.specs.Journals.{FramesAndZeros, standing as surviving};

    // The bytes as they are: the frames of the records, and zeros behind them.
    pub fn bytes(&self) -> &[u8]
        ensures value { result.now ≡ self.now.bytes.now }
        ensures frames { FramesAndZeros result.now (listed self.now) }
    {
        &self.bytes
    }

    // How many frames behind the first `safe` have their closing byte within `j` bytes of them.
    fn within(&self, safe: usize, j: u64) -> usize
        requires { safe ≤ length (listed self.now) }
        ensures bound { safe + result ≤ length (listed self.now) }
        ensures value { result ≡ surviving j (drop safe (listed self.now)) }
    {
        let from = self.ends[safe];
        let others = &self.ends[safe + 1..=self.count];
        others.partition_point(|end| end.saturating_sub(from) as u64 <= j)
    }

    // The place behind the last frame.
    fn end(&self) -> usize
        ensures { result ≡ extent self.now }
    {
        self.ends[self.count] as usize
    }
}

impl Medium for Journal<'_> {
    ghost use Rattle.std.proofs.Math.Nat.{min-le_right};
    ghost use Rattle.byte_store.specs.Bytes.{listed, room_of, filled, cleared};
    ghost use Rattle.byte_store.specs.Journals.{standing as surviving};

    ghost records = { listed };

    ghost capacity = { λ j. room_of (length j.bytes.now) };

    ghost standing = { surviving };

    ghost grown = { λ j x k. k.bytes.now ≡ filled j x };

    ghost shortened = { λ j k. k.bytes.now ≡ cleared j k };

    ghost bounded = { λ j. min-le_right _ 4096 };

    fn len(&self) -> usize {
        self.count
    }

    fn capacity(&self) -> usize {
        (self.bytes.len() / LARGEST).min(MAX_CAPACITY)
    }

    #[tactic(auto, using(crate::proofs::Filed::found_there, crate::proofs::Filed::some_there))]
    fn at(&self, i: usize) -> Record {
        read_frame(self.bytes, self.ends[i] as usize).unwrap()
    }

    fn standing(&self, safe: usize, j: u64) -> usize {
        safe + self.within(safe, j)
    }

    fn push(&mut self, record: Record) {
        let at = self.end();
        let end = write_frame(self.bytes, at, &record).unwrap();
        self.count += 1;
        self.ends[self.count] = end as u32;
    }

    // Leaves zeros behind the first `n` frames.
    #[tactic(auto, using(crate::proofs::Filed::place_inside, crate::proofs::Filed::cut_records, crate::proofs::Filed::cut_exact))]
    fn cut(&mut self, n: usize) {
        let end = self.ends[n] as usize;
        zero(self.bytes, end);
        self.count = n;
    }
}

// The bytes are zeroed.
impl<'a> Over<&'a mut [u8]> for Journal<'a> {
    ghost use Rattle.std.specs.Prelude.{replicate};
    ghost use Rattle.byte_store.specs.Bytes.{room_of};

    ghost room = { λ bytes. room_of (length bytes.now) };

    ghost begun = { λ bytes j. j.bytes.now ≡ replicate (length bytes.now) 0 };

    fn over(bytes: &'a mut [u8]) -> Journal<'a> {
        zero(bytes, 0);
        Journal {
            bytes,
            ends: [0; ENDS],
            count: 0,
        }
    }
}

// Zeroes all bytes from `from` on.
fn zero(bytes: &mut [u8], from: usize)
    requires { from ≤ length bytes.old }
    ensures { bytes.new ≡ zeroed from bytes.old }
{
    bytes[from..].fill(0);
}
