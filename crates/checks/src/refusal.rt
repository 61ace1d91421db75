// Why a host refuses: each reason has its layer, its number and its place.
ghost use Rattle.std.specs.Prelude.{◌≡◌};
ghost use Rattle.checks.specs.Refusals.{refusal, layer_of};
ghost use Rattle.checks.specs.declared.refusal.Refusal.TheVariants.{StoreDied};

use stores::fault::Fault;

// Who refuses: the host itself, or the host for its store's sake.
#[derive(Clone, Copy, PartialEq, Eq, Debug)]
pub enum Layer {
    Host,
    Store,
}

// The fault of a store that died during a call, and how many records it holds.
#[derive(Clone, Copy, PartialEq, Eq, Debug)]
pub struct StoreFault {
    pub fault: Fault,
    pub records: u64,
}

#[derive(Clone, Copy, PartialEq, Eq, Debug)]
pub enum Refusal {
    // there is no such process; the argument's position
    NoProcess(u8),
    // a number out of its range; the argument's position
    OutOfRange(u8),
    // a host has 1 to 8 processes
    ProcessCount,
    // a host is made on a living, empty store
    UsedStore,
    Dark,
    NotDark,
    Down,
    NoneDown,
    // the input's number is below, or above, the expected one
    OldInput,
    EarlyInput,
    NoneWaits,
    // the process has 96 intervals
    RowFull,
    // fewer free slots than records to append; the store's record count
    NoRoom(u64),
    // the committed line has fewer outputs
    NotCommitted,
    StoreDied(StoreFault),
}

impl Refusal {
    pub fn layer(self) -> Layer
        ensures { layer_of result ≡ (refusal self).layer }
    {
        match self {
            Refusal::NoRoom(_) | Refusal::StoreDied(_) => Layer::Store,
            _ => Layer::Host,
        }
    }

    // A match: the cases carry values, and so cannot be their own numbers.
    pub fn number(self) -> u8
        ensures { result ≡ (refusal self).number }
    {
        match self {
            Refusal::NoProcess(_) => 1,
            Refusal::OutOfRange(_) => 2,
            Refusal::ProcessCount => 3,
            Refusal::UsedStore => 4,
            Refusal::Dark => 10,
            Refusal::NotDark => 11,
            Refusal::Down => 12,
            Refusal::NoneDown => 13,
            Refusal::OldInput => 14,
            Refusal::EarlyInput => 15,
            Refusal::NoneWaits => 16,
            Refusal::RowFull => 17,
            Refusal::NoRoom(_) => 18,
            Refusal::NotCommitted => 19,
            Refusal::StoreDied(_) => 20,
        }
    }

    // The position of the argument, or the store's record count, or 0. A match, since each case has a value of its own.
    pub fn place(self) -> u64
        ensures { result ≡ (refusal self).place }
    {
        match self {
            Refusal::NoProcess(position) | Refusal::OutOfRange(position) => position as u64,
            Refusal::NoRoom(records) => records,
            Refusal::StoreDied(died) => died.records,
            _ => 0,
        }
    }
}

// By hand: of a derived conversion no contract speaks.
impl From<StoreFault> for Refusal {
    ghost from_gives = { λ e r. r ≡ StoreDied e };

    fn from(e: StoreFault) -> Refusal {
        Refusal::StoreDied(e)
    }
}
