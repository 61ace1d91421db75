// Why a store refuses.
ghost use Rattle.std.specs.Prelude.{◌≡◌, Some};
ghost use Rattle.stores.specs.Faults.{number, fault_text};

use std::error::Error;
use std::fmt;

#[derive(Clone, Copy, PartialEq, Eq, Debug)]
pub enum Fault {
    // without power
    Dead = 40,
    Full = 41,
    // no record at that place
    NoRecord = 42,
    // revived while it has power
    Alive = 43,
}

impl Fault {
    pub fn number(self) -> u8
        ensures { result ≡ number self }
    {
        self as u8
    }
}

// By hand: of the text that `thiserror` derives no contract speaks.
impl fmt::Display for Fault {
    ghost output = { λ fault. Some (fault_text fault) };

    fn fmt<W: fmt::Write>(&self, f: &mut fmt::Formatter<W>) -> fmt::Result {
        f.write_str(match self {
            Fault::Dead => "the store has no power",
            Fault::Full => "the store is full",
            Fault::NoRecord => "the store has no record at that place",
            Fault::Alive => "the store has power, and is not revived",
        })
    }
}

impl Error for Fault {}
