// The power of a store: on or off, and the fuse that cuts it off.
ghost use Rattle.std.specs.Prelude.{◌≡◌};
ghost use Rattle.stores.specs.Calls.{spent};
ghost use Rattle.stores.specs.Faults.{answer};

use crate::fault::Fault;

// No enum of on and off: a dead store may be armed too, so both fields count in both states.
#[derive(Clone, Copy)]
pub struct Power {
    pub alive: bool,
    // how many more writes there is power for
    pub fuse: Option<u64>,
}

impl Power {
    // As a store is made: alive, and with no fuse.
    pub const ON: Power = Power {
        alive: true,
        fuse: None,
    };

    // The power for one write of a store that was alive before it.
    pub fn spend(&mut self) -> Result<(), Fault>
        ensures { (answer result, self.new) ≡ spent self.old.alive self.old.fuse }
    {
        match self.fuse {
            None => Ok(()),
            Some(0) => {
                *self = Power {
                    alive: false,
                    fuse: None,
                };
                Err(Fault::Dead)
            }
            Some(k) => {
                self.fuse = Some(k - 1);
                Ok(())
            }
        }
    }
}
