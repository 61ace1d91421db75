// Opening a shop, and what it does with an entry.
ghost use Rattle.std.specs.Prelude.{◌≡◌};
ghost use Rattle.programs.specs.Orders.{orders};
ghost use Rattle.days.specs.Shop.{Opens, Puts, Carries, Plays, most, pieces_left, issued};

use crate::entry::Entry;
use crate::event::{Event, tell};
use crate::shop::Shop;
use programs::orders::{INTAKE, Orders, STOCK};
use runs::runner::{RunError, Runner};
use std::alloc::Global;

impl Shop {
    // An empty shelf, and no order yet.
    #[tactic(auto, using(crate::proofs::Carrying::begun))]
    pub fn open(heap: Global) -> Result<Shop, RunError>
        ensures { Opens result }
    {
        let run = Runner::new(heap, Orders, 3)?;
        Ok(Shop { run })
    }

    // The pieces on the shelf.
    pub fn shelf(&self) -> u64
        ensures { result ≡ pieces_left self.now }
    {
        self.run.state(STOCK).map_or(0, |stock| stock.a)
    }

    fn put_in(&mut self, entry: Entry) -> Result<(), RunError>
        ensures { Puts entry self.old self.new result }
    {
        match entry {
            Entry::Stock(pieces) => self.run.take(STOCK, u64::from(pieces)),
            Entry::Placed(order) => self.run.take(INTAKE, u64::from(order)),
        }
    }

    // Puts the entry in, and delivers what follows from it.
    #[tactic(auto, using(crate::proofs::Carrying::carries))]
    pub fn carry(&mut self, entry: Entry) -> Result<(), RunError>
        ensures { Carries most entry self.old self.new result }
    {
        self.put_in(entry)?;
        self.run.settle(u64::MAX)
    }

    // Carries the entry, and tells what was done.
    pub fn play(&mut self, heap: Global, entry: Entry) -> Result<Vec<Event>, RunError>
        ensures { Plays entry self.old self.new result }
    {
        let before = self.run.outputs().len();
        self.carry(entry)?;
        let shelf = self.shelf();
        let (_, issued) = self.run.outputs().split_at(before);
        Ok(tell(heap, entry, issued, shelf)?)
    }
}
