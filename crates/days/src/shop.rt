// A shop: the order program with its three processes, carried through a day entry by entry.
ghost use Rattle.std.specs.Prelude.{◌≡◌};
ghost use Rattle.runs.specs.Held.{count};

use programs::orders::Orders;
use runs::runner::Runner;

mod trading;

#[derive(Drop)]
pub struct Shop {
    run: Runner<Orders>,
    ghost three: { count run ≡ 3 },
}
