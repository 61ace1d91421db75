// What is told of a day, a line for each event.
ghost use Rattle.std.specs.Prelude.{◌≡◌, IfOk, Some};
ghost use Rattle.days.specs.declared.entry.Entry.TheVariants.{Placed};
ghost use Rattle.days.specs.Events.{event_of, told, text_of};

use crate::entry::Entry;
use programs::orders::{DISPATCH, Order};
use runs::runner::Output;
use std::alloc::{AllocError, Global};
use std::fmt;
use std::iter::once;

#[derive(Clone, Copy)]
pub enum Event {
    // pieces came in, and so many are on the shelf then
    Delivered { pieces: u32, shelf: u64 },
    // what dispatch picks
    Picked(Order),
    // what intake tells the customer
    Confirmed(Order),
    // an order, and what is on the shelf instead of its pieces
    Refused { order: Order, shelf: u64 },
    // what is on the shelf after an order
    Left { shelf: u64 },
}

impl fmt::Display for Event {
    ghost output = { λ e. Some (text_of e) };

    fn fmt<W: fmt::Write>(&self, f: &mut fmt::Formatter<W>) -> fmt::Result {
        let event = *self;
        match event {
            Event::Delivered { pieces, shelf } => write!(
                f,
                "stock: {pieces} pieces delivered, {shelf} on the shelf"
            ),
            Event::Picked(Order { number, quantity }) => write!(
                f,
                "order {number}: picking note for {quantity} pieces"
            ),
            Event::Confirmed(Order { number, quantity }) => write!(
                f,
                "order {number}: confirmed with {quantity} pieces"
            ),
            Event::Refused { order, shelf } => write!(
                f,
                "order {}: refused, {} pieces wanted and {shelf} on the shelf",
                order.number, order.quantity
            ),
            Event::Left { shelf } => write!(f, "stock: {shelf} left on the shelf"),
        }
    }
}

fn event_of(wanted: Order, shelf: u64, output: Output) -> Event
    ensures { result ≡ event_of wanted shelf output }
{
    let order = Order::from(output.value);
    if output.process == DISPATCH {
        Event::Picked(order)
    } else if order.quantity == 0 && wanted.quantity != 0 {
        Event::Refused {
            order: wanted,
            shelf,
        }
    } else {
        Event::Confirmed(order)
    }
}

fn tell_order(
    heap: Global,
    wanted: Order,
    outputs: &[Output],
    shelf: u64,
) -> Result<Vec<Event>, AllocError>
    ensures { IfOk result (λ v. v.items ≡ told (Placed wanted) outputs.now shelf) }
{
    outputs
        .iter()
        .map(|output| event_of(wanted, shelf, *output))
        .chain(once(Event::Left { shelf }))
        .collect(heap)
}

// What is told of an entry, by what came out for it and what is on the shelf then.
pub fn tell(
    heap: Global,
    entry: Entry,
    outputs: &[Output],
    shelf: u64,
) -> Result<Vec<Event>, AllocError>
    ensures { IfOk result (λ v. v.items ≡ told entry outputs.now shelf) }
{
    match entry {
        Entry::Stock(pieces) => once(Event::Delivered { pieces, shelf }).collect(heap),
        Entry::Placed(wanted) => tell_order(heap, wanted, outputs, shelf),
    }
}
