// Shows a lost interval and the line that recovery takes: an order goes through the three processes, and then stock crashes.
#![tactic(auto)]

use programs::orders::{DISPATCH, INTAKE, Order, Orders, STOCK};
use programs::program::Program;
use programs::values::OUTSIDE;
use records::Interval;
use rows::full::RowFull;
use std::array;
use tables::channel::Waiting;
use tables::line::greatest_line;
use tables::table::Table;

const NAMES: [&str; 3] = ["intake", "stock", "dispatch"];

// The three processes, and what each has recorded.
#[derive(Clone, Copy)]
struct Processes {
    table: Table,
}

impl Processes {
    // The process takes the message and records the interval that it begins.
    fn begin(&mut self, process: u8, source: u8, message: Waiting) -> Result<(), RowFull> {
        if process >= 8 {
            return Ok(());
        }
        let vector = if source == OUTSIDE {
            self.table.input_vector(process)
        } else {
            self.table.delivery_vector(source, process, message)
        };
        // by its number, as `Table` says
        let row = &mut self.table.rows[process as usize];
        let (state, sends, output) = Orders.step(process, row.state(), source, message.value);
        let index = row.count() + 1;
        row.push(Interval {
            process,
            index,
            source,
            sent_at: message.sent_at,
            value: message.value,
            sends: sends.within(3),
            output,
            vector,
        })?;
        row.enter(state);
        Ok(())
    }

    fn input(&mut self, process: u8, value: u64) -> Result<(), RowFull> {
        self.begin(process, OUTSIDE, Waiting { value, sent_at: 0 })
    }

    fn deliver(&mut self, source: u8, target: u8) -> Result<(), RowFull> {
        let Some(message) = self.table.next_waiting(source, target) else {
            return Ok(());
        };
        self.begin(target, source, message)
    }

    fn crash(&mut self, process: u8) {
        if process < 8 {
            self.table.rows[process as usize].crash();
        }
    }

    // How many intervals each process has.
    fn counts(&self) -> [u8; 8] {
        array::from_fn(|p| self.table.intervals(p as u8).len() as u8)
    }
}

fn tell(rt: &HostRuntime, what: &str, counts: &[u8; 8]) -> anyhow::Result<()> {
    println!(rt; "{what}")?;
    for (name, count) in NAMES.iter().zip(counts) {
        println!(rt; "  {name}: {count}")?;
    }
    Ok(())
}

fn main(rt: HostRuntime) -> anyhow::Result<()> {
    let order = Order {
        number: 1,
        quantity: 3,
    };
    let mut shop = Processes {
        table: Table::new(3, Orders.start(INTAKE)),
    };
    shop.input(STOCK, 10)?;
    shop.input(INTAKE, u64::from(order))?;
    shop.deliver(INTAKE, STOCK)?;
    shop.deliver(STOCK, DISPATCH)?;
    tell(
        &rt,
        "Ten pieces came in and order 1 took three. Intervals recorded:",
        &shop.counts(),
    )?;

    shop.crash(STOCK);
    let left = shop.counts();
    tell(
        &rt,
        "Stock crashes with nothing saved. Intervals left:",
        &left,
    )?;

    let line = greatest_line(&shop.table, &left);
    tell(
        &rt,
        "Dispatch took a message that stock, as it stands, never sent. The recovery line:",
        &line,
    )?;

    shop.table.cut(&line);
    tell(&rt, "Cut back to the line:", &shop.counts())
}
