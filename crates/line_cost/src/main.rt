// Finds the greatest line of eight full rows as often as is asked; bench/lines.sh counts the instructions of it.
#![tactic(auto)]

use anyhow::Context;
use programs::values::State;
use records::Interval;
use rows::row::Row;
use std::env;
use tables::line::greatest_line;
use tables::table::Table;

// Interval i of each process took what the next process sent in its interval i.
// The last one took what the first sent: in a ring in its interval i + 1, of which the last was never, else in its interval 0.
fn full(ring: bool) -> Table {
    let mut table = Table::new(8, State::ZERO);
    table.change_rows(|process, row| fill(row, process, ring));
    table
}

fn fill(row: &mut Row, process: u8, ring: bool) {
    for index in 1..97u8 {
        let sent_at = if process < 7 {
            index
        } else if ring {
            index + 1
        } else {
            0
        };
        let _ = row.push(Interval {
            process,
            index,
            source: (process % 8 + 1) % 8,
            sent_at,
            ..Interval::EMPTY
        });
    }
}

fn main(rt: HostRuntime) -> anyhow::Result<()> {
    let mut args = env::args(&rt)?;
    let _ = args.next();
    let kind = args.next().context("which table: whole, chain or domino")?;
    let times = args.next().context("how often")?;
    let table = full(kind.as_str() == "domino");
    let mut counts = [96; 8];
    if kind.as_str() == "chain" {
        counts[7] = 0;
    }
    let mut line = [0; 8];
    for _ in 0..times.as_str().parse::<u32>()? {
        line = greatest_line(&table, &counts);
    }
    println!(rt; "{line:?}")?;
    Ok(())
}
