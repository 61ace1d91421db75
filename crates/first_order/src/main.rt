// Plays a day from standard input, a stock delivery or an order to a line, and prints what was done.
#![tactic(auto)]

use days::entry::Entry;
use days::shop::Shop;

fn play_line(rt: &HostRuntime, shop: &mut Shop, number: u64, line: &str) -> anyhow::Result<()> {
    match line.parse::<Entry>() {
        Ok(entry) => {
            for event in shop.play(rt.alloc(), entry)?.iter() {
                rt.println(event)?;
            }
        }
        Err(bad) => println!(rt; "line {number}: {bad}")?,
    }
    Ok(())
}

fn main(rt: HostRuntime) -> anyhow::Result<()> {
    let mut shop = Shop::open(rt.alloc())?;
    for (number, line) in (1..).zip(rt.lines(rt.alloc())) {
        play_line(&rt, &mut shop, number, line?.as_str())?;
    }
    Ok(())
}
