// Two days, told line by line, and lines that say nothing.
use days::entry::Entry;
use days::shop::Shop;
use std::fmt::Write;
use std::test::Fail;

// What is told of a day, a line for each event.
fn story(rt: &HostRuntime, day: &[&str]) -> Result<String, Fail> {
    let mut shop = Shop::open(rt.alloc())?;
    let mut text = String::new(rt.alloc());
    for line in day {
        match line.parse::<Entry>() {
            Ok(entry) => {
                for event in shop.play(rt.alloc(), entry)?.iter() {
                    writeln!(text, "{event}")?;
                }
            }
            Err(bad) => text.push_str(bad.text())?,
        }
    }
    Ok(text)
}

#[test]
fn a_good_day(rt: HostRuntime) -> Result<(), Fail> {
    let told = story(&rt, &["stock 5", "order 8 2", "stock 1", "order 9 4"])?;
    assert_eq!(rt;
        told.as_str(),
        "stock: 5 pieces delivered, 5 on the shelf\norder 8: picking note for 2 pieces\norder 8: confirmed with 2 pieces\nstock: 3 left on the shelf\nstock: 1 pieces delivered, 4 on the shelf\norder 9: picking note for 4 pieces\norder 9: confirmed with 4 pieces\nstock: 0 left on the shelf\n"
    );
    Ok(())
}

#[test]
fn a_poor_day(rt: HostRuntime) -> Result<(), Fail> {
    let told = story(&rt, &["order 1 1", "order 2 0", "stock 4294967295"])?;
    assert_eq!(rt;
        told.as_str(),
        "order 1: refused, 1 pieces wanted and 0 on the shelf\nstock: 0 left on the shelf\norder 2: confirmed with 0 pieces\nstock: 0 left on the shelf\nstock: 4294967295 pieces delivered, 4294967295 on the shelf\n"
    );
    Ok(())
}

#[test]
fn bad_lines_are_refused(rt: HostRuntime) -> Result<(), Fail> {
    for line in ["", "stock", "stocks 1", " stock 1", "Order 1 1", "sell 1"] {
        assert!(rt; line.parse::<Entry>().is_err());
    }
    for line in [
        "stock ",
        "stock x",
        "stock 4294967296",
        "stock -1",
        "stock 1 2",
        "order 1",
        "order 1 ",
        "order  1 1",
        "order 1 1 1",
    ] {
        assert_eq!(rt;
            line.parse::<Entry>().err().map(|bad| bad.text()),
            Some("not as many whole numbers below 4294967296 as wanted")
        );
    }
    Ok(())
}
