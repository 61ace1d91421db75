// Greatest lines: chains of orphans, domino effects, and a comparison with all lines of small tables.
use crate::building::{empty, take, take_input};
use programs::values::OUTSIDE;
use rows::part::first;
use std::array;
use std::test::Fail;
use tables::line::greatest_line;
use tables::table::Table;

// Stock, order, its delivery to stock and the picking note at dispatch.
#[test]
fn a_lost_interval_makes_orphans(rt: HostRuntime) -> Result<(), Fail> {
    let mut table = empty(3);
    take_input(&mut table, 1)?;
    take_input(&mut table, 0)?;
    take(&mut table, 1, 0, 1)?;
    take(&mut table, 2, 1, 2)?;
    for (counts, line) in [
        ([1, 2, 1, 0, 0, 0, 0, 0], [1, 2, 1, 0, 0, 0, 0, 0]),
        ([1, 0, 1, 0, 0, 0, 0, 0], [1, 0, 0, 0, 0, 0, 0, 0]),
        ([1, 1, 1, 0, 0, 0, 0, 0], [1, 1, 0, 0, 0, 0, 0, 0]),
        ([0, 2, 1, 0, 0, 0, 0, 0], [0, 1, 0, 0, 0, 0, 0, 0]),
        ([0; 8], [0; 8]),
        ([255; 8], [1, 2, 1, 0, 0, 0, 0, 0]),
    ] {
        assert_eq!(rt; greatest_line(&table, &counts), line);
    }
    Ok(())
}

// Each process takes what the next one sent, and the last loses its only interval.
#[test]
fn a_chain_through_all_processes(rt: HostRuntime) -> Result<(), Fail> {
    for count in 1..9u8 {
        let mut table = empty(count);
        for p in 0..count - 1 {
            take(&mut table, p, p + 1, 1)?;
        }
        take_input(&mut table, count - 1)?;
        let mut counts = [1; 8];
        counts[count as usize - 1] = 0;
        assert_eq!(rt; greatest_line(&table, &counts), [0; 8]);
        let whole: [u8; 8] = array::from_fn(|p| u8::from(p < count as usize));
        assert_eq!(rt; greatest_line(&table, &[1; 8]), whole);
    }
    Ok(())
}

// Two processes answer each other 96 times: one lost interval takes all with it.
#[test]
fn a_domino_effect(rt: HostRuntime) -> Result<(), Fail> {
    let mut table = empty(2);
    take_input(&mut table, 0)?;
    for i in 1..96u8 {
        take(&mut table, 1, 0, i)?;
        take(&mut table, 0, 1, i)?;
    }
    take(&mut table, 1, 0, 96)?;
    assert_eq!(rt;
        greatest_line(&table, &[96, 96, 0, 0, 0, 0, 0, 0]),
        [96, 96, 0, 0, 0, 0, 0, 0]
    );
    assert_eq!(rt;
        greatest_line(&table, &[96, 40, 0, 0, 0, 0, 0, 0]),
        [41, 40, 0, 0, 0, 0, 0, 0]
    );
    assert_eq!(rt; greatest_line(&table, &[0, 96, 0, 0, 0, 0, 0, 0]), [0; 8]);
    Ok(())
}

// A message to itself is sent before it is taken, or it is never backed.
#[test]
fn own_messages(rt: HostRuntime) -> Result<(), Fail> {
    let mut table = empty(1);
    take_input(&mut table, 0)?;
    take(&mut table, 0, 0, 1)?;
    take(&mut table, 0, 0, 9)?;
    assert_eq!(rt; greatest_line(&table, &[255; 8]), [2, 0, 0, 0, 0, 0, 0, 0]);
    assert_eq!(rt; greatest_line(&table, &[1; 8]), [1, 0, 0, 0, 0, 0, 0, 0]);
    Ok(())
}

// What no process sent binds nothing, whatever its sent-at.
#[test]
fn sources_that_do_not_exist(rt: HostRuntime) -> Result<(), Fail> {
    let mut table = empty(2);
    for source in [OUTSIDE, 2, 7, 255] {
        take(&mut table, 0, source, 50)?;
    }
    assert_eq!(rt; greatest_line(&table, &[255; 8]), [4, 0, 0, 0, 0, 0, 0, 0]);
    Ok(())
}

// Whether a line is consistent, straight from the rule.
fn consistent(table: &Table, line: [u8; 8]) -> bool {
    (0..3u8).all(|p| {
        first(table.intervals(p), line[p as usize])
            .iter()
            .all(|x| x.source >= 3 || x.sent_at <= line[x.source as usize])
    })
}

// The highest entry at each process of any consistent line within the counts; at most three intervals each.
fn highest(table: &Table, counts: [u8; 8]) -> [u8; 8] {
    let mut best = [0; 8];
    for a in 0..4u8 {
        for b in 0..4u8 {
            for c in 0..4u8 {
                let line = [a, b, c, 0, 0, 0, 0, 0];
                let within = a <= counts[0].min(table.rows[0].count())
                    && b <= counts[1].min(table.rows[1].count())
                    && c <= counts[2].min(table.rows[2].count());
                if within && consistent(table, line) {
                    best = array::from_fn(|p| line[p].max(best[p]));
                }
            }
        }
    }
    best
}

fn next_random(seed: &mut u64) -> u8 {
    *seed ^= *seed << 13;
    *seed ^= *seed >> 7;
    *seed ^= *seed << 17;
    (*seed >> 32 & 0xff) as u8
}

#[test]
fn against_all_lines_of_small_tables(rt: HostRuntime) -> Result<(), Fail> {
    let mut seed = 88_172_645_463_325_252;
    for _ in 0..400 {
        let mut table = empty(3);
        for p in 0..3u8 {
            for _ in 0..next_random(&mut seed) % 4 {
                let source = next_random(&mut seed) % 4;
                take(&mut table, p, source, next_random(&mut seed) % 5)?;
            }
        }
        let counts = [
            next_random(&mut seed) % 5,
            next_random(&mut seed) % 5,
            next_random(&mut seed) % 5,
            7,
            0,
            0,
            0,
            0,
        ];
        assert_eq!(rt; greatest_line(&table, &counts), highest(&table, counts));
    }
    Ok(())
}
