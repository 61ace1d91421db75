// What waits between processes, expected input numbers, and vectors.
use crate::building::{add, empty, take, take_input};
use programs::values::{OUTSIDE, Send, Sends};
use records::Interval;
use std::process::Abort;
use std::test::Fail;
use tables::channel::Waiting;
use tables::table::Table;

fn send(target: u8, value: u64) -> Send {
    Send { target, value }
}

// The value and the sent-at of what waits next.
fn next(table: &Table, source: u8, target: u8) -> Option<(u64, u8)> {
    table
        .next_waiting(source, target)
        .map(|m| (m.value, m.sent_at))
}

fn next_input(table: &Table, process: u8) -> u8 {
    table.rows[process as usize % 8].next_input()
}

fn taken(table: &Table, source: u8, process: u8) -> u8 {
    table.rows[process as usize % 8].taken(source)
}

// Process 0 sends twice to 1 in one interval, then to 0 and to 1, then once to itself.
fn sender() -> Result<Table, Fail> {
    let mut table = empty(2);
    for sends in [
        Sends::Two(send(1, 10), send(1, 11)),
        Sends::Two(send(0, 20), send(1, 21)),
        Sends::One(send(0, 30)),
    ] {
        add(
            &mut table,
            0,
            Interval {
                source: OUTSIDE,
                sends,
                ..Interval::EMPTY
            },
        )?;
    }
    Ok(table)
}

#[test]
fn two_sends_to_one_target_in_order(rt: HostRuntime) -> Result<(), Fail> {
    let mut table = sender()?;
    for wanted in [(10, 1), (11, 1), (21, 2)] {
        assert_eq!(rt; next(&table, 0, 1), Some(wanted));
        take(&mut table, 1, 0, wanted.1)?;
    }
    assert_eq!(rt; next(&table, 0, 1), None);
    Ok(())
}

#[test]
fn a_process_sends_to_itself(rt: HostRuntime) -> Result<(), Fail> {
    let mut table = sender()?;
    assert_eq!(rt; next(&table, 0, 0), Some((20, 2)));
    take(&mut table, 0, 0, 2)?;
    assert_eq!(rt; next(&table, 0, 0), Some((30, 3)));
    take(&mut table, 0, 0, 3)?;
    assert_eq!(rt; next(&table, 0, 0), None);
    Ok(())
}

#[test]
fn nothing_waits_where_no_process_is(rt: HostRuntime) -> Result<(), Fail> {
    let table = sender()?;
    for (source, target) in [(1, 0), (1, 1), (0, 2), (2, 0), (9, 0), (255, 255)] {
        assert_eq!(rt; next(&table, source, target), None);
    }
    Ok(())
}

#[test]
fn input_numbers_count_inputs_alone(rt: HostRuntime) -> Result<(), Fail> {
    let mut table = sender()?;
    assert_eq!(rt; next_input(&table, 0), 4);
    take(&mut table, 0, 0, 2)?;
    assert_eq!(rt; next_input(&table, 0), 4);
    assert_eq!(rt; taken(&table, 0, 0), 1);
    take_input(&mut table, 0)?;
    assert_eq!(rt; next_input(&table, 0), 5);
    assert_eq!(rt; next_input(&table, 1), 1);
    Ok(())
}

#[test]
fn vectors_join_what_was_known(rt: HostRuntime) -> Result<(), Fail> {
    let mut table = empty(3);
    assert_eq!(rt; table.input_vector(1), [0, 1, 0, 0, 0, 0, 0, 0]);
    for (process, vector) in [
        (0, [1, 0, 4, 0, 0, 0, 0, 0]),
        (0, [2, 9, 4, 0, 0, 0, 0, 0]),
        (1, [3, 1, 0, 0, 0, 0, 0, 0]),
    ] {
        add(
            &mut table,
            process,
            Interval {
                vector,
                ..Interval::EMPTY
            },
        )?;
    }
    let first = Waiting {
        value: 0,
        sent_at: 1,
    };
    let second = Waiting {
        value: 0,
        sent_at: 2,
    };
    let start = Waiting {
        value: 0,
        sent_at: 0,
    };
    assert_eq!(rt;
        table.delivery_vector(0, 1, first),
        [3, 2, 4, 0, 0, 0, 0, 0]
    );
    assert_eq!(rt;
        table.delivery_vector(0, 1, second),
        [3, 2, 4, 0, 0, 0, 0, 0]
    );
    assert_eq!(rt;
        table.delivery_vector(0, 2, second),
        [2, 9, 1, 0, 0, 0, 0, 0]
    );
    assert_eq!(rt;
        table.delivery_vector(0, 2, start),
        [0, 0, 1, 0, 0, 0, 0, 0]
    );
    assert_eq!(rt; table.input_vector(0), [3, 9, 4, 0, 0, 0, 0, 0]);
    Ok(())
}
