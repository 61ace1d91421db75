// One row: a full one, and what each change leaves.
use programs::values::State;
use records::Interval;
use rows::row::Row;

// A row with `n` intervals, each with its index and an output ten times that.
fn filled(n: u8) -> Row {
    let mut row = Row::new(State::ZERO);
    for _ in 0..n {
        let index = row.count() + 1;
        let _ = row.push(Interval {
            index,
            output: Some(10 * index as u64),
            ..Interval::EMPTY
        });
    }
    row
}

#[test]
fn a_full_row_takes_no_more(rt: HostRuntime) {
    let mut row = filled(95);
    assert_eq!(rt; row.count(), 95);
    assert!(rt; row.push(Interval::EMPTY).is_ok());
    assert!(rt; row.push(Interval::EMPTY).is_err());
    assert_eq!(rt; row.count(), 96);
    assert_eq!(rt; filled(200).count(), 96);
}

#[test]
fn a_crash_leaves_what_is_saved(rt: HostRuntime) {
    let mut row = filled(3);
    row.save();
    assert!(rt; row.push(Interval::EMPTY).is_ok());
    assert_eq!(rt; (row.count(), row.saved(), row.is_up()), (4, 3, true));
    row.crash();
    assert_eq!(rt; (row.count(), row.saved(), row.is_up()), (3, 3, false));
    let state = State {
        a: 7,
        ..State::ZERO
    };
    row.resume(state);
    assert_eq!(rt; (row.count(), row.is_up()), (3, true));
    assert_eq!(rt; row.state(), state);
}

#[test]
fn a_cut_lowers_the_saved_count(rt: HostRuntime) {
    let mut row = filled(6);
    row.save();
    row.cut(9);
    assert_eq!(rt; (row.count(), row.saved()), (6, 6));
    row.cut(2);
    assert_eq!(rt; (row.count(), row.saved()), (2, 2));
    row.cut(0);
    assert_eq!(rt; (row.count(), row.saved()), (0, 0));
}

// Outputs are counted from 1, and only up to the line.
#[test]
fn outputs_by_number(rt: HostRuntime) {
    let mut row = filled(2);
    assert!(rt; row.push(Interval::EMPTY).is_ok());
    assert!(rt;
        row.push(Interval {
            output: Some(99),
            ..Interval::EMPTY
        })
        .is_ok()
    );
    for (line, n, wanted) in [
        (4, 0, None),
        (4, 1, Some(10)),
        (4, 2, Some(20)),
        (4, 3, Some(99)),
        (3, 3, None),
        (200, 3, Some(99)),
        (4, 4, None),
        (0, 1, None),
        (1, u64::MAX, None),
    ] {
        assert_eq!(rt; row.output(line, n), wanted);
    }
}
