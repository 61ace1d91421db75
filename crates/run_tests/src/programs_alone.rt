// Single steps of the two programs, at the edges of their numbers.
use crate::building::order;
use programs::orders::Orders;
use programs::program::Program;
use programs::relay::Relay;
use programs::values::{OUTSIDE, Send, Sends, State};
use std::test::Fail;

#[test]
fn stock_stops_at_the_last_number(rt: HostRuntime) {
    let full = State {
        a: u64::MAX - 1,
        ..State::ZERO
    };
    let (state, sends, output) = Orders.step(1, full, OUTSIDE, 5);
    assert_eq!(rt;
        state,
        State {
            a: u64::MAX,
            ..State::ZERO
        }
    );
    assert_eq!(rt; sends, Sends::Nothing);
    assert_eq!(rt; output, None);
}

#[test]
fn counts_wrap_to_zero(rt: HostRuntime) {
    let last = State {
        a: u64::MAX,
        b: u64::MAX,
        ..State::ZERO
    };
    let (intake, _, _) = Orders.step(0, last, OUTSIDE, order(1, 1));
    assert_eq!(rt; intake, State { a: 0, ..last });
    let empty = State {
        b: u64::MAX,
        ..State::ZERO
    };
    let (stock, sends, _) = Orders.step(1, empty, 0, order(7, 1));
    assert_eq!(rt; stock, State::ZERO);
    assert_eq!(rt;
        sends,
        Sends::One(Send {
            target: 0,
            value: order(7, 0),
        })
    );
    let (relay, _, _) = Relay.step(0, last, OUTSIDE, 256);
    assert_eq!(rt;
        relay,
        State {
            a: 0,
            b: u64::MAX ^ 256,
            ..last
        }
    );
}

#[test]
fn stock_gives_all_that_it_has_and_no_more(rt: HostRuntime) {
    let three = State {
        a: 3,
        ..State::ZERO
    };
    let (state, sends, _) = Orders.step(1, three, 0, order(1, 3));
    assert_eq!(rt; state, State::ZERO);
    let note = Send {
        target: 2,
        value: order(1, 3),
    };
    assert_eq!(rt; sends, Sends::Two(note, Send { target: 0, ..note }));
    let (state, sends, _) = Orders.step(1, three, 0, order(1, 4));
    assert_eq!(rt; state, State { b: 1, ..three });
    assert_eq!(rt;
        sends,
        Sends::One(Send {
            target: 0,
            value: order(1, 0),
        })
    );
}

// In every case that the rules leave out the state stays and nothing comes out.
#[test]
fn other_sources_do_nothing(rt: HostRuntime) {
    let state = State {
        a: 1,
        b: 2,
        c: 3,
        d: 4,
    };
    let cases: [(u8, u8); 9] = [
        (0, 0),
        (0, 2),
        (1, 1),
        (1, 2),
        (2, OUTSIDE),
        (2, 0),
        (2, 2),
        (3, OUTSIDE),
        (7, 1),
    ];
    for (process, source) in cases {
        let step = Orders.step(process, state, source, order(1, 1));
        assert_eq!(rt; step, (state, Sends::Nothing, None));
    }
    let step = Relay.step(3, state, OUTSIDE, 256);
    assert_eq!(rt; step, (state, Sends::Nothing, None));
}

// The first bit of b moves to its end.
#[test]
fn relay_rotates_to_the_left(rt: HostRuntime) {
    let state = State {
        b: 0x8000_0000_0000_0001,
        ..State::ZERO
    };
    let (after, sends, _) = Relay.step(1, state, 0, 6);
    assert_eq!(rt;
        after,
        State {
            a: 1,
            b: 3 ^ 6,
            ..State::ZERO
        }
    );
    assert_eq!(rt;
        sends,
        Sends::One(Send {
            target: 2,
            value: 5,
        })
    );
}

// Two sends, told apart by their targets, and taken in their order.
#[test]
fn sends_are_picked_in_order(rt: HostRuntime) -> Result<(), Fail> {
    let note = Send {
        target: 2,
        value: 7,
    };
    let answer = Send {
        target: 0,
        value: 7,
    };
    let both = Sends::Two(note, answer);
    assert_eq!(rt; both.filter(|m| m.target == 0), Sends::One(answer));
    assert_eq!(rt; both.within(3), both);
    assert_eq!(rt; both.within(2), Sends::One(answer));
    assert_eq!(rt; both.len(), 2);
    assert_eq!(rt; both.get(1), Some(answer));
    assert_eq!(rt; both.get(2), None);
    let mut targets = Vec::new(rt.alloc());
    for m in both {
        targets.push(m.target)?;
    }
    assert_eq!(rt; targets.as_slice(), [2, 0].as_slice());
    Ok(())
}
