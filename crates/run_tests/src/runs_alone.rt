// Whole runs: states, channels and outputs, few processes, and what is refused.
use crate::building::order;
use programs::orders::Orders;
use programs::relay::Relay;
use programs::values::State;
use runs::runner::{Message, Output, RunError, Runner};
use std::test::Fail;

// Stock comes in, and an order goes from intake to its picking note and its confirmation.
#[test]
fn one_order(rt: HostRuntime) -> Result<(), Fail> {
    let mut run = Runner::new(rt.alloc(), Orders, 3)?;
    let value = order(1, 3);
    run.take(1, 10)?;
    run.take(0, value)?;
    assert_eq!(rt;
        run.waiting(),
        &[Message {
            source: 0,
            target: 1,
            value,
        }][..]
    );
    assert_eq!(rt; run.move_first(0, 1)?, value);
    assert_eq!(rt;
        run.state(1),
        Some(State {
            a: 7,
            ..State::ZERO
        })
    );
    let picking = Message {
        source: 1,
        target: 2,
        value,
    };
    assert_eq!(rt;
        run.waiting(),
        &[
            picking,
            Message {
                source: 1,
                target: 0,
                value,
            },
        ][..]
    );
    run.move_first(1, 0)?;
    run.move_first(1, 2)?;
    assert!(rt; run.waiting().is_empty());
    assert_eq!(rt;
        run.outputs(),
        &[Output { process: 0, value }, Output { process: 2, value }][..]
    );
    assert_eq!(rt;
        run.state(0),
        Some(State {
            a: 1,
            b: 3,
            ..State::ZERO
        })
    );
    assert_eq!(rt;
        run.state(2),
        Some(State {
            a: 1,
            ..State::ZERO
        })
    );
    Ok(())
}

// A message is moved in the order in which it was sent.
#[test]
fn the_first_moves_first(rt: HostRuntime) -> Result<(), Fail> {
    let mut run = Runner::new(rt.alloc(), Orders, 3)?;
    run.take(0, order(1, 1))?;
    run.take(0, order(2, 2))?;
    assert_eq!(rt; run.move_first(0, 1)?, order(1, 1));
    assert_eq!(rt; run.move_first(0, 1)?, order(2, 2));
    assert_eq!(rt; run.move_first(0, 1), Err(RunError::NothingWaiting));
    Ok(())
}

// 5 goes round the ring of three until it is 0.
#[test]
fn relay_goes_round(rt: HostRuntime) -> Result<(), Fail> {
    let mut run = Runner::new(rt.alloc(), Relay, 3)?;
    run.take(0, 5)?;
    assert_eq!(rt; run.settle(4), Err(RunError::Unsettled));
    assert!(rt; run.outputs().is_empty());
    run.settle(1)?;
    assert_eq!(rt;
        run.outputs(),
        &[Output {
            process: 2,
            value: 0,
        }][..]
    );
    assert_eq!(rt;
        run.state(2),
        Some(State {
            a: 2,
            b: 6,
            ..State::ZERO
        })
    );
    Ok(())
}

// With one process or two, sends to the others vanish.
#[test]
fn sends_to_absent_processes_vanish(rt: HostRuntime) -> Result<(), Fail> {
    let mut one = Runner::new(rt.alloc(), Orders, 1)?;
    one.take(0, order(1, 1))?;
    assert!(rt; one.waiting().is_empty());
    assert_eq!(rt;
        one.state(0),
        Some(State {
            a: 1,
            ..State::ZERO
        })
    );
    assert_eq!(rt; one.state(1), None);
    let mut two = Runner::new(rt.alloc(), Orders, 2)?;
    two.take(1, 2)?;
    two.take(0, order(1, 2))?;
    two.move_first(0, 1)?;
    assert_eq!(rt;
        two.waiting(),
        &[Message {
            source: 1,
            target: 0,
            value: order(1, 2),
        }][..]
    );
    Ok(())
}

#[test]
fn what_is_not_there_is_refused(rt: HostRuntime) -> Result<(), Fail> {
    for count in [0u8, 9, 255] {
        assert_eq!(rt;
            Runner::new(rt.alloc(), Orders, count).err(),
            Some(RunError::ProcessCount)
        );
    }
    let mut run = Runner::new(rt.alloc(), Orders, 3)?;
    run.take(0, order(1, 1))?;
    assert_eq!(rt; run.take(3, 1), Err(RunError::NoSuchProcess));
    assert_eq!(rt; run.move_first(3, 0), Err(RunError::NoSuchProcess));
    assert_eq!(rt; run.move_first(0, 8), Err(RunError::NoSuchProcess));
    assert_eq!(rt; run.move_first(1, 0), Err(RunError::NothingWaiting));
    assert_eq!(rt; run.count(), 3);
    assert_eq!(rt; run.waiting().len(), 1);
    assert!(rt; run.outputs().is_empty());
    Ok(())
}
