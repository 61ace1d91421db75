// The byte store: its capacity, its bytes, and what a loss of power leaves of them.
use crate::samples;
use byte_store::ByteStore;
use byte_store::edge::line_standing;
use records::Record;
use std::process::Abort;
use std::test::Fail;
use stores::fault::Fault;
use stores::store::Store;

// This and `dies` stand in the tests of stores too: a crate for a few lines would be no plainer.
fn reads<S: Store>(rt: &impl Abort, store: &S, i: u64, expected: Record) -> Result<(), Fail> {
    let mut place = samples::line(99);
    store.read(i, &mut place)?;
    assert_eq!(rt; place, expected);
    Ok(())
}

fn dies<S: Store>(rt: &impl Abort, store: &mut S) {
    store.arm(0);
    assert_eq!(rt; store.sync(), Err(Fault::Dead));
    assert!(rt; !store.is_alive());
}

fn zero(rt: &impl Abort, bytes: &[u8]) {
    assert!(rt; bytes.iter().all(|b| *b == 0));
}

// Over `size` bytes there is room for `capacity` records.
fn holds(rt: &impl Abort, size: usize, capacity: u64) -> Result<(), Fail> {
    let mut bytes = [0xEE; 217_141];
    assert!(rt; size <= 217_141);
    let mut store = ByteStore::new(&mut bytes[..size]);
    zero(rt, store.medium().bytes());
    assert_eq!(rt; store.capacity(), capacity);
    for i in 0..capacity {
        store.append(samples::line((i % 251) as u8))?;
    }
    assert_eq!(rt; store.append(samples::line(0)), Err(Fault::Full));
    store.sync()?;
    assert_eq!(rt; store.count(), capacity);
    for i in 0..capacity {
        reads(rt, &store, i + 1, samples::line((i % 251) as u8))?;
    }
    let mut place = samples::line(99);
    assert_eq!(rt;
        store.read(capacity.saturating_add(1), &mut place),
        Err(Fault::NoRecord)
    );
    assert_eq!(rt; place, samples::line(99));
    Ok(())
}

// One safe record and three unsafe ones, of which a revive with `j` leaves `kept`.
fn stands(rt: &impl Abort, j: u64, kept: u64) -> Result<(), Fail> {
    let mut bytes = [0xEE; 300];
    let mut store = ByteStore::new(&mut bytes);
    store.append(samples::line(2))?;
    store.sync()?;
    store.append(samples::line(1))?;
    store.append(samples::checkpoint())?;
    store.append(samples::one_send())?;
    dies(rt, &mut store);
    assert_eq!(rt; store.revive(j), Ok(kept));
    assert_eq!(rt; store.count(), kept.saturating_add(1));
    assert_eq!(rt; store.safe_count(), kept.saturating_add(1));
    reads(rt, &store, 1, samples::line(2))?;
    let end = match kept {
        0 => 13,
        1 => 26,
        2 => 65,
        _ => 118,
    };
    assert!(rt; store.medium().bytes().len() == 300);
    zero(rt, &store.medium().bytes()[end..]);
    store.append(samples::checkpoint())?;
    reads(rt, &store, kept.saturating_add(2), samples::checkpoint())
}

#[test]
fn capacities(rt: HostRuntime) -> Result<(), Fail> {
    for (size, capacity) in [
        (0, 0),
        (1, 0),
        (52, 0),
        (53, 1),
        (54, 1),
        (106, 2),
        (217_088, 4096),
        (217_141, 4096),
    ] {
        holds(&rt, size, capacity)?;
    }
    Ok(())
}

#[test]
fn every_cut_of_power(rt: HostRuntime) -> Result<(), Fail> {
    for j in 0..120u64 {
        let kept = match j {
            0..=12 => 0,
            13..=51 => 1,
            52..=104 => 2,
            _ => 3,
        };
        stands(&rt, j, kept)?;
    }
    stands(&rt, u64::MAX, 3)
}

#[test]
fn frames_in_bytes(rt: HostRuntime) -> Result<(), Fail> {
    let mut bytes = [0xEE; 106];
    let mut store = ByteStore::new(&mut bytes);
    store.append(samples::line(1))?;
    store.append(samples::checkpoint())?;
    assert_eq!(rt; store.append(samples::line(1)), Err(Fault::Full));
    assert!(rt; bytes.len() == 106);
    assert_eq!(rt; &bytes[..13], &samples::LINE[..]);
    assert_eq!(rt; &bytes[13..52], &samples::CHECKPOINT[..]);
    zero(&rt, &bytes[52..]);
    Ok(())
}

#[test]
fn unsafe_line(rt: HostRuntime) -> Result<(), Fail> {
    for j in [0u64, 12, 13, 14] {
        let mut bytes = [0; 53];
        let mut store = ByteStore::new(&mut bytes);
        store.append(samples::line(1))?;
        dies(&rt, &mut store);
        assert_eq!(rt; store.revive(j), Ok(line_standing(j)));
        assert_eq!(rt; store.count(), if j < 13 { 0 } else { 1 });
    }
    Ok(())
}

#[test]
fn empty_and_armed_while_dead(rt: HostRuntime) -> Result<(), Fail> {
    let mut bytes = [0; 106];
    let mut store = ByteStore::new(&mut bytes);
    assert_eq!(rt; store.revive(9), Err(Fault::Alive));
    dies(&rt, &mut store);
    assert_eq!(rt; store.revive(9), Ok(0));
    dies(&rt, &mut store);
    store.arm(1);
    assert_eq!(rt; store.append(samples::line(1)), Err(Fault::Dead));
    assert_eq!(rt; store.revive(0), Ok(0));
    store.append(samples::line(1))?;
    assert_eq!(rt; store.sync(), Err(Fault::Dead));
    assert_eq!(rt; store.revive(13), Ok(1));
    assert_eq!(rt; store.safe_count(), 1);
    Ok(())
}
