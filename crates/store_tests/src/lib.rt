// What every store does, on examples; then what each store does with the memory that it is lent.
#![tactic(auto)]

#[cfg(test)]
mod tests {
    use byte_store::ByteStore;
    use programs::values::{Send, Sends, State};
    use records::{Checkpoint, Content, Interval, Record};
    use std::process::Abort;
    use std::test::Fail;
    use stores::fault::Fault;
    use stores::slots::SlotStore;
    use stores::store::Store;

    fn interval(index: u8, sends: Sends, output: Option<u64>) -> Record {
        Record {
            content: Content::Interval(Interval {
                process: 7,
                index,
                source: 8,
                sent_at: 0,
                value: u64::MAX,
                sends,
                output,
                vector: [0, 1, 2, 3, 4, 5, 96, index],
            }),
        }
    }

    fn checkpoint(index: u8) -> Record {
        Record {
            content: Content::Checkpoint(Checkpoint {
                process: 2,
                index,
                state: State {
                    a: 1,
                    b: u64::MAX,
                    c: 0,
                    d: 4,
                },
            }),
        }
    }

    // This, `reads` and `dies` stand in the tests of frames too: a crate for three helpers of a few lines would be no plainer.
    fn line(entry: u8) -> Record {
        Record {
            content: Content::Line([entry, 0, 0, 0, 0, 0, 0, 96]),
        }
    }

    // All three kinds, with no, one and two sends, with and without an output.
    fn samples() -> [Record; 5] {
        let m = Send {
            target: 7,
            value: 0,
        };
        let n = Send {
            target: 0,
            value: u64::MAX,
        };
        [
            interval(1, Sends::Nothing, None),
            interval(2, Sends::One(m), Some(0)),
            interval(3, Sends::Two(m, n), Some(u64::MAX)),
            checkpoint(3),
            line(3),
        ]
    }

    fn reads<S: Store>(rt: &impl Abort, store: &S, i: u64, expected: Record) -> Result<(), Fail> {
        let mut place = line(99);
        store.read(i, &mut place)?;
        assert_eq!(rt; place, expected);
        Ok(())
    }

    // Refused so, and the place is as it was.
    fn refuses<S: Store>(rt: &impl Abort, store: &S, i: u64, fault: Fault) {
        let mut place = line(99);
        assert_eq!(rt; store.read(i, &mut place), Err(fault));
        assert_eq!(rt; place, line(99));
    }

    fn dies<S: Store>(rt: &impl Abort, store: &mut S) {
        store.arm(0);
        assert_eq!(rt; store.sync(), Err(Fault::Dead));
        assert!(rt; !store.is_alive());
    }

    // What was written is read, before and after a sync, and nothing else. The tests' runtime and the store stay two arguments: they have nothing in common.
    fn keeps_all_kinds<S: Store>(rt: &impl Abort, store: &mut S) -> Result<(), Fail> {
        for record in samples() {
            store.append(record)?;
        }
        assert_eq!(rt; store.safe_count(), 0);
        store.sync()?;
        assert_eq!(rt; store.safe_count(), 5);
        for (i, record) in samples().iter().enumerate() {
            reads(rt, store, i as u64 + 1, *record)?;
        }
        refuses(rt, store, 0, Fault::NoRecord);
        refuses(rt, store, 6, Fault::NoRecord);
        refuses(rt, store, u64::MAX, Fault::NoRecord);
        Ok(())
    }

    // Done if there is power for it, and refused as dead otherwise.
    fn done(has_power: bool) -> Result<(), Fault> {
        has_power.then_some(()).ok_or(Fault::Dead)
    }

    // Three appends and a sync, with a fuse of `k`: the first `k` of them are done, and the next is refused.
    fn dies_at<S: Store>(rt: &impl Abort, store: &mut S, k: u64) {
        store.arm(k);
        for i in 0..3u8 {
            assert_eq!(rt; store.append(line(i)), done(u64::from(i) < k));
        }
        assert_eq!(rt; store.sync(), done(k > 3));
        assert_eq!(rt; store.count(), k.min(3));
        assert_eq!(rt; store.safe_count(), if k > 3 { 3 } else { 0 });
        assert_eq!(rt; store.is_alive(), k > 3);
        // four writes bring a fuse of 4 to 0
        assert_eq!(rt; store.sync(), done(k > 4));
    }

    // Takes as many records as its capacity says, and then refuses without burning the fuse.
    fn fills<S: Store>(rt: &impl Abort, store: &mut S, capacity: u64) -> Result<(), Fail> {
        assert_eq!(rt; store.capacity(), capacity);
        assert_eq!(rt; store.free_slots(), capacity);
        for i in 0..capacity {
            store.append(line((i % 256) as u8))?;
        }
        assert_eq!(rt; store.free_slots(), 0);
        store.arm(0);
        assert_eq!(rt; store.append(line(0)), Err(Fault::Full));
        assert_eq!(rt; store.count(), capacity);
        for i in 0..capacity {
            reads(rt, store, i + 1, line((i % 256) as u8))?;
        }
        refuses(rt, store, capacity.saturating_add(1), Fault::NoRecord);
        assert_eq!(rt; store.sync(), Err(Fault::Dead));
        // dead comes before full
        assert_eq!(rt; store.append(line(0)), Err(Fault::Dead));
        Ok(())
    }

    fn revives_empty<S: Store>(rt: &impl Abort, store: &mut S) {
        assert_eq!(rt; store.revive(0), Err(Fault::Alive));
        dies(rt, store);
        refuses(rt, store, 1, Fault::Dead);
        assert_eq!(rt; store.revive(9), Ok(0));
        assert!(rt; store.is_alive());
        assert_eq!(rt; store.count(), 0);
        assert_eq!(rt; store.revive(9), Err(Fault::Alive));
    }

    // A fuse set while the store is dead outlives the revive.
    fn armed_while_dead<S: Store>(rt: &impl Abort, store: &mut S) -> Result<(), Fail> {
        store.append(line(1))?;
        store.sync()?;
        dies(rt, store);
        store.arm(1);
        assert_eq!(rt; store.revive(0), Ok(0));
        store.append(line(2))?;
        assert_eq!(rt; store.sync(), Err(Fault::Dead));
        assert_eq!(rt; store.count(), 2);
        assert_eq!(rt; store.safe_count(), 1);
        Ok(())
    }

    // What a power cut took is never read again, though it may still lie behind the list:
    // `j` is such that one of the two records that are not safe remains.
    fn forgets<S: Store>(rt: &impl Abort, store: &mut S, j: u64) -> Result<(), Fail> {
        store.append(line(1))?;
        store.sync()?;
        store.append(line(2))?;
        store.append(line(3))?;
        dies(rt, store);
        assert_eq!(rt; store.count(), 3);
        assert_eq!(rt; store.revive(j), Ok(1));
        assert_eq!(rt; store.count(), 2);
        assert_eq!(rt; store.safe_count(), 2);
        reads(rt, store, 2, line(2))?;
        refuses(rt, store, 3, Fault::NoRecord);
        store.append(checkpoint(4))?;
        reads(rt, store, 3, checkpoint(4))?;
        refuses(rt, store, 4, Fault::NoRecord);
        Ok(())
    }

    #[test]
    fn slots_keep_all_kinds(rt: HostRuntime) -> Result<(), Fail> {
        let mut slots = [Record::EMPTY; 5];
        keeps_all_kinds(&rt, &mut SlotStore::new(&mut slots))
    }

    #[test]
    fn slots_die_at_each_place(rt: HostRuntime) {
        for k in 0..7 {
            let mut slots = [Record::EMPTY; 3];
            dies_at(&rt, &mut SlotStore::new(&mut slots), k);
        }
    }

    fn fills_slots(rt: &impl Abort, slots: &mut [Record], n: usize) -> Result<(), Fail> {
        assert!(rt; n <= slots.len());
        fills(
            rt,
            &mut SlotStore::new(&mut slots[0..n]),
            n.min(4096) as u64,
        )
    }

    #[test]
    fn slots_fill(rt: HostRuntime) -> Result<(), Fail> {
        for n in [0, 1, 2, 4095, 4096, 4097, 5000] {
            let mut slots = [Record::EMPTY; 5000];
            fills_slots(&rt, &mut slots, n)?;
        }
        Ok(())
    }

    #[test]
    fn slots_revive(rt: HostRuntime) -> Result<(), Fail> {
        let mut slots = [Record::EMPTY; 4];
        revives_empty(&rt, &mut SlotStore::new(&mut slots));
        armed_while_dead(&rt, &mut SlotStore::new(&mut slots))?;
        forgets(&rt, &mut SlotStore::new(&mut slots), 1)
    }

    // Of three records that are not safe the first `j` remain, or all.
    #[test]
    fn slots_keep_as_many_as_asked(rt: HostRuntime) -> Result<(), Fail> {
        for j in [0, 1, 2, 3, 4, u64::MAX] {
            let mut slots = [Record::EMPTY; 4];
            let mut store = SlotStore::new(&mut slots);
            store.append(line(1))?;
            store.sync()?;
            for i in 2..5 {
                store.append(line(i))?;
            }
            dies(&rt, &mut store);
            assert_eq!(rt; store.revive(j), Ok(j.min(3)));
            assert_eq!(rt; store.count(), j.min(3) + 1);
            assert_eq!(rt; store.safe_count(), j.min(3) + 1);
        }
        Ok(())
    }

    // Records that lay in the slots before the store was made are none of its records, and stay there.
    #[test]
    fn slots_hide_what_they_held(rt: HostRuntime) -> Result<(), Fail> {
        let mut slots = [line(7); 3];
        let mut store = SlotStore::new(&mut slots);
        assert_eq!(rt; store.count(), 0);
        refuses(&rt, &store, 1, Fault::NoRecord);
        store.append(checkpoint(1))?;
        refuses(&rt, &store, 2, Fault::NoRecord);
        dies(&rt, &mut store);
        assert_eq!(rt; store.revive(u64::MAX), Ok(1));
        refuses(&rt, &store, 2, Fault::NoRecord);
        assert_eq!(rt; slots, [checkpoint(1), line(7), line(7)]);
        Ok(())
    }

    #[test]
    fn bytes_keep_all_kinds(rt: HostRuntime) -> Result<(), Fail> {
        let mut bytes = [0; 265];
        keeps_all_kinds(&rt, &mut ByteStore::new(&mut bytes))
    }

    #[test]
    fn bytes_die_at_each_place(rt: HostRuntime) {
        for k in 0..7 {
            let mut bytes = [0; 159];
            dies_at(&rt, &mut ByteStore::new(&mut bytes), k);
        }
    }

    // A line's frame has 13 bytes.
    #[test]
    fn bytes_revive(rt: HostRuntime) -> Result<(), Fail> {
        let mut bytes = [0; 212];
        revives_empty(&rt, &mut ByteStore::new(&mut bytes));
        armed_while_dead(&rt, &mut ByteStore::new(&mut bytes))?;
        forgets(&rt, &mut ByteStore::new(&mut bytes), 13)?;
        forgets(&rt, &mut ByteStore::new(&mut bytes), 25)
    }
}
