// Fills a byte store and, if told to, reads it record by record: for counting instructions.
#![tactic(auto)]

use anyhow::Context;
use byte_store::ByteStore;
use frames::write::LARGEST;
use records::Record;
use std::env;
use stores::fault::Fault;
use stores::store::{MAX_CAPACITY, Store};

const BYTES: usize = LARGEST * MAX_CAPACITY;

fn fill<S: Store>(store: &mut S) -> Result<u64, Fault> {
    for _ in 0..store.capacity() {
        store.append(Record::EMPTY)?;
    }
    Ok(store.count())
}

fn read_all<S: Store>(store: &S) -> usize {
    let mut place = Record::EMPTY;
    (1..=store.count())
        .filter(|&i| store.read(i, &mut place).is_ok())
        .count()
}

// Two words: how many records the store is to have room for, and `fill` or `read`.
fn main(rt: HostRuntime) -> anyhow::Result<()> {
    let mut words = env::args(&rt)?;
    let _ = words.next();
    let records = words
        .next()
        .context("no number")?
        .as_str()
        .parse::<usize>()?;
    let read = words.next().context("no word")?.as_str() == "read";
    let size = records.min(MAX_CAPACITY) * LARGEST;
    let mut bytes = [0; BYTES];
    let mut store = ByteStore::new(&mut bytes[0..size]);
    let filled = fill(&mut store)?;
    println!(rt; "{filled} records written")?;
    if read {
        let found = read_all(&store);
        println!(rt; "{found} records read")?;
    }
    Ok(())
}
