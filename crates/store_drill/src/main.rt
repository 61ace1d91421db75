// Shows what a loss of power at a sync leaves of a store's records.
#![tactic(auto)]

mod drill;
mod samples;

use byte_store::ByteStore;
use drill::{Loss, cut_power, restore};
use records::Record;
use samples::{LINE, MARK, SENT, TAKEN};
use std::io;
use stores::fault::Fault;
use stores::slots::SlotStore;
use stores::store::Store;
use thiserror::Error;

// Why the drill stops. What is printed of it is the case and its error in full, as `Debug` writes them.
#[derive(Debug, Drop, Error)]
enum Stop {
    #[error(transparent)]
    Printing(#[from] io::Error),
    #[error(transparent)]
    Refused(#[from] Fault),
}

fn held<S: Store>(rt: &HostRuntime, store: &S) -> io::Result<()> {
    let count = store.count();
    let safe = store.lasting_count();
    let power = if store.is_alive() { "alive" } else { "dead" };
    println!(rt; "  the store is {power} and holds {count} records, {safe} of them safe")
}

// Two records are made safe, two more written, and the power goes before those are.
fn show<S: Store>(rt: &HostRuntime, name: &str, store: &mut S, j: u64) -> Result<(), Stop> {
    let free = store.free_slots();
    println!(rt; "{name} with room for {free} records")?;
    store.append(SENT)?;
    store.append(TAKEN)?;
    store.sync()?;
    store.append(MARK)?;
    store.append(LINE)?;
    held(rt, store)?;
    if let Err(fault) = cut_power(store) {
        let number = fault.number();
        println!(rt; "  the power goes at the sync, which is refused with {number}")?;
    }
    held(rt, store)?;
    let Loss { kept, stood, lost } = restore(store, j)?;
    println!(rt;
        "  revive with {j} keeps {kept} of the others; records that stand: {stood}, lost: {lost}"
    )?;
    held(rt, store)?;
    Ok(())
}

fn show_slots(rt: &HostRuntime, j: u64) -> Result<(), Stop> {
    let mut slots = [Record::EMPTY; 8];
    show(rt, "slot store", &mut SlotStore::new(&mut slots), j)
}

fn show_bytes(rt: &HostRuntime, j: u64) -> Result<(), Stop> {
    let mut bytes = [0; 424];
    show(rt, "byte store", &mut ByteStore::new(&mut bytes), j)
}

fn main(rt: HostRuntime) -> Result<(), Stop> {
    for j in [0, 1, 2, 9] {
        show_slots(&rt, j)?;
    }
    // the frames of the records that are not safe have 39 and 13 bytes
    for j in [0, 38, 39, 51, 52] {
        show_bytes(&rt, j)?;
    }
    Ok(())
}
