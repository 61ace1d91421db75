// The power of a store cut off at a sync, and given back.
ghost use Rattle.std.specs.Prelude.{◌≡◌};
ghost use Rattle.stores.specs.Faults.{answer};
ghost use Rattle.store_drill.specs.Drill.{cut, Restored};

use stores::fault::Fault;
use stores::store::Store;

// What a revive left.
#[derive(Clone, Copy)]
pub struct Loss {
    // of the records that were not safe
    pub kept: u64,
    pub stood: u64,
    pub lost: u64,
}

// Syncs with a fuse of 0, so that the store dies there.
pub fn cut_power<S: Store>(store: &mut S) -> Result<(), Fault>
    ensures { (answer result, S.Store.means store.new) ≡ cut (S.Store.means store.old) }
{
    store.arm(0);
    store.sync()
}

pub fn restore<S: Store>(store: &mut S, j: u64) -> Result<Loss, Fault>
    ensures { Restored (S.Store.means store.old) (S.Store.means store.new) result }
{
    let before = store.count();
    let kept = store.revive(j)?;
    let stood = store.count();
    Ok(Loss {
        kept,
        stood,
        lost: before.saturating_sub(stood),
    })
}
