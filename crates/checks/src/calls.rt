// The tests of each call, in their order: what passes, or the first refusal.
ghost use Rattle.std.specs.Prelude.{◌≡◌, ℕ, ◌+◌, ◌-◌, ◌<◌, ◌≤◌, [], ◌∷◌, length, take, nat_lt, slice_index};
ghost use Rattle.stores.specs.Calls.{room};
ghost use Rattle.stores.specs.Meaning.{Meaning as Stored, count};
ghost use Rattle.tables.specs.Tables.{processes, family, row_of};
ghost use Rattle.histories.specs.Calls as call;
ghost use Rattle.histories.specs.Calls.{by_host, by_store};
ghost use Rattle.histories.specs.Tests.{shown, absent, dark, down, no_room, unsaved};
ghost use Rattle.lines.specs.Lines.{greatest_line};
ghost use Rattle.rows.specs.Outputs.{nth_output};
ghost use Rattle.checks.specs.Checks.{Checked};
ghost use Rattle.checks.specs.Deliveries.{Next};
ghost use Rattle.checks.specs.Worlds.{world_of, tests_of, committed_outputs};

use crate::host_lines::{are_all_up, committed_line};
use crate::refusal::Refusal;
use crate::single::{limited, numbered};
use crate::state::HostState;
use programs::values::OUTSIDE;
use rows::source::count_from;
use stores::store::Store;
use tables::channel::Waiting;
use tables::entries::entry;

// A delivery that may be made: from whom, to whom, and the message that is next.
#[derive(Clone, Copy)]
pub struct Delivery {
    pub source: u8,
    pub target: u8,
    pub message: Waiting,
}

// The store has room for so many records more.
pub fn check_room<S: Store>(store: &S, records: u64) -> Result<(), Refusal>
    ensures { Checked ((nat_lt (room (S.Store.means store.now)) records, by_store 18 (count (S.Store.means store.now))) ∷ []) (λ _. Unit {0}) result }
{
    if store.free_slots() < records {
        return Err(Refusal::NoRoom(store.count()));
    }
    Ok(())
}

impl HostState {
    // The process that the input is for.
    pub fn check_input(&self, process: u64, number: u64) -> Result<u8, Refusal>
        ensures { (m : Stored) (v : ℕ) → Checked (tests_of self.now m (call.input process number v)) (λ p. p ≡ process) result }
    {
        let p = self.existing(process, 1)?;
        numbered(number, 2)?;
        self.standing(p)?;
        // as `Row::next_input` counts; the row would be looked up beside its intervals, which is no plainer
        let expected = count_from(self.table.intervals(p), OUTSIDE) as u64 + 1;
        if number < expected {
            return Err(Refusal::OldInput);
        }
        if number > expected {
            return Err(Refusal::EarlyInput);
        }
        self.unfilled(p)?;
        Ok(p)
    }

    pub fn check_deliver(&self, source: u64, target: u64) -> Result<Delivery, Refusal>
        ensures { (m : Stored) → Checked (tests_of self.now m (call.deliver source target)) (Next (family self.now.table) source target) result }
    {
        let q = self.existing(source, 1)?;
        let p = self.existing(target, 2)?;
        self.standing(p)?;
        let message = self.first_waiting(q, p)?;
        self.unfilled(p)?;
        Ok(Delivery {
            source: q,
            target: p,
            message,
        })
    }

    // The process that is to crash, or to be looked at.
    pub fn check_process(&self, process: u64) -> Result<u8, Refusal>
        ensures crash { (m : Stored) → Checked (tests_of self.now m (call.crash process)) (λ p. p ≡ process) result }
        ensures look { (m : Stored) → Checked (tests_of self.now m (call.look process)) (λ p. p ≡ process) result }
    {
        let found = self.existing(process, 1)?;
        self.standing(found)?;
        Ok(found)
    }

    pub fn check_fail(&self, fuse: u64) -> Result<(), Refusal>
        ensures { (m : Stored) → Checked (tests_of self.now m (call.fail fuse)) (λ _. Unit {0}) result }
    {
        limited(fuse, 1)
    }

    pub fn check_restart(&self, j: u64) -> Result<(), Refusal>
        ensures { (m : Stored) → Checked (tests_of self.now m (call.restart j)) (λ _. Unit {0}) result }
    {
        limited(j, 1)?;
        if !self.dark {
            return Err(Refusal::NotDark);
        }
        Ok(())
    }

    // What a recovery is refused for before its line is known.
    pub fn check_recover(&self) -> Result<(), Refusal>
        ensures { (m : Stored) → Checked (take 2 (tests_of self.now m call.recover)) (λ _. Unit {0}) result }
    {
        self.awake()?;
        if are_all_up(&self.table) {
            return Err(Refusal::NoneDown);
        }
        Ok(())
    }

    // The `n`-th output of a process, if the committed line has as many.
    fn committed_output(&self, process: u8, n: u64) -> Option<u64>
        ensures { result ≡ nth_output n (take (greatest_line (processes self.now.table) (family self.now.table) (λ q. (row_of self.now.table q).saved) process) (row_of self.now.table process).intervals) }
    {
        let line = committed_line(&self.table);
        self.table.row(process)?.output(entry(&line, process), n)
    }

    // The same, as an answer of show.
    fn shown_output(&self, process: u8, n: u64) -> Result<u64, Refusal>
        requires { 0 < n }
        ensures { Checked ((nat_lt (length (committed_outputs self.now.table process)) n, by_host 19 0) ∷ []) (λ v. v ≡ slice_index (committed_outputs self.now.table process) (n - 1)) result }
    {
        self.committed_output(process, n)
            .ok_or(Refusal::NotCommitted)
    }

    // The output that is to be shown.
    pub fn check_show(&self, process: u64, n: u64) -> Result<u64, Refusal>
        ensures { (m : Stored) → Checked (tests_of self.now m (call.show process n)) (λ v. v ≡ slice_index (shown (processes self.now.table) (world_of self.now.table self.now.dark m) process) (n - 1)) result }
    {
        let p = self.existing(process, 1)?;
        numbered(n, 2)?;
        self.awake()?;
        self.shown_output(p, n)
    }

    // The process that is to be written, with so many records more than its intervals. The store stays an argument: the host owns it beside its state.
    fn check_writing<S: Store>(&self, store: &S, process: u64, more: u64) -> Result<u8, Refusal>
        requires { more ≤ 1 }
        ensures { Checked (absent (processes self.now.table) process 1 ∷ dark (world_of self.now.table self.now.dark (S.Store.means store.now)) ∷ down (world_of self.now.table self.now.dark (S.Store.means store.now)) process ∷ no_room (world_of self.now.table self.now.dark (S.Store.means store.now)) (length (unsaved (world_of self.now.table self.now.dark (S.Store.means store.now)) process) + more) ∷ []) (λ p. p ≡ process) result }
    {
        let p = self.existing(process, 1)?;
        self.standing(p)?;
        check_room(store, self.table.unsaved(p) + more)?;
        Ok(p)
    }

    pub fn check_save<S: Store>(&self, store: &S, process: u64) -> Result<u8, Refusal>
        ensures { Checked (tests_of self.now (S.Store.means store.now) (call.save process)) (λ p. p ≡ process) result }
    {
        self.check_writing(store, process, 0)
    }

    pub fn check_mark<S: Store>(&self, store: &S, process: u64) -> Result<u8, Refusal>
        ensures { Checked (tests_of self.now (S.Store.means store.now) (call.mark process)) (λ p. p ≡ process) result }
    {
        self.check_writing(store, process, 1)
    }
}
