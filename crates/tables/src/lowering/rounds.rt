// The rounds in which a line is lowered.
ghost use Rattle.std.specs.Prelude.{◌≡◌, ℕ, ◌<◌, ◌≤◌, true, false, length, take, Decides, sum, slice_index_or, []};
ghost use Rattle.std.specs.List.{All};
ghost use Rattle.lines.specs.Lines.{Backed, clipped};
ghost use Rattle.tables.specs.Answers.{line_of};
ghost use Rattle.tables.specs.Lowering.{Longest, Lower, Lowers};
ghost use Rattle.tables.specs.Tables.{processes, family};

use crate::lowering::{Front, Lowering};
use crate::table::Table;
use records::Interval;
use rows::part::first;
use std::array;

// The counts, cut to the rows' lengths.
fn clip(table: &Table, counts: &[u8; 8]) -> [u8; 8]
    ensures few { (p : ℕ) → line_of result p ≤ 96 }
    ensures value { (p : ℕ) → line_of result p ≡ clipped (processes table.now) (family table.now) (line_of counts.now) p }
{
    array::from_fn(|p| counts[p].min(table.intervals(p as u8).len() as u8))
}

// The interval needs its sender up to the sent-at.
fn raise(needs: &mut [u8; 8], x: &Interval)
    ensures above { (q : ℕ) → line_of needs.old q ≤ line_of needs.new q }
    ensures backed { (N : ℕ) → N ≤ 8 → Backed N (line_of needs.new) x.now }
{
    if x.source < 8 {
        let at = x.source as usize;
        needs[at] = needs[at].max(x.sent_at);
    }
}

impl<'a> Lowering<'a> {
    // The counts, cut to the rows' lengths; nothing is known yet.
    pub(crate) fn new(table: &'a Table, counts: &[u8; 8]) -> Lowering<'a>
        ensures table { result.table.now ≡ table.now }
        ensures value { (p : ℕ) → line_of result.line p ≡ clipped (processes table.now) (family table.now) (line_of counts.now) p }
    {
        Lowering {
            table,
            line: clip(table, counts),
            // no line comes up to 255, so that each row is read once; an `Option` would have to be opened at each entry, and is no plainer
            needs: [[255; 8]; 8],
        }
    }
}

impl Lowering<'_> {
    pub(crate) fn line(&self) -> [u8; 8]
        ensures { result ≡ self.now.line }
    {
        self.line
    }

    // Whether the message that began the interval was sent at or before the line.
    fn backs(&self, x: &Interval) -> bool
        ensures { Decides result (Backed (processes self.now.table.now) (line_of self.now.line) x.now) }
    {
        x.source >= self.table.processes() || x.sent_at <= self.line[x.source as usize]
    }

    // Whether the line is nowhere below what the process is known to need.
    fn reaches(&self, process: u8) -> bool
        requires { process < processes self.now.table.now }
        ensures { Decides result ((q : ℕ) → q < processes self.now.table.now → line_of (slice_index_or self.now.needs process []) q ≤ line_of self.now.line q) }
    {
        let needs = self.needs[process as usize];
        (0..self.table.processes() as usize).all(|q| needs[q] <= self.line[q])
    }

    // The intervals before the first that the line does not back.
    fn front(&self, xs: &[Interval]) -> Front
        requires { length xs.now ≤ 96 }
        ensures longest { Longest (processes self.now.table.now) (line_of self.now.line) xs.now result.length }
        ensures needs { All (Backed (processes self.now.table.now) (line_of result.needs)) (take result.length xs.now) }
    {
        let mut needs = [0; 8];
        for (i, x) in xs.iter().enumerate() {
            if !self.backs(x) {
                return Front {
                    length: i as u8,
                    needs,
                };
            }
            raise(&mut needs, x);
        }
        Front {
            length: xs.len() as u8,
            needs,
        }
    }

    // One process goes back to the longest front that the line backs; says whether that is lower.
    // Its intervals are read only where the line has fallen below what they are known to need.
    fn lower_one(&mut self, process: u8) -> bool
        requires { process < processes self.old.table.now }
        ensures table { self.new.table.now ≡ self.old.table.now }
        ensures lower { Lower (processes self.old.table.now) (family self.old.table.now) self.old.line self.new.line }
        ensures less { result ≡ true → sum self.new.line < sum self.old.line }
        ensures stays { result ≡ false → (self.new.line ≡ self.old.line) × All (Backed (processes self.old.table.now) (line_of self.new.line)) (take (line_of self.new.line process) (family self.old.table.now process)) }
    {
        if self.reaches(process) {
            return false;
        }
        let at = process as usize;
        let xs = first(self.table.intervals(process), self.line[at]);
        let Front { length, needs } = self.front(xs);
        let lower = length < self.line[at];
        self.line[at] = length;
        self.needs[at] = needs;
        lower
    }

    // One round over all processes; says whether one went back.
    pub(crate) fn lower(&mut self) -> bool
        ensures table { self.new.table.now ≡ self.old.table.now }
        ensures lowers { Lowers (processes self.old.table.now) (family self.old.table.now) self.old.line self.new.line result }
    {
        let mut lowered = false;
        for p in 0..self.table.processes() {
            lowered |= self.lower_one(p);
        }
        lowered
    }
}
