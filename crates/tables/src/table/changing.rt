// How a table is made, and how its rows are changed.
ghost use Rattle.std.specs.Prelude.{◌≡◌, ℕ};
ghost use Rattle.rows.specs.Rows.{Held, held, cut_to};
ghost use Rattle.tables.specs.Answers.{line_of};
ghost use Rattle.tables.specs.Tables.{New, Changes};

use crate::entries::entry;
use crate::table::Table;
use programs::values::State;
use rows::row::Row;

impl Table {
    // All processes are up, with no intervals and in this state.
    pub fn new(count: u8, state: State) -> Table
        ensures { New count state result }
    {
        Table {
            rows: [Row::new(state); 8],
            count,
        }
    }

    // The row of each process is changed in its place, by its number: of rows that an adapter of `iter_mut` changes the proof knows nothing.
    pub fn change_rows<F: Fn(u8, &mut Row)>(&mut self, change: F)
        requires { F.IsAlwaysCallable change }
        ensures { (f : ℕ → Held → Held) → ((p : ℕ) (a b : _) → F.post change p a tt b → held b.now ≡ f p (held a.now)) → Changes f self.old self.new }
    {
        let count = self.processes();
        let rows = &mut self.rows;
        for p in 0..count {
            change(p, &mut rows[p as usize]);
        }
    }

    // Every process is cut to its entry of the line.
    pub fn cut(&mut self, line: &[u8; 8])
        ensures { Changes (λ p. cut_to (line_of line.now p)) self.old self.new }
    {
        self.change_rows(|p, row| row.cut(entry(line, p)));
    }
}
