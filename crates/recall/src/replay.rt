// A replay: the intervals of a process played again.
ghost use Rattle.std.specs.Prelude.{◌≡◌};
ghost use Rattle.recall.specs.Replayed.{replayed};

use programs::program::Program;
use programs::values::State;
use records::Interval;

// The state that the intervals lead to, in their order, from the state `from`.
pub fn replay<P: Program>(program: &P, process: u8, from: State, xs: &[Interval]) -> State
    ensures { result ≡ replayed (P.Program.means program.now) process from xs.now }
{
    xs.iter().fold(
        from,
        |state, x| program.step(process, state, x.source, x.value).0,
    )
}
