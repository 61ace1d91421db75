// Edge cases of the rules, proved of the definitions and met by the code.
#![tactic(auto)]

ghost use Rattle.std.specs.Prelude.{◌≡◌, Some, None};
ghost use Rattle.programs.specs.Program.{to};
ghost use Rattle.programs.specs.declared.values.Sends.TheVariants.{Nothing, One};
ghost use Rattle.edges.specs.Edges.{Edges};

use programs::program::Program;
use programs::relay::Relay;
use programs::values::{OUTSIDE, Sends, State};

// What the relay's process 2 sends and outputs on 513 and on 512; the contract is the table of all edge cases.
pub fn relay_edges() -> ((Sends, Option<u64>), (Sends, Option<u64>))
    ensures table { Edges }
    ensures value { result ≡ ((One (to 0 512), None), (Nothing, Some 512)) }
{
    let (_, sends, output) = Relay.step(2, State::ZERO, OUTSIDE, 513);
    let (_, last_sends, last_output) = Relay.step(2, State::ZERO, OUTSIDE, 512);
    ((sends, output), (last_sends, last_output))
}
