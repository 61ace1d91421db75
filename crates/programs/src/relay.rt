// The relay program: three processes hand a value round and count it down to a multiple of 256.
ghost use Rattle.std.specs.Prelude.{◌≡◌};
ghost use Rattle.programs.specs.Relay.{relay, stirred};
ghost use Rattle.std.proofs.Common.{rules};

use crate::program::{Program, Step};
use crate::values::{Send, Sends, State};

// Counts the step, and stirs the value into b.
fn stir(state: State, value: u64) -> State
    ensures { result ≡ stirred state value }
{
    State {
        a: state.a.wrapping_add(1),
        b: state.b.rotate_left(1) ^ value,
        ..state
    }
}

#[derive(Clone, Copy)]
pub struct Relay;

impl Program for Relay {
    ghost means = { λ _. relay };

    ghost targeted = { Prim.search rules };

    fn start(&self, _process: u8) -> State {
        State::ZERO
    }

    fn step(&self, process: u8, state: State, _source: u8, value: u64) -> Step {
        if process > 2 {
            return (state, Sends::Nothing, None);
        }
        let stirred = stir(state, value);
        if value % 256 == 0 {
            return (stirred, Sends::Nothing, Some(value));
        }
        let target = (process + 1) % 3;
        (
            stirred,
            Sends::One(Send {
                target,
                value: value - 1,
            }),
            None,
        )
    }
}
