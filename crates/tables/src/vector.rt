// Dependency vectors.
ghost use Rattle.std.specs.Prelude.{◌≡◌, ◌+◌, ◌≤◌, length, slice_set};
ghost use Rattle.lines.specs.Intervals.{vector_after, merged};

use records::Interval;
use std::array;

// The vector of the last interval; zeros at the start. A `match`: as a `map_or` the proof didn't close.
fn last_vector(xs: &[Interval]) -> [u8; 8]
    ensures { result ≡ vector_after xs.now }
{
    match xs.last() {
        Some(last) => last.vector,
        None => [0; 8],
    }
}

// Entry by entry the larger.
fn merged(v: &[u8; 8], w: &[u8; 8]) -> [u8; 8]
    ensures { result ≡ merged v.now w.now }
{
    array::from_fn(|i| v[i].max(w[i]))
}

// The own entry becomes the new index.
fn with_own(mut vector: [u8; 8], process: u8, index: u8) -> [u8; 8]
    ensures { result ≡ slice_set vector process index }
{
    if process < 8 {
        vector[process as usize] = index;
    }
    vector
}

// After the intervals `own` of a process an input begins one more.
pub(crate) fn after_input(own: &[Interval], process: u8) -> [u8; 8]
    requires { length own.now ≤ 96 }
    ensures { result ≡ slice_set (vector_after own.now) process (length own.now + 1) }
{
    with_own(last_vector(own), process, own.len() as u8 + 1)
}

// After the intervals `own` of a process the delivery of what `sending` sent in its last interval begins one more.
pub(crate) fn after_delivery(own: &[Interval], sending: &[Interval], process: u8) -> [u8; 8]
    requires { length own.now ≤ 96 }
    ensures { result ≡ slice_set (merged (vector_after own.now) (vector_after sending.now)) process (length own.now + 1) }
{
    let both = merged(&last_vector(own), &last_vector(sending));
    with_own(both, process, own.len() as u8 + 1)
}
