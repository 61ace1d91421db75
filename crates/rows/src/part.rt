// The first intervals of a process, and the rest.
ghost use Rattle.std.specs.Prelude.{◌≡◌, take, drop};

use records::Interval;

// The first `n`, or all if there are fewer.
pub fn first(xs: &[Interval], n: u8) -> &[Interval]
    ensures { result.now ≡ take n xs.now }
{
    xs.get(..n as usize).unwrap_or(xs)
}

// All but the first `n`.
pub fn rest(xs: &[Interval], n: u8) -> &[Interval]
    ensures { result.now ≡ drop n xs.now }
{
    xs.get(n as usize..).unwrap_or(&[])
}
