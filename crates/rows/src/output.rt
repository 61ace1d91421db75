// The search for an output by its number.
ghost use Rattle.std.specs.Prelude.{◌≡◌};
ghost use Rattle.std.specs.List.{slice_get};
ghost use Rattle.lines.specs.Intervals.{outputs};
ghost use Rattle.rows.specs.Outputs.{nth_output};

use records::Interval;

// The output that `skip` others come before. A loop: a chain to the `skip`-th takes up to three and a half times as long.
fn output_after(xs: &[Interval], skip: u64) -> Option<u64>
    ensures { result ≡ slice_get (outputs xs.now) skip }
{
    let mut left = skip;
    for x in xs {
        if let Some(value) = x.output {
            if left == 0 {
                return Some(value);
            }
            left -= 1;
        }
    }
    None
}

// The `n`-th output, counted from 1.
pub(crate) fn nth_output(xs: &[Interval], n: u64) -> Option<u64>
    ensures { result ≡ nth_output n xs.now }
{
    output_after(xs, n.checked_sub(1)?)
}
