// The search for the next message that waits between two processes.
ghost use Rattle.std.specs.Prelude.{◌≡◌, drop, None};
ghost use Rattle.std.specs.Option.{option_map};
ghost use Rattle.std.specs.List.{slice_get};
ghost use Rattle.lines.specs.Intervals.{channel};
ghost use Rattle.tables.specs.Answers.{as_message};

use records::Interval;

// A message that waits: its value, and the sender's interval in which it was sent.
#[derive(Clone, Copy)]
pub struct Waiting {
    pub value: u64,
    pub sent_at: u8,
}

// The message to `target` that `skip` others come before. A `flat_map` to the `skip`-th would need a closure in a closure, and is no plainer.
pub(crate) fn sent_after(xs: &[Interval], target: u8, skip: usize) -> Option<Waiting>
    ensures { option_map as_message result ≡ slice_get (drop skip (channel target xs.now)) 0 }
{
    let mut left = skip;
    for x in xs {
        let sends = x.sends.filter(|m| m.target == target);
        if let Some(m) = sends.get(left) {
            return Some(Waiting {
                value: m.value,
                sent_at: x.index,
            });
        }
        left -= sends.len();
    }
    None
}
