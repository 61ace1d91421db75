// What each call of a host means, and the theorem on every history of calls.
#![tactic(auto)]

ghost use Rattle.histories.specs.Scripts.{Scripts};
ghost use Rattle.histories.specs.Theorem.{EveryHistory};

// The theorem, and the table of scripts that the rules answer; there is nothing to compute.
pub fn histories_stand()
    ensures theorem { EveryHistory }
    ensures scripts { Scripts }
{}
