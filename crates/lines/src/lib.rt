// What the processes have done, what waits between them, and how far back a recovery must go: the laws.
#![tactic(auto)]

ghost use Rattle.lines.specs.Laws.{GreatestExists, GreatestUnique, CutRecords, RunRecords, VectorsTell};

// The laws of lines stand; there is nothing to compute.
pub fn laws_stand()
    ensures exists { GreatestExists }
    ensures unique { GreatestUnique }
    ensures cut { CutRecords }
    ensures run { RunRecords }
    ensures vectors { VectorsTell }
{}
