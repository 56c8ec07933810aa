// What a stick keeps to itself, over every run: a locked unit's secret stays its own.
// Each statement is the contract of a function that computes nothing, so that none stands unproved.
#![tactic(auto)]

ghost use Rattle.privacy.specs.Whole.{Private};
ghost use Rattle.privacy.specs.Instances.{Instances};

// In every run a Locked unit keeps its secret, and a completed recovery leaves nothing of it.
pub fn keeps_secrets()
    ensures { Private }
{}

// The premises can be met: two sticks that differ in a secret, and in nothing else.
pub fn premises_met()
    ensures { Instances }
{}
