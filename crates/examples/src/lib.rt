// Worked examples of the rules, and a run of calls that sweeps, as theorems: the checker computes
// them from the definitions that the contracts cite.
#![tactic(auto)]

ghost use Rattle.examples.specs.Table.{Examples};
ghost use Rattle.examples.specs.Sample.{ARunThatSweeps};

// The examples of the rules hold.
pub fn rules_in_examples()
    ensures { Examples }
{}

// The law upon runs is not empty: the three schemes meet its hypotheses, and a run under all three
// ends in a sweep that drops some cells and keeps others.
pub fn runs_that_sweep()
    ensures { ARunThatSweeps }
{}
