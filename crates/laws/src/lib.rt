// What follows from the rules: the law of sweeps and the law upon runs. This crate has no code. Its
// statements stand in specs/ and are part of the contracts of the crates above.
#![tactic(auto)]
