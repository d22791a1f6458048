// What the programs that try the collector at random share: dice, heaps made by them, and a
// tally of what came of it.
#![tactic(auto)]

pub mod dice;
pub mod fill;
pub mod shapes;
pub mod tally;
