// A scheme and a heap of one's own, as docs/EXTENDING.md explains them.
#![tactic(auto)]

pub mod looseness;
pub mod only_root;
#[cfg(test)]
mod tests;
