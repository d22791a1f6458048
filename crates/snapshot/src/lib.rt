#![tactic(auto)]

mod entries;
mod header;
mod kind;
mod lookup;
mod numbers;
mod section;
pub mod snapshot;
mod sorted;
