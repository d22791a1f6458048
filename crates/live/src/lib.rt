#![tactic(auto)]

pub mod flags;
pub mod live;
mod table;
