#![tactic(auto)]

pub mod line;
pub mod print;
pub mod script;
pub mod show;
