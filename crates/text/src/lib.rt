#![tactic(auto)]

pub mod command;
pub mod number;
pub mod refusal;
pub mod words;
pub mod write;
