#![tactic(auto)]

pub mod count;
pub mod inspect;
