#![tactic(auto)]

pub mod fault;
pub mod heap;
pub mod record;
pub mod row;
pub mod scheme;
