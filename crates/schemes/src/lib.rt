#![tactic(auto)]

use model::fault::{Cause, Fault};

pub mod bytes;
pub mod depth;
pub mod strength;

// A limit is made of a number that is no grade.
const NO_GRADE: Fault = Fault {
    cause: Cause::LimitNumber,
    place: 2,
};
