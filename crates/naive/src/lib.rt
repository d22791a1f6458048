// Grading by a plain program, to hold the engine against: no turns, no order in which cells are
// settled, no offers that wait. It goes over all records until none of them gives a better grade.
// A test tool: that what it finds are the best grades is not proved.
#![tactic(auto)]

pub mod count;
pub mod give;
pub mod grades;
pub mod passes;
