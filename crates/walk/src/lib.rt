// Walks down the boxes of a recording: what each center gets, and which center each record belongs to.
#![tactic(auto)]

pub mod assign;
pub mod found;
pub mod length_fault;
pub mod nearest;
pub mod survey;
pub mod tally;
pub mod totals;
pub mod visit;
pub mod visiting;
