// A value of a recording: how it is spelled, which range it lies in, and what can be wrong with it.
#![tactic(auto)]

pub mod fault;
pub mod placed;
pub mod range;
pub mod spelling;
