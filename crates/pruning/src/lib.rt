// Centers, candidates, and the rules by which a box loses those candidates that no place of it belongs to.
#![tactic(auto)]

pub mod candidates;
pub mod centers;
pub mod contender;
pub mod corner;
pub mod fault;
pub mod keep_all;
pub mod laws;
pub mod leader;
pub mod listing;
pub mod min_max;
pub mod numbering;
pub mod prune;
pub mod region;
pub mod rule;
