// The table of boxes over a recording: cutting a box in two, halving, a point's smallest box, and what a box tells.
#![tactic(auto)]

pub mod access;
pub mod at;
pub mod cut;
pub mod cutting;
pub mod fault;
pub mod halving;
pub mod laws;
pub mod make;
pub mod node;
pub mod report;
pub mod run;
pub mod search;
pub mod table;
pub mod telling;
mod width;
