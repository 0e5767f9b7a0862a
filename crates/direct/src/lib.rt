// Exact k-means the direct way: every record is compared with every center.
#![tactic(auto)]

pub mod group;
pub mod round;
pub mod tally;
