// What exact k-means means: distances, the nearest center, the weight and the sums of a group, rounded means, rounds;
// the laws of all these; and the code for one record, one group and one mean.
#![tactic(auto)]

pub mod distance;
pub mod group;
pub mod laws;
pub mod mean;
pub mod moved;
pub mod nearest;
