// Points, the records of a recording, and recordings that are neither empty nor too long.
#![tactic(auto)]

pub mod bounds;
pub mod drive;
pub mod fault;
pub mod point;
pub mod position;
pub mod record;
pub mod recording;
pub mod telegram;
