// The lines of a file: its columns, the line of names and the lines of values.
#![tactic(auto)]

pub mod column;
pub mod kind;
pub mod laws;
pub mod name;
pub mod names;
pub mod order;
pub mod values;
