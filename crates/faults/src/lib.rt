// What can be wrong with a file, layer by layer: each layer keeps the fault of the one below and adds its own part.
#![tactic(auto)]

pub mod file;
pub mod input_file;
pub mod program;
pub mod row;
