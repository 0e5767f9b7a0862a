// What a program that groups does with its surroundings: it reads its two files in the folder that it is run in, and prints the groups
// or the first fault.
#![tactic(auto)]

pub mod input;
pub mod show;
