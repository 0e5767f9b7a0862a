// The program as a function: from the bytes of the two files to the report of the groups, or to the first fault.
#![tactic(auto)]

mod load;
pub mod print;
pub mod report;
pub mod run;
mod start;
