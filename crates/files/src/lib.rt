// Files of records and of centers: what a row is for each kind, and the reading of a whole file into a table.
#![tactic(auto)]

mod axis;
pub mod drive;
pub mod header;
mod lines;
pub mod row;
pub mod table;
pub mod telegram;
