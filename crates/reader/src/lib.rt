// Steps through the bytes of a file by lines and by the comma separated fields of a line, and lends the fields with their places.
#![tactic(auto)]

pub mod cursor;
pub mod fields;
mod line_number;
pub mod lines;
mod scan;
pub mod token;
