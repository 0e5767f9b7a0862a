// Tests of the program as a function: what is told of two files that are given as text.
#![tactic(auto)]

#[cfg(test)]
mod limits;
#[cfg(test)]
mod lines;
#[cfg(test)]
mod names;
#[cfg(test)]
mod reports;
#[cfg(test)]
mod told;
#[cfg(test)]
mod values;
