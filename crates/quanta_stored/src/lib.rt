// What stands in a line of a stored list of readings, and the sums of words.
#![tactic(auto)]

pub mod line;
pub mod words;
