// The word table: the test of its records, and whether one of them holds a word.
#![tactic(auto)]

pub mod index;
pub mod lookup;
pub mod words;
