// What a call answers: the reading of a source, and what is left to do when the lexer or the parser has answered.
#![tactic(auto)]

pub mod answer;
pub mod finish;
pub mod outcome;
