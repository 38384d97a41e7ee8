#![tactic(auto)]

pub mod node;
pub mod parser;
pub mod refusal;
