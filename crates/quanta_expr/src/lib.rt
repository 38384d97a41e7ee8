#![tactic(auto)]

pub mod expr;
pub mod op;
