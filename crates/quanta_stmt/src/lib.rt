#![tactic(auto)]

pub mod stmt;
