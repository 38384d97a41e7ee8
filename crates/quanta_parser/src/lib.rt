#![tactic(auto)]

pub mod program;
pub mod whole;
