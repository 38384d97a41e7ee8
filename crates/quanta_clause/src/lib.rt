#![tactic(auto)]

pub mod decl;
