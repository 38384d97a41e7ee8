// What no source may hold: a CR without LF, and the barred characters.
#![tactic(auto)]

pub mod source;
