// What is read off a source beside its tokens: the place of an offset, and the text of a token.
#![tactic(auto)]

pub mod place;
pub mod reader;
pub mod text;
