// The five public calls: a source, a word table and two lent buffers in; an answer, token records and tree records out.
#![tactic(auto)]

pub mod calls;
pub mod export;
