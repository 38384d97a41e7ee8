// The whole reading of bytes into tokens, in edition 1, for callers by C calling convention.
#![tactic(auto)]

ghost use Rattle.std.specs.Prelude.{◌≡◌, length};
ghost use Rattle.quanta_token.specs.declared.edition.Edition.TheVariants.{One};
ghost use Rattle.quanta_lexer.specs.Tokenizing.{tokenizing, token_words};
ghost use Rattle.quanta_lexer_c.specs.Outcome.{outcome_of};

use quanta_lexer::lexer::tokenize;
use quanta_lexer::refusal::{Failure, NO_ROOM, Refusal};
use quanta_token::edition::Edition;

// The answer in document 01's numbers: number 0 is acceptance with so many tokens; need is for number 11.
#[repr(C)]
#[derive(Clone, Copy)]
pub struct Outcome {
    pub number: u32,
    pub start: u32,
    pub end: u32,
    pub need: u32,
    pub tokens: u32,
}

#[unsafe(no_mangle)]
pub extern "C" fn quanta_tokenize(source: &[u8], words: &[u8], tokens: &mut [u32]) -> Outcome
    ensures answer { result ≡ outcome_of (tokenizing One source.now words.now (length tokens.old)) }
    ensures words { tokens.new ≡ token_words One source.now words.now (length tokens.old) }
{
    match tokenize(Edition::One, source, words, tokens) {
        Ok(n) => Outcome {
            number: 0,
            start: 0,
            end: 0,
            need: 0,
            tokens: n as u32,
        },
        Err(Failure::Refused(Refusal { number, start, end })) => Outcome {
            number,
            start: start as u32,
            end: end as u32,
            need: 0,
            tokens: 0,
        },
        Err(Failure::Short(n)) => Outcome {
            number: NO_ROOM,
            start: 0,
            end: 0,
            need: n as u32,
            tokens: 0,
        },
    }
}
