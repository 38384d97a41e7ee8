// Copyright 2026 Quantova Inc
// SPDX-License-Identifier: Apache-2.0 OR MIT

// The whole reading of bytes into token records.
ghost use Rattle.std.specs.Prelude.{◌≡◌, ◌≤◌, ◌<◌, ◌^◌, length};
ghost use Rattle.quanta_lexer.specs.Refusals.{source_limit, refusal};
ghost use Rattle.quanta_lexer.specs.Tokens.{tok, store, lex_all, Ran};
ghost use Rattle.quanta_lexer.specs.Tokenizing.{reading, Written, tokenizing, token_words};

use crate::refusal::{
    BAD_TABLE, BARE_RETURN, BARRED_CHARACTER, Failure, LONG_SOURCE, NOT_UTF8, Refusal,
    SOURCE_LIMIT, TABLE_LIMIT,
};
use crate::scan::{BytePos, Lexer, Token, skip_trivia};
use quanta_source::source::{Fault, check_source};
use quanta_token::bytes::ByteChart;
use quanta_token::edition::Edition;
use quanta_token::token::EOF;
use quanta_words::index::index_words;
use quanta_words::lookup::sift;
use quanta_words::words::check_words;
use utf8::first_bad;

fn refused(number: u32, start: usize, end: usize) -> Result<usize, Refusal>
    ensures { result ≡ Err (refusal number start end) }
{
    Err(Refusal { number, start, end })
}

// Writes a token's record after n others, if it has room.
#[tactic(auto, using(crate::proofs::TokensLaws::store_room, crate::proofs::TokensLaws::store_full))]
fn write_token(tokens: &mut [u32], n: usize, token: Token)
    requires count { n < 2 ^ 32 }
    requires start { token.start.0 < 2 ^ 32 }
    requires end { token.end.0 < 2 ^ 32 }
    ensures { tokens.new ≡ store n (tok token.kind token.start.0 token.end.0) tokens.old }
{
    let at = 3 * n;
    if at + 3 <= tokens.len() {
        tokens[at] = token.kind;
        tokens[at + 1] = token.start.0 as u32;
        tokens[at + 2] = token.end.0 as u32;
    }
}

impl Lexer<'_> {
    // The tokens of the source, their records written as far as there is room; or the first failing token.
    fn run(&self, tokens: &mut [u32]) -> Result<usize, Refusal>
        requires { length self.now.src.now ≤ source_limit }
        ensures { Ran self.now.edition self.now.src.now self.now.words.now tokens.old tokens.new result }
    {
        let mut n: usize = 0;
        let mut i = BytePos(0);
        loop {
            let here = skip_trivia(self.chart, self.src, i);
            match self.next_token(here)? {
                Some(token) => {
                    write_token(tokens, n, token);
                    n += 1;
                    i = token.end;
                }
                None => {
                    let eof = Token {
                        kind: EOF,
                        start: here,
                        end: here,
                    };
                    write_token(tokens, n, eof);
                    let count = n + 1;
                    return Ok(count);
                }
            }
        }
    }
}

// A table of at most so many bytes has at most so many records: its index is on every call's stack, and takes little to
// clear.
const SHORT_TABLE: usize = 8192;

const SHORT_INDEX: usize = 2048;

// No table has more records than that.
const LONG_INDEX: usize = 16384;

// The tokens, with an index of the word table in the words lent for it.
fn run_indexed(
    edition: Edition,
    src: &[u8],
    words: &[u8],
    index: &mut [u16],
    tokens: &mut [u32],
) -> Result<usize, Refusal>
    requires { length src.now ≤ source_limit }
    ensures { Ran edition src.now words.now tokens.old tokens.new result }
{
    let n = index_words(words, index);
    let chart = ByteChart::new();
    let seen = sift(words);
    let lexer = Lexer {
        edition,
        src,
        chart: &chart,
        words,
        seen: &seen,
        index: &index[..n],
    };
    lexer.run(tokens)
}

// The tokens under a long table. In a frame of its own, so that the long index is on the stack under long tables only.
#[inline(never)]
fn run_long(
    edition: Edition,
    src: &[u8],
    words: &[u8],
    tokens: &mut [u32],
) -> Result<usize, Refusal>
    requires { length src.now ≤ source_limit }
    ensures { Ran edition src.now words.now tokens.old tokens.new result }
{
    let mut index = [0u16; LONG_INDEX];
    run_indexed(edition, src, words, &mut index, tokens)
}

// The tokens, with an index as long as the table asks for.
fn run_by_size(
    edition: Edition,
    src: &[u8],
    words: &[u8],
    tokens: &mut [u32],
) -> Result<usize, Refusal>
    requires { length src.now ≤ source_limit }
    ensures { Ran edition src.now words.now tokens.old tokens.new result }
{
    if SHORT_TABLE < words.len() {
        return run_long(edition, src, words, tokens);
    }
    let mut index = [0u16; SHORT_INDEX];
    run_indexed(edition, src, words, &mut index, tokens)
}

// The refusals 1 to 10 and 28 in order of test, or the tokens.
#[tactic(auto, using(crate::proofs::TokenizingLaws::long_table, crate::proofs::TokenizingLaws::stopped_unwritten))]
fn read_source(
    edition: Edition,
    src: &[u8],
    words: &[u8],
    tokens: &mut [u32],
) -> Result<usize, Refusal>
    ensures answer { result ≡ reading edition src.now words.now }
    ensures words { Written (lex_all edition src.now words.now).toks tokens.old tokens.new result }
{
    if TABLE_LIMIT < words.len() {
        return refused(BAD_TABLE, TABLE_LIMIT, TABLE_LIMIT);
    }
    let bad = check_words(words);
    if bad < words.len() {
        return refused(BAD_TABLE, bad, bad);
    }
    if SOURCE_LIMIT < src.len() {
        return refused(LONG_SOURCE, SOURCE_LIMIT, SOURCE_LIMIT);
    }
    if let Some(i) = first_bad(src) {
        return refused(NOT_UTF8, i, i + 1);
    }
    match check_source(src) {
        Err(Fault::CarriageReturn(i)) => refused(BARE_RETURN, i, i + 1),
        Err(Fault::Barred(i)) => refused(BARRED_CHARACTER, i, i + 1),
        Ok(()) => run_by_size(edition, src, words, tokens),
    }
}

// The whole reading of bytes into tokens: the answer and every word of the buffer. What no record fills is cleared.
// In a frame of its own, so that the chart and the index are off the stack when the parser begins.
#[inline(never)]
pub fn tokenize(
    edition: Edition,
    src: &[u8],
    words: &[u8],
    tokens: &mut [u32],
) -> Result<usize, Failure>
    ensures answer { result ≡ tokenizing edition src.now words.now (length tokens.old) }
    ensures words { tokens.new ≡ token_words edition src.now words.now (length tokens.old) }
{
    match read_source(edition, src, words, tokens) {
        Err(refusal) => {
            tokens.fill(0);
            Err(Failure::Refused(refusal))
        }
        Ok(n) => {
            if tokens.len() / 3 < n {
                tokens.fill(0);
                return Err(Failure::Short(n));
            }
            let used = 3 * n;
            tokens[used..].fill(0);
            Ok(n)
        }
    }
}
