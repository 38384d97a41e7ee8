// Copyright 2026 Quantova Inc
// SPDX-License-Identifier: Apache-2.0 OR MIT

// What stands at a place of the source.
ghost use Rattle.std.specs.Prelude.{◌≡◌, ◌&&◌, ◌≤◌, ◌<◌, ◌+◌, eqb, length, get_or};
ghost use Rattle.quanta_token.specs.Bytes.{digit};
ghost use Rattle.quanta_words.specs.Lookup.{Prepared};
ghost use Rattle.quanta_lexer.specs.Scan.{token, word_at, date_at, number_at, string_at, dated, symbol_at, token_at};
ghost use Rattle.quanta_lexer.specs.Refusals.{refusal};
ghost use Rattle.quanta_lexer.specs.Trivia.{comment_at, trivia_end};

use crate::day::is_day;
use crate::refusal::{
    BARE_DATE, BARRED_WORD, LEADING_ZERO, NO_DAY, OPEN_STRING, OTHER_BYTE, Refusal,
};
use quanta_token::bytes::{ByteChart, ByteClass, Run, peek};
use quanta_token::edition::Edition;
use quanta_token::keyword::keyword_kind;
use quanta_token::symbol::{pair_kind, single_kind};
use quanta_token::token::{DATE, INT, STR};
use quanta_words::lookup::is_forbidden;

// A byte's offset in the source.
#[derive(Clone, Copy, Debug, PartialEq, Eq)]
pub struct BytePos(pub usize);

// A token of a kind, from start up to end.
#[derive(Clone, Copy, Debug, PartialEq, Eq)]
pub struct Token {
    pub kind: u32,
    pub start: BytePos,
    pub end: BytePos,
}

// What stands at a place: a token, nothing at the end, or a refusal.
pub type Lexed = Result<Option<Token>, Refusal>;

fn found(kind: u32, start: usize, end: usize) -> Lexed
    ensures { result ≡ Ok (Some (token kind start end)) }
{
    Ok(Some(Token {
        kind,
        start: BytePos(start),
        end: BytePos(end),
    }))
}

fn refused(number: u32, start: usize, end: usize) -> Lexed
    ensures { result ≡ Err (refusal number start end) }
{
    Err(Refusal { number, start, end })
}

// Whether `//` stands at i.
fn is_comment_at(src: &[u8], i: usize) -> bool
    requires { i ≤ length src.now }
    ensures { result ≡ comment_at src.now i }
{
    (peek(src, i) == b'/') & (peek(src, i + 1) == b'/')
}

// The first place at or after `at` that is in no blank and in no comment.
pub fn skip_trivia(chart: &ByteChart, src: &[u8], at: BytePos) -> BytePos
    requires { at.0 ≤ length src.now }
    ensures { result.0 ≡ trivia_end src.now at.0 }
{
    let mut i = at.0;
    loop {
        i = chart.run_end(src, i, Run::Blanks);
        if !is_comment_at(src, i) {
            return BytePos(i);
        }
        i = chart.run_end(src, i, Run::Comment);
    }
}

// A source, and what is made once to read its tokens: the chart, and the sieve and index of the word table.
#[derive(Drop)]
pub struct Lexer<'a> {
    pub edition: Edition,
    pub src: &'a [u8],
    pub chart: &'a ByteChart,
    pub words: &'a [u8],
    pub seen: &'a [u8; 1280],
    pub index: &'a [u16],
    ghost prepared: { Prepared words.now seen.now index.now },
}

impl Lexer<'_> {
    // Whether a digit stands at i.
    #[inline(always)]
    fn is_digit_at(&self, i: usize) -> bool
        ensures { result ≡ digit (get_or self.now.src.now i 0) }
    {
        self.chart.class(peek(self.src, i)) == ByteClass::Digit
    }

    // Whether a date shape stands at i. Its first dash is looked for first: few numbers have one. Inlined, as the
    // digit's test is: a call would hold on to the Lexer, and keep its fields out of the registers.
    #[inline(always)]
    #[tactic(auto, unfolding(crate::specs::Scan::date_at))]
    fn is_date_at(&self, i: usize) -> bool
        requires { i ≤ length self.now.src.now }
        ensures { result ≡ date_at self.now.src.now i }
    {
        if peek(self.src, i + 4) != b'-' {
            return false;
        }
        self.is_digit_at(i)
            & self.is_digit_at(i + 1)
            & self.is_digit_at(i + 2)
            & self.is_digit_at(i + 3)
            & (peek(self.src, i + 4) == b'-')
            & self.is_digit_at(i + 5)
            & self.is_digit_at(i + 6)
            & (peek(self.src, i + 7) == b'-')
            & self.is_digit_at(i + 8)
            & self.is_digit_at(i + 9)
            & !self.is_digit_at(i + 10)
    }

    // A word: refused if the table holds it, else a keyword or an identifier.
    #[tactic(auto, unfolding(crate::specs::Scan::word_at, crate::specs::Scan::choose))]
    fn scan_word(&self, start: usize) -> Lexed
        requires { start ≤ length self.now.src.now }
        ensures { result ≡ word_at self.now.src.now self.now.words.now start }
    {
        let end = self.chart.run_end(self.src, start, Run::Word);
        let word = &self.src[start..end];
        if is_forbidden(self.words, self.seen, self.index, word) {
            return refused(BARRED_WORD, start, end);
        }
        found(keyword_kind(word), start, end)
    }

    // A number: refused in a date shape, and if it starts with a needless 0.
    #[tactic(auto, unfolding(crate::specs::Scan::number_at, crate::specs::Scan::choose))]
    fn scan_number(&self, start: usize) -> Lexed
        requires { start < length self.now.src.now }
        ensures { result ≡ number_at self.now.src.now start }
    {
        if self.is_date_at(start) {
            return refused(BARE_DATE, start, start + 10);
        }
        let end = self.chart.run_end(self.src, start, Run::Number);
        if (self.src[start] == b'0') & (start + 1 < end) {
            return refused(LEADING_ZERO, start, end);
        }
        found(INT, start, end)
    }

    // A string: refused if it is open at LF or the end.
    #[tactic(auto, unfolding(crate::specs::Scan::string_at, crate::specs::Scan::choose))]
    fn scan_string(&self, start: usize) -> Lexed
        requires { start < length self.now.src.now }
        ensures { result ≡ string_at self.now.src.now start }
    {
        let quote = self.chart.run_end(self.src, start + 1, Run::Quoted);
        if peek(self.src, quote) == b'"' {
            return found(STR, start, quote + 1);
        }
        refused(OPEN_STRING, start, quote)
    }

    // Whether c is `@` and a date shape follows it.
    fn is_date_after(&self, c: u8, start: usize) -> bool
        requires { start < length self.now.src.now }
        ensures { result ≡ (eqb c 0x40 && date_at self.now.src.now (start + 1)) }
    {
        if c != b'@' {
            return false;
        }
        self.is_date_at(start + 1)
    }

    // Whether the date shape at i will do: any in edition 1, a day in edition 2.
    fn is_dated(&self, i: usize) -> bool
        requires { i + 10 ≤ length self.now.src.now }
        ensures { result ≡ dated self.now.edition self.now.src.now i }
    {
        match self.edition {
            Edition::One => true,
            Edition::Two => is_day(self.src, i),
        }
    }

    // A date, a symbol of two bytes, a symbol of one, or another byte.
    #[tactic(auto, unfolding(crate::specs::Scan::symbol_at, crate::specs::Scan::choose))]
    fn scan_symbol(&self, start: usize) -> Lexed
        requires { start < length self.now.src.now }
        ensures { result ≡ symbol_at self.now.edition self.now.src.now start }
    {
        let c = self.src[start];
        if self.is_date_after(c, start) {
            if self.is_dated(start + 1) {
                return found(DATE, start, start + 11);
            }
            return refused(NO_DAY, start, start + 11);
        }
        if let Some(two) = pair_kind(c, peek(self.src, start + 1)) {
            return found(two, start, start + 2);
        }
        if let Some(one) = single_kind(c) {
            return found(one, start, start + 1);
        }
        refused(OTHER_BYTE, start, start + 1)
    }

    // What stands at `at`, where no blank and no comment does.
    #[tactic(auto, unfolding(crate::specs::Scan::token_at, crate::specs::Scan::choose))]
    pub fn next_token(&self, at: BytePos) -> Lexed
        ensures { result ≡ token_at self.now.edition self.now.src.now self.now.words.now at.0 }
    {
        let start = at.0;
        if self.src.len() <= start {
            return Ok(None);
        }
        match self.chart.class(peek(self.src, start)) {
            ByteClass::WordStart => self.scan_word(start),
            ByteClass::Digit => self.scan_number(start),
            ByteClass::Quote => self.scan_string(start),
            _ => self.scan_symbol(start),
        }
    }
}
