// Copyright 2026 Quantova Inc
// SPDX-License-Identifier: Apache-2.0 OR MIT

// The classes of bytes, one chart of them, and runs of bytes.
ghost use Rattle.std.specs.Prelude.{◌≡◌, ◌≤◌, length, get_or};
ghost use Rattle.quanta_token.specs.Bytes.{digit, word_start, word_byte, blank, symbol, class_of, Chart, goes_on};
ghost use Rattle.quanta_token.specs.Runs.{run_end};

use std::array;
use std::mem::size_of;

// The byte at i, and 0 past the end.
pub fn peek(src: &[u8], i: usize) -> u8
    ensures { result ≡ get_or src.now i 0 }
{
    if i < src.len() { src[i] } else { 0 }
}

// The tests have no branches, so that the 256 turns that fill a chart are compiled to wide instructions.

// A letter or `_`.
pub fn is_word_start(c: u8) -> bool
    ensures { result ≡ word_start c }
{
    ((b'a' <= c) & (c <= b'z')) | ((b'A' <= c) & (c <= b'Z')) | (c == b'_')
}

// A letter, `_` or a digit.
pub fn is_word_byte(c: u8) -> bool
    ensures { result ≡ word_byte c }
{
    is_word_start(c) | is_digit(c)
}

pub fn is_digit(c: u8) -> bool
    ensures { result ≡ digit c }
{
    (b'0' <= c) & (c <= b'9')
}

// Space, tab, LF or CR.
pub fn is_blank(c: u8) -> bool
    ensures { result ≡ blank c }
{
    (c == b' ') | (c == b'\t') | (c == b'\n') | (c == b'\r')
}

// The classes: each byte has one.
#[derive(Clone, Copy, Debug, PartialEq, Eq)]
pub enum ByteClass {
    WordStart,
    Digit,
    Blank,
    Symbol,
    Quote,
    At,
    Other,
}

// A byte that a symbol begins with.
fn is_symbol(c: u8) -> bool
    ensures { result ≡ symbol c }
{
    (c == b'{')
        | (c == b'}')
        | (c == b'(')
        | (c == b')')
        | (c == b',')
        | (c == b';')
        | (c == b':')
        | (c == b'.')
        | (c == b'=')
        | (c == b'+')
        | (c == b'-')
        | (c == b'*')
        | (c == b'/')
        | (c == b'%')
        | (c == b'<')
        | (c == b'>')
        | (c == b'!')
        | (c == b'&')
        | (c == b'|')
}

// So a chart has 256 bytes.
const _: () = prove!(size_of::<ByteClass>() == 1);

// A byte's class.
#[tactic(auto, unfolding(crate::specs::Bytes::class_of))]
fn class_of(c: u8) -> ByteClass
    ensures { result ≡ class_of c }
{
    if is_word_start(c) {
        ByteClass::WordStart
    } else if is_digit(c) {
        ByteClass::Digit
    } else if is_blank(c) {
        ByteClass::Blank
    } else if is_symbol(c) {
        ByteClass::Symbol
    } else if c == b'"' {
        ByteClass::Quote
    } else if c == b'@' {
        ByteClass::At
    } else {
        ByteClass::Other
    }
}

// The class of each of the 256 bytes.
#[derive(Drop)]
pub struct ByteChart {
    classes: [ByteClass; 256],
    ghost right: { Chart classes },
}

impl ByteChart {
    pub fn new() -> ByteChart {
        ByteChart {
            classes: array::from_fn(|i| class_of(i as u8)),
        }
    }

    // A byte's class, read from the chart.
    pub fn class(&self, c: u8) -> ByteClass
        ensures { result ≡ class_of c }
    {
        self.classes[usize::from(c)]
    }

    // Whether c goes on with the run.
    fn goes_on(&self, run: Run, c: u8) -> bool
        ensures { result ≡ goes_on run c }
    {
        match run {
            Run::Blanks => self.class(c) == ByteClass::Blank,
            Run::Word => matches!(self.class(c), ByteClass::WordStart | ByteClass::Digit),
            Run::Number => (self.class(c) == ByteClass::Digit) | (c == b'_'),
            Run::Comment => c != b'\n',
            Run::Quoted => !((c == b'\n') | (c == b'"')),
        }
    }

    // The first place at or after `from` that does not go on with the run, or the end.
    pub fn run_end(&self, src: &[u8], from: usize, run: Run) -> usize
        requires { from ≤ length src.now }
        ensures { result ≡ run_end (goes_on run) src.now from }
    {
        let rest = &src[from..];
        let stop = rest.iter().position(|c| !self.goes_on(run, *c));
        from + stop.unwrap_or(rest.len())
    }
}

// What a run is made of.
#[derive(Clone, Copy, Debug, PartialEq, Eq)]
pub enum Run {
    Blanks,
    Word,
    Number,
    Comment,
    Quoted,
}
