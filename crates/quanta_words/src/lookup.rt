// Whether a record of the table holds a word, by a sieve and an index that are made of the table once.
ghost use Rattle.std.specs.Prelude.{◌≡◌, ◌<◌};
ghost use Rattle.quanta_words.specs.Words.{held_in};
ghost use Rattle.quanta_words.specs.Lookup.{key_of, Sifts, Prepared};

use crate::index::probe;
use crate::words::{holds, word_at};
use quanta_token::bytes::peek;

// A word's place in the sieve. A word of one byte shares its place with no other word.
fn key(word: &[u8]) -> usize
    ensures value { result ≡ key_of word.now }
    ensures small { result < 1280 }
{
    if word.len() == 1 {
        return 1024 + (peek(word, 0) as usize);
    }
    ((peek(word, 0) as usize) * 32 + (peek(word, 1) as usize) * 5 + word.len() % 32) % 1024
}

// The sieve: a 1 at the place of each word of the table.
pub fn sift(table: &[u8]) -> [u8; 1280]
    ensures { Sifts table.now result }
{
    let mut seen = [0u8; 1280];
    let mut i = 0;
    while let Some(word) = word_at(table, i) {
        seen[key(word)] = 1;
        i += 3 + word.len();
    }
    seen
}

// Whether a record holds the word. The sieve, then the index say of nearly every other word that none does.
pub fn is_forbidden(table: &[u8], seen: &[u8; 1280], index: &[u16], word: &[u8]) -> bool
    requires { Prepared table.now seen.now index.now }
    ensures { result ≡ held_in table.now word.now }
{
    if seen[key(word)] == 0 {
        return false;
    }
    if !index.is_empty() && !probe(table, index, word) {
        return false;
    }
    holds(table, word)
}
