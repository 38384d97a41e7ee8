// The records of the word table.
ghost use Rattle.std.specs.Prelude.{◌≡◌, true, false, ◌<◌, length, MatchOption};
ghost use Rattle.quanta_words.specs.Words.{after_at, HasWord, is_word, record_at, bad_in, held_in};

use quanta_token::bytes::{is_word_byte, is_word_start};

// The word of the record at i by its length byte, unless the table ends before it does. The next record is behind the word.
pub fn word_at(table: &[u8], i: usize) -> Option<&[u8]>
    ensures { MatchOption result (length table.now < after_at table.now i) (λ w. HasWord table.now i w.now) }
{
    let record = table.get(i..)?;
    let size = *record.get(2)? as usize;
    record.get(3..3 + size)
}

// A letter or `_`, then letters, digits and `_`.
fn is_word(word: &[u8]) -> bool
    ensures { result ≡ is_word word.now }
{
    match word {
        [first, rest @ ..] => is_word_start(*first) && rest.iter().all(|c| is_word_byte(*c)),
        [] => false,
    }
}

// The word of the record at i, if a whole one stands there: the mark, a length byte, and a word of that length.
fn record_at(table: &[u8], i: usize) -> Option<&[u8]>
    ensures { MatchOption result (record_at table.now i ≡ false) (λ w. (record_at table.now i ≡ true) × HasWord table.now i w.now) }
{
    let word = word_at(table, i)?;
    if (table[i] == b'F') & (table[i + 1] == b'W') & is_word(word) {
        return Some(word);
    }
    None
}

// The offset of the first bad record, or the table's length.
pub fn check_words(table: &[u8]) -> usize
    ensures { result ≡ bad_in table.now }
{
    let mut i = 0;
    while let Some(word) = record_at(table, i) {
        i += 3 + word.len();
    }
    i
}

// Whether a record holds the word, by going through them all. Not inlined: few words come here, and it would cost the rest registers.
#[inline(never)]
pub fn holds(table: &[u8], word: &[u8]) -> bool
    ensures { result ≡ held_in table.now word.now }
{
    let mut i = 0;
    while let Some(held) = word_at(table, i) {
        if word == held {
            return true;
        }
        i += 3 + held.len();
    }
    false
}
