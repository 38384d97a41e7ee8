// Copyright 2026 Quantova Inc
// SPDX-License-Identifier: Apache-2.0 OR MIT

// The words that the language keeps.
ghost use Rattle.std.specs.Prelude.{◌≡◌};
ghost use Rattle.quanta_token.specs.Keywords.{word_kind};

use crate::bytes::peek;
use crate::text::same;
use crate::token::{
    AFTER, ASSET, BURNS, BY, CALLER, CHECKED, CONSERVES, CONTRACT, DENIES, EMIT, ENTRY, EVENT,
    FROM, GENESIS, GUARD, IDENT, IMPORT, IN_ASSET, INVARIANT, LET, LIMITS, META, MINTS, NATIVE,
    NOW, QUORUM, READS, SEALED, SIGNED, STATE, WRAPPING, WRITES,
};

// A word's kind. Its first byte says which keywords it can be.
pub fn keyword_kind(word: &[u8]) -> u32
    ensures { result ≡ word_kind word.now }
{
    match peek(word, 0) {
        b'Q' if same(word, b"Quorum") => QUORUM,
        b'a' if same(word, b"after") => AFTER,
        b'a' if same(word, b"asset") => ASSET,
        b'b' if same(word, b"burns") => BURNS,
        b'b' if same(word, b"by") => BY,
        b'c' if same(word, b"caller") => CALLER,
        b'c' if same(word, b"checked") => CHECKED,
        b'c' if same(word, b"conserves") => CONSERVES,
        b'c' if same(word, b"contract") => CONTRACT,
        b'd' if same(word, b"denies") => DENIES,
        b'e' if same(word, b"emit") => EMIT,
        b'e' if same(word, b"entry") => ENTRY,
        b'e' if same(word, b"event") => EVENT,
        b'f' if same(word, b"from") => FROM,
        b'g' if same(word, b"genesis") => GENESIS,
        b'g' if same(word, b"guard") => GUARD,
        b'i' if same(word, b"import") => IMPORT,
        b'i' if same(word, b"in_asset") => IN_ASSET,
        b'i' if same(word, b"invariant") => INVARIANT,
        b'l' if same(word, b"let") => LET,
        b'l' if same(word, b"limits") => LIMITS,
        b'm' if same(word, b"meta") => META,
        b'm' if same(word, b"mints") => MINTS,
        b'n' if same(word, b"native") => NATIVE,
        b'n' if same(word, b"now") => NOW,
        b'r' if same(word, b"reads") => READS,
        b's' if same(word, b"sealed") => SEALED,
        b's' if same(word, b"signed") => SIGNED,
        b's' if same(word, b"state") => STATE,
        b'w' if same(word, b"wrapping") => WRAPPING,
        b'w' if same(word, b"writes") => WRITES,
        _ => IDENT,
    }
}
