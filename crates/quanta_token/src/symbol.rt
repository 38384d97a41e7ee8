// Copyright 2026 Quantova Inc
// SPDX-License-Identifier: Apache-2.0 OR MIT

// The symbols of two bytes and of one.
ghost use Rattle.std.specs.Prelude.{◌≡◌};
ghost use Rattle.quanta_token.specs.Symbols.{pair_kind, single_kind, if_any};

use crate::token::{
    AND_AND, BANG, COLON, COMMA, DOT, EQ, EQ_EQ, GE, GT, LBRACE, LE, LPAREN, LT, MINUS, MINUS_EQ,
    NE, OR_OR, PERCENT, PLUS, PLUS_EQ, RBRACE, RPAREN, SEMI, SHR, SLASH, STAR,
};

// The kind of the symbol c d, if it is one.
#[tactic(auto, unfolding(crate::specs::Symbols::if_any, crate::specs::Symbols::pair_kind, crate::specs::Text::kind_if, crate::specs::Text::same))]
pub fn pair_kind(c: u8, d: u8) -> Option<u32>
    ensures { result ≡ if_any (pair_kind c d) }
{
    match (c, d) {
        (b'+', b'=') => Some(PLUS_EQ),
        (b'-', b'=') => Some(MINUS_EQ),
        (b'<', b'=') => Some(LE),
        (b'>', b'=') => Some(GE),
        (b'>', b'>') => Some(SHR),
        (b'=', b'=') => Some(EQ_EQ),
        (b'!', b'=') => Some(NE),
        (b'&', b'&') => Some(AND_AND),
        (b'|', b'|') => Some(OR_OR),
        _ => None,
    }
}

// The kind of the symbol c, if it is one.
#[tactic(auto, unfolding(crate::specs::Symbols::if_any, crate::specs::Symbols::single_kind, crate::specs::Text::kind_if, crate::specs::Text::same))]
pub fn single_kind(c: u8) -> Option<u32>
    ensures { result ≡ if_any (single_kind c) }
{
    match c {
        b'{' => Some(LBRACE),
        b'}' => Some(RBRACE),
        b'(' => Some(LPAREN),
        b')' => Some(RPAREN),
        b',' => Some(COMMA),
        b';' => Some(SEMI),
        b':' => Some(COLON),
        b'.' => Some(DOT),
        b'=' => Some(EQ),
        b'+' => Some(PLUS),
        b'-' => Some(MINUS),
        b'*' => Some(STAR),
        b'/' => Some(SLASH),
        b'%' => Some(PERCENT),
        b'<' => Some(LT),
        b'>' => Some(GT),
        b'!' => Some(BANG),
        _ => None,
    }
}
