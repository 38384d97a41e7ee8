// Copyright 2026 Quantova Inc
// SPDX-License-Identifier: Apache-2.0 OR MIT

// The kinds of tokens, numbered 1 plus their place in the original's TokenKind.
pub const IDENT: u32 = 1;

pub const INT: u32 = 2;

pub const DATE: u32 = 3;

pub const STR: u32 = 4;

pub const CONTRACT: u32 = 5;

pub const ENTRY: u32 = 6;

pub const GUARD: u32 = 7;

pub const GENESIS: u32 = 8;

pub const CALLER: u32 = 9;

pub const IN_ASSET: u32 = 10;

pub const NATIVE: u32 = 11;

pub const NOW: u32 = 12;

pub const STATE: u32 = 13;

pub const INVARIANT: u32 = 14;

pub const EVENT: u32 = 15;

pub const EMIT: u32 = 16;

pub const ASSET: u32 = 17;

pub const LET: u32 = 18;

pub const SIGNED: u32 = 19;

pub const BY: u32 = 20;

pub const SEALED: u32 = 21;

pub const META: u32 = 22;

pub const QUORUM: u32 = 23;

pub const AFTER: u32 = 24;

pub const FROM: u32 = 25;

pub const MINTS: u32 = 26;

pub const BURNS: u32 = 27;

pub const CONSERVES: u32 = 28;

pub const WRITES: u32 = 29;

pub const READS: u32 = 30;

pub const LIMITS: u32 = 31;

pub const DENIES: u32 = 32;

pub const IMPORT: u32 = 33;

pub const CHECKED: u32 = 34;

pub const WRAPPING: u32 = 35;

pub const LBRACE: u32 = 36;

pub const RBRACE: u32 = 37;

pub const LPAREN: u32 = 38;

pub const RPAREN: u32 = 39;

pub const COMMA: u32 = 40;

pub const SEMI: u32 = 41;

pub const COLON: u32 = 42;

pub const DOT: u32 = 43;

pub const EQ: u32 = 44;

pub const PLUS_EQ: u32 = 45;

pub const MINUS_EQ: u32 = 46;

pub const PLUS: u32 = 47;

pub const MINUS: u32 = 48;

pub const STAR: u32 = 49;

pub const SLASH: u32 = 50;

pub const PERCENT: u32 = 51;

pub const LT: u32 = 52;

pub const GT: u32 = 53;

pub const LE: u32 = 54;

pub const GE: u32 = 55;

pub const EQ_EQ: u32 = 56;

pub const NE: u32 = 57;

pub const BANG: u32 = 58;

pub const AND_AND: u32 = 59;

pub const OR_OR: u32 = 60;

pub const SHR: u32 = 61;

pub const EOF: u32 = 62;
