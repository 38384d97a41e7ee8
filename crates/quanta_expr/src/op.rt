// Copyright 2026 Quantova Inc
// SPDX-License-Identifier: Apache-2.0 OR MIT

// The operators by their places in the original's BinOp and UnaryOp, which are the records' flags; and the records of the tokens
// that are whole expressions.
ghost use Rattle.std.specs.Prelude.{◌≤◌};
ghost use Rattle.quanta_token.specs.TokenKind.{code, Eof};
ghost use Rattle.quanta_grammar.specs.Productions.{equality, comparison, additive, multiplicative};
ghost use Rattle.quanta_expr.specs.Ops.{Operator, Prefix, Leaf, Wrapper};

use quanta_cursor::node;
use quanta_token::token;

pub const OR: u32 = 0;

pub const AND: u32 = 1;

pub const EQ: u32 = 2;

pub const NE: u32 = 3;

pub const LT: u32 = 4;

pub const GT: u32 = 5;

pub const LE: u32 = 6;

pub const GE: u32 = 7;

pub const ADD: u32 = 8;

pub const SUB: u32 = 9;

pub const MUL: u32 = 10;

pub const DIV: u32 = 11;

pub const REM: u32 = 12;

pub const SHR: u32 = 13;

pub const NOT: u32 = 0;

pub const NEG: u32 = 1;

// No operator: what the grammar has where a token is none.
pub const NO_OP: u32 = 14;

pub fn equality_op(kind: u32) -> Option<u32>
    ensures { Operator equality kind result }
{
    match kind {
        token::EQ_EQ => Some(EQ),
        token::NE => Some(NE),
        _ => None,
    }
}

pub fn comparison_op(kind: u32) -> Option<u32>
    ensures { Operator comparison kind result }
{
    match kind {
        token::LT => Some(LT),
        token::GT => Some(GT),
        token::LE => Some(LE),
        token::GE => Some(GE),
        _ => None,
    }
}

pub fn additive_op(kind: u32) -> Option<u32>
    ensures { Operator additive kind result }
{
    match kind {
        token::PLUS => Some(ADD),
        token::MINUS => Some(SUB),
        _ => None,
    }
}

pub fn multiplicative_op(kind: u32) -> Option<u32>
    ensures { Operator multiplicative kind result }
{
    match kind {
        token::STAR => Some(MUL),
        token::SLASH => Some(DIV),
        token::PERCENT => Some(REM),
        _ => None,
    }
}

pub fn prefix_op(kind: u32) -> Option<u32>
    ensures { Prefix kind result }
{
    match kind {
        token::BANG => Some(NOT),
        token::MINUS => Some(NEG),
        _ => None,
    }
}

// The record of a token that is a whole expression.
pub fn leaf_kind(kind: u32) -> Option<u32>
    requires { kind ≤ code Eof }
    ensures { Leaf kind result }
{
    match kind {
        token::INT => Some(node::INT),
        token::DATE => Some(node::DATE),
        token::STR => Some(node::STR),
        token::IDENT => Some(node::NAME),
        token::CALLER => Some(node::CALLER),
        token::IN_ASSET => Some(node::IN_ASSET),
        token::NATIVE => Some(node::NATIVE),
        token::NOW => Some(node::NOW),
        _ => None,
    }
}

// The record of an expression under `checked` or `wrapping`.
pub fn wrap_kind(kind: u32) -> u32
    ensures { Wrapper kind result }
{
    if kind == token::CHECKED {
        node::CHECKED
    } else {
        node::WRAPPING
    }
}
