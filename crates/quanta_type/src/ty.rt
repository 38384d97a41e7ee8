// Copyright 2026 Quantova Inc
// SPDX-License-Identifier: Apache-2.0 OR MIT

ghost use Rattle.std.specs.Prelude.{◌≡◌, ℕ, ◌+◌, ◌<◌};
ghost use Rattle.grammar.specs.Records.{Acc};
ghost use Rattle.quanta_token.specs.TokenKind.{code, Int};
ghost use Rattle.quanta_token.specs.declared.edition.Edition as specs;
ghost use Rattle.quanta_grammar.specs.Productions.{type, type_arg};
ghost use Rattle.quanta_grammar.specs.Refine.{text};
ghost use Rattle.quanta_cursor.specs.Tokens.{size, kind_at, from, Ready};
ghost use Rattle.quanta_type.specs.Arguments.{arguments};
ghost use Rattle.quanta_type.specs.Halves.{back_span, Types, ListsTypes, TypeUpTo, ClosesType};

use crate::half::{Typed, back_span, front_span, is_pair};
use crate::text::is_of;
use quanta_cursor::parser::{
    Node, Nodes, Record, RecordNo, Refusal, Span, TokenPos, bump, enter, err, expect, expect_int,
    leaf, peek, peek_span, put_node,
};
use quanta_cursor::{node, refusal};
use quanta_token::edition::Edition;
use quanta_token::token;

#[cycle(types)]
pub fn ty(
    edition: Edition,
    src: &[u8],
    tokens: &[u32],
    tree: &mut [u32],
    at: TokenPos,
    no: RecordNo,
    allowance: usize,
) -> Result<Typed<Node>, Refusal>
    requires { Ready tokens.now at.0 no.0 }
    ensures { Types (text edition src.now) type tokens.now at.0 no.0 allowance tree.old result tree.new }
{
    match peek(tokens, at) {
        token::IDENT | token::QUORUM => {
            let next = bump(at);
            if peek(tokens, next) != token::LT {
                return Ok(Typed::Whole(leaf(tokens, tree, at, no, node::TYPE)));
            }
            match generic_args(edition, src, tokens, tree, bump(next), no, allowance)? {
                Typed::Whole(args) => close_args(edition, tokens, tree, at, args),
                Typed::Half(args) => Ok(Typed::Whole(close_half(tokens, tree, at, args))),
            }
        }
        _ => Err(err(tokens, at, refusal::EXPECTED_TYPE, 0)),
    }
}

#[cycle(types)]
fn generic_args(
    edition: Edition,
    src: &[u8],
    tokens: &[u32],
    tree: &mut [u32],
    at: TokenPos,
    no: RecordNo,
    allowance: usize,
) -> Result<Typed<Nodes>, Refusal>
    requires { Ready tokens.now at.0 no.0 }
    ensures { (x : Acc) → ListsTypes (arguments allowance (from (text edition src.now) tokens.now at.0) x) x (text edition src.now) tokens.now tree.old no.0 result tree.new }
{
    let mut at = at;
    let mut no = no;
    let mut count: u32 = 0;
    loop {
        match generic_arg(edition, src, tokens, tree, at, no, allowance)? {
            Typed::Half(arg) => {
                return Ok(Typed::Half(Nodes {
                    at: arg.at,
                    no: arg.no,
                    count: count + 1,
                }));
            }
            Typed::Whole(arg) => {
                let next = arg.at;
                no = arg.no;
                count += 1;
                if peek(tokens, next) != token::COMMA {
                    return Ok(Typed::Whole(Nodes {
                        at: next,
                        no,
                        count,
                    }));
                }
                at = bump(next);
            }
        }
    }
}

#[cycle(types)]
fn generic_arg(
    edition: Edition,
    src: &[u8],
    tokens: &[u32],
    tree: &mut [u32],
    at: TokenPos,
    no: RecordNo,
    allowance: usize,
) -> Result<Typed<Node>, Refusal>
    requires { Ready tokens.now at.0 no.0 }
    ensures { Types (text edition src.now) type_arg tokens.now at.0 no.0 allowance tree.old result tree.new }
{
    if peek(tokens, at) == token::INT {
        return int_arg(src, tokens, tree, at, no);
    }
    let less = enter(tokens, at, allowance)?;
    ty(edition, src, tokens, tree, at, no, less)
}

// An argument that begins with the integer at `at`: that alone, or m of n. Neither counts in the nesting.
fn int_arg(
    src: &[u8],
    tokens: &[u32],
    tree: &mut [u32],
    at: TokenPos,
    no: RecordNo,
) -> Result<Typed<Node>, Refusal>
    requires { Ready tokens.now at.0 no.0 × (kind_at tokens.now at.0 ≡ code Int) }
    ensures { (e : specs.Edition) (a : ℕ) → Types (text e src.now) type_arg tokens.now at.0 no.0 a tree.old result tree.new }
{
    let m = leaf(tokens, tree, at, no, node::INT);
    let of = m.at;
    if !is_of(src, tokens, of) {
        return Ok(Typed::Whole(m));
    }
    let n = expect_int(tokens, tree, bump(of), m.no)?;
    let rec = Record {
        kind: node::M_OF_N,
        flag: 0,
        own: of,
        span: m.span.join(n.span),
        children: 2,
    };
    Ok(Typed::Whole(put_node(tree, n.at, n.no, rec)))
}

// What closes the arguments of the type whose name is the token at `name`: `>`, or the first closer of a `>>`.
fn close_args(
    edition: Edition,
    tokens: &[u32],
    tree: &mut [u32],
    name: TokenPos,
    args: Nodes,
) -> Result<Typed<Node>, Refusal>
    requires { Ready tokens.now args.at.0 args.no.0 × (name.0 < size tokens.now) }
    ensures { ClosesType edition tokens.now tree.old args.at.0 args.no.0 name.0 args.count result tree.new }
{
    let at = args.at;
    match expect(tokens, at, token::GT) {
        Ok(next) => {
            let end = peek_span(tokens, at);
            Ok(Typed::Whole(put_type(tokens, tree, name, args, end, next)))
        }
        Err(e) => {
            if is_pair(edition, tokens, at) {
                let end = front_span(tokens, at);
                return Ok(Typed::Half(put_type(tokens, tree, name, args, end, at)));
            }
            Err(e)
        }
    }
}

// The second closer of the `>>` whose first closed the last argument.
fn close_half(tokens: &[u32], tree: &mut [u32], name: TokenPos, args: Nodes) -> Node
    requires { Ready tokens.now args.at.0 args.no.0 × (name.0 < size tokens.now) }
    ensures { TypeUpTo tokens.now tree.old args.no.0 name.0 args.count (back_span tokens.now args.at.0) (args.at.0 + 1) result tree.new }
{
    let at = args.at;
    let end = back_span(tokens, at);
    put_type(tokens, tree, name, args, end, bump(at))
}

// The record of the type whose name is the token at `name`, from there up to what closes its arguments.
fn put_type(
    tokens: &[u32],
    tree: &mut [u32],
    name: TokenPos,
    args: Nodes,
    end: Span,
    next: TokenPos,
) -> Node
    requires { Ready tokens.now args.at.0 args.no.0 × (name.0 < size tokens.now) }
    ensures { TypeUpTo tokens.now tree.old args.no.0 name.0 args.count end next.0 result tree.new }
{
    let first = peek_span(tokens, name);
    let rec = Record {
        kind: node::TYPE,
        flag: 0,
        own: name,
        span: first.join(end),
        children: args.count,
    };
    put_node(tree, next, args.no, rec)
}
