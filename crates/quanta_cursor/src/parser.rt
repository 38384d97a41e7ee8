// Copyright 2026 Quantova Inc
// SPDX-License-Identifier: Apache-2.0 OR MIT

// The cursor by value: where a reader stands, what stands there, and what a reader answers.
ghost use Rattle.std.specs.Prelude.{◌≡◌, [], ◌∷◌, ◌+◌, ◌-◌, ◌<◌, min, max};
ghost use Rattle.quanta_token.specs.TokenKind.{code, codes, Int, Str, Semi};
ghost use Rattle.quanta_grammar.specs.Productions.{name, type_name};
ghost use Rattle.quanta_grammar.specs.NodeKind.{node_code, name_node, int_node, str_node};
ghost use Rattle.quanta_grammar.specs.RefusalKind.{refusal_code, expected_identifier, expected_integer, expected_import_name, expected_string};
ghost use Rattle.quanta_cursor.specs.Tokens.{size, kind_at, Closed, Ready};
ghost use Rattle.quanta_cursor.specs.Tree.{put_rec, written};
ghost use Rattle.quanta_cursor.specs.Cursor.{joined, span_at, err_at, Enters, Expects, ExpectsEof, leaf_rec, leaf_node, node_written, Words, Closes};

use crate::{node, refusal};
use quanta_token::token;

// The limit of the counter, which a call has for its allowance.
pub const MAX_DEPTH: usize = 64;

// A token's number, counted from 0.
#[derive(Clone, Copy, Debug, PartialEq, Eq)]
pub struct TokenPos(pub usize);

// A tree record's number, counted from 0.
#[derive(Clone, Copy, Debug, PartialEq, Eq)]
pub struct RecordNo(pub usize);

// Byte offsets in the source.
#[derive(Clone, Copy, Debug, PartialEq, Eq)]
pub struct Span {
    pub start: u32,
    pub end: u32,
}

// A node that was read: the next token, the next record, its span and its kind.
#[derive(Clone, Copy, Debug, PartialEq, Eq)]
pub struct Node {
    pub at: TokenPos,
    pub no: RecordNo,
    pub span: Span,
    pub kind: u32,
}

// A tree record, but for its number: its kind, its flag, its own token, its span and how many children it has.
#[derive(Clone, Copy, Debug, PartialEq, Eq)]
pub struct Record {
    pub kind: u32,
    pub flag: u32,
    pub own: TokenPos,
    pub span: Span,
    pub children: u32,
}

// Nodes side by side: the next token, the next record, and how many.
#[derive(Clone, Copy, Debug, PartialEq, Eq)]
pub struct Nodes {
    pub at: TokenPos,
    pub no: RecordNo,
    pub count: u32,
}

// Nodes one after the other with a span: the statements of a block, from brace to brace; the imports or the contracts of a
// program, up to the last one's.
#[derive(Clone, Copy, Debug, PartialEq, Eq)]
pub struct Run {
    pub at: TokenPos,
    pub no: RecordNo,
    pub count: u32,
    pub span: Span,
}

#[derive(Clone, Copy, Debug, PartialEq, Eq)]
pub struct Refusal {
    pub number: u32,
    pub span: Span,
    pub wanted: u32,
    pub found: u32,
}

impl Span {
    pub fn join(self, other: Span) -> Span
        ensures { result ≡ joined self other }
    {
        Span {
            start: self.start.min(other.start),
            end: self.end.max(other.end),
        }
    }
}

// One level more: what is left of the allowance, or 20 at the token that is next.
pub fn enter(tokens: &[u32], at: TokenPos, allowance: usize) -> Result<usize, Refusal>
    requires { at.0 < size tokens.now }
    ensures { Enters tokens.now at.0 allowance result }
{
    if allowance >= 1 {
        return Ok(allowance - 1);
    }
    Err(Refusal {
        number: refusal::TOO_DEEP,
        span: peek_span(tokens, at),
        wanted: 0,
        found: 0,
    })
}

// The kind of the next token, and of the one behind it.
pub fn peek(tokens: &[u32], at: TokenPos) -> u32
    requires { at.0 < size tokens.now }
    ensures { result ≡ kind_at tokens.now at.0 }
{
    let i = at.0;
    tokens[i * 3]
}

pub fn peek2(tokens: &[u32], at: TokenPos) -> u32
    requires { Closed tokens.now × (at.0 < size tokens.now) }
    ensures { result ≡ kind_at tokens.now (min (at.0 + 1) (size tokens.now - 1)) }
{
    let i = at.0;
    if i * 3 + 3 < tokens.len() {
        return tokens[(i + 1) * 3];
    }
    tokens[i * 3]
}

pub fn peek_span(tokens: &[u32], at: TokenPos) -> Span
    requires { at.0 < size tokens.now }
    ensures { result ≡ span_at tokens.now at.0 }
{
    let i = at.0;
    Span {
        start: tokens[i * 3 + 1],
        end: tokens[i * 3 + 2],
    }
}

// The position behind the next token.
pub fn bump(at: TokenPos) -> TokenPos
    requires { at.0 < 4294967296 }
    ensures { result.0 ≡ at.0 + 1 }
{
    TokenPos(at.0 + 1)
}

pub fn expect(tokens: &[u32], at: TokenPos, want: u32) -> Result<TokenPos, Refusal>
    requires { (at.0 < size tokens.now) × (size tokens.now < 4294967296) }
    ensures { Expects tokens.now at.0 want result }
{
    if peek(tokens, at) == want {
        return Ok(bump(at));
    }
    Err(err(tokens, at, refusal::EXPECTED_TOKEN, want))
}

// The next token's record: an identifier, a literal or a word that stands for itself.
pub fn leaf(tokens: &[u32], tree: &mut [u32], at: TokenPos, no: RecordNo, kind: u32) -> Node
    requires { Ready tokens.now at.0 no.0 }
    ensures { (result ≡ leaf_node tokens.now at.0 no.0 kind) × (tree.new ≡ put_rec tree.old no.0 (leaf_rec tokens.now at.0 kind)) }
{
    let rec = Record {
        kind,
        flag: 0,
        own: at,
        span: peek_span(tokens, at),
        children: 0,
    };
    put_node(tree, bump(at), no, rec)
}

// A token of one kind, whose record is of the kind `node`; or a refusal of this number.
fn expect_leaf(
    tokens: &[u32],
    tree: &mut [u32],
    at: TokenPos,
    no: RecordNo,
    want: u32,
    node: u32,
    number: u32,
) -> Result<Node, Refusal>
    requires { Ready tokens.now at.0 no.0 }
    ensures { Words (want ∷ []) node number tokens.now tree.old at.0 no.0 result tree.new }
{
    if peek(tokens, at) == want {
        return Ok(leaf(tokens, tree, at, no, node));
    }
    Err(err(tokens, at, number, 0))
}

pub fn expect_ident(
    tokens: &[u32],
    tree: &mut [u32],
    at: TokenPos,
    no: RecordNo,
) -> Result<Node, Refusal>
    requires { Ready tokens.now at.0 no.0 }
    ensures { Words name (node_code name_node) (refusal_code expected_identifier) tokens.now tree.old at.0 no.0 result tree.new }
{
    expect_leaf(
        tokens,
        tree,
        at,
        no,
        token::IDENT,
        node::NAME,
        refusal::EXPECTED_IDENTIFIER,
    )
}

pub fn expect_int(
    tokens: &[u32],
    tree: &mut [u32],
    at: TokenPos,
    no: RecordNo,
) -> Result<Node, Refusal>
    requires { Ready tokens.now at.0 no.0 }
    ensures { Words (codes (Int ∷ [])) (node_code int_node) (refusal_code expected_integer) tokens.now tree.old at.0 no.0 result tree.new }
{
    expect_leaf(
        tokens,
        tree,
        at,
        no,
        token::INT,
        node::INT,
        refusal::EXPECTED_INTEGER,
    )
}

pub fn expect_str(
    tokens: &[u32],
    tree: &mut [u32],
    at: TokenPos,
    no: RecordNo,
) -> Result<Node, Refusal>
    requires { Ready tokens.now at.0 no.0 }
    ensures { Words (codes (Str ∷ [])) (node_code str_node) (refusal_code expected_string) tokens.now tree.old at.0 no.0 result tree.new }
{
    expect_leaf(
        tokens,
        tree,
        at,
        no,
        token::STR,
        node::STR,
        refusal::EXPECTED_STRING,
    )
}

pub fn expect_import_name(
    tokens: &[u32],
    tree: &mut [u32],
    at: TokenPos,
    no: RecordNo,
) -> Result<Node, Refusal>
    requires { Ready tokens.now at.0 no.0 }
    ensures { Words type_name (node_code name_node) (refusal_code expected_import_name) tokens.now tree.old at.0 no.0 result tree.new }
{
    match peek(tokens, at) {
        token::IDENT | token::QUORUM => Ok(leaf(tokens, tree, at, no, node::NAME)),
        _ => Err(err(tokens, at, refusal::EXPECTED_IMPORT_NAME, 0)),
    }
}

pub fn expect_eof(tokens: &[u32], at: TokenPos) -> Result<TokenPos, Refusal>
    requires { at.0 < size tokens.now }
    ensures { ExpectsEof tokens.now at.0 result }
{
    if peek(tokens, at) == token::EOF {
        return Ok(at);
    }
    Err(err(tokens, at, refusal::TOKEN_AFTER_THE_END, 0))
}

// A refusal that marks the next token.
pub fn err(tokens: &[u32], at: TokenPos, number: u32, wanted: u32) -> Refusal
    requires { at.0 < size tokens.now }
    ensures { result ≡ err_at tokens.now at.0 number wanted }
{
    Refusal {
        number,
        span: peek_span(tokens, at),
        wanted,
        found: peek(tokens, at),
    }
}

// Writes a record where there is room for it, and counts it.
pub fn put(tree: &mut [u32], no: RecordNo, rec: Record) -> RecordNo
    requires { (no.0 < 4294967296) × (rec.own.0 < 4294967296) }
    ensures { (result.0 ≡ no.0 + 1) × (tree.new ≡ put_rec tree.old no.0 (written rec)) }
{
    let n = no.0;
    if n >= tree.len() / 6 {
        return RecordNo(n + 1);
    }
    let i = n * 6;
    tree[i] = rec.kind;
    tree[i + 1] = rec.flag;
    tree[i + 2] = rec.own.0 as u32;
    tree[i + 3] = rec.span.start;
    tree[i + 4] = rec.span.end;
    tree[i + 5] = rec.children;
    RecordNo(n + 1)
}

// Writes a record, and answers the node that it is: the token behind it is `at`.
pub fn put_node(tree: &mut [u32], at: TokenPos, no: RecordNo, rec: Record) -> Node
    requires { (no.0 < 4294967296) × (rec.own.0 < 4294967296) }
    ensures { (result ≡ node_written at no rec) × (tree.new ≡ put_rec tree.old no.0 (written rec)) }
{
    Node {
        at,
        no: put(tree, no, rec),
        span: rec.span,
        kind: rec.kind,
    }
}

// A closing token, which is joined to the span, and the record of what it closes.
pub fn close(
    tokens: &[u32],
    tree: &mut [u32],
    want: u32,
    at: TokenPos,
    no: RecordNo,
    rec: Record,
) -> Result<Node, Refusal>
    requires { Ready tokens.now at.0 no.0 × (rec.own.0 < 4294967296) }
    ensures { Closes tokens.now tree.old want at.0 no.0 rec.kind rec.flag rec.own.0 rec.span rec.children result tree.new }
{
    let next = expect(tokens, at, want)?;
    let span = rec.span.join(peek_span(tokens, at));
    Ok(put_node(tree, next, no, Record { span, ..rec }))
}

// The `;` at the end of a phrase.
pub fn close_semi(
    tokens: &[u32],
    tree: &mut [u32],
    at: TokenPos,
    no: RecordNo,
    rec: Record,
) -> Result<Node, Refusal>
    requires { Ready tokens.now at.0 no.0 × (rec.own.0 < 4294967296) }
    ensures { Closes tokens.now tree.old (code Semi) at.0 no.0 rec.kind rec.flag rec.own.0 rec.span rec.children result tree.new }
{
    close(tokens, tree, token::SEMI, at, no, rec)
}
