// Copyright 2026 Quantova Inc
// SPDX-License-Identifier: Apache-2.0 OR MIT

ghost use Rattle.std.specs.Prelude.{◌≡◌, List, ℕ, ◌+◌, ◌<◌};
ghost use Rattle.quanta_token.specs.TokenKind.{code, Contract, Import, RBrace, Semi};
ghost use Rattle.quanta_grammar.specs.NodeKind.{node_code, import_node, contract_node};
ghost use Rattle.quanta_grammar.specs.Productions.{type_name, imports, import, more_imports, contracts, contract, items};
ghost use Rattle.quanta_cursor.specs.Tokens.{size, kind_at, Ready};
ghost use Rattle.quanta_cursor.specs.Answers.{Reads, Lists};
ghost use Rattle.quanta_cursor.specs.Cursor.{span_at, Closes};
ghost use Rattle.quanta_cursor.specs.Lists.{WordList};
ghost use Rattle.quanta_parser.specs.Runs.{Runs};
ghost use Rattle.quanta_grammar.specs.Refine.{Text, text};

use quanta_cursor::node;
use quanta_cursor::parser::{
    Node, Nodes, Record, RecordNo, Refusal, Run, Span, TokenPos, bump, close, close_semi, expect,
    expect_ident, expect_import_name, expect_str, peek, peek_span,
};
use quanta_item::decl::contract_item;
use quanta_token::edition::Edition;
use quanta_token::token;

// The imports of a program, and `span` where there is none.
pub fn imports(
    tokens: &[u32],
    tree: &mut [u32],
    at: TokenPos,
    no: RecordNo,
    span: Span,
) -> Result<Run, Refusal>
    requires { Ready tokens.now at.0 no.0 }
    ensures { (src : Text) (a : ℕ) → Runs src imports tokens.now at.0 no.0 a span tree.old result tree.new }
{
    let mut at = at;
    let mut no = no;
    let mut span = span;
    let mut count: u32 = 0;
    while peek(tokens, at) == token::IMPORT {
        let import = import_decl(tokens, tree, at, no)?;
        at = import.at;
        no = import.no;
        span = import.span;
        count += 1;
    }
    Ok(Run {
        at,
        no,
        count,
        span,
    })
}

// The contracts of a program, and `span` where there is none.
pub fn contracts(
    edition: Edition,
    src: &[u8],
    tokens: &[u32],
    tree: &mut [u32],
    at: TokenPos,
    no: RecordNo,
    allowance: usize,
    span: Span,
) -> Result<Run, Refusal>
    requires { Ready tokens.now at.0 no.0 }
    ensures { Runs (text edition src.now) contracts tokens.now at.0 no.0 allowance span tree.old result tree.new }
{
    let mut at = at;
    let mut no = no;
    let mut span = span;
    let mut count: u32 = 0;
    while peek(tokens, at) == token::CONTRACT {
        let contract = contract(edition, src, tokens, tree, at, no, allowance)?;
        at = contract.at;
        no = contract.no;
        span = contract.span;
        count += 1;
    }
    Ok(Run {
        at,
        no,
        count,
        span,
    })
}

fn import_decl(
    tokens: &[u32],
    tree: &mut [u32],
    at: TokenPos,
    no: RecordNo,
) -> Result<Node, Refusal>
    requires { Ready tokens.now at.0 no.0 × (kind_at tokens.now at.0 ≡ code Import) }
    ensures { (src : Text) (a : ℕ) → Reads src import tokens.now at.0 no.0 a tree.old result tree.new }
{
    let inside = expect(tokens, bump(at), token::LBRACE)?;
    let names = import_names(tokens, tree, inside, no)?;
    let from = expect(tokens, names.at, token::RBRACE)?;
    let behind = expect(tokens, from, token::FROM)?;
    let path = expect_str(tokens, tree, behind, names.no)?;
    close_import(tokens, tree, at, names.count + 1, path)
}

fn import_names(
    tokens: &[u32],
    tree: &mut [u32],
    at: TokenPos,
    no: RecordNo,
) -> Result<Nodes, Refusal>
    requires { Ready tokens.now at.0 no.0 }
    ensures { WordList type_name more_imports tokens.now tree.old at.0 no.0 result tree.new }
{
    let first = expect_import_name(tokens, tree, at, no)?;
    let mut at = first.at;
    let mut no = first.no;
    let mut count: u32 = 1;
    while peek(tokens, at) == token::COMMA {
        let name = expect_import_name(tokens, tree, bump(at), no)?;
        at = name.at;
        no = name.no;
        count += 1;
    }
    Ok(Nodes { at, no, count })
}

// The `;` behind the path of the import whose keyword is the token at `own`.
fn close_import(
    tokens: &[u32],
    tree: &mut [u32],
    own: TokenPos,
    count: u32,
    path: Node,
) -> Result<Node, Refusal>
    requires { Ready tokens.now path.at.0 path.no.0 × (own.0 < size tokens.now) }
    ensures { Closes tokens.now tree.old (code Semi) path.at.0 path.no.0 (node_code import_node) 0 own.0 (span_at tokens.now own.0) count result tree.new }
{
    let rec = Record {
        kind: node::IMPORT,
        flag: 0,
        own,
        span: peek_span(tokens, own),
        children: count,
    };
    close_semi(tokens, tree, path.at, path.no, rec)
}

fn contract(
    edition: Edition,
    src: &[u8],
    tokens: &[u32],
    tree: &mut [u32],
    at: TokenPos,
    no: RecordNo,
    allowance: usize,
) -> Result<Node, Refusal>
    requires { Ready tokens.now at.0 no.0 × (kind_at tokens.now at.0 ≡ code Contract) }
    ensures { Reads (text edition src.now) contract tokens.now at.0 no.0 allowance tree.old result tree.new }
{
    let name = expect_ident(tokens, tree, bump(at), no)?;
    let inside = expect(tokens, name.at, token::LBRACE)?;
    let items = items(edition, src, tokens, tree, inside, name.no, allowance)?;
    close_contract(tokens, tree, at, items)
}

fn items(
    edition: Edition,
    src: &[u8],
    tokens: &[u32],
    tree: &mut [u32],
    at: TokenPos,
    no: RecordNo,
    allowance: usize,
) -> Result<Nodes, Refusal>
    requires { Ready tokens.now at.0 no.0 }
    ensures { Lists (text edition src.now) items tokens.now at.0 no.0 allowance tree.old result tree.new }
{
    let mut at = at;
    let mut no = no;
    let mut count: u32 = 0;
    while peek(tokens, at) != token::RBRACE && peek(tokens, at) != token::EOF {
        let item = contract_item(edition, src, tokens, tree, at, no, allowance)?;
        at = item.at;
        no = item.no;
        count += 1;
    }
    Ok(Nodes { at, no, count })
}

// The `}` behind the items of the contract whose keyword is the token at `own`.
fn close_contract(
    tokens: &[u32],
    tree: &mut [u32],
    own: TokenPos,
    items: Nodes,
) -> Result<Node, Refusal>
    requires { Ready tokens.now items.at.0 items.no.0 × (own.0 < size tokens.now) × (items.count + 1 < 4294967296) }
    ensures { Closes tokens.now tree.old (code RBrace) items.at.0 items.no.0 (node_code contract_node) 0 own.0 (span_at tokens.now own.0) (items.count + 1) result tree.new }
{
    let rec = Record {
        kind: node::CONTRACT,
        flag: 0,
        own,
        span: peek_span(tokens, own),
        children: items.count + 1,
    };
    close(tokens, tree, token::RBRACE, items.at, items.no, rec)
}
