// Copyright 2026 Quantova Inc
// SPDX-License-Identifier: Apache-2.0 OR MIT

// The static library over quanta, for callers by C calling convention (include/quanta.h): each export is that function of
// `quanta::export`, with its clauses.
#![tactic(auto)]

ghost use Rattle.std.specs.Prelude.{◌≡◌, length};
ghost use Rattle.quanta_text.specs.Places.{place_of};
ghost use Rattle.quanta_grammar.specs.Productions.{program_call, item_call, stmt_call, expr_call, type_call};
ghost use Rattle.quanta_reading.specs.Values.{Exported};

use quanta::export;
use quanta::export::Place;
use quanta_reading::outcome::Outcome;

#[unsafe(no_mangle)]
pub extern "C" fn quanta_parse(
    edition: u32,
    source: &[u8],
    words: &[u8],
    tokens: &mut [u32],
    tree: &mut [u32],
) -> Outcome
    ensures { Exported edition program_call source.now words.now (length tokens.old) (length tree.old) result tokens.new tree.new }
{
    export::quanta_parse(edition, source, words, tokens, tree)
}

#[unsafe(no_mangle)]
pub extern "C" fn quanta_parse_item(
    edition: u32,
    source: &[u8],
    words: &[u8],
    tokens: &mut [u32],
    tree: &mut [u32],
) -> Outcome
    ensures { Exported edition item_call source.now words.now (length tokens.old) (length tree.old) result tokens.new tree.new }
{
    export::quanta_parse_item(edition, source, words, tokens, tree)
}

#[unsafe(no_mangle)]
pub extern "C" fn quanta_parse_stmt(
    edition: u32,
    source: &[u8],
    words: &[u8],
    tokens: &mut [u32],
    tree: &mut [u32],
) -> Outcome
    ensures { Exported edition stmt_call source.now words.now (length tokens.old) (length tree.old) result tokens.new tree.new }
{
    export::quanta_parse_stmt(edition, source, words, tokens, tree)
}

#[unsafe(no_mangle)]
pub extern "C" fn quanta_parse_expr(
    edition: u32,
    source: &[u8],
    words: &[u8],
    tokens: &mut [u32],
    tree: &mut [u32],
) -> Outcome
    ensures { Exported edition expr_call source.now words.now (length tokens.old) (length tree.old) result tokens.new tree.new }
{
    export::quanta_parse_expr(edition, source, words, tokens, tree)
}

#[unsafe(no_mangle)]
pub extern "C" fn quanta_parse_type(
    edition: u32,
    source: &[u8],
    words: &[u8],
    tokens: &mut [u32],
    tree: &mut [u32],
) -> Outcome
    ensures { Exported edition type_call source.now words.now (length tokens.old) (length tree.old) result tokens.new tree.new }
{
    export::quanta_parse_type(edition, source, words, tokens, tree)
}

#[unsafe(no_mangle)]
pub extern "C" fn quanta_place(source: &[u8], offset: usize) -> Place
    ensures { (result.line ≡ (place_of source.now offset).line) × (result.column ≡ (place_of source.now offset).column) }
{
    export::quanta_place(source, offset)
}
