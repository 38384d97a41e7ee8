// Copyright 2026 Quantova Inc
// SPDX-License-Identifier: Apache-2.0 OR MIT

// The five calls, and the place of an offset, by C calling convention: a slice is a pointer and a length in elements.
// The edition is 1 or 2; any other is 29, with both buffers zero.
ghost use Rattle.std.specs.Prelude.{◌≡◌, length};
ghost use Rattle.quanta_text.specs.Places.{place_of};
ghost use Rattle.quanta_grammar.specs.Productions.{program_call, item_call, stmt_call, expr_call, type_call};
ghost use Rattle.quanta_parser.specs.Whole.{symbol_of};
ghost use Rattle.quanta_reading.specs.Reading.{Conforms};
ghost use Rattle.quanta_reading.specs.Demand3.{Faithful};
ghost use Rattle.quanta_reading.specs.Values.{Exported};

use crate::calls::{parse, parse_expr, parse_item, parse_stmt, parse_type};
use quanta_parser::whole::Call;
use quanta_reading::answer::{Counts, Failure};
use quanta_reading::outcome::{Outcome, numbers_of, unknown_edition};
use quanta_text::place::place;
use quanta_token::edition::Edition;

// Line and column, counted from 1; 0 and 0 where there is no such place.
#[repr(C)]
#[derive(Clone, Copy)]
pub struct Place {
    pub line: u64,
    pub column: u64,
}

// The public call of what is read.
fn made(
    call: Call,
    edition: Edition,
    source: &[u8],
    words: &[u8],
    tokens: &mut [u32],
    tree: &mut [u32],
) -> Result<Counts, Failure>
    ensures { Conforms edition (symbol_of call) source.now words.now (length tokens.old) (length tree.old) result tokens.new tree.new
        × Faithful edition (symbol_of call) source.now words.now (length tokens.old) (length tree.old) result tree.new }
{
    match call {
        Call::Program => parse(edition, source, words, tokens, tree),
        Call::Item => parse_item(edition, source, words, tokens, tree),
        Call::Stmt => parse_stmt(edition, source, words, tokens, tree),
        Call::Expr => parse_expr(edition, source, words, tokens, tree),
        Call::Type => parse_type(edition, source, words, tokens, tree),
    }
}

// A call by what it reads, in document 01's numbers.
fn exported(
    call: Call,
    edition: u32,
    source: &[u8],
    words: &[u8],
    tokens: &mut [u32],
    tree: &mut [u32],
) -> Outcome
    ensures { Exported edition (symbol_of call) source.now words.now (length tokens.old) (length tree.old) result tokens.new tree.new }
{
    match Edition::try_from(edition) {
        Err(_) => unknown_edition(tokens, tree),
        Ok(edition) => {
            let answer = made(call, edition, source, words, tokens, tree);
            numbers_of(answer)
        }
    }
}

#[unsafe(no_mangle)]
pub extern "C" fn quanta_parse(
    edition: u32,
    source: &[u8],
    words: &[u8],
    tokens: &mut [u32],
    tree: &mut [u32],
) -> Outcome
    ensures { Exported edition program_call source.now words.now (length tokens.old) (length tree.old) result tokens.new tree.new }
{
    exported(Call::Program, edition, source, words, tokens, tree)
}

#[unsafe(no_mangle)]
pub extern "C" fn quanta_parse_item(
    edition: u32,
    source: &[u8],
    words: &[u8],
    tokens: &mut [u32],
    tree: &mut [u32],
) -> Outcome
    ensures { Exported edition item_call source.now words.now (length tokens.old) (length tree.old) result tokens.new tree.new }
{
    exported(Call::Item, edition, source, words, tokens, tree)
}

#[unsafe(no_mangle)]
pub extern "C" fn quanta_parse_stmt(
    edition: u32,
    source: &[u8],
    words: &[u8],
    tokens: &mut [u32],
    tree: &mut [u32],
) -> Outcome
    ensures { Exported edition stmt_call source.now words.now (length tokens.old) (length tree.old) result tokens.new tree.new }
{
    exported(Call::Stmt, edition, source, words, tokens, tree)
}

#[unsafe(no_mangle)]
pub extern "C" fn quanta_parse_expr(
    edition: u32,
    source: &[u8],
    words: &[u8],
    tokens: &mut [u32],
    tree: &mut [u32],
) -> Outcome
    ensures { Exported edition expr_call source.now words.now (length tokens.old) (length tree.old) result tokens.new tree.new }
{
    exported(Call::Expr, edition, source, words, tokens, tree)
}

#[unsafe(no_mangle)]
pub extern "C" fn quanta_parse_type(
    edition: u32,
    source: &[u8],
    words: &[u8],
    tokens: &mut [u32],
    tree: &mut [u32],
) -> Outcome
    ensures { Exported edition type_call source.now words.now (length tokens.old) (length tree.old) result tokens.new tree.new }
{
    exported(Call::Type, edition, source, words, tokens, tree)
}

#[unsafe(no_mangle)]
pub extern "C" fn quanta_place(source: &[u8], offset: usize) -> Place
    ensures { (result.line ≡ (place_of source.now offset).line) × (result.column ≡ (place_of source.now offset).column) }
{
    let at = place(source, offset);
    Place {
        line: at.line as u64,
        column: at.column as u64,
    }
}
