// Copyright 2026 Quantova Inc
// SPDX-License-Identifier: Apache-2.0 OR MIT

// The five public calls. Each reads the tokens, then the phrase and Eof behind it, and leaves zeros where no record is.
ghost use Rattle.std.specs.Prelude.{length};
ghost use Rattle.quanta_grammar.specs.Productions.{program_call, item_call, stmt_call, expr_call, type_call};
ghost use Rattle.quanta_parser.specs.Whole.{symbol_of};
ghost use Rattle.quanta_reading.specs.Reading.{Conforms};
ghost use Rattle.quanta_reading.specs.Demand3.{Faithful};

use quanta_lexer::lexer::tokenize;
use quanta_parser::whole::{Call, whole};
use quanta_reading::answer::{Counts, Failure};
use quanta_reading::finish::{finish, refuse};
use quanta_token::edition::Edition;

// A call by what it reads.
pub fn read(
    call: Call,
    edition: Edition,
    source: &[u8],
    words: &[u8],
    tokens: &mut [u32],
    tree: &mut [u32],
) -> Result<Counts, Failure>
    ensures { Conforms edition (symbol_of call) source.now words.now (length tokens.old) (length tree.old) result tokens.new tree.new
        × Faithful edition (symbol_of call) source.now words.now (length tokens.old) (length tree.old) result tree.new }
{
    match tokenize(edition, source, words, tokens) {
        Err(failure) => refuse(tree, failure),
        Ok(n) => {
            let used = 3 * n;
            let parsed = whole(call, edition, source, &tokens[..used], tree);
            finish(tree, n, parsed)
        }
    }
}

// A program.
pub fn parse(
    edition: Edition,
    source: &[u8],
    words: &[u8],
    tokens: &mut [u32],
    tree: &mut [u32],
) -> Result<Counts, Failure>
    ensures { Conforms edition program_call source.now words.now (length tokens.old) (length tree.old) result tokens.new tree.new
        × Faithful edition program_call source.now words.now (length tokens.old) (length tree.old) result tree.new }
{
    read(Call::Program, edition, source, words, tokens, tree)
}

// One item of a contract.
pub fn parse_item(
    edition: Edition,
    source: &[u8],
    words: &[u8],
    tokens: &mut [u32],
    tree: &mut [u32],
) -> Result<Counts, Failure>
    ensures { Conforms edition item_call source.now words.now (length tokens.old) (length tree.old) result tokens.new tree.new
        × Faithful edition item_call source.now words.now (length tokens.old) (length tree.old) result tree.new }
{
    read(Call::Item, edition, source, words, tokens, tree)
}

// One statement.
pub fn parse_stmt(
    edition: Edition,
    source: &[u8],
    words: &[u8],
    tokens: &mut [u32],
    tree: &mut [u32],
) -> Result<Counts, Failure>
    ensures { Conforms edition stmt_call source.now words.now (length tokens.old) (length tree.old) result tokens.new tree.new
        × Faithful edition stmt_call source.now words.now (length tokens.old) (length tree.old) result tree.new }
{
    read(Call::Stmt, edition, source, words, tokens, tree)
}

// One expression.
pub fn parse_expr(
    edition: Edition,
    source: &[u8],
    words: &[u8],
    tokens: &mut [u32],
    tree: &mut [u32],
) -> Result<Counts, Failure>
    ensures { Conforms edition expr_call source.now words.now (length tokens.old) (length tree.old) result tokens.new tree.new
        × Faithful edition expr_call source.now words.now (length tokens.old) (length tree.old) result tree.new }
{
    read(Call::Expr, edition, source, words, tokens, tree)
}

// One type.
pub fn parse_type(
    edition: Edition,
    source: &[u8],
    words: &[u8],
    tokens: &mut [u32],
    tree: &mut [u32],
) -> Result<Counts, Failure>
    ensures { Conforms edition type_call source.now words.now (length tokens.old) (length tree.old) result tokens.new tree.new
        × Faithful edition type_call source.now words.now (length tokens.old) (length tree.old) result tree.new }
{
    read(Call::Type, edition, source, words, tokens, tree)
}
