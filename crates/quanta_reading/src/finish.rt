// Copyright 2026 Quantova Inc
// SPDX-License-Identifier: Apache-2.0 OR MIT

// What is left to do when the lexer or the parser has answered: the answer, and zeros where no record is.
ghost use Rattle.std.specs.Prelude.{◌≡◌, Err, length, replicate};
ghost use Rattle.quanta_reading.specs.Reading.{failure_of};
ghost use Rattle.quanta_reading.specs.Finish.{ended, kept};

use crate::answer::{Counts, Failure};
use quanta_cursor::parser::{Node, Refusal};
use quanta_lexer::refusal::Failure as OfBytes;

// The answer when the lexer has none: no record stays.
pub fn refuse(tree: &mut [u32], failure: OfBytes) -> Result<Counts, Failure>
    ensures { (result ≡ Err (failure_of failure)) × (tree.new ≡ replicate (length tree.old) 0) }
{
    tree.fill(0);
    Err(Failure::from(failure))
}

// The answer when the parser has answered of so many tokens: only what no record fills is made 0.
pub fn finish(
    tree: &mut [u32],
    tokens: usize,
    parsed: Result<Node, Refusal>,
) -> Result<Counts, Failure>
    ensures { (result ≡ ended (length tree.old) tokens parsed)
        × (tree.new ≡ kept tree.old (ended (length tree.old) tokens parsed)) }
{
    match parsed {
        Err(e) => {
            tree.fill(0);
            Err(Failure::Syntax(e))
        }
        Ok(whole) => {
            let records = whole.no.0;
            if tree.len() / 6 < records {
                tree.fill(0);
                return Err(Failure::NoTreeRoom(records));
            }
            let used = 6 * records;
            tree[used..].fill(0);
            Ok(Counts { tokens, records })
        }
    }
}
