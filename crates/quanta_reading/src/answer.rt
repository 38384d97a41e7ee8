// Copyright 2026 Quantova Inc
// SPDX-License-Identifier: Apache-2.0 OR MIT

// What a call answers: the counts of its records, or why it has none.
ghost use Rattle.std.specs.Prelude.{◌≡◌};
ghost use Rattle.quanta_reading.specs.Reading.{failure_of};

use quanta_cursor::parser::Refusal;
use quanta_lexer::refusal::{Failure as OfBytes, Refusal as Lexical};

// So many token records and so many tree records.
#[derive(Clone, Copy)]
pub struct Counts {
    pub tokens: usize,
    pub records: usize,
}

#[derive(Clone, Copy)]
pub enum Failure {
    // A refusal 1 to 10, or 28.
    Lexical(Lexical),
    // 11: so many token records are needed.
    NoTokenRoom(usize),
    // A refusal 12 to 22.
    Syntax(Refusal),
    // 23: so many tree records are needed.
    NoTreeRoom(usize),
}

impl From<OfBytes> for Failure {
    ghost from_gives = { λ failure result. result ≡ failure_of failure };

    fn from(failure: OfBytes) -> Failure {
        match failure {
            OfBytes::Refused(refusal) => Failure::Lexical(refusal),
            OfBytes::Short(need) => Failure::NoTokenRoom(need),
        }
    }
}
