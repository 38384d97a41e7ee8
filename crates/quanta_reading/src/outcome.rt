// Copyright 2026 Quantova Inc
// SPDX-License-Identifier: Apache-2.0 OR MIT

// An answer in document 01's numbers.
ghost use Rattle.std.specs.Prelude.{◌≡◌, length, replicate};
ghost use Rattle.quanta_reading.specs.Values.{accepted, refused, failed, unknown_edition, values, FitsFailure, Fits};

use crate::answer::{Counts, Failure};
use quanta_lexer::refusal::NO_ROOM;

// The numbers of the refusals that neither lexer nor parser gives.
const NO_TREE_ROOM: u32 = 23;

const UNKNOWN_EDITION: u32 = 29;

// Number 0 is acceptance with the counts of records, another is the refusal; what it does not name is 0.
#[repr(C)]
#[derive(Clone, Copy)]
pub struct Outcome {
    pub number: u32,
    pub start: u32,
    pub end: u32,
    pub wanted: u32,
    pub found: u32,
    pub need: u32,
    pub tokens: u32,
    pub records: u32,
}

fn refused(number: u32, start: u32, end: u32, wanted: u32, found: u32, need: u32) -> Outcome
    ensures { result ≡ refused number start end wanted found need }
{
    Outcome {
        number,
        start,
        end,
        wanted,
        found,
        need,
        tokens: 0,
        records: 0,
    }
}

fn accepted(tokens: u32, records: u32) -> Outcome
    ensures { result ≡ accepted tokens records }
{
    Outcome {
        number: 0,
        start: 0,
        end: 0,
        wanted: 0,
        found: 0,
        need: 0,
        tokens,
        records,
    }
}

// The numbers of a failure.
fn numbers_of_failure(failure: Failure) -> Outcome
    requires { FitsFailure failure }
    ensures { result ≡ failed failure }
{
    match failure {
        Failure::Lexical(e) => refused(e.number, e.start as u32, e.end as u32, 0, 0, 0),
        Failure::NoTokenRoom(need) => refused(NO_ROOM, 0, 0, 0, 0, need as u32),
        Failure::Syntax(e) => refused(e.number, e.span.start, e.span.end, e.wanted, e.found, 0),
        Failure::NoTreeRoom(need) => refused(NO_TREE_ROOM, 0, 0, 0, 0, need as u32),
    }
}

// The numbers of an answer.
pub fn numbers_of(answer: Result<Counts, Failure>) -> Outcome
    requires { Fits answer }
    ensures { result ≡ values answer }
{
    match answer {
        Ok(counts) => accepted(counts.tokens as u32, counts.records as u32),
        Err(failure) => numbers_of_failure(failure),
    }
}

// 29: no such edition, and both buffers zero.
pub fn unknown_edition(tokens: &mut [u32], tree: &mut [u32]) -> Outcome
    ensures { (result ≡ refused unknown_edition 0 0 0 0 0)
        × (tokens.new ≡ replicate (length tokens.old) 0)
        × (tree.new ≡ replicate (length tree.old) 0) }
{
    tokens.fill(0);
    tree.fill(0);
    refused(UNKNOWN_EDITION, 0, 0, 0, 0, 0)
}
