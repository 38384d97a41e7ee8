// A reading: the call that a line asks for, and whether it answers what the line has stored.
use crate::report;
use quanta::export::{
    quanta_parse, quanta_parse_expr, quanta_parse_item, quanta_parse_stmt, quanta_parse_type,
};
use quanta_reading::outcome::Outcome;
use quanta_stored::line::{field, fill, find, number, rest, size};
use quanta_stored::words::{spoil, sum};
use std::io;

// The fields of a line: the edition, the call, the word table, the source, the lengths of both buffers, and from ANSWER
// on the answer.
pub const EDITION: usize = 0;

pub const CALL: usize = 1;

const WORDS: usize = 2;

const SOURCE: usize = 3;

const TOKENS: usize = 4;

const TREE: usize = 5;

pub const ANSWER: usize = 6;

const LAST: usize = 15;

// What calls are lent.
#[derive(Drop)]
pub struct Buffers {
    pub words: [u8; 65537],
    pub source: [u8; 1048577],
    pub tokens: [u32; 2048],
    pub tree: [u32; 2048],
}

// What is called.
#[derive(Clone, Copy)]
enum Call {
    Program,
    Item,
    Stmt,
    Expr,
    Type,
}

// A number that is no call's.
#[derive(Clone, Copy)]
struct UnknownCall;

impl TryFrom<u32> for Call {
    type Error = UnknownCall;

    fn try_from(number: u32) -> Result<Call, UnknownCall> {
        match number {
            0 => Ok(Call::Program),
            1 => Ok(Call::Item),
            2 => Ok(Call::Stmt),
            3 => Ok(Call::Expr),
            4 => Ok(Call::Type),
            _ => Err(UnknownCall),
        }
    }
}

fn make(
    call: Call,
    edition: u32,
    source: &[u8],
    words: &[u8],
    tokens: &mut [u32],
    tree: &mut [u32],
) -> Outcome {
    match call {
        Call::Program => quanta_parse(edition, source, words, tokens, tree),
        Call::Item => quanta_parse_item(edition, source, words, tokens, tree),
        Call::Stmt => quanta_parse_stmt(edition, source, words, tokens, tree),
        Call::Expr => quanta_parse_expr(edition, source, words, tokens, tree),
        Call::Type => quanta_parse_type(edition, source, words, tokens, tree),
    }
}

// The numbers of an answer, and the sums of the buffers.
fn numbers(answer: Outcome, tokens: &[u32], tree: &[u32]) -> [u32; 10] {
    [
        answer.number,
        answer.start,
        answer.end,
        answer.wanted,
        answer.found,
        answer.need,
        answer.tokens,
        answer.records,
        sum(tokens),
        sum(tree),
    ]
}

// What comes of a line's call on its bytes and on spoilt buffers; none for a line that no call can be made of.
fn ask(line: &[u8], buffers: &mut Buffers) -> Option<[u32; 10]> {
    let edition = number(field(line, EDITION))?;
    let call = Call::try_from(number(field(line, CALL))?).ok()?;
    let words = buffers.words.get_mut(..size(field(line, WORDS))?)?;
    let source = buffers.source.get_mut(..size(field(line, SOURCE))?)?;
    let tokens = buffers
        .tokens
        .get_mut(..number(field(line, TOKENS))? as usize)?;
    let tree = buffers.tree.get_mut(..number(field(line, TREE))? as usize)?;
    fill(field(line, WORDS), words);
    fill(field(line, SOURCE), source);
    spoil(tokens);
    spoil(tree);
    let answer = make(call, edition, source, words, tokens, tree);
    Some(numbers(answer, tokens, tree))
}

// Whether a line has stored these numbers, and no more.
fn has_stored(line: &[u8], came: &[u32; 10]) -> bool {
    let stored = came
        .iter()
        .enumerate()
        .all(|(i, n)| number(field(line, ANSWER + i)) == Some(*n));
    stored && field(line, LAST).len() == rest(line, LAST).len()
}

// Makes the call of a line; prints what differs, and tells whether anything does.
fn line_differs(rt: &impl Print, no: u64, line: &[u8], buffers: &mut Buffers) -> io::Result<bool> {
    match ask(line, buffers) {
        None => report::malformed(rt, no, line),
        Some(came) if has_stored(line, &came) => Ok(false),
        Some(came) => report::different(rt, no, line, &came),
    }
}

// Replays each line of a list, and counts.
pub fn all(rt: &impl Print, list: &[u8], buffers: &mut Buffers) -> io::Result<()> {
    let mut lines: u64 = 0;
    let mut differing: u64 = 0;
    let mut at = 0;
    while at < list.len() {
        let end = at + find(&list[at..], b'\n');
        lines += 1;
        if line_differs(rt, lines, &list[at..end], buffers)? {
            differing += 1;
        }
        at = end + 1;
    }
    report::last(rt, lines, differing)
}
