// Token lists by chance, and what they are read with.
ghost use Rattle.std.specs.Prelude.{◌+◌, ◌*◌, ◌<◌, ◌≤◌, length};
ghost use Rattle.engines.specs.Cases.{Sound};

use crate::chance::{below, coin, mix};
use quanta_cursor::parser::MAX_DEPTH;
use quanta_token::token;

// The most tokens of a list, their words, and the words of a tree.
const TOKENS: usize = 150;

pub const WORDS: usize = 450;

pub const TREE: usize = 1200;

// A list, and what it is read with: its number of tokens and their seed; the words of the tree, the first token, the
// number of the first record and the allowance.
#[derive(Clone, Copy)]
pub struct Case {
    pub count: usize,
    pub room: usize,
    pub at: usize,
    pub no: usize,
    pub allowance: usize,
    pub seed: u32,
}

// Any kind but Eof.
fn any(seed: u32) -> u32 {
    token::IDENT + seed % (token::EOF - token::IDENT)
}

// A kind where an operand is to come: an operand more often than not, or what leads to one.
fn operand(seed: u32) -> u32 {
    match below(seed, 100) {
        0..=46 => token::IDENT,
        47..=51 => token::INT + seed % (token::CONTRACT - token::INT),
        52..=71 => token::LPAREN,
        72..=79 => token::MINUS,
        80..=87 => token::BANG,
        88..=91 => token::CHECKED,
        92..=95 => token::WRAPPING,
        96..=97 => token::RPAREN,
        _ => any(seed),
    }
}

// A kind behind an operand: an operator or a suffix more often than not, or what closes it.
fn behind(seed: u32) -> u32 {
    match below(seed, 100) {
        0..=53 => token::PLUS + seed % (token::EOF - token::PLUS),
        54..=63 => token::DOT,
        64..=75 => token::LPAREN,
        76..=93 => token::RPAREN,
        94..=97 => token::COMMA,
        _ => any(seed),
    }
}

// A kind behind this one: most often one with which an expression goes on.
fn next(kind: u32, seed: u32) -> u32 {
    let often = below(mix(seed), 20) != 0;
    match kind {
        token::DOT => if often { token::IDENT } else { operand(seed) },
        token::CHECKED | token::WRAPPING => if often { token::LPAREN } else { operand(seed) },
        token::IDENT..=token::STR | token::CALLER..=token::NOW | token::RPAREN => behind(seed),
        _ => operand(seed),
    }
}

// Writes a list, Eof last. Starts and ends are in order, or by chance where they are scattered.
pub fn fill(tokens: &mut [u32], seed: u32, scattered: bool)
    requires { length tokens.old ≤ 450 }
{
    let count = tokens.len() / 3;
    let mut seed = seed;
    let mut kind = token::LPAREN;
    for (i, token) in tokens.chunks_exact_mut(3).enumerate() {
        seed = mix(seed);
        kind = if i + 1 == count {
            token::EOF
        } else {
            next(kind, seed)
        };
        let start = mix(seed);
        seed = mix(start);
        let place = i as u32 * 2;
        let (start, end) = if scattered {
            (start, seed)
        } else {
            (place, place + 1)
        };
        token[0] = kind;
        token[1] = start;
        token[2] = end;
    }
}

// A token of a list: every second time the first.
fn place(seed: u32, count: usize) -> usize
    requires { 0 < count }
    ensures { result < count }
{
    if coin(seed) { 0 } else { below(seed, count) }
}

// The words of a tree, or fewer, not only whole records: every second time all of them.
fn room(seed: u32) -> usize
    ensures { result ≤ 1200 }
{
    if coin(seed) {
        TREE
    } else {
        below(seed, below(mix(seed), TREE) + 1)
    }
}

// An allowance: every second time the whole.
fn allowance(seed: u32) -> usize
    ensures { result ≤ 64 }
{
    if coin(seed) {
        MAX_DEPTH
    } else {
        below(seed, MAX_DEPTH + 1)
    }
}

// A list and what it is read with, by chance.
pub fn draw(seed: u32) -> Case
    ensures { Sound result }
{
    let first = mix(seed);
    let second = mix(first);
    let third = mix(second);
    let fourth = mix(third);
    let count = below(seed, TOKENS) + 1;
    let at = place(first, count);
    Case {
        count,
        room: room(second),
        at,
        no: below(third, at + 1),
        allowance: allowance(fourth),
        seed: fourth,
    }
}
