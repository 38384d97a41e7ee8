// Reads a program of at most 1,024 bytes from standard input, in edition 1 and with no word barred, and prints the answer.
#![tactic(auto)]

use quanta::export::quanta_parse;
use quanta_reading::outcome::Outcome;
use quanta_show::input::read_full;
use quanta_show::show;
use std::io;

const LONGEST: usize = 1024;

const EDITION: u32 = 1;

// The answer to a longer one: 2, behind the last byte that it may have.
const TOO_LONG: Outcome = Outcome {
    number: 2,
    start: 1024,
    end: 1024,
    wanted: 0,
    found: 0,
    need: 0,
    tokens: 0,
    records: 0,
};

fn main(rt: HostRuntime) -> io::Result<()> {
    let mut source = [0u8; 1025];
    let words = [0u8; 0];
    let mut tokens = [0u32; 3075];
    let mut tree = [0u32; 6150];
    let n = read_full(&rt, &mut source)?;
    let answer = if n > LONGEST {
        TOO_LONG
    } else {
        quanta_parse(EDITION, &source[..n], &words, &mut tokens, &mut tree)
    };
    show(&rt, answer, &tree)
}
