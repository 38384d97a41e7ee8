// Both engines on a list, from the same place with the same allowance over the same words.
ghost use Rattle.std.specs.Prelude.{◌≡◌, ◌*◌, length};
ghost use Rattle.engines.specs.Cases.{Sound, Lent};

use crate::chance::mix;
use crate::closed::is_closed;
use crate::made;
use crate::made::{Case, TREE, WORDS};
use crate::report::{NUMBERS, count};
use quanta_cursor::parser::{Node, RecordNo, Refusal, TokenPos};

// How many lists.
pub const LISTS: u32 = 100000;

// From one list's seed to the next.
const STEP: u32 = 2654435769;

fn number(answer: Result<Node, Refusal>) -> u32 {
    match answer {
        Ok(_) => 0,
        Err(e) => e.number,
    }
}

// Words of no meaning.
fn spoil(words: &mut [u32], seed: u32) {
    let mut word = seed;
    for place in words.iter_mut() {
        *place = word;
        word = word.wrapping_add(seed);
    }
}

// An expression, over spoilt words: the number of the refusal, or 0 for an expression; or none where the two differ.
fn exprs(tokens: &[u32], one: &mut [u32], two: &mut [u32], case: Case, seed: u32) -> Option<u32>
    requires { Lent case tokens.now one.old two.old }
{
    let room = case.room;
    let at = TokenPos(case.at);
    let no = RecordNo(case.no);
    spoil(one, seed);
    spoil(two, seed);
    let a = quanta_expr::expr::expr(tokens, &mut one[..room], at, no, case.allowance);
    let b = quanta_engine::expr::expr(tokens, &mut two[..room], at, no, case.allowance);
    if a == b && *one == *two {
        return Some(number(a));
    }
    None
}

// The arguments of a call, over spoilt words.
fn args_alike(tokens: &[u32], one: &mut [u32], two: &mut [u32], case: Case, seed: u32) -> bool
    requires { Lent case tokens.now one.old two.old }
{
    let room = case.room;
    let at = TokenPos(case.at);
    let no = RecordNo(case.no);
    spoil(one, seed);
    spoil(two, seed);
    let a = quanta_expr::expr::call_args(tokens, &mut one[..room], at, no, case.allowance);
    let b = quanta_engine::expr::call_args(tokens, &mut two[..room], at, no, case.allowance);
    a == b && *one == *two
}

// Both. A list that is not closed is none to read, and counts as a difference.
fn came_of(
    tokens: &[u32],
    one: &mut [u32; TREE],
    two: &mut [u32; TREE],
    case: Case,
    seed: u32,
) -> Option<u32>
    requires { Sound case × (length tokens.now ≡ case.count * 3) }
{
    if !is_closed(tokens) || !args_alike(tokens, one, two, case, seed) {
        return None;
    }
    exprs(tokens, one, two, case, seed)
}

// The list that a seed makes, read by both.
fn came_from(
    tokens: &mut [u32; WORDS],
    one: &mut [u32; TREE],
    two: &mut [u32; TREE],
    seed: u32,
    scattered: bool,
) -> Option<u32> {
    let case = made::draw(seed);
    let words = case.count * 3;
    made::fill(&mut tokens[..words], case.seed, scattered);
    came_of(&tokens[..words], one, two, case, seed)
}

// All lists, every fourth scattered: how many differ, and how often each number came.
pub fn all(
    tokens: &mut [u32; WORDS],
    one: &mut [u32; TREE],
    two: &mut [u32; TREE],
) -> (u32, [u32; NUMBERS]) {
    let mut seed = STEP;
    let mut differing: u32 = 0;
    let mut came = [0; NUMBERS];
    for round in 0..LISTS {
        match came_from(tokens, one, two, mix(seed), round % 4 == 0) {
            Some(number) => count(&mut came, number),
            None => differing += 1,
        }
        seed = seed.wrapping_add(STEP);
    }
    (differing, came)
}
