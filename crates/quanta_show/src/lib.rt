// An answer of a call in lines: `A`, tokens and records, then `N` and six numbers for each record; or `R` and six numbers.
#![tactic(auto)]

pub mod input;

use quanta_reading::outcome::Outcome;
use std::io;

// The words of a tree record.
const RECORD: usize = 6;

// Writes each number behind a blank.
pub fn numbers(rt: &impl Print, row: &[u32]) -> io::Result<()> {
    for n in row {
        print!(rt; " {n}")?;
    }
    Ok(())
}

// Writes the line of a refusal.
fn refusal(rt: &impl Print, answer: Outcome) -> io::Result<()> {
    let Outcome {
        number,
        start,
        end,
        wanted,
        found,
        need,
        ..
    } = answer;
    println!(rt; "R {number} {start} {end} {wanted} {found} {need}")
}

// Writes the lines of so many records, or of those that the tree has.
fn records(rt: &impl Print, tree: &[u32], count: u32) -> io::Result<()> {
    for record in tree.chunks_exact(RECORD).take(count as usize) {
        print!(rt; "N")?;
        numbers(rt, record)?;
        println!(rt; "")?;
    }
    Ok(())
}

// Writes an answer whose records stand in the tree buffer.
pub fn show(rt: &impl Print, answer: Outcome, tree: &[u32]) -> io::Result<()> {
    if answer.number != 0 {
        return refusal(rt, answer);
    }
    let tokens = answer.tokens;
    let count = answer.records;
    println!(rt; "A {tokens} {count}")?;
    records(rt, tree, count)
}
