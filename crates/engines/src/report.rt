// How often each answer came, and the lines that say so.
ghost use Rattle.std.specs.Prelude.{ℕ, ◌+◌, ◌<◌, ◌≤◌, slice_index};

use crate::trial::LISTS;
use std::io;

// The numbers of answers are below this: 0 for an expression, and those of the refusals.
pub const NUMBERS: usize = 32;

// One more of this number.
pub fn count(came: &mut [u32; NUMBERS], number: u32)
    requires { (k : ℕ) → slice_index came.old k < 4294967295 }
    ensures { (k : ℕ) → slice_index came.new k ≤ slice_index came.old k + 1 }
{
    let i = number as usize;
    if i < came.len() {
        came[i] += 1;
    }
}

// Writes a refusal's number and how often it came, if it did.
fn refused(rt: &impl Print, number: usize, times: u32) -> io::Result<()> {
    if times == 0 {
        return Ok(());
    }
    print!(rt; ", {number} {times}")
}

// Writes the refusals that came.
fn refusals(rt: &impl Print, came: &[u32; NUMBERS]) -> io::Result<()> {
    for (number, times) in came.iter().enumerate().skip(1) {
        refused(rt, number, *times)?;
    }
    Ok(())
}

// Two lines: how many lists differ; and how many were accepted, and refused by each number that came.
pub fn print(rt: &impl Print, differing: u32, came: &[u32; NUMBERS]) -> io::Result<()> {
    let accepted = came[0];
    println!(rt; "{LISTS} lists, {differing} differ")?;
    print!(rt; "accepted {accepted}")?;
    refusals(rt, came)?;
    println!(rt; "")
}
