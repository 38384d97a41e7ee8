// What the program prints. Of a line it answers true: the line differs.
ghost use Rattle.std.specs.Prelude.{◌≡◌, true, IfOk};

use crate::replay::{ANSWER, CALL, EDITION};
use quanta_show::numbers;
use quanta_stored::line::{field, rest};
use std::io;

// Writes the number of a line, its edition and its call.
fn place(rt: &impl Print, no: u64, line: &[u8]) -> io::Result<()> {
    print!(rt; "line {no} edition ")?;
    rt.write_all(field(line, EDITION))?;
    print!(rt; " call ")?;
    rt.write_all(field(line, CALL))
}

// A line that no call can be made of.
pub fn malformed(rt: &impl Print, no: u64, line: &[u8]) -> io::Result<bool>
    ensures { IfOk result (λ differs. differs ≡ true) }
{
    place(rt, no, line)?;
    println!(rt; ": malformed")?;
    Ok(true)
}

// A line whose call answers something else.
pub fn different(rt: &impl Print, no: u64, line: &[u8], came: &[u32; 10]) -> io::Result<bool>
    ensures { IfOk result (λ differs. differs ≡ true) }
{
    place(rt, no, line)?;
    print!(rt; ": stored ")?;
    rt.write_all(rest(line, ANSWER))?;
    print!(rt; ", came")?;
    numbers(rt, came)?;
    println!(rt; "")?;
    Ok(true)
}

// How many lines there are, and how many of them differ.
pub fn last(rt: &impl Print, lines: u64, differing: u64) -> io::Result<()> {
    println!(rt; "{lines} readings, {differing} differ")
}
