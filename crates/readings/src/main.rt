// Replays a stored list of the original's answers from standard input over all five calls, and prints what differs.
#![tactic(auto)]

mod replay;
mod report;

use crate::replay::Buffers;
use quanta_show::input::read_full;
use std::io;

fn main(rt: HostRuntime) -> io::Result<()> {
    let mut list = [0u8; 131072];
    let n = read_full(&rt, &mut list)?;
    let mut buffers = Buffers {
        words: [0; 65537],
        source: [0; 1048577],
        tokens: [0; 2048],
        tree: [0; 2048],
    };
    replay::all(&rt, &list[..n], &mut buffers)
}
