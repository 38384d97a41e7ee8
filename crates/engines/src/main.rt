// Both engines for expressions on made-up token lists: on how many they differ, and how often each answer came.
#![tactic(auto)]

mod chance;
mod closed;
mod made;
mod report;
mod trial;

use crate::made::{TREE, WORDS};
use std::io;

fn main(rt: HostRuntime) -> io::Result<()> {
    let mut tokens = [0; WORDS];
    let mut one = [0; TREE];
    let mut two = [0; TREE];
    let (differing, came) = trial::all(&mut tokens, &mut one, &mut two);
    report::print(&rt, differing, &came)
}
