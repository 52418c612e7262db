// Replays a list of tree images with the genuine build's answers, and prints how many agree.
// The list on standard input: how many trees; for each its length, the tree image, the refusal's number (0: accepted), the program image's length and the
// program image. Numbers have 4 bytes, big-endian. bench/replay/make wrote the stored list. Trees are numbered from 0.
#![tactic(auto)]

mod list;
mod verdict;
mod words;

use std::io;
use std::io::Read;
use words::{BadList, Tally};

// The most differences that get a line; all are counted.
const LINES: u32 = 20;

fn main(rt: HostRuntime) {
    match replay(&rt, &mut rt.stdin()) {
        Ok((tally, lines)) => {
            let _ = bench::report(&rt, lines.and(println!(rt; "{tally}")));
        }
        Err(bad) => {
            let _ = println!(rt; "{bad}");
        }
    }
}

// Every tree of the list, or all before the place where the list is damaged. Nothing may stand behind the last tree. The tally, and whether standard output
// took the differences' lines: the first that it does not take is told of at the end, and the next are tried all the same.
fn replay(rt: &impl Print, list: &mut impl Read) -> Result<(Tally, io::Result<()>), BadList> {
    let count = list::number(list).map_err(|_| BadList::Count)?;
    let mut agreed = 0;
    let mut lines = Ok(());
    for tree in 0..count {
        let found = verdict::next(list).map_err(|damage| BadList::Tree(tree, damage))?;
        match found {
            None => agreed += 1,
            Some(difference) => {
                if tree - agreed < LINES {
                    lines = lines.and(println!(rt; "tree {tree}: {difference}"));
                }
            }
        }
    }
    if list::ends(list) {
        Ok((Tally { agreed, count }, lines))
    } else {
        Err(BadList::End(count))
    }
}
