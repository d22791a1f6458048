// Runs scripts made by dice, and prints how often an answer, or what it left in the heap, was
// wrong.
#![tactic(auto)]

use scripts::try_script;
use std::io;
use trials::dice::Dice;
use trials::tally::Tally;

mod answers;
mod lines;
mod scripts;

const SCRIPTS: u32 = 1000;

const LINES: u32 = 100;

fn main(rt: HostRuntime) -> io::Result<()> {
    let mut dice = Dice::new(4096);
    let mut tally = Tally::new();
    let mut wrong = 0u32;
    for _ in 0..SCRIPTS {
        if !try_script(rt.alloc(), &mut dice, &mut tally, LINES)? {
            wrong = wrong.saturating_add(1);
        }
    }
    println!(rt; "scripts {SCRIPTS} wrong {wrong}")?;
    println!(rt; "lines {tally}")
}
