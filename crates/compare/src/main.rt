// Holds the collector against a naive program on heaps made by dice, and prints how often they
// differ.
#![tactic(auto)]

use kinds::{KINDS, Kind};
use scores::Scores;
use std::io;
use trials::dice::Dice;
use trials::shapes::{SHAPES, Shape, heap_of};

mod explanations;
mod gradings;
mod kinds;
mod score;
mod scores;
mod sweeps;
mod trial;

fn try_kind(dice: &mut Dice, scores: &mut Scores, kind: Kind, shape: Shape) {
    for _ in 0..kind.each {
        let plan = kind.plan(dice, shape);
        match heap_of(dice, plan) {
            Ok(heap) => scores.try_heap(dice, &heap),
            Err(_) => scores.note_refused(),
        }
    }
}

fn main(rt: HostRuntime) -> io::Result<()> {
    let mut dice = Dice::new(1024);
    let mut scores = Scores::default();
    for kind in KINDS {
        for shape in SHAPES {
            try_kind(&mut dice, &mut scores, kind, shape);
        }
    }
    println!(rt; "{scores}")
}
