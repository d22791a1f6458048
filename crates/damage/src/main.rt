// Opens files of heaps made by dice, sound and spoilt, and prints how often what came of it was
// wrong.
#![tactic(auto)]

use files::try_heap;
use model::heap::LARGEST_SIZE;
use std::alloc::{AllocError, Global};
use std::io;
use trials::dice::Dice;
use trials::shapes::{Plan, SHAPES, Shape, heap_of};
use trials::tally::Tally;

mod file;
mod files;
mod grades;
mod spoil;

// How many heaps of each shape there are.
const EACH: u32 = 100;

// How often the file of one heap is spoilt.
const WAYS: u32 = 20;

// Whether the file of a heap of that shape shows the heap.
fn try_shape(
    memory: Global,
    dice: &mut Dice,
    tally: &mut Tally,
    shape: Shape,
) -> Result<bool, AllocError> {
    let plan = Plan {
        shape,
        cells: 1 + dice.roll(12),
        records: dice.roll(30),
        largest: LARGEST_SIZE,
    };
    match heap_of(dice, plan) {
        Ok(heap) => try_heap(memory, dice, tally, &heap, WAYS),
        Err(_) => Ok(false),
    }
}

fn main(rt: HostRuntime) -> io::Result<()> {
    let mut dice = Dice::new(36);
    let mut tally = Tally::new();
    let mut heaps = 0u32;
    let mut wrong = 0u32;
    for _ in 0..EACH {
        for shape in SHAPES {
            heaps = heaps.saturating_add(1);
            if !try_shape(rt.alloc(), &mut dice, &mut tally, shape)? {
                wrong = wrong.saturating_add(1);
            }
        }
    }
    println!(rt; "heaps {heaps} wrong {wrong}")?;
    println!(rt; "files {tally}")
}
