// Heaps of several shapes, made by dice.
ghost use Rattle.std.specs.Prelude.{◌<◌};

use crate::dice::Dice;
use crate::fill::fill;
use live::live::LiveHeap;
use model::fault::Fault;
use model::heap::{CELLS, RECORDS};
use model::record::{Record, Strength};

// What the records of a heap are like.
#[derive(Clone, Copy)]
pub enum Shape {
    // any record between any cells
    Tangle,
    // links from each cell to the next, and from the last to the first
    Ring,
    // ephemerons that each wait for the value of the one before as their key
    Ladder,
    // ephemerons that have the value of the one before as table and as key, so that bytes double
    Doubling,
    // links and no root
    Unrooted,
}

pub const SHAPES: [Shape; 5] = [
    Shape::Tangle,
    Shape::Ring,
    Shape::Ladder,
    Shape::Doubling,
    Shape::Unrooted,
];

// How a heap is to be made.
#[derive(Clone, Copy)]
pub struct Plan {
    pub shape: Shape,
    pub cells: u32,
    pub records: u32,
    // the largest size of a cell
    pub largest: u32,
}

// Numbers that are spread over a range. With an odd step they differ until all numbers of a range
// that is a power of two have come.
#[derive(Clone, Copy)]
struct Spread {
    first: u32,
    step: u32,
}

impl Spread {
    fn roll(dice: &mut Dice) -> Self {
        Spread {
            first: dice.roll(u32::from(RECORDS)),
            step: 2 * dice.roll(u32::from(RECORDS)) + 1,
        }
    }

    // Its number `n`, below `end`.
    fn number(self, n: u32, end: u16) -> u16
        requires { 0 < end }
        ensures { result < end }
    {
        (self.first.wrapping_add(n.wrapping_mul(self.step)) % u32::from(end)) as u16
    }
}

fn any_strength(dice: &mut Dice) -> Strength {
    Strength::try_from(dice.roll(4)).unwrap_or(Strength::Phantom)
}

// The cells of a heap, and what its records are to be like.
#[derive(Clone, Copy)]
struct Draft {
    shape: Shape,
    cells: Spread,
    count: u32,
}

impl Draft {
    // The cell after `n` cells, where the first follows the last.
    fn cell(self, n: u32) -> u16 {
        self.cells.number(if n < self.count { n } else { 0 }, CELLS)
    }

    fn any_cell(self, dice: &mut Dice) -> u16 {
        self.cell(dice.roll(self.count))
    }

    fn any_link(self, dice: &mut Dice) -> Record {
        Record::Link {
            source: self.any_cell(dice),
            target: self.any_cell(dice),
            strength: any_strength(dice),
        }
    }

    fn any_tie(self, dice: &mut Dice) -> Record {
        Record::Ephemeron {
            table: self.any_cell(dice),
            key: self.any_cell(dice),
            value: self.any_cell(dice),
        }
    }

    // Any record that the shape allows.
    fn any_record(self, dice: &mut Dice) -> Record {
        if matches!(self.shape, Shape::Unrooted) {
            return self.any_link(dice);
        }
        // few roots, so that most cells are reached from other cells
        match dice.roll(32) {
            0 => Record::Root {
                target: self.any_cell(dice),
            },
            1..=12 => self.any_tie(dice),
            _ => self.any_link(dice),
        }
    }

    // The record that leads from cell `n` to the next.
    fn step(self, dice: &mut Dice, n: u32) -> Record {
        let here = self.cell(n);
        let next = self.cell(n.saturating_add(1));
        match self.shape {
            Shape::Tangle | Shape::Unrooted => self.any_record(dice),
            Shape::Ring => Record::Link {
                source: here,
                target: next,
                strength: any_strength(dice),
            },
            Shape::Ladder => Record::Ephemeron {
                table: self.cell(dice.roll(n)),
                key: here,
                value: next,
            },
            Shape::Doubling => Record::Ephemeron {
                table: here,
                key: here,
                value: next,
            },
        }
    }

    // The first records lead round the cells, and the last of these back to the first cell, which
    // has a root. Then come any.
    fn record(self, dice: &mut Dice, n: u32) -> Record {
        if n < self.count {
            self.step(dice, n)
        } else if n == self.count {
            self.first_root(dice)
        } else {
            self.any_record(dice)
        }
    }

    fn first_root(self, dice: &mut Dice) -> Record {
        match self.shape {
            Shape::Unrooted => self.any_link(dice),
            _ => Record::Root {
                target: self.cell(0),
            },
        }
    }

    fn put_cells(self, dice: &mut Dice, heap: &mut LiveHeap, largest: u32) -> Result<(), Fault> {
        for n in 0..self.count {
            let size = 1 + dice.roll(largest);
            heap.put(u32::from(self.cell(n)), size)?;
        }
        Ok(())
    }

    fn fill_records(self, dice: &mut Dice, heap: &mut LiveHeap, count: u32) -> Result<(), Fault> {
        let numbers = Spread::roll(dice);
        for n in 0..count {
            let number = u32::from(numbers.number(n, RECORDS));
            fill(heap, number, self.record(dice, n))?;
            // some are taken out again, and others take their place
            if dice.once_in(16) {
                heap.erase(number)?;
                fill(heap, number, self.any_record(dice))?;
            }
        }
        Ok(())
    }
}

// A heap made to a plan. A plan for more than a heap holds, for records without cells, or for
// sizes out of range is refused by the heap.
pub fn heap_of(dice: &mut Dice, plan: Plan) -> Result<LiveHeap, Fault> {
    let mut heap = LiveHeap::new();
    let draft = Draft {
        shape: plan.shape,
        cells: Spread::roll(dice),
        count: plan.cells,
    };
    draft.put_cells(dice, &mut heap, plan.largest)?;
    draft.fill_records(dice, &mut heap, plan.records)?;
    Ok(heap)
}
