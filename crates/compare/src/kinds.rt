// Which heaps are tried.
use model::heap::LARGEST_SIZE;
use trials::dice::Dice;
use trials::shapes::{Plan, Shape};

// Heaps of one kind: how many there are of each shape, and the least and the largest numbers of
// their cells and of their records.
#[derive(Clone, Copy)]
pub struct Kind {
    pub each: u32,
    cells: (u32, u32),
    records: (u32, u32),
}

// Empty heaps and heaps of cells alone, small heaps with many records, larger ones, full ones.
pub const KINDS: [Kind; 5] = [
    Kind {
        each: 10,
        cells: (0, 4),
        records: (0, 0),
    },
    Kind {
        each: 600,
        cells: (4, 12),
        records: (4, 60),
    },
    Kind {
        each: 100,
        cells: (1, 60),
        records: (1, 200),
    },
    Kind {
        each: 20,
        cells: (100, 400),
        records: (300, 1500),
    },
    Kind {
        each: 2,
        cells: (1024, 1024),
        records: (4096, 4096),
    },
];

fn between(dice: &mut Dice, bounds: (u32, u32)) -> u32 {
    let (least, most) = bounds;
    least.saturating_add(dice.roll(most.saturating_sub(least).saturating_add(1)))
}

// Small sizes make many equal grades, large ones sums that are held at the largest number.
fn any_largest(dice: &mut Dice) -> u32 {
    match dice.roll(3) {
        0 => 1,
        1 => 4,
        _ => LARGEST_SIZE,
    }
}

impl Kind {
    pub fn plan(self, dice: &mut Dice, shape: Shape) -> Plan {
        Plan {
            shape,
            cells: between(dice, self.cells),
            records: between(dice, self.records),
            largest: any_largest(dice),
        }
    }
}
