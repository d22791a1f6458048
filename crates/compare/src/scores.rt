// One heap after another, under each scheme.
use crate::score::Score;
use crate::trial::Trial;
use live::live::LiveHeap;
use model::fault::Fault;
use model::heap::CELLS;
use model::scheme::Scheme;
use naive::grades::fetch;
use schemes::bytes::ByBytes;
use schemes::depth::ByDepth;
use schemes::strength::ByStrength;
use std::fmt;
use trials::dice::Dice;

// How many cells of a heap are explained under each scheme.
const EXPLAINED: u32 = 3;

// What was compared so far.
#[derive(Clone, Copy, Default)]
pub struct Scores {
    heaps: u32,
    refused: u32,
    gradings: Score,
    explanations: Score,
    sweeps: Score,
}

fn any_cell(dice: &mut Dice) -> u16 {
    dice.roll(u32::from(CELLS)) as u16
}

// The first cell with a grade from a place on, if there is one, and else the cell there.
fn graded_from<G: Copy>(grades: &[Option<G>], first: u16) -> u16 {
    (first..CELLS)
        .chain(0..first)
        .find(|&cell| fetch(grades, cell).is_some())
        .unwrap_or(first)
}

// The limit that is given, or the grade of a cell, so that cells at the limit itself are met.
fn any_limit<G: Copy>(dice: &mut Dice, grades: &[Option<G>], limit: G) -> G {
    if dice.once_in(2) {
        return limit;
    }
    fetch(grades, graded_from(grades, any_cell(dice))).unwrap_or(limit)
}

impl Scores {
    // Notes a heap that could not be made, since a call was refused.
    pub fn note_refused(&mut self) {
        self.refused = self.refused.saturating_add(1);
    }

    // Compares all that is said of one heap under a scheme, if the limit is a grade.
    fn compare<S: Scheme>(
        &mut self,
        mut trial: Trial<'_, S>,
        limit: Result<S::Grade, Fault>,
        dice: &mut Dice,
    )
    where
        S::Grade: PartialEq,
    {
        let Ok(limit) = limit else {
            return;
        };
        self.gradings.note(trial.grading());
        for n in 0..EXPLAINED {
            let any = any_cell(dice);
            let cell = if n == 0 {
                any
            } else {
                graded_from(&trial.grades, any)
            };
            self.explanations.note(trial.explanation(cell));
        }
        let limit = any_limit(dice, &trial.grades, limit);
        self.sweeps.note(trial.sweep(limit));
    }

    // Compares all that is said of one heap under each scheme.
    pub fn try_heap(&mut self, dice: &mut Dice, heap: &LiveHeap) {
        self.heaps = self.heaps.saturating_add(1);
        let strength = ByStrength::limit(dice.roll(4));
        self.compare(Trial::new(&ByStrength, heap), strength, dice);
        let bytes = ByBytes::limit(dice.roll(2000));
        self.compare(Trial::new(&ByBytes, heap), bytes, dice);
        let depth = ByDepth::limit(dice.roll(8));
        self.compare(Trial::new(&ByDepth, heap), depth, dice);
    }
}

impl fmt::Display for Scores {
    fn fmt<W: fmt::Write>(&self, f: &mut fmt::Formatter<W>) -> fmt::Result {
        writeln!(f, "heaps {} refused {}", self.heaps, self.refused)?;
        writeln!(f, "gradings {} cells", self.gradings)?;
        writeln!(f, "explanations {} steps", self.explanations)?;
        write!(f, "sweeps {} cells dropped", self.sweeps)
    }
}
