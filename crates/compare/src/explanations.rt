// Explanations, unfolded step by step and held against the naive grades.
use crate::trial::{Grades, Trial};
use explain::why;
use model::fault::{Cause, Fault};
use model::heap::{CELLS, Heap};
use model::scheme::Scheme;
use naive::give::grade_from;
use naive::grades::{fetch, store};

// The refusal of a cell that is not reached.
const UNREACHED: Fault = Fault {
    cause: Cause::NotSettled,
    place: 2,
};

impl<S: Scheme> Trial<'_, S>
where
    S::Grade: PartialEq,
{
    // Lets one step give its target a grade from the grades that the steps before it gave. A step
    // whose sources lack a grade, or whose target has one, is no step of an explanation.
    fn take_step(&self, step: u16, found: &mut Grades<S::Grade>) -> bool {
        let Some(record) = self.heap.record(u32::from(step)) else {
            return false;
        };
        let Some(grade) = grade_from(self.scheme, self.heap, found, step, record) else {
            return false;
        };
        let cell = record.target();
        fetch(found, cell).is_none() && store(found, cell, grade)
    }

    // The grade that the steps give a cell, taken one after another, if all are steps of an
    // explanation.
    fn unfolded(&self, steps: &[u16], cell: u16) -> Option<S::Grade> {
        let mut found = [None; CELLS as usize];
        for &step in steps {
            if !self.take_step(step, &mut found) {
                return None;
            }
        }
        fetch(&found, cell)
    }

    // Explains a cell, and counts the steps where the explanation is right: its grade is the naive
    // one and what its steps unfold to, and it is refused exactly where there is no naive grade.
    pub fn explanation(&mut self, cell: u16) -> Option<u32> {
        let mut steps = [0; CELLS as usize];
        let known = fetch(&self.grades, cell);
        let told = why(
            self.scheme,
            self.heap,
            u32::from(cell),
            &mut self.rows,
            &mut steps,
        );
        match told {
            Ok(told) => {
                let listed = steps.get(..told.count as usize)?;
                let right = Some(told.grade) == known && self.unfolded(listed, cell) == known;
                right.then_some(told.count)
            }
            Err(fault) => (fault == UNREACHED && known.is_none()).then_some(0),
        }
    }
}
