// Gradings by the engine, held against the naive ones.
use crate::trial::Trial;
use engine::grade;
use model::scheme::Scheme;
use naive::count::counts;

impl<S: Scheme> Trial<'_, S>
where
    S::Grade: PartialEq,
{
    // Grades the heap both ways, and counts the graded cells where grades and counts are the same.
    pub fn grading(&mut self) -> Option<u32> {
        let rested = naive::passes::grade(self.scheme, self.heap, &mut self.grades);
        let counted = counts(self.heap, &self.grades);
        let found = grade(self.scheme, self.heap, &mut self.rows).ok()?;
        let same = self
            .rows
            .iter()
            .zip(&self.grades)
            .all(|(row, grade)| row.map(|row| row.grade) == *grade);
        (rested && found == counted && same).then_some(found.settled)
    }
}
