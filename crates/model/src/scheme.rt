ghost use Rattle.std.specs.Prelude.{◌≡◌};
ghost use Rattle.model.specs.Schemes.{Scheme as Model, Lawful, rank_of};

use crate::record::Strength;
use std::cmp::Ordering;

// How the first of two grades compares with the second: better, equal or worse. The names are its
// own, since that a grade is less would not say that it is better.
#[derive(Clone, Copy, PartialEq, Eq, Debug)]
pub enum Rank {
    Before,
    Same,
    After,
}

// The smaller is the better.
impl From<Ordering> for Rank {
    ghost from_gives = { λ order rank. rank ≡ rank_of order };

    fn from(order: Ordering) -> Rank {
        match order {
            Ordering::Less => Rank::Before,
            Ordering::Equal => Rank::Same,
            Ordering::Greater => Rank::After,
        }
    }
}

// A scheme of grades: what a way of reaching a cell is worth.
// Start, along and join are handed the record's number and the size of the
// cell that it reaches.
pub trait Scheme {
    type Grade: Copy;

    // the letter by which a script names the scheme
    const LETTER: char;

    // the four functions
    ghost model: { Self → Model Self.Grade };

    fn rank(&self, a: Self::Grade, b: Self::Grade) -> Rank
        ensures { result ≡ (model self.now).rank a b };

    // The grade of a root's target.
    fn start(&self, number: u16, size: u32) -> Self::Grade
        ensures { result ≡ (model self.now).start number size };

    // The grade of a link's target, from its source's.
    fn along(&self, number: u16, size: u32, source: Self::Grade, strength: Strength) -> Self::Grade
        ensures { result ≡ (model self.now).along number size source strength };

    // The grade of an ephemeron's value, from its table's and its key's.
    fn join(&self, number: u16, size: u32, table: Self::Grade, key: Self::Grade) -> Self::Grade
        ensures { result ≡ (model self.now).join number size table key };

    // the laws that grading rests on
    ghost lawful: { (s : Self) → Lawful (model s) };
}
