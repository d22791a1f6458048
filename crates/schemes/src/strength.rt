ghost use Rattle.std.specs.Prelude.{◌≡◌};
ghost use Rattle.schemes.specs.Strength.{by_strength, strength_limit};
ghost use Rattle.schemes.specs.Lawful.{strength_lawful};

use crate::NO_GRADE;
use model::fault::Fault;
use model::record::Strength;
use model::scheme::{Rank, Scheme};

// A cell's grade is the weakest link on the way to it. Strengths are ordered from the strongest
// on, so the weaker of two is the larger.
#[derive(Clone, Copy)]
pub struct ByStrength;

impl Scheme for ByStrength {
    type Grade = Strength;

    const LETTER: char = 's';

    ghost model = { λ _. by_strength };

    ghost lawful = { λ _. strength_lawful };

    fn rank(&self, a: Strength, b: Strength) -> Rank {
        a.cmp(&b).into()
    }

    fn start(&self, _number: u16, _size: u32) -> Strength {
        Strength::Strong
    }

    fn along(&self, _number: u16, _size: u32, source: Strength, strength: Strength) -> Strength {
        source.max(strength)
    }

    fn join(&self, _number: u16, _size: u32, table: Strength, key: Strength) -> Strength {
        table.max(key)
    }
}

impl ByStrength {
    // The strength that a limit's number means.
    pub fn limit(number: u32) -> Result<Strength, Fault>
        ensures { result ≡ strength_limit number }
    {
        Strength::try_from(number).map_err(|_| NO_GRADE)
    }
}
