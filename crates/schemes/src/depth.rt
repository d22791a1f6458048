ghost use Rattle.std.specs.Prelude.{◌≡◌};
ghost use Rattle.schemes.specs.Depth.{below, by_depth, depth_limit};
ghost use Rattle.schemes.specs.Lawful.{depth_lawful};

use crate::NO_GRADE;
use model::fault::Fault;
use model::record::Strength;
use model::scheme::{Rank, Scheme};

// How many links and ephemerons lead from a root to a cell. The tie is the number
// of the last record on that way. Depths are ordered by depth, then by tie.
#[derive(Clone, Copy, PartialEq, Eq, PartialOrd, Ord, Debug)]
pub struct Depth {
    pub depth: u16,
    pub tie: u16,
}

// Where depths end: what lies deeper is held there.
const DEEPEST: u16 = u16::MAX;

// A cell's grade is its depth.
#[derive(Clone, Copy)]
pub struct ByDepth;

// What record `number` gives from a source at `depth`. Where depths end all ties
// are one, since going on from there must not make a grade better.
fn depth_below(depth: u16, number: u16) -> Depth
    ensures { result ≡ below depth number }
{
    let deeper = depth.saturating_add(1);
    let tie = if deeper < DEEPEST { number } else { DEEPEST };
    Depth { depth: deeper, tie }
}

impl Scheme for ByDepth {
    type Grade = Depth;

    const LETTER: char = 'd';

    ghost model = { λ _. by_depth };

    ghost lawful = { λ _. depth_lawful };

    fn rank(&self, a: Depth, b: Depth) -> Rank {
        a.cmp(&b).into()
    }

    fn start(&self, number: u16, _size: u32) -> Depth {
        Depth {
            depth: 0,
            tie: number,
        }
    }

    fn along(&self, number: u16, _size: u32, source: Depth, _strength: Strength) -> Depth {
        depth_below(source.depth, number)
    }

    fn join(&self, number: u16, _size: u32, table: Depth, key: Depth) -> Depth {
        depth_below(table.depth.max(key.depth), number)
    }
}

impl ByDepth {
    // The grade that a limit's number means: every cell at that depth is within it.
    pub fn limit(number: u32) -> Result<Depth, Fault>
        ensures { result ≡ depth_limit number }
    {
        let depth = u16::try_from(number).map_err(|_| NO_GRADE)?;
        Ok(Depth {
            depth,
            tie: DEEPEST,
        })
    }
}
