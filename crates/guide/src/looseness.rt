// Grading by looseness: how many links that are not strong lead to a cell, on the best way.
ghost use Rattle.std.specs.Prelude.{◌≡◌};
ghost use Rattle.guide.specs.Looseness.{by_looseness, loose_part};
ghost use Rattle.std.proofs.Common.{rules};

use model::record::Strength;
use model::scheme::{Rank, Scheme};

#[derive(Clone, Copy)]
pub struct ByLooseness;

// What a link adds.
fn loose_part(strength: Strength) -> u32
    ensures { result ≡ loose_part strength }
{
    match strength {
        Strength::Strong => 0,
        _ => 1,
    }
}

impl Scheme for ByLooseness {
    type Grade = u32;

    const LETTER: char = 'l';

    ghost model = { λ _. by_looseness };

    ghost lawful = { Prim.search rules };

    fn rank(&self, a: u32, b: u32) -> Rank {
        a.cmp(&b).into()
    }

    fn start(&self, _number: u16, _size: u32) -> u32 {
        0
    }

    fn along(&self, _number: u16, _size: u32, source: u32, strength: Strength) -> u32 {
        source.saturating_add(loose_part(strength))
    }

    fn join(&self, _number: u16, _size: u32, table: u32, key: u32) -> u32 {
        table.max(key)
    }
}
