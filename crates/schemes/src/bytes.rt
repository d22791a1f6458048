ghost use Rattle.std.specs.Prelude.{◌≡◌};
ghost use Rattle.schemes.specs.Bytes.{by_bytes, bytes_limit};
ghost use Rattle.schemes.specs.Lawful.{bytes_lawful};

use model::fault::Fault;
use model::record::Strength;
use model::scheme::{Rank, Scheme};

// A cell's grade is the sum of the sizes on the way to it.
#[derive(Clone, Copy)]
pub struct ByBytes;

impl Scheme for ByBytes {
    type Grade = u32;

    const LETTER: char = 'b';

    ghost model = { λ _. by_bytes };

    ghost lawful = { λ _. bytes_lawful };

    fn rank(&self, a: u32, b: u32) -> Rank {
        a.cmp(&b).into()
    }

    fn start(&self, _number: u16, size: u32) -> u32 {
        size
    }

    fn along(&self, _number: u16, size: u32, source: u32, _strength: Strength) -> u32 {
        source.saturating_add(size)
    }

    fn join(&self, _number: u16, size: u32, table: u32, key: u32) -> u32 {
        table.saturating_add(key).saturating_add(size)
    }
}

impl ByBytes {
    // The grade that a limit's number means: every number is one.
    pub fn limit(number: u32) -> Result<u32, Fault>
        ensures { result ≡ bytes_limit number }
    {
        Ok(number)
    }
}
