ghost use Rattle.std.specs.Prelude.{◌≡◌};
ghost use Rattle.std.specs.Result.{result_ok};
ghost use Rattle.model.specs.Settling.{target as reached};
ghost use Rattle.model.specs.Strengths.{strength_number, strength_if};

// How strongly a link holds its target, the strongest first.
#[derive(Clone, Copy, PartialEq, Eq, PartialOrd, Ord, Debug)]
pub enum Strength {
    Strong,
    Soft,
    Weak,
    Phantom,
}

// A number that is no strength's.
#[derive(Clone, Copy, PartialEq, Eq, Debug)]
pub struct NoStrength;

// The number of a strength, 0 for the strongest.
impl From<Strength> for u32 {
    ghost from_gives = { λ s n. n ≡ strength_number s };

    fn from(strength: Strength) -> u32 {
        match strength {
            Strength::Strong => 0,
            Strength::Soft => 1,
            Strength::Weak => 2,
            Strength::Phantom => 3,
        }
    }
}

// The strength of a number, if it is one's.
impl TryFrom<u32> for Strength {
    type Error = NoStrength;

    ghost try_from_gives = { λ n res. result_ok res ≡ strength_if n };

    fn try_from(number: u32) -> Result<Strength, NoStrength> {
        match number {
            0 => Ok(Strength::Strong),
            1 => Ok(Strength::Soft),
            2 => Ok(Strength::Weak),
            3 => Ok(Strength::Phantom),
            _ => Err(NoStrength),
        }
    }
}

// What makes a cell reached. The sources of a link are its source, those of an
// ephemeron its table and its key; a root has none.
#[derive(Clone, Copy, PartialEq, Eq, Debug)]
pub enum Record {
    Root {
        target: u16,
    },
    Link {
        source: u16,
        target: u16,
        strength: Strength,
    },
    Ephemeron {
        table: u16,
        key: u16,
        value: u16,
    },
}

impl Record {
    // The cell that it reaches.
    pub fn target(self) -> u16
        ensures { result ≡ reached self }
    {
        match self {
            Record::Root { target } | Record::Link { target, .. } => target,
            Record::Ephemeron { value, .. } => value,
        }
    }
}
