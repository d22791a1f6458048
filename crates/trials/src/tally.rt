use std::fmt;

// One more than the largest number of a fault.
const NUMBERS: usize = 34;

// How many things were tried that are accepted or refused: lines, or files. What a trial finds
// wrong counts as neither.
#[derive(Drop)]
pub struct Tally {
    tried: u32,
    wrong: u32,
    accepted: u32,
    refused: [u32; NUMBERS],
}

impl Tally {
    pub fn new() -> Self {
        Tally {
            tried: 0,
            wrong: 0,
            accepted: 0,
            refused: [0; NUMBERS],
        }
    }

    pub fn note_accepted(&mut self) {
        self.tried = self.tried.saturating_add(1);
        self.accepted = self.accepted.saturating_add(1);
    }

    // Notes a refusal with the number of its fault.
    pub fn note_refused(&mut self, number: u32) {
        let Some(count) = self.refused.get_mut(number as usize) else {
            return self.note_wrong();
        };
        *count = count.saturating_add(1);
        self.tried = self.tried.saturating_add(1);
    }

    pub fn note_wrong(&mut self) {
        self.tried = self.tried.saturating_add(1);
        self.wrong = self.wrong.saturating_add(1);
    }
}

impl fmt::Display for Tally {
    fn fmt<W: fmt::Write>(&self, f: &mut fmt::Formatter<W>) -> fmt::Result {
        write!(f, "{} wrong {}", self.tried, self.wrong)?;
        write!(f, "\naccepted {}", self.accepted)?;
        for (number, &count) in self.refused.iter().enumerate() {
            if count > 0 {
                write!(f, "\nrefused with {number}: {count}")?;
            }
        }
        Ok(())
    }
}
