use std::fmt;

// How often two answers were held against each other, how often they differed, and how much there
// was to compare where they did not.
#[derive(Clone, Copy, Default)]
pub struct Score {
    tried: u32,
    differ: u32,
    found: u32,
}

impl Score {
    // Notes how much was found the same, or nothing where the answers differ.
    pub fn note(&mut self, same: Option<u32>) {
        self.tried = self.tried.saturating_add(1);
        match same {
            Some(found) => self.found = self.found.saturating_add(found),
            None => self.differ = self.differ.saturating_add(1),
        }
    }
}

impl fmt::Display for Score {
    fn fmt<W: fmt::Write>(&self, f: &mut fmt::Formatter<W>) -> fmt::Result {
        write!(
            f,
            "{} differ {}, with {}",
            self.tried, self.differ, self.found
        )
    }
}
