// The kinds of entries, by how one is judged beside the order of the numbers.
ghost use Rattle.std.specs.Prelude.{◌≡◌, ℕ, Bool, List, Option};
ghost use Rattle.model.specs.declared.fault.Fault.{Fault};
ghost use Rattle.snapshot.specs.Sections.{entries};
ghost use Rattle.snapshot.specs.Entries.{first_of, entry_fault};

pub(crate) trait Kind<const WIDTH: usize> {
    ghost fits: { Self → List ℕ → Bool };

    ghost is_new: { Self → List ℕ → Bool };

    ghost names_cells: { Self → List ℕ → Bool };

    // the first fault of a section that starts at a byte of the file
    ghost fault: { Self → List ℕ → ℕ → Option Fault };

    // Whether each field is in its range.
    fn fits(&self, entry: &[u8; WIDTH]) -> bool
        ensures { result ≡ fits self.now entry.now };

    // Whether no earlier section has the record.
    fn is_new(&self, entry: &[u8; WIDTH]) -> bool
        ensures { result ≡ is_new self.now entry.now };

    // Whether the file has the cells that the entry names.
    fn names_cells(&self, entry: &[u8; WIDTH]) -> bool
        ensures { result ≡ names_cells self.now entry.now };

    // the tests, with the order of the numbers, find that fault
    ghost judges: { (k : Self) (s : List ℕ) (i : ℕ) →
        first_of (entry_fault (fits k) (is_new k) (names_cells k) WIDTH s i) (entries WIDTH s) ≡
        fault k s i };
}
