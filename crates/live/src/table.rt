ghost use Rattle.std.specs.Prelude.{◌≡◌, ℕ, ◌<◌, Bool, length, replicate, None, slice_index_or, slice_set};
ghost use Rattle.live.specs.Retaining.{retained};

// A place for each number below `N`, filled or empty.
#[derive(Drop)]
pub struct Table<T, const N: usize> {
    slots: [Option<T>; N],
    ghost count: { length slots ≡ N },
}

impl<T: Copy, const N: usize> Table<T, N> {
    pub(crate) fn new() -> Self
        ensures { result.slots ≡ replicate N None }
    {
        Table { slots: [None; N] }
    }

    // What stands at a number; nothing where that is too large.
    pub(crate) fn get(&self, n: u32) -> Option<T>
        ensures { result ≡ slice_index_or self.now.slots n None }
    {
        self.slots.get(n as usize).copied().flatten()
    }

    // Fills a place, or empties it.
    pub(crate) fn set(&mut self, n: u16, slot: Option<T>)
        requires { n < N }
        ensures { self.new.slots ≡ slice_set self.old.slots n slot }
    {
        self.slots[usize::from(n)] = slot;
    }

    // Empties every filled place that the test does not keep.
    pub(crate) fn retain<F: Fn(usize, T) -> bool>(&mut self, keeps: F)
        ghost keep: { ℕ → T → Bool }
        requires callable { (n : ℕ) (x : T) → n < N → F.pre keeps n x }
        requires decides { (n : ℕ) (x : T) (kept : Bool) → n < N → F.post keeps n x kept → kept ≡ keep n x }
        ensures { self.new.slots ≡ retained keep 0 self.old.slots }
    {
        // By number, since iter_mut does not say that a place which it lends and nothing writes stands.
        for n in 0..N {
            if let Some(x) = self.slots[n] {
                if !keeps(n, x) {
                    self.slots[n] = None;
                }
            }
        }
    }
}
