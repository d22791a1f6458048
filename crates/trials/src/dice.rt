ghost use Rattle.std.specs.Prelude.{◌≡◌, ◌+◌, ◌-◌, ◌*◌, ◌/◌, ◌%◌, ◌^◌, ◌≤◌};

// Numbers that look random, and are the same in every run.
#[derive(Drop)]
pub struct Dice {
    state: u64,
}

impl Dice {
    pub fn new(seed: u64) -> Self
        ensures { result.state ≡ seed }
    {
        Dice { state: seed }
    }

    // The high half of the next state, since the low bits of a linear generator are poor.
    fn next(&mut self) -> u32
        ensures moves { self.new.state ≡
            (self.old.state * 6364136223846793005 + 1442695040888963407) % 2 ^ 64 }
        ensures is { result ≡ self.new.state / 2 ^ 32 }
    {
        self.state = self
            .state
            .wrapping_mul(6364136223846793005)
            .wrapping_add(1442695040888963407);
        (self.state >> 32) as u32
    }

    // A number below `sides`; 0 where there is none.
    pub fn roll(&mut self, sides: u32) -> u32
        ensures { result ≤ sides - 1 }
    {
        self.next().checked_rem(sides).unwrap_or(0)
    }

    // Whether something that happens once in `times` happens now.
    pub fn once_in(&mut self, times: u32) -> bool {
        self.roll(times) == 0
    }
}
