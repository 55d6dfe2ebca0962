//! Random numbers, the same for the same seed.
ghost use Rattle.std.specs.Prelude.{◌<◌};

/// What the next rolls are, by one number: those of the generator splitmix64.
#[derive(Drop)]
pub struct Dice {
    state: u64,
}

impl Dice {
    /// The rolls that belong to a seed.
    pub fn of(seed: u64) -> Dice {
        Dice { state: seed }
    }

    // The next number of 64 bits.
    fn roll(&mut self) -> u64 {
        self.state = self.state.wrapping_add(0x9E37_79B9_7F4A_7C15);
        let mut mixed = self.state;
        mixed = (mixed ^ (mixed >> 30)).wrapping_mul(0xBF58_476D_1CE4_E5B9);
        mixed = (mixed ^ (mixed >> 27)).wrapping_mul(0x94D0_49BB_1331_11EB);
        mixed ^ (mixed >> 31)
    }

    /// A number below this one.
    pub fn below(&mut self, count: u64) -> u64
        requires { 0 < count }
        ensures { result < count }
    {
        self.roll() % count
    }

    /// What comes once in so many times.
    pub fn is_one_in(&mut self, count: u64) -> bool
        requires { 0 < count }
    {
        self.below(count) == 0
    }
}
