//! Numbers drawn by chance from a seed, equal on every machine.
ghost use Rattle.std.specs.Prelude.{◌<◌};

/// A linear congruential generator.
#[derive(Drop)]
pub struct Chance {
    state: u64,
    ghost in_range: { state < 2_147_483_648 },
}

impl Chance {
    /// Begins at a seed.
    pub fn new(seed: u16) -> Chance {
        Chance {
            state: u64::from(seed),
        }
    }

    /// A number from 0 up to before `end`.
    pub fn draw(&mut self, end: u32) -> u32
        requires { 0 < end }
        ensures { result < end }
    {
        self.state = (1_103_515_245 * self.state + 12_345) % 2_147_483_648;
        ((self.state / 65_536) % u64::from(end)) as u32
    }
}
