//! A line that damages bits, by a seeded generator.

/// The fate of the bits of a line.
#[derive(Clone, Copy)]
pub struct Noise {
    state: u64,
    /// Of this many bits one is flipped, one dropped and one doubled; 0 for none.
    rate: u64,
    /// The number of damaged bits.
    pub damaged: u32,
}

impl Noise {
    pub fn new(seed: u64, rate: u64) -> Noise {
        Noise {
            state: seed,
            rate,
            damaged: 0,
        }
    }

    /// The next number of the generator (Knuth's constants).
    pub fn draw(&mut self) -> u64 {
        self.state = self
            .state
            .wrapping_mul(6_364_136_223_846_793_005)
            .wrapping_add(1_442_695_040_888_963_407);
        self.state >> 33
    }

    /// The number of times that the next bit comes, and whether it is flipped.
    pub fn fate(&mut self) -> (u8, bool) {
        let rate = self.rate;
        if rate == 0 {
            return (1, false);
        }
        let fate = self.draw() % rate;
        if fate > 2 {
            return (1, false);
        }
        self.damaged = self.damaged.wrapping_add(1);
        match fate {
            0 => (1, true),
            1 => (0, false),
            _ => (2, false),
        }
    }
}
