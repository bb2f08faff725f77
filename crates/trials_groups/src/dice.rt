//! A seeded generator.

/// The state of the generator.
#[derive(Clone, Copy)]
pub struct Dice {
    state: u64,
}

impl Dice {
    pub fn new(seed: u32) -> Dice {
        Dice {
            state: u64::from(seed),
        }
    }

    /// The next number (Knuth's constants).
    pub fn draw(&mut self) -> u64 {
        self.state = self
            .state
            .wrapping_mul(6_364_136_223_846_793_005)
            .wrapping_add(1_442_695_040_888_963_407);
        self.state >> 33
    }

    /// Whether an event with a chance of one in `often` happens now; never if `often` is 0.
    pub fn one_in(&mut self, often: u32) -> bool {
        let drawn = self.draw();
        often != 0 && drawn % u64::from(often) == 0
    }

    /// One of 16 selections.
    pub fn selection(&mut self) -> u8 {
        (self.draw() % 16) as u8
    }
}
