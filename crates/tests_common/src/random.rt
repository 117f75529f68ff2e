//! Numbers that look random.

/// Numbers that look random (xorshift); those of one seed are the same each time.
#[derive(Drop)]
pub struct Random {
    seed: u64,
}

impl Random {
    /// Starts with a number other than 0; of 0 all draws are 0.
    pub fn new(seed: u64) -> Self {
        Random { seed }
    }

    /// Draws a number below 2^48.
    pub fn next(&mut self) -> u64 {
        let mut next = self.seed;
        next ^= next << 13;
        next ^= next >> 7;
        next ^= next << 17;
        self.seed = next;
        next >> 16
    }

    /// Draws one of so many numbers from 0 on; 0 where there are none.
    pub fn below(&mut self, count: u64) -> u64 {
        self.next() % count.max(1)
    }
}
