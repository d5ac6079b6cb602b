// Numbers that look random and are the same in every run.

// A xorshift generator of 64 bits.
#[derive(Clone, Copy)]
pub struct Random {
    state: u64,
}

impl Random {
    // Its state is never 0, which would stay 0.
    pub fn new(seed: u64) -> Random {
        Random { state: seed | 1 }
    }

    pub fn next(&mut self) -> u64 {
        self.state ^= self.state << 13;
        self.state ^= self.state >> 7;
        self.state ^= self.state << 17;
        self.state >> 8
    }
}
