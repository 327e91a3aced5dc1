//! The two running sums.

ghost use Rattle.std.specs.Prelude.{◌≡◌, ◌+◌, ◌*◌, ◌%◌, ◌^◌};

/// The sum of the words so far, and the sum of its values after each word, both modulo 2^32.
#[derive(Drop)]
pub struct Sums {
    low: u32,
    high: u32,
}

impl Sums {
    /// The sums of no word.
    pub fn new() -> Sums
        ensures low { result.low ≡ 0 }
        ensures high { result.high ≡ 0 }
    {
        Sums { low: 0, high: 0 }
    }

    /// Takes in the next word.
    pub fn add(&mut self, word: u32)
        ensures low { self.new.low ≡ (self.old.low + word) % 2 ^ 32 }
        ensures high { self.new.high ≡ (self.old.high + self.new.low) % 2 ^ 32 }
    {
        self.low = self.low.wrapping_add(word);
        self.high = self.high.wrapping_add(self.low);
    }

    /// The sum of sums in the high half, the sum in the low half.
    pub fn checksum(&self) -> u64
        ensures { result ≡ self.now.high * 2 ^ 32 + self.now.low }
    {
        (u64::from(self.high) << 32) + u64::from(self.low)
    }
}
