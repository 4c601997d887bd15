//! The clock of a record.
ghost use Rattle.std.specs.Prelude.{◌≡◌, ◌<◌, ℕ, max};

/// For each of eight harts the number of its last record that comes before a record, itself included, or 0.
#[derive(Clone, Copy, Debug, PartialEq, Eq)]
pub struct Clock {
    numbers: [u32; 8],
}

impl Clock {
    ghost use Rattle.log_clocks.specs.Clocks.{time};

    /// No record comes before.
    pub fn zero() -> Clock
        ensures { (u : ℕ) → time result u ≡ 0 }
    {
        Clock { numbers: [0; 8] }
    }

    /// The number of the last record of a hart that comes before.
    #[inline]
    pub fn get(&self, hart: u8) -> u32
        requires { hart < 8 }
        ensures { result ≡ time self.now hart }
    {
        self.numbers[hart as usize]
    }

    // The record comes after this one of a hart. Each number is written, since one that is written alone is slow to be
    // copied with the others right after.
    #[inline]
    pub(crate) fn set(&mut self, hart: u8, number: u32)
        requires { hart < 8 }
        ensures here { time self.new hart ≡ number }
        ensures others { (u : ℕ) → (u ≡ hart → ⊥) → time self.new u ≡ time self.old u }
    {
        for u in 0..8u8 {
            let kept = self.numbers[u as usize];
            self.numbers[u as usize] = if u == hart { number } else { kept };
        }
    }

    // The record comes after another one, which has this clock.
    #[inline]
    pub(crate) fn raise(&mut self, by: &Clock)
        ensures { (u : ℕ) → time self.new u ≡ max (time self.old u) (time by.now u) }
    {
        for u in 0..8 {
            self.numbers[u] = self.numbers[u].max(by.numbers[u]);
        }
    }
}
