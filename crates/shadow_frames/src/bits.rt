//! The bits of the words of the frame map.
ghost use Rattle.std.specs.Prelude.{◌≡◌, ◌+◌, ◌-◌, ◌^◌, ◌<◌, true, false};
ghost use Rattle.shadow_frames.specs.Words.{bit};

/// Whether a bit of a word is set.
#[inline]
pub fn has_bit(word: u64, at: u32) -> bool
    requires { at < 64 }
    ensures { result ≡ bit word at }
{
    (word >> at) % 2 == 1
}

/// The word with a bit that was not set.
#[inline]
pub fn with_bit(word: u64, at: u32) -> u64
    requires small { at < 64 }
    requires free { bit word at ≡ false }
    ensures { result ≡ word + 2 ^ at }
{
    word + (1u64 << at)
}

/// The word without a bit that was set.
#[inline]
pub fn without_bit(word: u64, at: u32) -> u64
    requires small { at < 64 }
    requires used { bit word at ≡ true }
    ensures { result ≡ word - 2 ^ at }
{
    word - (1u64 << at)
}
