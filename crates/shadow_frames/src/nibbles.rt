//! The sixteen nibbles of a word, four bits for each of sixteen bytes.
ghost use Rattle.std.specs.Prelude.{◌≡◌, ℕ, ◌<◌, ◌==◌, if◌then◌else◌};
ghost use Rattle.shadow_frames.specs.Words.{nibble_of};
ghost use Rattle.shadow_frames.specs.Words as words;

/// The nibble of byte `byte` of the word's block.
#[inline]
pub fn nibble(word: u64, byte: u8) -> u8
    requires { byte < 16 }
    ensures { result ≡ nibble_of word byte }
{
    ((word >> (4 * byte)) % 16) as u8
}

/// The word with nibble `n` for byte `byte` of its block.
#[inline]
pub fn with_nibble(word: u64, byte: u8, n: u8) -> u64
    requires byte { byte < 16 }
    requires small { n < 8 }
    ensures { (i : ℕ) → i < 16 → nibble_of result i ≡ (if i == byte then n else nibble_of word i) }
{
    let others = word - ((nibble(word, byte) as u64) << (4 * byte));
    others + ((n as u64) << (4 * byte))
}

/// The word with the same nibble for each byte of its block.
#[inline]
pub fn all_nibbles(n: u8) -> u64
    requires { n < 8 }
    ensures { result ≡ words.all_nibbles n }
{
    n as u64 * 0x1111_1111_1111_1111
}
