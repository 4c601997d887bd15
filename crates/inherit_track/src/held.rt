//! Sets of registers: bit `r` of a word, from 0, stands for register `r`.
ghost use Rattle.std.specs.Prelude.{◌≡◌, ◌≢◌, ℕ, ◌<◌, ◌^◌};
ghost use Rattle.std.specs.Int.{bit_at};

/// The lowest register of a set that is not empty.
#[inline]
pub(crate) fn lowest(set: u64) -> usize
    requires { 0 < set }
    ensures within { result < 64 }
    ensures is_in { bit_at set result ≡ 1 }
    ensures few { (n : ℕ) → set < 2 ^ n → result < n }
{
    set.trailing_zeros() as usize
}

/// The set with register `r`, below 64.
#[inline]
pub(crate) fn with(set: u64, r: usize) -> u64
    requires { r < 64 }
    ensures here { bit_at result r ≡ 1 }
    ensures others { (i : ℕ) → i ≢ r → bit_at result i ≡ bit_at set i }
{
    set | (1 << r)
}

/// The set without register `r`, below 64.
#[inline]
pub(crate) fn without(set: u64, r: usize) -> u64
    requires { r < 64 }
    ensures here { bit_at result r ≡ 0 }
    ensures others { (i : ℕ) → i ≢ r → bit_at result i ≡ bit_at set i }
    ensures less { bit_at set r ≡ 1 → result < set }
{
    set & !(1 << r)
}
