//! Numbers in digits of a base.
ghost use Rattle.std.specs.Prelude.{◌≡◌, ◌<◌, ◌≤◌, ◌^◌, ◌++◌, ℕ, List, Some, false, IfSome, IsSomeAnd};
ghost use Rattle.std.specs.Fmt.{digits};
ghost use Rattle.pl_text.specs.Number.{BeginsWithDigit, BeginsWithNumber};

use crate::bytes::first_byte;
use crate::digit::{begins_with_digit, digit_of, second_digit};

/// The number of at most `high` that the text begins with, in lower-case digits of a base from 2 to 16 without leading
/// zeros, and the rest of the text, which begins with no digit of the base.
#[inline(always)]
pub fn number_at(text: &[u8], base: u8, high: u32) -> Option<(u32, &[u8])>
    requires low { 2 ≤ base }
    requires small { base ≤ 16 }
    ensures found { IfSome result (λ r. BeginsWithNumber base high text.now r.0 r.1.now) }
    ensures every { (n : ℕ) (rest : List ℕ) → BeginsWithNumber base high text.now n rest
        → IsSomeAnd result (λ r. (r.0 ≡ n) × (r.1.now ≡ rest)) }
{
    let (first, behind) = first_byte(text)?;
    let figure = digit_of(first, base)?;
    if figure == 0 {
        return if begins_with_digit(behind, base) {
            None
        } else {
            Some((0, behind))
        };
    }
    let (mut value, mut rest) = second_digit(figure, behind, base);
    if value > high {
        return None;
    }
    while let Some((byte, after)) = first_byte(rest) {
        let Some(digit) = digit_of(byte, base) else {
            return Some((value, rest));
        };
        let next = u64::from(value) * u64::from(base) + u64::from(digit);
        if next > u64::from(high) {
            return None;
        }
        value = next as u32;
        rest = after;
    }
    Some((value, rest))
}

/// A number in base 10, as `number_at`.
#[inline(always)]
pub fn decimal_at(text: &[u8], high: u32) -> Option<(u32, &[u8])>
    ensures found { IfSome result (λ r. BeginsWithNumber 10 high text.now r.0 r.1.now) }
    ensures every { (n : ℕ) (rest : List ℕ) → BeginsWithNumber 10 high text.now n rest
        → IsSomeAnd result (λ r. (r.0 ≡ n) × (r.1.now ≡ rest)) }
{
    number_at(text, 10, high)
}

/// A number in base 16, as `number_at`.
#[inline(always)]
pub fn hex_at(text: &[u8], high: u32) -> Option<(u32, &[u8])>
    ensures found { IfSome result (λ r. BeginsWithNumber 16 high text.now r.0 r.1.now) }
    ensures every { (n : ℕ) (rest : List ℕ) → BeginsWithNumber 16 high text.now n rest
        → IsSomeAnd result (λ r. (r.0 ≡ n) × (r.1.now ≡ rest)) }
{
    number_at(text, 16, high)
}

/// The number of at most `high` whose one spelling the whole word is.
pub fn parse_number(word: &[u8], base: u8, high: u32) -> Option<u32>
    requires low { 2 ≤ base }
    requires small { base ≤ 16 }
    ensures below { IfSome result (λ n. n ≤ high) }
    ensures found { IfSome result (λ n. word.now ≡ digits base false n) }
    ensures every { (n : ℕ) → n ≤ high → word.now ≡ digits base false n → result ≡ Some n }
{
    let (n, rest) = number_at(word, base, high)?;
    if rest.is_empty() { Some(n) } else { None }
}

/// A text begins with one number at most: where a number ends with the digits that are there, both the number and the
/// rest are known from the text.
pub fn one_number()
    ensures { (base n m : ℕ) (rest other : List ℕ) → 2 ≤ base → base ≤ 16 → n < 2 ^ 32 → m < 2 ^ 32
        → (BeginsWithDigit base rest → ⊥) → (BeginsWithDigit base other → ⊥)
        → digits base false n ++ rest ≡ digits base false m ++ other → (n ≡ m) × (rest ≡ other) }
{}
