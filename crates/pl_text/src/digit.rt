//! The values of digits, in bases up to 16.
ghost use Rattle.std.specs.Prelude.{◌≡◌, ◌<◌, ◌≤◌, ◌+◌, ◌*◌, ℕ, List, ◌∷◌, ◌++◌, [], false, IsTrue, IfSome, IfNone, IsSomeAnd};
ghost use Rattle.std.specs.Fmt.{decimal, digit_glyph};
ghost use Rattle.pl_text.specs.Number.{BeginsWithDigit};

use crate::bytes::first_byte;

/// The value of each byte as a digit, and 16 for a byte that is none; a row has the bytes from its number on.
#[rattlefmt::skip]
const VALUES: [u8; 256] = [
    16, 16, 16, 16, 16, 16, 16, 16, 16, 16, 16, 16, 16, 16, 16, 16, // 00
    16, 16, 16, 16, 16, 16, 16, 16, 16, 16, 16, 16, 16, 16, 16, 16, // 10
    16, 16, 16, 16, 16, 16, 16, 16, 16, 16, 16, 16, 16, 16, 16, 16, // 20
    0, 1, 2, 3, 4, 5, 6, 7, 8, 9, 16, 16, 16, 16, 16, 16, // 30
    16, 16, 16, 16, 16, 16, 16, 16, 16, 16, 16, 16, 16, 16, 16, 16, // 40
    16, 16, 16, 16, 16, 16, 16, 16, 16, 16, 16, 16, 16, 16, 16, 16, // 50
    16, 10, 11, 12, 13, 14, 15, 16, 16, 16, 16, 16, 16, 16, 16, 16, // 60
    16, 16, 16, 16, 16, 16, 16, 16, 16, 16, 16, 16, 16, 16, 16, 16, // 70
    16, 16, 16, 16, 16, 16, 16, 16, 16, 16, 16, 16, 16, 16, 16, 16, // 80
    16, 16, 16, 16, 16, 16, 16, 16, 16, 16, 16, 16, 16, 16, 16, 16, // 90
    16, 16, 16, 16, 16, 16, 16, 16, 16, 16, 16, 16, 16, 16, 16, 16, // a0
    16, 16, 16, 16, 16, 16, 16, 16, 16, 16, 16, 16, 16, 16, 16, 16, // b0
    16, 16, 16, 16, 16, 16, 16, 16, 16, 16, 16, 16, 16, 16, 16, 16, // c0
    16, 16, 16, 16, 16, 16, 16, 16, 16, 16, 16, 16, 16, 16, 16, 16, // d0
    16, 16, 16, 16, 16, 16, 16, 16, 16, 16, 16, 16, 16, 16, 16, 16, // e0
    16, 16, 16, 16, 16, 16, 16, 16, 16, 16, 16, 16, 16, 16, 16, 16, // f0
];

/// The value of a digit, and 16 for any other byte.
#[inline(always)]
fn digit_value(byte: u8) -> u8
    ensures found { result < 16 → byte ≡ digit_glyph false result }
    ensures every { (value : ℕ) → value < 16 → byte ≡ digit_glyph false value → result ≡ value }
{
    VALUES[usize::from(byte)]
}

/// The value of a digit of the base, and for any other byte a number that is not below the base.
#[inline(always)]
fn value_in(byte: u8, base: u8) -> u8
    requires { base ≤ 16 }
    ensures found { result < base → byte ≡ digit_glyph false result }
    ensures every { (value : ℕ) → value < base → byte ≡ digit_glyph false value → result ≡ value }
{
    if base <= 10 {
        byte.wrapping_sub(b'0')
    } else {
        digit_value(byte)
    }
}

/// The value of a digit of the base: `0` to `9` and `a` to `f`.
#[inline(always)]
pub fn digit_of(byte: u8, base: u8) -> Option<u8>
    requires { base ≤ 16 }
    ensures below { IfSome result (λ value. value < base) }
    ensures found { IfSome result (λ value. byte ≡ digit_glyph false value) }
    ensures missed { IfNone result ((value : ℕ) → value < base → byte ≡ digit_glyph false value → ⊥) }
{
    let value = value_in(byte, base);
    if value < base { Some(value) } else { None }
}

/// The number of one digit in base 10 that the text begins with, and what follows it.
#[inline(always)]
pub fn digit_at(text: &[u8]) -> Option<(u8, &[u8])>
    ensures found { IfSome result (λ r. (r.0 < 10) × (text.now ≡ decimal r.0 ++ r.1.now)) }
    ensures every { (digit : ℕ) (rest : List ℕ) → digit < 10 → text.now ≡ decimal digit ++ rest
        → IsSomeAnd result (λ r. (r.0 ≡ digit) × (r.1.now ≡ rest)) }
{
    let (first, rest) = first_byte(text)?;
    let digit = digit_of(first, 10)?;
    Some((digit, rest))
}

/// Whether a digit of the base is the first byte.
#[inline(always)]
pub fn begins_with_digit(text: &[u8], base: u8) -> bool
    requires { base ≤ 16 }
    ensures yes { IsTrue result → BeginsWithDigit base text.now }
    ensures no { BeginsWithDigit base text.now → IsTrue result }
{
    match text {
        [byte, ..] => digit_of(*byte, base).is_some(),
        [] => false,
    }
}

/// The value of the digit of the base that the text begins with, and the base where it begins with none or is at its
/// end.
#[inline(always)]
fn value_at(text: &[u8], base: u8) -> u8
    requires { base ≤ 16 }
    ensures found { result < base → (rest : List ℕ) × (text.now ≡ digit_glyph false result ∷ rest) }
    ensures every { (value : ℕ) (rest : List ℕ) → value < base → text.now ≡ digit_glyph false value ∷ rest →
        result ≡ value }
{
    match text {
        [byte, ..] => value_in(*byte, base),
        [] => base,
    }
}

/// The number of one digit with a second one, where one comes first, and what follows. Numbers of one digit and
/// of two come in any order, so that no jump tells them apart: what a second digit adds is multiplied by how many there
/// are.
#[inline(always)]
pub fn second_digit(value: u8, text: &[u8], base: u8) -> (u32, &[u8])
    requires low { 2 ≤ base }
    requires small { base ≤ 16 }
    requires value { value < 16 }
    ensures taken { (byte digit : ℕ) (rest : List ℕ) → text.now ≡ byte ∷ rest → digit < base →
        byte ≡ digit_glyph false digit
        → (result.0 ≡ value * base + digit) × (result.1.now ≡ rest) }
    ensures left { (BeginsWithDigit base text.now → ⊥) → (result.0 ≡ value) × (result.1.now ≡ text.now) }
{
    let digit = value_at(text, base);
    let more = digit < base;
    let value = u32::from(value);
    let added = value * (u32::from(base) - 1) + u32::from(digit);
    (value + u32::from(more) * added, &text[usize::from(more)..])
}

/// The number of one digit or two in base 10 that the text begins with, without a leading zero, and what follows,
/// which may be a digit again: that is for the caller to see.
#[inline(always)]
pub fn short_decimal_at(text: &[u8]) -> Option<(u32, &[u8])>
    ensures found { IfSome result (λ r. (r.0 < 100) × (text.now ≡ decimal r.0 ++ r.1.now)) }
    ensures every { (n : ℕ) (rest : List ℕ) → n < 100 → (BeginsWithDigit 10 rest → ⊥) → text.now ≡ decimal n ++ rest
        → IsSomeAnd result (λ r. (r.0 ≡ n) × (r.1.now ≡ rest)) }
{
    let (first, rest) = first_byte(text)?;
    let figure = digit_of(first, 10)?;
    let digit = value_at(rest, 10);
    let more = (digit < 10) & (figure != 0);
    let figure = u32::from(figure);
    let added = figure * 9 + u32::from(digit);
    Some((figure + u32::from(more) * added, &rest[usize::from(more)..]))
}
