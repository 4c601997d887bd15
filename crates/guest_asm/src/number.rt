//! Numbers of a job.
ghost use Rattle.std.specs.Prelude.{◌≡◌, ◌≤◌};
ghost use Rattle.guest_asm.specs.Numbers.{digit_value, digits_of, decimal_of, plain, negated, number_of, number_in, is_within};

use crate::bytes::word_in;

/// A number of a job, from -2^31 to 2^32 - 1.
#[derive(Clone, Copy, PartialEq, Eq)]
pub struct Number {
    /// Below 0.
    pub negative: bool,
    /// The number as 32 bits.
    pub bits: u32,
}

/// The value of a digit of either case, and 16 for any other byte.
fn digit_value(byte: u8) -> u8
    ensures value { result ≡ digit_value byte }
    ensures small { result ≤ 16 }
{
    if b'0' <= byte && byte <= b'9' {
        return byte - b'0';
    }
    if b'a' <= byte && byte <= b'f' {
        return byte - b'a' + 10;
    }
    if b'A' <= byte && byte <= b'F' {
        return byte - b'A' + 10;
    }
    16
}

/// The number below 2^32 that digits of a base spell, with zeros before them or not.
#[tactic(auto, unfolding(crate::specs::Numbers::digits_of))]
pub fn digits_of(text: &[u8], base: u8) -> Option<u32>
    requires low { 1 ≤ base }
    requires high { base ≤ 16 }
    ensures { result ≡ digits_of base text.now }
{
    if text.is_empty() {
        return None;
    }
    let mut value = 0u64;
    'digits: for byte in text {
        let digit = digit_value(*byte);
        if digit >= base {
            return None;
        }
        value = value * u64::from(base) + u64::from(digit);
        if value > 0xffff_ffff {
            return None;
        }
    }
    Some(value as u32)
}

/// A decimal number without leading zeros, below 2^32.
#[tactic(auto, unfolding(crate::specs::Numbers::decimal_of))]
pub fn decimal_of(text: &[u8]) -> Option<u32>
    ensures { result ≡ decimal_of text.now }
{
    if text.len() > 1 && text[0] == b'0' {
        return None;
    }
    digits_of(text, 10)
}

fn plain(bits: u32) -> Number
    ensures { result ≡ plain bits }
{
    Number {
        negative: false,
        bits,
    }
}

#[tactic(auto, unfolding(crate::specs::Numbers::negated))]
fn negated(size: u32) -> Option<Number>
    ensures { result ≡ negated size }
{
    if size == 0 {
        return Some(plain(0));
    }
    if size > 0x8000_0000 {
        return None;
    }
    Some(Number {
        negative: true,
        bits: 0xffff_ffff - size + 1,
    })
}

/// A number: decimal with an optional `-`, or `0x` and hex digits.
#[tactic(auto, unfolding(crate::specs::Numbers::number_of))]
pub fn number_of(text: &[u8]) -> Option<Number>
    ensures { result ≡ number_of text.now }
{
    if text.starts_with(b"0x") {
        return Some(plain(digits_of(&text[2..], 16)?));
    }
    if text.starts_with(b"-") {
        return negated(decimal_of(&text[1..])?);
    }
    Some(plain(decimal_of(text)?))
}

/// The number that a part of the operands holds.
#[tactic(auto, unfolding(crate::specs::Numbers::number_in))]
pub fn number_in(part: &[u8]) -> Option<Number>
    ensures { result ≡ number_in part.now }
{
    number_of(word_in(part)?)
}

/// Whether a number is one of `low` to `high`.
pub fn is_within(number: Number, low: u32, high: u32) -> bool
    ensures { result ≡ is_within low high number }
{
    !number.negative && low <= number.bits && number.bits <= high
}
