//! Operands.
ghost use Rattle.std.specs.Prelude.{◌≡◌, ◌<◌, ◌^◌, ◌==◌, IfSome};
ghost use Rattle.std.specs.Option.{option_copied};
ghost use Rattle.std.specs.List.{list_all};
ghost use Rattle.rv_isa.specs.Valid.{IsWithin};
ghost use Rattle.guest_asm.specs.Operands.{member, family, register_of, register_in, immediate_of, immediate_in, shift_in, upper_in, offset_of, closed, address_in, is_label_start, is_label_byte, is_label, label_of, label_in, IsShift};

use crate::bytes::{cut_at, is_word, word_in};
use crate::number::{Number, decimal_of, number_in, number_of};

/// The register that a letter and a number name.
#[tactic(auto, unfolding(crate::specs::Operands::member))]
fn member(letter: u8, number: u32) -> Option<u8>
    ensures value { result ≡ member letter number }
    ensures below { IfSome result (λ r. r < 32) }
{
    if letter == b'x' && number < 32 {
        return Some(number as u8);
    }
    if letter == b'a' && number < 8 {
        return Some(number as u8 + 10);
    }
    if letter == b's' && number < 2 {
        return Some(number as u8 + 8);
    }
    if letter == b's' && number < 12 {
        return Some(number as u8 + 16);
    }
    if letter == b't' && number < 3 {
        return Some(number as u8 + 5);
    }
    if letter == b't' && number < 7 {
        return Some(number as u8 + 25);
    }
    None
}

#[tactic(auto, unfolding(crate::specs::Operands::family))]
fn family(word: &[u8]) -> Option<u8>
    ensures value { result ≡ family word.now }
    ensures below { IfSome result (λ r. r < 32) }
{
    match word {
        [letter, digits @ ..] => member(*letter, decimal_of(digits)?),
        [] => None,
    }
}

/// The register of a name.
#[tactic(auto, unfolding(crate::specs::Operands::register_of))]
pub fn register_of(word: &[u8]) -> Option<u8>
    ensures value { result ≡ register_of word.now }
    ensures below { IfSome result (λ r. r < 32) }
{
    if is_word(word, "zero") {
        return Some(0);
    }
    if is_word(word, "ra") {
        return Some(1);
    }
    if is_word(word, "sp") {
        return Some(2);
    }
    if is_word(word, "gp") {
        return Some(3);
    }
    if is_word(word, "tp") {
        return Some(4);
    }
    if is_word(word, "fp") {
        return Some(8);
    }
    family(word)
}

/// The register that a part of the operands holds.
#[tactic(auto, unfolding(crate::specs::Operands::register_in))]
pub fn register_in(part: &[u8]) -> Option<u8>
    ensures value { result ≡ register_in part.now }
    ensures below { IfSome result (λ r. r < 32) }
{
    register_of(word_in(part)?)
}

/// A number as an immediate of -2048 to 2047.
#[tactic(auto, unfolding(crate::specs::Operands::immediate_of))]
pub fn immediate_of(number: Number) -> Option<i32>
    ensures value { result ≡ immediate_of number }
    ensures within { IfSome result (IsWithin 11) }
{
    if number.bits < 2048 {
        return Some(number.bits as i32);
    }
    if number.bits >= 0xffff_f800 {
        return Some((number.bits - 0xffff_f800) as i32 - 2048);
    }
    None
}

#[tactic(auto, unfolding(crate::specs::Operands::immediate_in))]
pub fn immediate_in(part: &[u8]) -> Option<i32>
    ensures value { result ≡ immediate_in part.now }
    ensures within { IfSome result (IsWithin 11) }
{
    immediate_of(number_in(part)?)
}

/// The amount of a shift, 0 to 31.
#[tactic(auto, unfolding(crate::specs::Operands::shift_in))]
pub fn shift_in(part: &[u8]) -> Option<i32>
    ensures value { result ≡ shift_in part.now }
    ensures within { IfSome result IsShift }
{
    let number = number_in(part)?;
    if number.bits < 32 {
        Some(number.bits as i32)
    } else {
        None
    }
}

/// The number of 20 bits of `lui` and `auipc`.
#[tactic(auto, unfolding(crate::specs::Operands::upper_in))]
pub fn upper_in(part: &[u8]) -> Option<u32>
    ensures value { result ≡ upper_in part.now }
    ensures below { IfSome result (λ n. n < 2 ^ 20) }
{
    let number = number_in(part)?;
    if number.bits < 0x10_0000 {
        Some(number.bits)
    } else {
        None
    }
}

/// The text before a closing bracket at the end.
#[tactic(auto, unfolding(crate::specs::Operands::closed))]
fn closed(text: &[u8]) -> Option<&[u8]>
    ensures { option_copied result ≡ closed text.now }
{
    if text.is_empty() || text[text.len() - 1] != b')' {
        return None;
    }
    Some(&text[..text.len() - 1])
}

#[tactic(auto, unfolding(crate::specs::Operands::offset_of))]
fn offset_of(text: &[u8]) -> Option<i32>
    ensures value { result ≡ offset_of text.now }
    ensures within { IfSome result (IsWithin 11) }
{
    if text.is_empty() {
        return Some(0);
    }
    immediate_of(number_of(text)?)
}

/// An offset and a register in brackets; the register alone has offset 0.
#[tactic(auto, unfolding(crate::specs::Operands::address_in))]
pub fn address_in(part: &[u8]) -> Option<(i32, u8)>
    ensures value { result ≡ address_in part.now }
    ensures within { IfSome result (λ r. IsWithin 11 r.0) }
    ensures below { IfSome result (λ r. r.1 < 32) }
{
    let (front, behind) = cut_at(word_in(part)?, b'(');
    let register = register_of(closed(behind)?)?;
    Some((offset_of(front)?, register))
}

fn is_label_start(byte: u8) -> bool
    ensures { result ≡ is_label_start byte }
{
    (b'a' <= byte && byte <= b'z') || (b'A' <= byte && byte <= b'Z') || byte == b'_'
}

fn is_label_byte(byte: u8) -> bool
    ensures { result ≡ is_label_byte byte }
{
    is_label_start(byte) || (b'0' <= byte && byte <= b'9')
}

/// A letter or `_`, and then letters, digits and `_`.
fn is_label(word: &[u8]) -> bool
    ensures { result ≡ is_label word.now }
{
    match word {
        [first, behind @ ..] => is_label_start(*first) && are_label_bytes(behind),
        [] => false,
    }
}

fn are_label_bytes(text: &[u8]) -> bool
    ensures { result ≡ list_all is_label_byte text.now }
{
    text.iter().all(|byte| is_label_byte(*byte))
}

/// A word as a label, where it is one.
#[tactic(auto, unfolding(crate::specs::Operands::label_of))]
pub fn label_of(word: &[u8]) -> Option<&[u8]>
    ensures { option_copied result ≡ label_of word.now }
{
    if is_label(word) { Some(word) } else { None }
}

/// The label that a part of the operands holds.
#[tactic(auto, unfolding(crate::specs::Operands::label_in))]
pub fn label_in(part: &[u8]) -> Option<&[u8]>
    ensures { option_copied result ≡ label_in part.now }
{
    label_of(word_in(part)?)
}
