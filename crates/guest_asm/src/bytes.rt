//! Words and blanks of a text.
ghost use Rattle.std.specs.Prelude.{◌≡◌, ◌≤◌, ◌+◌, ◌==◌, length, take, drop, map, position, IfOk};
ghost use Rattle.std.specs.Option.{option_copied};
ghost use Rattle.std.specs.List.{position_or_len, before_first, after_first, slice_split, list_all};
ghost use Rattle.std.specs.Str.{bytes_eq};
ghost use Rattle.guest_asm.specs.Texts.{is_blank, is_legal, skip_blanks, word_in, parts_of};

use std::alloc::{AllocError, Global};

/// Whether a word is this text.
pub fn is_word(word: &[u8], text: &str) -> bool
    ensures { result ≡ bytes_eq word.now text.now }
{
    word == text.as_bytes()
}

/// A blank or a tab.
pub fn is_blank(byte: u8) -> bool
    ensures { result ≡ is_blank byte }
{
    byte == b' ' || byte == b'\t'
}

/// Whether every byte may be in a line.
pub fn are_legal(line: &[u8]) -> bool
    ensures { result ≡ list_all is_legal line.now }
{
    line.iter()
        .all(|byte| *byte == b'\t' || (b' ' <= *byte && *byte <= b'~'))
}

/// Whether every byte is a blank.
fn are_blank(text: &[u8]) -> bool
    ensures { result ≡ list_all is_blank text.now }
{
    text.iter().all(|byte| is_blank(*byte))
}

/// The text after the blanks at its beginning.
pub fn skip_blanks(text: &[u8]) -> &[u8]
    ensures { result.now ≡ skip_blanks text.now }
{
    let mut rest = text;
    'blanks: while let [first, behind @ ..] = rest {
        if !is_blank(*first) {
            return rest;
        }
        rest = behind;
    }
    rest
}

/// The place of the first blank.
fn find_blank(text: &[u8]) -> Option<usize>
    ensures { result ≡ position is_blank text.now }
{
    text.iter().position(|byte| is_blank(*byte))
}

/// The place of the first of a byte.
fn find_byte(text: &[u8], cut: u8) -> Option<usize>
    ensures { result ≡ position (λ b. b == cut) text.now }
{
    text.iter().position(|byte| *byte == cut)
}

fn blank_at(text: &[u8]) -> usize
    ensures value { result ≡ position_or_len is_blank text.now }
    ensures within { result ≤ length text.now }
{
    match find_blank(text) {
        Some(at) => at,
        None => text.len(),
    }
}

fn byte_at(text: &[u8], cut: u8) -> usize
    ensures value { result ≡ position_or_len (λ b. b == cut) text.now }
    ensures within { result ≤ length text.now }
{
    match find_byte(text, cut) {
        Some(at) => at,
        None => text.len(),
    }
}

/// What is before a place, and what is after the byte there.
fn around(text: &[u8], at: usize) -> (&[u8], &[u8])
    requires { at ≤ length text.now }
    ensures before { result.0.now ≡ take at text.now }
    ensures after { result.1.now ≡ drop (at + 1) text.now }
{
    let (before, rest) = text.split_at(at);
    match rest {
        [_, after @ ..] => (before, after),
        [] => (before, rest),
    }
}

/// What is before the first blank, and what is after it.
pub fn cut_at_blank(text: &[u8]) -> (&[u8], &[u8])
    ensures before { result.0.now ≡ before_first is_blank text.now }
    ensures after { result.1.now ≡ after_first is_blank text.now }
{
    around(text, blank_at(text))
}

/// What is before the first of a byte, and what is after it.
pub fn cut_at(text: &[u8], cut: u8) -> (&[u8], &[u8])
    ensures before { result.0.now ≡ before_first (λ b. b == cut) text.now }
    ensures after { result.1.now ≡ after_first (λ b. b == cut) text.now }
{
    around(text, byte_at(text, cut))
}

/// The one word of a text with blanks around it; a text of blanks alone has the empty word.
#[tactic(auto, unfolding(crate::specs::Texts::word_in))]
pub fn word_in(text: &[u8]) -> Option<&[u8]>
    ensures { option_copied result ≡ word_in text.now }
{
    let (word, behind) = cut_at_blank(skip_blanks(text));
    if are_blank(behind) { Some(word) } else { None }
}

/// The parts of a text between commas; a text of blanks alone has none.
#[tactic(auto, unfolding(crate::specs::Texts::parts_of))]
pub fn parts_of(alloc: Global, text: &[u8]) -> Result<Vec<&[u8]>, AllocError>
    ensures { IfOk result (λ parts. map (λ part. part.now) parts.items ≡ parts_of text.now) }
{
    if are_blank(text) {
        return Ok(Vec::new(alloc));
    }
    between_commas(alloc, text)
}

fn between_commas(alloc: Global, text: &[u8]) -> Result<Vec<&[u8]>, AllocError>
    ensures { IfOk result (λ parts. map (λ part. part.now) parts.items ≡ slice_split (λ b. b == 44) text.now) }
{
    text.split(|byte| *byte == b',').collect(alloc)
}
