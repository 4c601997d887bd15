//! The fields of a line: numbers, addresses, registers, widths.
ghost use Rattle.std.specs.Prelude.{◌≡◌, ◌<◌, ◌≤◌, ◌^◌, ℕ, [], ◌∷◌, Some, IfSome, if◌then◌else◌};
ghost use Rattle.pl_base.specs.declared.widths.LoadWidth.{LoadWidth};
ghost use Rattle.pl_base.specs.declared.widths.StoreWidth.{StoreWidth};
ghost use Rattle.pl_event.specs.Valid.{IsRegister};
ghost use Rattle.std.specs.Fmt.{decimal};
ghost use Rattle.log_grammar.specs.Form.{IsBlock, IsPages};
ghost use Rattle.log_grammar.specs.Spelling.{hex, load_word, store_word, fault_word, page_word};
ghost use Rattle.log_grammar.specs.Reads.{Reads, IsAny, IsFrom, IsAccess, AreTwo, AreThree, number_word, access_words, two_words, three_words};

use pl_base::layout::{MAX_CALL_BYTES, MAX_MAPPED_PAGES, PAGE_COUNT};
use pl_base::{FaultCause, LoadWidth, StoreWidth};
use pl_event::PageKind;
use pl_text::{after_byte, after_word, decimal_at, digit_at, first_byte, hex_at, short_decimal_at};

/// A number of base 10.
#[inline(always)]
pub fn number(text: &[u8], high: u32) -> Option<(u32, &[u8])>
    ensures { Reads (λ n. n ≤ high) number_word text.now result }
{
    let rest = after_byte(text, b' ')?;
    decimal_at(rest, high)
}

/// A number of base 10 from 1 on.
pub fn count(text: &[u8], high: u32) -> Option<(u32, &[u8])>
    ensures { Reads (IsFrom 1 high) number_word text.now result }
{
    let (n, rest) = number(text, high)?;
    if n == 0 { None } else { Some((n, rest)) }
}

/// A register, the two hidden ones too.
#[inline(always)]
pub fn register(text: &[u8]) -> Option<(u8, &[u8])>
    ensures { Reads IsRegister number_word text.now result }
{
    let rest = after_byte(text, b' ')?;
    let (n, rest) = short_decimal_at(rest)?;
    if n > 33 {
        return None;
    }
    Some((n as u8, rest))
}

/// An address of memory.
#[inline(always)]
pub fn address(text: &[u8]) -> Option<(u32, &[u8])>
    ensures { Reads (λ addr. addr < 2 ^ 24) (λ addr. hex addr ∷ []) text.now result }
{
    let rest = after_byte(text, b' ')?;
    hex_at(rest, 0x00ff_ffff)
}

/// A number of 32 bits in base 16.
pub fn long_address(text: &[u8]) -> Option<(u32, &[u8])>
    ensures { Reads (λ addr. addr < 2 ^ 32) (λ addr. hex addr ∷ []) text.now result }
{
    let rest = after_byte(text, b' ')?;
    hex_at(rest, u32::MAX)
}

/// Two registers.
pub fn two_registers(text: &[u8]) -> Option<((u8, u8), &[u8])>
    ensures { Reads AreTwo two_words text.now result }
{
    let (first, rest) = register(text)?;
    let (second, rest) = register(rest)?;
    Some(((first, second), rest))
}

/// Three registers.
pub fn three_registers(text: &[u8]) -> Option<((u8, u8, u8), &[u8])>
    ensures { Reads AreThree three_words text.now result }
{
    let (first, rest) = register(text)?;
    let (second, rest) = register(rest)?;
    let (third, rest) = register(rest)?;
    Some(((first, second, third), rest))
}

/// The address of a block and how many bytes it has.
pub fn block(text: &[u8]) -> Option<((u32, u32), &[u8])>
    ensures { Reads (λ b. IsBlock b.0 b.1) (λ b. hex b.0 ∷ decimal b.1 ∷ []) text.now result }
{
    let (addr, rest) = address(text)?;
    let (len, rest) = count(rest, MAX_CALL_BYTES)?;
    Some(((addr, len), rest))
}

/// A page and how many pages there are from it on.
pub fn pages(text: &[u8]) -> Option<((u16, u16), &[u8])>
    ensures { Reads (λ p. IsPages p.0 p.1) (λ p. decimal p.0 ∷ decimal p.1 ∷ []) text.now result }
{
    let (first, rest) = number(text, PAGE_COUNT - 1)?;
    let (count, rest) = count(rest, MAX_MAPPED_PAGES)?;
    Some(((first as u16, count as u16), rest))
}

/// The register of the value, the base register and the address of a load or a store.
#[inline(always)]
pub fn access(text: &[u8]) -> Option<((u8, u8, u32), &[u8])>
    ensures { Reads IsAccess access_words text.now result }
{
    let (value, rest) = register(text)?;
    let (base, rest) = register(rest)?;
    let (addr, rest) = address(rest)?;
    Some(((value, base, addr), rest))
}

/// The place of a letter among `b`, `h` and `w`, and 3 for any other byte, by arithmetic: widths come in any order, so
/// that a jump would be guessed wrong.
#[inline(always)]
fn place_of(letter: u8) -> u8
    ensures byte { letter ≡ 98 → result ≡ 0 }
    ensures half { letter ≡ 104 → result ≡ 1 }
    ensures word { letter ≡ 119 → result ≡ 2 }
    ensures other { (letter ≡ 98 → ⊥) → (letter ≡ 104 → ⊥) → (letter ≡ 119 → ⊥) → result ≡ 3 }
{
    let is_byte = u8::from(letter == b'b');
    let is_half = u8::from(letter == b'h');
    let is_word = u8::from(letter == b'w');
    3 - 3 * is_byte - 2 * is_half - is_word
}

/// The width of a load by its first letter, and whether a `u` follows it.
#[inline(always)]
fn load_width_of(letter: u8, is_unsigned: bool) -> Option<LoadWidth>
    ensures found { IfSome result (λ width. load_word width ≡ letter ∷ (if is_unsigned then 117 ∷ [] else [])) }
    ensures every { (width : LoadWidth) → load_word width ≡ letter ∷ (if is_unsigned then 117 ∷ [] else []) →
        result ≡ Some width }
{
    match place_of(letter) + 4 * u8::from(is_unsigned) {
        0 => Some(LoadWidth::B),
        1 => Some(LoadWidth::H),
        2 => Some(LoadWidth::W),
        4 => Some(LoadWidth::Bu),
        5 => Some(LoadWidth::Hu),
        _ => None,
    }
}

/// The width of a store by its letter.
#[inline(always)]
fn store_width_of(letter: u8) -> Option<StoreWidth>
    ensures found { IfSome result (λ width. store_word width ≡ letter ∷ []) }
    ensures every { (width : StoreWidth) → store_word width ≡ letter ∷ [] → result ≡ Some width }
{
    match place_of(letter) {
        0 => Some(StoreWidth::B),
        1 => Some(StoreWidth::H),
        2 => Some(StoreWidth::W),
        _ => None,
    }
}

/// The width of a load.
#[inline(always)]
pub fn load_width(text: &[u8]) -> Option<(LoadWidth, &[u8])>
    ensures { Reads IsAny (λ width. load_word width ∷ []) text.now result }
{
    let rest = after_byte(text, b' ')?;
    let (letter, rest) = first_byte(rest)?;
    let is_unsigned = after_byte(rest, b'u').is_some();
    let width = load_width_of(letter, is_unsigned)?;
    Some((width, &rest[usize::from(is_unsigned)..]))
}

/// The width of a store.
#[inline(always)]
pub fn store_width(text: &[u8]) -> Option<(StoreWidth, &[u8])>
    ensures { Reads IsAny (λ width. store_word width ∷ []) text.now result }
{
    let rest = after_byte(text, b' ')?;
    let (letter, rest) = first_byte(rest)?;
    let width = store_width_of(letter)?;
    Some((width, rest))
}

/// Why a hart faulted.
pub fn fault_cause(text: &[u8]) -> Option<(FaultCause, &[u8])>
    ensures { Reads IsAny (λ cause. fault_word cause ∷ []) text.now result }
{
    if let Some(rest) = after_word(text, b" pc") {
        Some((FaultCause::Pc, rest))
    } else if let Some(rest) = after_word(text, b" illegal") {
        Some((FaultCause::Illegal, rest))
    } else if let Some(rest) = after_word(text, b" align") {
        Some((FaultCause::Align, rest))
    } else if let Some(rest) = after_word(text, b" unmapped") {
        Some((FaultCause::Unmapped, rest))
    } else {
        let rest = after_word(text, b" readonly")?;
        Some((FaultCause::ReadOnly, rest))
    }
}

/// What pages hold at the start.
pub fn page_kind(text: &[u8]) -> Option<(PageKind, &[u8])>
    ensures { Reads IsAny (λ kind. page_word kind ∷ []) text.now result }
{
    if let Some(rest) = after_word(text, b" data") {
        Some((PageKind::Data, rest))
    } else if let Some(rest) = after_word(text, b" heap") {
        Some((PageKind::Heap, rest))
    } else {
        let rest = after_word(text, b" stack")?;
        Some((PageKind::Stack, rest))
    }
}

/// The number of a hart, one digit, after the letter h.
#[inline(always)]
pub fn hart(text: &[u8]) -> Option<(u8, &[u8])>
    ensures { Reads (λ hart. hart ≤ 9) (λ hart. (104 ∷ decimal hart) ∷ []) (32 ∷ text.now) result }
{
    let rest = after_byte(text, b'h')?;
    digit_at(rest)
}
